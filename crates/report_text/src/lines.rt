//! The lines of a session.
ghost use Rattle.std.specs.Prelude.{◌≡◌, IfOk, IfSome};
ghost use Rattle.report_text.specs.Lines.{node_line, node_name, refusal_words, refused_line, state_text, version_text};
ghost use Rattle.report_text.specs.inside.Writers.{Adds};

use crate::names::name_at;
use crate::words::stage_word;
use core_rules::Refusal;
use std::alloc::Global;
use term_core::Program;
use value_core::{ListOf, NoMemory, State, write_text, write_value};

fn node_name(program: &Program, node: usize) -> &str
    ensures { result.now ≡ node_name program.now node }
{
    name_at(program.nodes.as_slice(), node)
}

#[tactic(auto, unfolding(crate::specs::Lines::state_text))]
fn write_state(out: &mut String, program: &Program, state: &State) -> Result<(), NoMemory>
    ensures { Adds result out.old out.new (state_text program.now state.now) }
{
    match state {
        State::Fine(value) => {
            out.push_str("ok ")?;
            write_value(out, value)
        }
        State::Failed { origin, message } => {
            out.push_str("failed ")?;
            write_text(out, message)?;
            out.push_str(" at ")?;
            out.push_str(node_name(program, *origin as usize))
        }
        State::Active { origin, stage } => {
            out.push_str("active ")?;
            out.push_str(stage_word(*stage))?;
            out.push_str(" at ")?;
            out.push_str(node_name(program, *origin as usize))
        }
    }
}

/// Writes the line of a node.
#[tactic(auto, unfolding(crate::specs::Lines::node_line))]
fn write_line(
    out: &mut String,
    program: &Program,
    node: usize,
    state: &State,
) -> Result<(), NoMemory>
    ensures { Adds result out.old out.new (node_line program.now (node, state.now)) }
{
    out.push_str(node_name(program, node))?;
    out.push_str(": ")?;
    write_state(out, program, state)?;
    out.push_str("\n")
}

/// Writes a version's number, and a line for each of these nodes.
#[tactic(auto, unfolding(crate::specs::Lines::version_text))]
pub(crate) fn write_version(
    out: &mut String,
    program: &Program,
    version: u64,
    changed: &[(u32, State)],
) -> Result<(), NoMemory>
    ensures { Adds result out.old out.new (version_text program.now version changed.now) }
{
    write!(out, "version {version}\n")?;
    for node in changed {
        write_line(out, program, node.0 as usize, &node.1)?;
    }
    Ok(())
}

/// The version's number, and a line for each of these nodes, which are by their numbers in file order.
pub fn state_lines(
    alloc: Global,
    program: &Program,
    version: u64,
    changed: &[(u32, State)],
) -> Result<ListOf<u8>, NoMemory>
    ensures { IfOk result (λ text. text ≡ version_text program.now version changed.now) }
{
    let mut out = String::new(alloc);
    write_version(&mut out, program, version, changed)?;
    Ok(ListOf::from_vec(out.into_bytes()))
}

/// Writes why an event is refused. Nothing is written where that ends a session.
fn write_refusal(out: &mut String, refusal: Refusal) -> Result<(), NoMemory>
    ensures { IfSome (refusal_words refusal) (λ why. Adds result out.old out.new why) }
{
    match refusal {
        Refusal::UnknownInput => out.push_str("unknown input"),
        Refusal::WrongKind => out.push_str("wrong kind"),
        Refusal::UnknownJob => out.push_str("unknown job"),
        Refusal::UnknownOp => out.push_str("unknown operation"),
        Refusal::UnknownWorker => out.push_str("unknown worker"),
        Refusal::UnknownClient => out.push_str("unknown client"),
        Refusal::NotWaiting(stage) => {
            out.push_str("not waiting ")?;
            out.push_str(stage_word(stage))
        }
        Refusal::AlreadyCancelling => out.push_str("already cancelling"),
        Refusal::Busy(job) => write!(out, "busy {job}"),
        Refusal::NoRow => out.push_str("no row"),
        Refusal::RateOutOfRange(rate) => write!(out, "rate {rate}"),
        Refusal::NumbersUsed | Refusal::NoMemory => Ok(()),
    }
}

/// The line of a refusal, where it has one: that numbers or memory are used up ends a session.
pub fn refusal_line(alloc: Global, refusal: Refusal) -> Result<ListOf<u8>, NoMemory>
    ensures { IfOk result (λ b. IfSome (refusal_words refusal) (λ why. b ≡ refused_line why)) }
{
    let mut line = String::from_str(alloc, "refused ")?;
    write_refusal(&mut line, refusal)?;
    line.push_str("\n")?;
    Ok(ListOf::from_vec(line.into_bytes()))
}
