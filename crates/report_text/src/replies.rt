//! The lines of a reply.
ghost use Rattle.std.specs.Prelude.{◌≡◌, IfOk};
ghost use Rattle.std.specs.List.{flat_map};
ghost use Rattle.report_text.specs.Lines.{conflict_line, end_line, ending_text, evaluated_text, is_idle, note_text, reply_text, start_line, step_text, worker_name};
ghost use Rattle.report_text.specs.inside.Writers.{Adds};

use crate::lines::write_version;
use crate::names::name_at;
use crate::words::{write_key, write_target};
use core_rules::{Done, Ending, Note};
use op_keys::Order;
use std::alloc::Global;
use term_core::Program;
use value_core::{ListOf, NoMemory, Text, write_text};

fn worker_name(program: &Program, worker: u32) -> &str
    ensures { result.now ≡ worker_name program.now worker }
{
    name_at(program.workers.as_slice(), worker as usize)
}

#[tactic(auto, unfolding(crate::specs::Lines::start_line))]
fn write_start(out: &mut String, program: &Program, order: &Order) -> Result<(), NoMemory>
    ensures { Adds result out.old out.new (start_line program.now order.now) }
{
    let job = order.job;
    write!(out, "start {job} ")?;
    out.push_str(worker_name(program, order.worker))?;
    out.push_str(" ")?;
    write_target(out, program, order.op, &order.key, &order.value)?;
    out.push_str("\n")
}

#[tactic(auto, unfolding(crate::specs::Lines::ending_text))]
fn write_ending(out: &mut String, ending: &Ending) -> Result<(), NoMemory>
    ensures { Adds result out.old out.new (ending_text ending.now) }
{
    match ending {
        Ending::Fine => out.push_str("ok"),
        Ending::Failed(message) => {
            out.push_str("failed ")?;
            write_text(out, message)
        }
        Ending::Cancelled => out.push_str("cancelled"),
        Ending::Dropped => out.push_str("dropped"),
    }
}

#[tactic(auto, unfolding(crate::specs::Lines::end_line))]
fn write_end(out: &mut String, job: u64, ending: &Ending) -> Result<(), NoMemory>
    ensures { Adds result out.old out.new (end_line job ending.now) }
{
    write!(out, "end {job} ")?;
    write_ending(out, ending)?;
    out.push_str("\n")
}

/// Writes the line of a note, if it has one.
#[tactic(auto, unfolding(crate::specs::Lines::note_text))]
fn write_note(out: &mut String, program: &Program, note: &Note) -> Result<(), NoMemory>
    ensures { Adds result out.old out.new (note_text program.now note.now) }
{
    match note {
        Note::Started(order) => write_start(out, program, order),
        Note::Ended { job, ending } => write_end(out, *job, ending),
        Note::Plain | Note::Nothing | Note::Ignored => Ok(()),
    }
}

#[tactic(auto, unfolding(crate::specs::Lines::conflict_line))]
fn write_conflict(out: &mut String, program: &Program, op: u32, key: &Text) -> Result<(), NoMemory>
    ensures { Adds result out.old out.new (conflict_line program.now (op, key.now)) }
{
    out.push_str("conflict ")?;
    write_key(out, program, op, key)?;
    out.push_str("\n")
}

fn write_conflicts(
    out: &mut String,
    program: &Program,
    conflicts: &[(u32, Text)],
) -> Result<(), NoMemory>
    ensures { Adds result out.old out.new (flat_map (conflict_line program.now) conflicts.now) }
{
    for conflict in conflicts {
        write_conflict(out, program, conflict.0, &conflict.1)?;
    }
    Ok(())
}

/// Writes the line of a count of evaluations, if there is one.
#[tactic(auto, unfolding(crate::specs::Lines::evaluated_text))]
fn write_evaluated(out: &mut String, evaluated: Option<u64>) -> Result<(), NoMemory>
    ensures { Adds result out.old out.new (evaluated_text evaluated) }
{
    match evaluated {
        Some(count) => write!(out, "evaluated {count}\n"),
        None => Ok(()),
    }
}

#[tactic(auto, unfolding(crate::specs::Lines::step_text))]
fn write_step(
    out: &mut String,
    program: &Program,
    done: &Done,
    evaluated: Option<u64>,
) -> Result<(), NoMemory>
    ensures { Adds result out.old out.new (step_text program.now done.now evaluated) }
{
    write_note(out, program, &done.note)?;
    write_version(out, program, done.version, done.changed.as_slice())?;
    write_conflicts(out, program, done.conflicts.as_slice())?;
    write_evaluated(out, evaluated)
}

/// Whether a note says that nothing changed.
fn is_idle(note: &Note) -> bool
    ensures { result ≡ is_idle note.now }
{
    match note {
        Note::Nothing | Note::Ignored => true,
        Note::Plain | Note::Started(_) | Note::Ended { .. } => false,
    }
}

/// The lines of a reply: its note, the version with each changed node, new conflicts, and the count
/// of evaluations if one is asked for. There are none if nothing changed.
#[tactic(auto, unfolding(crate::specs::Lines::reply_text))]
pub fn version_lines(
    alloc: Global,
    program: &Program,
    done: &Done,
    evaluated: Option<u64>,
) -> Result<ListOf<u8>, NoMemory>
    ensures { IfOk result (λ text. text ≡ reply_text program.now done.now evaluated) }
{
    let mut out = String::new(alloc);
    if !is_idle(&done.note) {
        write_step(&mut out, program, done, evaluated)?;
    }
    Ok(ListOf::from_vec(out.into_bytes()))
}
