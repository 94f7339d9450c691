//! The lines of faulty files.
ghost use Rattle.std.specs.Prelude.{◌≡◌, IfOk};
ghost use Rattle.report_text.specs.FaultLines.{check_text, error_line, found_text, limit_line, other_text, place_text, read_text, row_line, what_text};
ghost use Rattle.report_text.specs.inside.Writers.{Adds, mismatch_text};

use crate::names::name_at;
use pipe_text::ReadFault;
use std::alloc::Global;
use term_check::{CheckFault, CheckWhat, FaultPlace, Wanted, write_kind, write_wanted};
use term_core::Program;
use value_core::{Kind, ListOf, NoMemory};

/// Writes what is wrong with the bytes of a file.
#[tactic(auto, unfolding(crate::specs::FaultLines::read_text))]
fn write_read_fault(out: &mut String, fault: &ReadFault) -> Result<(), NoMemory>
    ensures { Adds result out.old out.new (read_text fault.now) }
{
    match fault {
        ReadFault::Lex(place) => write!(out, "lex at {place}"),
        ReadFault::Syntax(place) => write!(out, "syntax at {place}"),
        ReadFault::Limit(name, number, place) => {
            let name = name.word();
            write!(out, "limit {name} {number} at {place}")
        }
        ReadFault::Duplicate(name, place) => {
            let name = name.as_str();
            write!(out, "duplicate {name} at {place}")
        }
        ReadFault::NoMemory => Ok(()),
    }
}

/// Writes in which declaration a fault is.
#[tactic(auto, unfolding(crate::specs::FaultLines::place_text))]
fn write_place(out: &mut String, program: &Program, place: FaultPlace) -> Result<(), NoMemory>
    ensures { Adds result out.old out.new (place_text program.now place) }
{
    match place {
        FaultPlace::Client(number) => {
            out.push_str("client ")?;
            let client = program.clients.as_slice().get(number as usize);
            out.push_str(client.map_or("", |client| client.name.as_str()))
        }
        FaultPlace::Worker(number) => {
            out.push_str("worker ")?;
            out.push_str(name_at(program.workers.as_slice(), number as usize))
        }
        FaultPlace::Op(number) => {
            out.push_str("op ")?;
            out.push_str(name_at(program.ops.as_slice(), number as usize))
        }
        FaultPlace::Node { node, term: _ } => {
            out.push_str("node ")?;
            out.push_str(name_at(program.nodes.as_slice(), node as usize))
        }
    }
}

/// Writes the kind that was found.
#[tactic(auto, unfolding(crate::specs::FaultLines::found_text))]
fn write_found(out: &mut String, found: &Kind) -> Result<(), NoMemory>
    ensures { Adds result out.old out.new (found_text found.now) }
{
    out.push_str(": found ")?;
    write_kind(out, found)
}

/// Writes the kind that was wanted.
#[tactic(auto, unfolding(crate::specs::FaultLines::other_text))]
fn write_other(out: &mut String, wanted: &Wanted) -> Result<(), NoMemory>
    ensures { Adds result out.old out.new (other_text wanted.now) }
{
    out.push_str(", wanted ")?;
    write_wanted(out, wanted)
}

/// Writes two kinds that differ.
fn write_mismatch(out: &mut String, found: &Kind, wanted: &Wanted) -> Result<(), NoMemory>
    ensures { Adds result out.old out.new (mismatch_text found.now wanted.now) }
{
    out.push_str("kind mismatch")?;
    write_found(out, found)?;
    write_other(out, wanted)
}

/// Writes what is wrong there.
#[tactic(auto, unfolding(crate::specs::FaultLines::what_text))]
fn write_what(out: &mut String, what: &CheckWhat) -> Result<(), NoMemory>
    ensures { Adds result out.old out.new (what_text what.now) }
{
    match what {
        CheckWhat::UnknownName(name) => {
            out.push_str("unknown ")?;
            out.push_str(name.as_str())
        }
        CheckWhat::ForwardName(name) => {
            out.push_str("forward ")?;
            out.push_str(name.as_str())
        }
        CheckWhat::KindMismatch { found, wanted } => write_mismatch(out, found, wanted),
        CheckWhat::ListNesting => out.push_str("list nesting"),
        CheckWhat::KindTooLarge(size) => write!(out, "kind too large {size}"),
        CheckWhat::NoMemory => Ok(()),
    }
}

/// The line of a fault in a file's bytes.
pub fn read_line(alloc: Global, fault: &ReadFault) -> Result<ListOf<u8>, NoMemory>
    ensures { IfOk result (λ line. line ≡ error_line (read_text fault.now)) }
{
    let mut line = String::from_str(alloc, "error: ")?;
    write_read_fault(&mut line, fault)?;
    line.push_str("\n")?;
    Ok(ListOf::from_vec(line.into_bytes()))
}

/// The line of a fault that the check finds.
pub fn check_line(
    alloc: Global,
    program: &Program,
    fault: &CheckFault,
) -> Result<ListOf<u8>, NoMemory>
    ensures { IfOk result (λ line. line ≡ error_line (check_text program.now fault.now)) }
{
    let mut line = String::from_str(alloc, "error: ")?;
    write_place(&mut line, program, fault.place)?;
    line.push_str(": ")?;
    write_what(&mut line, &fault.what)?;
    line.push_str("\n")?;
    Ok(ListOf::from_vec(line.into_bytes()))
}

/// The line of a session that took all that it may take.
pub fn limit_line() -> &'static [u8]
    ensures { result.now ≡ limit_line }
{
    b"error: limit\n"
}

/// The line of a stored row that isn't well formed, by its table's name and its number.
#[tactic(auto, unfolding(crate::specs::FaultLines::row_line))]
pub fn row_line(alloc: Global, table: &str, number: u64) -> Result<ListOf<u8>, NoMemory>
    ensures { IfOk result (λ line. line ≡ row_line table.now number) }
{
    let line = format!(in alloc; "error: row {table} {number}\n")?;
    Ok(ListOf::from_vec(line.into_bytes()))
}
