//! Words of lines: stages, and what an operation builds or sets.
ghost use Rattle.std.specs.Prelude.{◌≡◌, slice_get};
ghost use Rattle.core_rules.specs.Core.{is_output};
ghost use Rattle.report_text.specs.Lines.{key_text, set_text, stage_word, target_text};
ghost use Rattle.report_text.specs.inside.Writers.{Adds};

use crate::names::name_at;
use term_core::Program;
use value_core::{NoMemory, Stage, Text, write_text};

pub(crate) fn stage_word(stage: Stage) -> &'static str
    ensures { result.now ≡ stage_word stage }
{
    match stage {
        Stage::Ready => "ready",
        Stage::Waiting => "waiting",
        Stage::Running => "running",
    }
}

/// Writes an operation and a key.
#[tactic(auto, unfolding(crate::specs::Lines::key_text))]
pub(crate) fn write_key(
    out: &mut String,
    program: &Program,
    op: u32,
    key: &Text,
) -> Result<(), NoMemory>
    ensures { Adds result out.old out.new (key_text program.now op key.now) }
{
    out.push_str(name_at(program.ops.as_slice(), op as usize))?;
    out.push_str(" ")?;
    write_text(out, key)
}

/// Whether the operation with this number sets keys to values.
fn is_output(program: &Program, op: u32) -> bool
    ensures { result ≡ is_output (slice_get program.now.ops op) }
{
    match program.ops.as_slice().get(op as usize) {
        Some(op) => op.output,
        None => false,
    }
}

/// Writes the value that an output sets its key to, after a space.
#[tactic(auto, unfolding(crate::specs::Lines::set_text))]
fn write_set(out: &mut String, program: &Program, op: u32, value: &Text) -> Result<(), NoMemory>
    ensures { Adds result out.old out.new (set_text program.now op value.now) }
{
    if !is_output(program, op) {
        return Ok(());
    }
    out.push_str(" ")?;
    write_text(out, value)
}

/// Writes what is built or set.
#[tactic(auto, unfolding(crate::specs::Lines::target_text))]
pub(crate) fn write_target(
    out: &mut String,
    program: &Program,
    op: u32,
    key: &Text,
    value: &Text,
) -> Result<(), NoMemory>
    ensures { Adds result out.old out.new (target_text program.now op key.now value.now) }
{
    write_key(out, program, op, key)?;
    write_set(out, program, op, value)
}
