//! What an event changes, answers and stores, before it is settled.
ghost use Rattle.std.specs.Prelude.{◌≡◌, IfOk};
ghost use Rattle.value_core.specs.Printed.{printed};
ghost use Rattle.core_rules.specs.Exits.{exit_log};
ghost use Rattle.engine_rules.specs.declared.tests.Tested.TheVariants.{Passes};
ghost use Rattle.engine_rules.specs.Edits.{delta_of, edit_of, stored_input, stored_log};
ghost use Rattle.engine_rules.specs.Edits.{stored_row, voided_key};
ghost use Rattle.engine_rules.specs.Orders.{OrdersFit};
ghost use Rattle.engine_rules.specs.Tests.{test_of};
ghost use Rattle.engine_core.specs.inside.Drafts.{IsDraftOf};

use core_rules::{Delta, Note, RowChange, What};
use engine_rules::{Edit, Lookups, edit_of, note_of};
use op_keys::Exit;
use sched_rows::Row;
use std::alloc::Global;
use value_core::{ListOf, NoMemory, Text, Value, write_value};

/// The most bytes of an order's output that are stored.
const LOG_LIMIT: usize = 65536;

/// What an event changes by itself, what is answered, and what is stored.
#[derive(Drop)]
pub(crate) struct Draft {
    pub(crate) edit: Edit,
    pub(crate) note: Note,
    pub(crate) delta: Delta,
}

fn printed(alloc: Global, value: &Value) -> Result<ListOf<u8>, NoMemory>
    ensures { IfOk result (λ bytes. bytes ≡ printed value.now) }
{
    let mut text = String::new(alloc);
    write_value(&mut text, value)?;
    Ok(ListOf::from_vec(text.into_bytes()))
}

/// The input that is stored.
fn stored_input(alloc: Global, what: &What) -> Result<Option<(Text, ListOf<u8>)>, NoMemory>
    ensures { IfOk result (λ stored. stored ≡ stored_input what.now) }
{
    match what {
        What::SetInput { name, value } => Ok(Some((name.copy(alloc)?, printed(alloc, value)?))),
        _ => Ok(None),
    }
}

/// What is kept of an order's output.
#[tactic(auto, using(std::proofs::lemmas::List::take_min))]
fn exit_log(alloc: Global, exit: &Exit) -> Result<ListOf<u8>, NoMemory>
    ensures { IfOk result (λ log. log ≡ exit_log exit.now) }
{
    match exit {
        Exit::Fault => Ok(ListOf::new(alloc)),
        Exit::Ended { code: _, output } => {
            let output = output.as_slice();
            let kept = LOG_LIMIT.min(output.len());
            Ok(ListOf::from_vec(Vec::from_slice(alloc, &output[..kept])?))
        }
    }
}

/// The log that is stored.
fn stored_log(alloc: Global, what: &What) -> Result<Option<(u64, ListOf<u8>)>, NoMemory>
    ensures { IfOk result (λ stored. stored ≡ stored_log what.now) }
{
    match what {
        What::Finish { job, exit } => Ok(Some((*job, exit_log(alloc, exit)?))),
        _ => Ok(None),
    }
}

/// The row that is stored.
fn stored_row<P: Lookups>(
    alloc: Global,
    parts: &P,
    change: &RowChange,
) -> Result<Option<Row>, NoMemory>
    ensures { IfOk result (λ stored. stored ≡ stored_row (P.state parts.now).rows change.now) }
{
    match change {
        RowChange::Put(row) => Ok(Some(row.copy(alloc)?)),
        RowChange::Mark(op, key) => match parts.row(op, key) {
            Some(row) => {
                let mut marked = row.copy(alloc)?;
                marked.rebuild = true;
                Ok(Some(marked))
            }
            None => Ok(None),
        },
        RowChange::None => Ok(None),
        RowChange::Void(_, _) => Ok(None),
    }
}

/// The operation's name and the key whose row goes.
fn voided_key(alloc: Global, change: &RowChange) -> Result<Option<(Text, Text)>, NoMemory>
    ensures { IfOk result (λ stored. stored ≡ voided_key change.now) }
{
    match change {
        RowChange::Void(op, key) => Ok(Some((op.copy(alloc)?, key.copy(alloc)?))),
        _ => Ok(None),
    }
}

/// What is stored of an event with this change of rows, if no job is created.
fn delta_of<P: Lookups>(
    alloc: Global,
    parts: &P,
    what: &What,
    row: &RowChange,
    next: u64,
) -> Result<Delta, NoMemory>
    requires row { row.now ≡ (edit_of (P.state parts.now) what.now).row }
    requires next { next ≡ (P.state parts.now).next }
    ensures { IfOk result (λ delta. delta ≡ delta_of (P.state parts.now) what.now) }
{
    Ok(Delta {
        input: stored_input(alloc, what)?,
        put: stored_row(alloc, parts, row)?,
        void: voided_key(alloc, row)?,
        log: stored_log(alloc, what)?,
        next,
    })
}

/// The draft of an event that passes its test, at a moment that is set already; `next` is the
/// number of the next job.
pub(crate) fn draft_of<P: Lookups>(
    alloc: Global,
    parts: &P,
    what: &What,
    next: u64,
) -> Result<Draft, NoMemory>
    requires passes { test_of (P.state parts.now) what.now ≡ Passes }
    requires fit { OrdersFit (P.state parts.now).program (P.state parts.now).jobs }
    requires next { next ≡ (P.state parts.now).next }
    ensures { IfOk result (IsDraftOf (P.state parts.now) what.now) }
{
    let edit = edit_of(alloc, parts, what)?;
    let note = note_of(alloc, parts, what)?;
    let delta = delta_of(alloc, parts, what, &edit.row, next)?;
    Ok(Draft { edit, note, delta })
}
