//! The own change of an event, made of what is looked up.
ghost use Rattle.std.specs.Prelude.{◌≡◌, ◌<◌, ◌≤◌, IfOk, Result, codes, length, is_ok};
ghost use Rattle.std.specs.Option.{option_copied};
ghost use Rattle.core_rules.specs.Changes.{cancelled_row, row_by};
ghost use Rattle.core_rules.specs.Core.{is_output, op_name, op_of};
ghost use Rattle.core_rules.specs.Orders.{result_row, result_text};
ghost use Rattle.core_rules.specs.declared.events.What.TheVariants as what;
ghost use Rattle.engine_rules.specs.declared.edits.InputChange.TheVariants as input;
ghost use Rattle.engine_rules.specs.declared.tests.Tested.TheVariants.{Passes};
ghost use Rattle.engine_rules.specs.Edits.{cancelled_rows, edit_of, left_row, left_rows, own_alone};
ghost use Rattle.engine_rules.specs.Edits.{taken_rows};
ghost use Rattle.engine_rules.specs.inside.Results.{Returns, result_of};
ghost use Rattle.engine_rules.specs.Tests.{test_of};

use crate::edits::{Edit, InputChange};
use crate::exits::{ExitResult, exit_outcome};
use crate::lookups::Lookups;
use crate::tests::pick_job;
use core_rules::{Job, Mark, Own, RowChange, What};
use op_keys::{Exit, OpDecl, index_of};
use sched_rows::Row;
use std::alloc::Global;
use value_core::{NoMemory, Text, Value};

/// A copy of an operation's name, which is empty if it isn't declared.
fn op_name(alloc: Global, op: Option<&OpDecl>) -> Result<Text, NoMemory>
    ensures { IfOk result (λ t. t ≡ op_name (option_copied op.entry)) }
{
    match op {
        Some(op) => op.name.copy(alloc),
        None => Ok(Text::new(alloc)),
    }
}

fn is_output(op: Option<&OpDecl>) -> bool
    ensures { result ≡ is_output (option_copied op.entry) }
{
    match op {
        Some(op) => op.output,
        None => false,
    }
}

/// The row of a job that ends now.
fn row_by<P: Lookups>(
    alloc: Global,
    parts: &P,
    job: &Job,
    fine: bool,
    text: Text,
) -> Result<Row, NoMemory>
    ensures { IfOk result (λ r. r ≡ row_by (P.state parts.now) job.now fine text) }
{
    Ok(Row {
        op: op_name(alloc, parts.op(job.triple.op))?,
        key: job.triple.key.copy(alloc)?,
        value: job.triple.value.copy(alloc)?,
        fine,
        result: text,
        finished: parts.now(),
        job: job.number,
        rebuild: false,
    })
}

fn cancelled_row<P: Lookups>(alloc: Global, parts: &P, job: &Job) -> Result<Row, NoMemory>
    ensures { IfOk result (λ r. r ≡ cancelled_row (P.state parts.now) job.now) }
{
    row_by(alloc, parts, job, false, Text::of(alloc, "cancelled")?)
}

/// The text of a result; a fine output has none.
fn fine_text(alloc: Global, op: Option<&OpDecl>, text: Text) -> Text
    ensures { result ≡ result_text (option_copied op.entry) (Ok text) }
{
    if is_output(op) {
        Text::new(alloc)
    } else {
        text
    }
}

/// The row of a job that ended with a result or a message.
fn result_row<P: Lookups>(
    alloc: Global,
    parts: &P,
    job: &Job,
    outcome: ExitResult,
) -> Result<Row, NoMemory>
    ensures { IfOk result (λ r. r ≡ result_row (P.state parts.now) job.now (result_of outcome)) }
{
    match outcome {
        ExitResult::Fine(text) => {
            let text = fine_text(alloc, parts.op(job.triple.op), text);
            row_by(alloc, parts, job, true, text)
        }
        ExitResult::Failed(message) => row_by(alloc, parts, job, false, message),
    }
}

/// A cancelled job that is queued leaves a failed row.
fn cancelled_rows<P: Lookups>(
    alloc: Global,
    parts: &P,
    job: Option<&Job>,
) -> Result<RowChange, NoMemory>
    ensures { IfOk result (λ c. c ≡ cancelled_rows (P.state parts.now) (option_copied job.entry)) }
{
    match job {
        Some(job) if job.worker.is_none() => Ok(RowChange::Put(cancelled_row(alloc, parts, job)?)),
        _ => Ok(RowChange::None),
    }
}

/// The row of an output's key goes if a job of it is taken.
fn taken_rows<P: Lookups>(
    alloc: Global,
    parts: &P,
    job: Option<&Job>,
) -> Result<RowChange, NoMemory>
    ensures { IfOk result (λ c. c ≡ taken_rows (P.state parts.now) (option_copied job.entry)) }
{
    match job {
        Some(job) => {
            let op = parts.op(job.triple.op);
            if is_output(op) {
                Ok(RowChange::Void(op_name(alloc, op)?, job.triple.key.copy(alloc)?))
            } else {
                Ok(RowChange::None)
            }
        }
        None => Ok(RowChange::None),
    }
}

/// The row that a job leaves at its end, by its mark.
fn left_row<P: Lookups>(
    alloc: Global,
    parts: &P,
    job: &Job,
    exit: &Exit,
) -> Result<RowChange, NoMemory>
    ensures { IfOk result (λ c. c ≡ left_row job.now.mark (P.state parts.now) job.now exit.now) }
{
    match job.mark {
        Mark::Automatic => Ok(RowChange::None),
        Mark::User => Ok(RowChange::Put(cancelled_row(alloc, parts, job)?)),
        Mark::Unmarked => {
            let outcome = exit_outcome(alloc, exit)?;
            Ok(RowChange::Put(result_row(alloc, parts, job, outcome)?))
        }
    }
}

fn left_rows<P: Lookups>(
    alloc: Global,
    parts: &P,
    job: Option<&Job>,
    exit: &Exit,
) -> Result<RowChange, NoMemory>
    ensures { Returns (left_rows (P.state parts.now) (option_copied job.entry) exit.now) result }
{
    match job {
        Some(job) => left_row(alloc, parts, job, exit),
        None => Ok(RowChange::None),
    }
}

/// A change among the jobs alone.
fn own_alone(own: Own) -> Edit
    ensures { result ≡ own_alone own }
{
    Edit {
        own,
        row: RowChange::None,
        input: InputChange::None,
    }
}

/// A change among the jobs and the rows.
fn with_rows(own: Own, row: RowChange) -> Edit
    ensures own { result.own ≡ own }
    ensures row { result.row ≡ row }
    ensures input { result.input ≡ input.None }
{
    Edit {
        own,
        row,
        input: InputChange::None,
    }
}

/// The change of an input to a value, of which a copy is made.
fn set_input<P: Lookups>(
    alloc: Global,
    parts: &P,
    name: &Text,
    value: &Value,
) -> Result<Edit, NoMemory>
    ensures { Returns (edit_of (P.state parts.now) (what.SetInput name.now value.now)) result }
{
    let index = index_of(parts.program().inputs.as_slice(), name.as_str());
    Ok(Edit {
        own: Own::None,
        row: RowChange::None,
        input: InputChange::Set(index as u32, value.copy(alloc)?),
    })
}

/// The own change of an event that passes its test, at a moment that is set already.
pub fn edit_of<P: Lookups>(alloc: Global, parts: &P, what: &What) -> Result<Edit, NoMemory>
    requires { test_of (P.state parts.now) what.now ≡ Passes }
    ensures { IfOk result (λ e. e ≡ edit_of (P.state parts.now) what.now) }
{
    match what {
        What::SetInput { name, value } => set_input(alloc, parts, name, value),
        What::Tick => Ok(own_alone(Own::None)),
        What::SetLevel(threshold) => Ok(own_alone(Own::Level(*threshold))),
        What::Confirm(job) => Ok(own_alone(Own::Confirm(*job))),
        What::Cancel(job) => {
            let row = cancelled_rows(alloc, parts, parts.job(*job))?;
            Ok(with_rows(Own::Cancel(*job), row))
        }
        What::Rebuild { op, key } => {
            let row = RowChange::Mark(op.copy(alloc)?, key.copy(alloc)?);
            Ok(with_rows(Own::None, row))
        }
        What::Pause(worker) => Ok(own_alone(match parts.worker_named(worker) {
            Some(worker) => Own::Pause(worker),
            None => Own::None,
        })),
        What::Resume(worker) => Ok(own_alone(match parts.worker_named(worker) {
            Some(worker) => Own::Resume(worker),
            None => Own::None,
        })),
        What::Rate { pool, client, rate } => Ok(own_alone(
            match parts.client_named(pool, client) {
                Some(client) => Own::Rate(client, *rate),
                None => Own::None,
            },
        )),
        What::Take(worker) => {
            let row = taken_rows(alloc, parts, pick_job(parts, *worker))?;
            Ok(with_rows(Own::Take(*worker), row))
        }
        What::Finish { job, exit } => {
            let row = left_rows(alloc, parts, parts.job(*job), exit)?;
            Ok(with_rows(Own::Finish(*job), row))
        }
    }
}
