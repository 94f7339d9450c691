//! Which triples' entries an event may change.
ghost use Rattle.std.specs.Prelude.{◌≡◌, IfOk};
ghost use Rattle.std.specs.Option.{option_copied};
ghost use Rattle.engine_rules.specs.Edits.{MayOwn};
ghost use Rattle.engine_rules.specs.Touched.{changed_triples, due_at, is_moved, moved_of, own_of};
ghost use Rattle.engine_rules.specs.Touched.{set_inputs, touched_by, triple_at, triple_of_job};
ghost use Rattle.engine_rules.specs.Touched.{triple_under};
ghost use Rattle.engine_rules.specs.inside.Adding.{Adds};
ghost use Rattle.engine_rules.specs.inside.Results.{Returns};

use crate::edits::{Edit, InputChange};
use crate::lookups::Lookups;
use crate::tests::{op_named, pick_job};
use core_rules::{Job, Own, RowChange, may_start};
use op_keys::Level;
use sched_rows::Row;
use std::alloc::Global;
use value_core::{ListOf, NoMemory, Text, Triple};

/// Adds the triple of a row that may be there, for the number of its operation.
fn add_under(
    alloc: Global,
    out: &mut ListOf<Triple>,
    op: Option<u32>,
    key: &Text,
    row: Option<&Row>,
) -> Result<(), NoMemory>
    ensures { Adds (triple_under op key.now (option_copied row.entry)) out.old out.new result }
{
    if let (Some(op), Some(row)) = (op, row) {
        out.push(Triple {
            op,
            key: key.copy(alloc)?,
            value: row.value.copy(alloc)?,
        })?;
    }
    Ok(())
}

/// Adds the triple of the row of an operation's name and a key.
fn add_at<P: Lookups>(
    alloc: Global,
    out: &mut ListOf<Triple>,
    parts: &P,
    name: &Text,
    key: &Text,
) -> Result<(), NoMemory>
    ensures { Adds (triple_at (P.state parts.now) name.now key.now) out.old out.new result }
{
    add_under(alloc, out, op_named(parts, name), key, parts.row(name, key))
}

fn add_job(alloc: Global, out: &mut ListOf<Triple>, job: Option<&Job>) -> Result<(), NoMemory>
    ensures { Adds (triple_of_job (option_copied job.entry)) out.old out.new result }
{
    if let Some(job) = job {
        out.push(job.triple.copy(alloc)?)?;
    }
    Ok(())
}

/// Adds the triples of the rows that expire.
fn add_due<P: Lookups>(
    alloc: Global,
    out: &mut ListOf<Triple>,
    parts: &P,
    due: &[(Text, Text)],
) -> Result<(), NoMemory>
    ensures { Adds (due_at (P.state parts.now) due.now) out.old out.new result }
{
    for one in due {
        add_at(alloc, out, parts, &one.0, &one.1)?;
    }
    Ok(())
}

/// Whether one of two thresholds lets an operation's jobs start, and the other doesn't.
fn is_moved<P: Lookups>(parts: &P, threshold: Option<Level>, triple: &Triple) -> bool
    ensures { result ≡ is_moved threshold (P.state parts.now) triple.now }
{
    let op = parts.op(triple.op);
    may_start(threshold, op) != may_start(parts.threshold(), op)
}

/// Adds the wanted triples that a threshold moves.
fn add_moved<P: Lookups>(
    alloc: Global,
    out: &mut ListOf<Triple>,
    parts: &P,
    wants: &[(Triple, u64)],
    threshold: Option<Level>,
) -> Result<(), NoMemory>
    ensures { Adds (moved_of threshold wants.now (P.state parts.now)) out.old out.new result }
{
    for want in wants {
        if is_moved(parts, threshold, &want.0) {
            out.push(want.0.copy(alloc)?)?;
        }
    }
    Ok(())
}

/// Adds the triples of a change among the jobs.
fn add_own<P: Lookups>(
    alloc: Global,
    out: &mut ListOf<Triple>,
    parts: &P,
    wants: &[(Triple, u64)],
    own: &Own,
) -> Result<(), NoMemory>
    requires { MayOwn (P.state parts.now) own.now }
    ensures { Adds (own_of wants.now (P.state parts.now) own.now) out.old out.new result }
{
    match own {
        Own::Level(threshold) => add_moved(alloc, out, parts, wants, *threshold),
        Own::Confirm(job) => add_job(alloc, out, parts.job(*job)),
        Own::Cancel(job) => add_job(alloc, out, parts.job(*job)),
        Own::Finish(job) => add_job(alloc, out, parts.job(*job)),
        Own::Take(worker) => add_job(alloc, out, pick_job(parts, *worker)),
        _ => Ok(()),
    }
}

/// Adds the triples of the row that is replaced, and of the one that is put.
fn add_changed<P: Lookups>(
    alloc: Global,
    out: &mut ListOf<Triple>,
    parts: &P,
    change: &RowChange,
) -> Result<(), NoMemory>
    ensures { Adds (changed_triples (P.state parts.now) change.now) out.old out.new result }
{
    match change {
        RowChange::None => Ok(()),
        RowChange::Put(row) => {
            add_under(alloc, out, op_named(parts, &row.op), &row.key, Some(row))?;
            add_at(alloc, out, parts, &row.op, &row.key)
        }
        RowChange::Void(op, key) => add_at(alloc, out, parts, op, key),
        RowChange::Mark(op, key) => add_at(alloc, out, parts, op, key),
    }
}

/// The triples whose entries a change may alter at the new moment: those of the rows that are due
/// by then, and those of the change. `wants` has the wanted triples of before.
pub fn touched<P: Lookups>(
    alloc: Global,
    parts: &P,
    wants: &[(Triple, u64)],
    due: &[(Text, Text)],
    edit: &Edit,
) -> Result<ListOf<Triple>, NoMemory>
    requires { MayOwn (P.state parts.now) edit.now.own }
    ensures { Returns (touched_by wants.now due.now edit.now (P.state parts.now)) result }
{
    let mut triples = ListOf::new(alloc);
    add_due(alloc, &mut triples, parts, due)?;
    add_own(alloc, &mut triples, parts, wants, &edit.own)?;
    add_changed(alloc, &mut triples, parts, &edit.row)?;
    Ok(triples)
}

/// The inputs whose values a change may alter.
pub fn set_inputs(alloc: Global, change: &InputChange) -> Result<ListOf<u32>, NoMemory>
    ensures { IfOk result (λ ns. ns ≡ set_inputs change.now) }
{
    let mut inputs = ListOf::new(alloc);
    if let InputChange::Set(index, _) = change {
        inputs.push(*index)?;
    }
    Ok(inputs)
}
