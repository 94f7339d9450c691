//! What an opening makes of what is stored.
ghost use Rattle.std.specs.Prelude.{◌≡◌, ℕ, ◌≤◌, ◌^◌, map, max, min, IfOk, OnOk, None, Some};
ghost use Rattle.std.specs.FinMap.{get};
ghost use Rattle.std.specs.Option.{option_copied};
ghost use Rattle.value_core.specs.Kinds.{literal_kind};
ghost use Rattle.term_core.specs.Limits.{IsWithinLimits};
ghost use Rattle.term_core.specs.Soundness.{IsSound};
ghost use Rattle.sched_rows.specs.Holding.{row_entry};
ghost use Rattle.sched_rows.specs.RowKeys.{key_of};
ghost use Rattle.sched_rows.specs.Validity.{IsTime};
ghost use Rattle.core_rules.specs.Changes.{takes};
ghost use Rattle.core_rules.specs.Openings.{IsOpenable, latest, or_declared, rows_in, stored_at};
ghost use Rattle.engine_core.specs.inside.Opening.{AreNoJobs, AreOpened, AreRowsFor, IsInTime};
ghost use Rattle.engine_core.specs.inside.Opening.{with_first};

use crate::rows::expiry_named;
use core_rules::Durable;
use fair_pool::Pools;
use job_core::Jobs;
use op_keys::Level;
use sched_rows::{Held, Row, Rows};
use std::alloc::Global;
use term_core::{InputDecl, Program};
use value_core::{ListOf, NoMemory, Text, Value, is_kind, literal_kind};

/// The latest time that a reading counts as, in milliseconds since 1970.
pub(crate) const LATEST: u64 = 1 << 60;

/// The parts of the state that an opening settles.
#[derive(Drop)]
pub(crate) struct OpenedParts {
    pub(crate) inputs: Vec<Value>,
    pub(crate) rows: Rows,
    pub(crate) jobs: Jobs,
    pub(crate) moment: u64,
}

/// Whether a value is of the kind of an input's declared one.
fn takes(alloc: Global, decl: &InputDecl, value: &Value) -> Result<bool, NoMemory>
    ensures { IfOk result (λ b. b ≡ takes decl.now value.now) }
{
    Ok(is_kind(value, &literal_kind(alloc, &decl.value)?))
}

/// The first stored value of a name.
fn stored_at<'a>(stored: &'a [(Text, Value)], name: &Text) -> Option<&'a Value>
    ensures { option_copied result ≡ stored_at stored.now name.now }
{
    for one in stored {
        if one.0.is(name) {
            return Some(&one.1);
        }
    }
    None
}

/// The stored value of an input, if its kind is the declared one, else the declared value.
fn input_value(alloc: Global, decl: &InputDecl, stored: &[(Text, Value)]) -> Result<Value, NoMemory>
    ensures { IfOk result (λ v. v ≡ or_declared decl.now (stored_at stored.now decl.now.name)) }
{
    if let Some(value) = stored_at(stored, &decl.name) {
        if takes(alloc, decl, value)? {
            return value.copy(alloc);
        }
    }
    decl.value.copy(alloc)
}

/// The values of all inputs.
fn input_values(
    alloc: Global,
    decls: &[InputDecl],
    stored: &[(Text, Value)],
) -> Result<Vec<Value>, NoMemory>
    ensures { IfOk result (λ vs. vs.items
        ≡ map (λ d. or_declared d (stored_at stored.now d.name)) decls.now) }
{
    let mut values = Vec::new(alloc);
    for decl in decls {
        values.push(input_value(alloc, decl, stored)?)?;
    }
    Ok(values)
}

/// Takes a stored row over, with the expiry of its operation, unless one with its key is there.
fn take_over(rows: &mut Rows, program: &Program, row: Row) -> Result<(), NoMemory>
    requires limits { IsWithinLimits program.now }
    requires time { get rows.old.rows (key_of row) ≡ None → IsTime row.finished }
    ensures { OnOk result (rows.new ≡ with_first program.now row rows.old) }
{
    if rows.get(&row.op, &row.key).is_some() {
        return Ok(());
    }
    let expiry = expiry_named(program, &row.op);
    rows.put(row, &expiry)
}

/// The stored rows, each with the expiry of its operation; of two with one key the first counts.
fn stored_rows(alloc: Global, program: &Program, stored: ListOf<Row>) -> Result<Rows, NoMemory>
    requires limits { IsWithinLimits program.now }
    requires times { IsInTime (rows_in stored) }
    ensures { IfOk result (AreRowsFor program.now (rows_in stored)) }
{
    let mut rows = Rows::new(alloc);
    for row in stored.into_vec() {
        take_over(&mut rows, program, row)?;
    }
    Ok(rows)
}

/// The latest of a moment and the times at which rows finished.
fn latest(moment: u64, rows: &[Held]) -> u64
    ensures { result ≡ latest moment (map row_entry rows.now) }
{
    let mut latest = moment;
    for held in rows {
        latest = latest.max(held.row.finished);
    }
    latest
}

/// No job yet; the first has the number `next`.
#[tactic(auto, using(crate::proofs::Opened::layout_sound))]
fn no_jobs(
    alloc: Global,
    program: &Program,
    threshold: Option<Level>,
    next: u64,
) -> Result<Jobs, NoMemory>
    requires sound { IsSound program.now }
    requires first { 1 ≤ next }
    requires last { next ≤ 2 ^ 62 }
    ensures { IfOk result (AreNoJobs program.now threshold next) }
{
    let pools = Pools::open(alloc, &program.pools, &program.clients, &program.workers)?;
    Jobs::open(alloc, program, pools, next, threshold)
}

/// The parts of the state that an opening at a reading settles.
pub(crate) fn opened_parts(
    alloc: Global,
    program: &Program,
    durable: Durable,
    threshold: Option<Level>,
    reading: u64,
) -> Result<OpenedParts, NoMemory>
    requires sound { IsSound program.now }
    requires openable { IsOpenable durable }
    ensures { IfOk result (AreOpened program.now durable threshold reading) }
{
    let Durable { inputs, rows, next } = durable;
    let inputs = input_values(alloc, program.inputs.as_slice(), inputs.as_slice())?;
    let rows = stored_rows(alloc, program, rows)?;
    let moment = latest(reading.min(LATEST), rows.as_slice());
    let jobs = no_jobs(alloc, program, threshold, next)?;
    Ok(OpenedParts {
        inputs,
        rows,
        jobs,
        moment,
    })
}
