//! What a triple is found to be after a change, before the jobs are settled.
ghost use Rattle.std.specs.Prelude.{◌≡◌, IfOk, IfSome};
ghost use Rattle.std.specs.Option.{option_copied};
ghost use Rattle.std.specs.Ordering.{eq_by_cmp};
ghost use Rattle.sched_rows.specs.RowKeys.{row_key, row_key_cmp};
ghost use Rattle.sched_rows.specs.Validity.{IsInRange, IsTime, valid};
ghost use Rattle.core_rules.specs.Core.{expiry_of};
ghost use Rattle.core_rules.specs.Entries.{entry_in, outcome};
ghost use Rattle.core_rules.specs.Own.{PutsInTime, own_made};
ghost use Rattle.engine_rules.specs.Edits.{edited};
ghost use Rattle.engine_rules.specs.Found.{row_after, row_named, row_made_at, stage_after};
ghost use Rattle.engine_rules.specs.inside.Results.{Finds, bare_row, row_if_seen, row_seen};

use crate::edits::Edit;
use crate::lookups::Lookups;
use core_rules::{Own, RowChange, is_latched, may_start, when_allowed};
use op_keys::{Expiry, Level, OpDecl};
use sched_rows::{Row, valid};
use std::alloc::Global;
use term_core::Entry;
use value_core::{NoMemory, Stage, Text, Triple};

/// A row, and whether a change marks it.
#[derive(Drop)]
struct MarkedRow<'a> {
    row: &'a Row,
    marked: bool,
}

fn outcome(alloc: Global, row: &Row) -> Result<Entry, NoMemory>
    ensures { IfOk result (λ e. e ≡ outcome row.now) }
{
    let text = row.result.copy(alloc)?;
    if row.fine {
        Ok(Entry::Fine(text))
    } else {
        Ok(Entry::Bad(text))
    }
}

/// Whether a row of the operation is valid at a moment.
fn is_valid(op: Option<&OpDecl>, seen: &MarkedRow<'_>, now: u64) -> bool
    requires range { IfSome op (λ d. IsInRange d.now.expiry) }
    requires time { IsTime seen.now.row.now.finished }
    ensures { result ≡ valid (expiry_of (option_copied op.entry)) now (row_seen seen.now) }
{
    if seen.marked {
        return false;
    }
    match op {
        Some(op) => valid(seen.row, &op.expiry, now),
        None => valid(seen.row, &Expiry::Never, now),
    }
}

/// Whether the row of an operation's name and a key is of these.
#[tactic(auto, using(crate::proofs::RowsAfter::tie_is))]
fn is_of(op: &Text, key: &Text, name: &Text, of: &Text) -> bool
    ensures { result ≡ eq_by_cmp row_key_cmp (row_key name.now of.now) (row_key op.now key.now) }
{
    op.is(name) && key.is(of)
}

/// The row of an operation's name and a key, that is stored.
fn stored_row<'a, P: Lookups>(
    parts: &'a P,
    op: &Text,
    key: &Text,
    marked: bool,
) -> Option<MarkedRow<'a>>
    ensures row { bare_row result ≡ row_named (P.state parts.now) op.now key.now }
    ensures marked { IfSome result (λ s. s.marked ≡ marked) }
    ensures time { IfSome result (λ s. IsTime s.row.now.finished) }
{
    match parts.row(op, key) {
        Some(row) => Some(MarkedRow { row, marked }),
        None => None,
    }
}

/// The row of an operation's name and a key after a change.
#[tactic(auto, using(crate::proofs::RowsAfter::after_put, crate::proofs::RowsAfter::after_void, crate::proofs::RowsAfter::after_mark))]
fn stored_row_after<'a, P: Lookups>(
    parts: &'a P,
    change: &'a RowChange,
    op: &Text,
    key: &Text,
) -> Option<MarkedRow<'a>>
    requires { PutsInTime change.now }
    ensures row { row_if_seen result ≡ row_made_at change.now (P.state parts.now) op.now key.now }
    ensures time { IfSome result (λ s. IsTime s.row.now.finished) }
{
    match change {
        RowChange::None => stored_row(parts, op, key, false),
        RowChange::Put(row) => {
            if is_of(&row.op, &row.key, op, key) {
                Some(MarkedRow { row, marked: false })
            } else {
                stored_row(parts, op, key, false)
            }
        }
        RowChange::Void(name, of) => {
            if is_of(name, of, op, key) {
                None
            } else {
                stored_row(parts, op, key, false)
            }
        }
        RowChange::Mark(name, of) => stored_row(parts, op, key, is_of(name, of, op, key)),
    }
}

/// The row of a triple after a change.
fn row_after<'a, P: Lookups>(
    parts: &'a P,
    change: &'a RowChange,
    triple: &Triple,
) -> Option<MarkedRow<'a>>
    requires { PutsInTime change.now }
    ensures row { row_if_seen result ≡ row_after (P.state parts.now) change.now triple.now }
    ensures time { IfSome result (λ s. IsTime s.row.now.finished) }
{
    let op = parts.op(triple.op)?;
    let seen = stored_row_after(parts, change, &op.name, &triple.key)?;
    if seen.row.value.is(&triple.value) {
        Some(seen)
    } else {
        None
    }
}

/// The threshold and the moment by which entries are found.
#[derive(Drop)]
struct Moment {
    threshold: Option<Level>,
    at: u64,
}

/// What a triple of an operation is found to be, by the stage of its live job and its row.
fn found_entry(
    alloc: Global,
    moment: Moment,
    op: Option<&OpDecl>,
    stage: Option<Stage>,
    row: Option<MarkedRow<'_>>,
) -> Result<Entry, NoMemory>
    requires range { IfSome op (λ d. IsInRange d.now.expiry) }
    requires time { IfSome row (λ s. IsTime s.row.now.finished) }
    ensures { Finds moment (option_copied op.entry) stage (row_if_seen row.entry) result }
{
    let Moment { threshold, at } = moment;
    match (stage, row) {
        (Some(stage), Some(seen)) => {
            if is_latched(op) {
                outcome(alloc, seen.row)
            } else {
                Ok(Entry::Active(stage))
            }
        }
        (Some(stage), None) => Ok(Entry::Active(stage)),
        (None, Some(seen)) => {
            if is_valid(op, &seen, at) || is_latched(op) {
                outcome(alloc, seen.row)
            } else {
                Ok(Entry::Active(when_allowed(may_start(threshold, op))))
            }
        }
        (None, None) => Ok(Entry::Active(when_allowed(may_start(threshold, op)))),
    }
}

/// The threshold after a change.
#[tactic(auto, using(crate::proofs::RowsAfter::threshold_is))]
fn threshold_after<P: Lookups>(parts: &P, own: &Own) -> Option<Level>
    ensures { result ≡ (own_made own.now (P.state parts.now)).threshold }
{
    match own {
        Own::Level(threshold) => *threshold,
        _ => parts.threshold(),
    }
}

/// What a triple is found to be after a change, before the jobs are settled, if its live job is
/// then at the given stage.
pub fn entry_after<P: Lookups>(
    alloc: Global,
    parts: &P,
    edit: &Edit,
    stage: Option<Stage>,
    triple: &Triple,
) -> Result<Entry, NoMemory>
    requires time { PutsInTime edit.now.row }
    requires stage { stage ≡ stage_after (P.state parts.now) edit.now.own triple.now }
    ensures { IfOk result (λ e. e ≡ entry_in (edited edit.now (P.state parts.now)) triple.now) }
{
    let moment = Moment {
        threshold: threshold_after(parts, &edit.own),
        at: parts.now(),
    };
    found_entry(
        alloc,
        moment,
        parts.op(triple.op),
        stage,
        row_after(parts, &edit.row, triple),
    )
}
