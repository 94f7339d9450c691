//! Rows as they will be after an event's own change of them.
ghost use Rattle.std.specs.Prelude.{◌≡◌, Some};
ghost use Rattle.core_rules.specs.Entries.{with_value};
ghost use Rattle.sched_rows.specs.Validity.{IsInRange, IsTime, valid};
ghost use Rattle.core_rules.specs.Own.{PutsInTime};
ghost use Rattle.job_core.specs.RowTests.{is_valid_among, is_valid_row, rows_after, same_key};

use core_rules::RowChange;
use op_keys::OpDecl;
use sched_rows::{Row, Rows, valid};
use value_core::{Text, Triple};

fn is_key(op: &Text, key: &Text, name: &Text, wanted: &Text) -> bool
    ensures { result ≡ same_key op.now key.now name.now wanted.now }
{
    op.is(name) && key.is(wanted)
}

/// Whether a row has this value and is valid.
fn is_valid(row: &Row, op: &OpDecl, value: &Text, now: u64) -> bool
    requires time { IsTime row.now.finished }
    requires range { IsInRange op.now.expiry }
    ensures { result ≡ is_valid_row op.now.expiry now (with_value value.now row.now) }
{
    row.value.is(value) && valid(row, &op.expiry, now)
}

/// Whether the row of a triple is valid.
fn has_valid(rows: &Rows, op: &OpDecl, triple: &Triple, now: u64) -> bool
    requires { IsInRange op.now.expiry }
    ensures { result ≡ is_valid_among op.now triple.now now rows.now.rows }
{
    match rows.get(&op.name, &triple.key) {
        Some(row) => is_valid(row, op, &triple.value, now),
        None => false,
    }
}

/// The rows at a moment, after a change of them.
#[derive(Drop)]
pub(crate) struct RowsAfter<'a> {
    pub(crate) rows: &'a Rows,
    pub(crate) change: &'a RowChange,
    pub(crate) moment: u64,
}

impl RowsAfter<'_> {
    /// Whether the row of a triple is valid.
    pub(crate) fn has_valid(&self, op: &OpDecl, triple: &Triple) -> bool
        requires range { IsInRange op.now.expiry }
        requires timely { PutsInTime self.now.change.now }
        ensures { result ≡ is_valid_among op.now triple.now self.now.moment (rows_after self.now) }
    {
        let RowsAfter {
            rows,
            change,
            moment,
        } = *self;
        match change {
            RowChange::None => has_valid(rows, op, triple, moment),
            RowChange::Put(row) => if is_key(&row.op, &row.key, &op.name, &triple.key) {
                is_valid(row, op, &triple.value, moment)
            } else {
                has_valid(rows, op, triple, moment)
            },
            RowChange::Void(name, key) => if is_key(name, key, &op.name, &triple.key) {
                false
            } else {
                has_valid(rows, op, triple, moment)
            },
            RowChange::Mark(name, key) => if is_key(name, key, &op.name, &triple.key) {
                false
            } else {
                has_valid(rows, op, triple, moment)
            },
        }
    }
}
