//! Changes of rows, each of which is kept with the expiry of its operation.
ghost use Rattle.std.specs.Prelude.{◌≡◌, OnOk};
ghost use Rattle.term_core.specs.Limits.{IsWithinLimits};
ghost use Rattle.sched_rows.specs.Validity.{IsInRange};
ghost use Rattle.core_rules.specs.Own.{PutsInTime};
ghost use Rattle.engine_rules.specs.Touched.{expiry_named, kept_made};
ghost use Rattle.engine_core.specs.Plans.{HasRowRoom};

use core_rules::RowChange;
use op_keys::{Expiry, index_of};
use sched_rows::Rows;
use term_core::Program;
use value_core::{NoMemory, Text};

/// When the rows of the operation of a name run out.
#[tactic(auto, using(crate::proofs::Ranges::op_range))]
pub(crate) fn expiry_named(program: &Program, name: &Text) -> Expiry
    requires { IsWithinLimits program.now }
    ensures expiry { result ≡ expiry_named program.now name.now }
    ensures range { IsInRange result }
{
    let ops = program.ops.as_slice();
    match ops.get(index_of(ops, name.as_str())) {
        Some(op) => op.expiry,
        None => Expiry::Never,
    }
}

/// Makes room for the row that a change puts.
pub(crate) fn make_room(rows: &mut Rows, change: &RowChange) -> Result<(), NoMemory>
    ensures room { OnOk result (HasRowRoom change.now rows.new.spare) }
    ensures rows { rows.new ≡ record rows.old { spare = rows.new.spare } }
{
    match change {
        RowChange::Put(_) => rows.reserve(1),
        _ => Ok(()),
    }
}

/// Makes a change, for which there is room. Takes no memory.
pub(crate) fn change_rows(rows: &mut Rows, program: &Program, change: RowChange)
    requires limits { IsWithinLimits program.now }
    requires timely { PutsInTime change }
    requires room { HasRowRoom change rows.old.spare }
    ensures rows { rows.new.rows ≡ (kept_made program.now change rows.old).rows }
    ensures expiries { rows.new.expiries ≡ (kept_made program.now change rows.old).expiries }
{
    match change {
        RowChange::None => {}
        RowChange::Put(row) => {
            let expiry = expiry_named(program, &row.op);
            let _replaced = rows.put_spare(row, &expiry);
        }
        RowChange::Void(op, key) => {
            rows.void(&op, &key);
        }
        RowChange::Mark(op, key) => {
            let _marked = rows.mark(&op, &key);
        }
    }
}
