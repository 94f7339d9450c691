//! Migrations of the store of a path.
ghost use Rattle.std.specs.Prelude.{◌≡◌, ◌≢◌, ℕ, List, Option, IfOk};
ghost use Rattle.op_keys.specs.declared.order.Exit.{Exit};
ghost use Rattle.op_keys.specs.declared.order.Order.{Order};
ghost use Rattle.session_rules.specs.Runs.{Given};
ghost use Rattle.store_reports.specs.Causes.{IsCaused};
ghost use Rattle.store_reports.specs.Ends.{counts_with, seen_with};
ghost use Rattle.store_reports.specs.Migrating.{IsMigration, moved_text};

use crate::printing::{fault_status, tell_bad_row, tell_made};
use io_ends::Sink;
use keeper_core::{Keeper, Keepers, MigrateFault, Migrated};
use std::alloc::Global;
use value_core::{ListOf, NoMemory};

/// What is printed of what a migration did.
fn moved_lines(alloc: Global, moved: Migrated) -> Result<ListOf<u8>, NoMemory>
    ensures { IfOk result (λ text. text ≡ moved_text moved) }
{
    let text = match moved {
        Migrated::Rows(count) => format!(in alloc; "migrated {count} rows\n")?,
        Migrated::Already => String::from_str(alloc, "already schema 2\n")?,
    };
    Ok(ListOf::from_vec(text.into_bytes()))
}

/// Moves the store of a path under the second schema, gives it back, and prints what was done.
pub fn migrate<M: Keepers, O: Sink>(alloc: Global, path: &str, keepers: &mut M, out: &mut O) -> u8
    // Whatever orders were run before.
    ensures run { (given : Given) (ran : Option (List (Order × Exit)))
        → given.held ≡ M.held keepers.old →
        let see = seen_with M.knows_left M.left O.written ran in
        IsMigration path.now given result
        (see keepers.old out.old) (see keepers.new out.new) }
    ensures cause { (source files : ℕ) →
        let count = counts_with M.faults O.faults source files in
        IsCaused result (count keepers.old out.old) (count keepers.new out.new) }
    ensures no_usage { result ≢ 2 }
    ensures no_refusal { result ≢ 3 }
{
    let mut keeper = match keepers.open(alloc, Some(path)) {
        Ok(keeper) => keeper,
        Err(fault) => return fault_status(fault),
    };
    let moved = keeper.migrate(alloc);
    keepers.give_back(keeper);
    match moved {
        Ok(moved) => tell_made(out, moved_lines(alloc, moved), 0),
        Err(MigrateFault::BadRow(table, number)) => tell_bad_row(alloc, table, number, out),
        Err(MigrateFault::Fault) => 6,
        Err(MigrateFault::NoMemory) => 7,
    }
}
