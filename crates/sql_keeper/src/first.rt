//! What is read of tables of the first schema, inside a transaction.
ghost use Rattle.std.specs.Prelude.{◌≡◌, true};
ghost use Rattle.keeper_core.specs.Contents.{old_rows};
ghost use Rattle.sql_keeper.specs.inside.Calls.{CommitsNothing, IsReadyForIn, KeepsCommitIn};
ghost use Rattle.sql_keeper.specs.inside.Calls.{ReadsOld, StaysIn};
ghost use Rattle.sql_keeper.specs.inside.Calls.{Undoes, log_rows, old_result_rows};
ghost use Rattle.sql_keeper.specs.inside.Moving.{store_of};

use crate::columns::LogRow;
use crate::reads::{read_all, read_inputs, read_jobs, read_meta};
use keeper_core::{OldCacheRow, OldTables};
use sqlite::{Alter, Error, Transaction};
use std::alloc::Global;
use value_core::ListOf;

/// The results by operation and key.
fn read_results<S: Alter>(
    tx: &mut Transaction<'_, S>,
    alloc: Global,
) -> Result<ListOf<OldCacheRow>, Error>
    requires { IsReadyForIn S.Store true tx.old.conn.now }
    ensures same_reference { tx.new.conn.ghost_name ≡ tx.old.conn.ghost_name }
    ensures rows { ReadsOld S.Store old_result_rows tx.old.conn.now tx.new.conn.now result }
    ensures same { StaysIn S.Store true tx.old.conn.now tx.new.conn.now result }
    ensures undone { Undoes S.Store tx.old.conn.now tx.new.conn.now result }
    ensures survives { CommitsNothing S.Store tx.old.conn.now tx.new.conn.now }
{
    read_all(
        tx,
        alloc,
        true,
        "SELECT op, ckey, cvalue, fine, result, finished, job, rebuild FROM cache ORDER BY op, ckey",
    )
}

/// All rows in order.
fn read_tables<S: Alter>(tx: &mut Transaction<'_, S>, alloc: Global) -> Result<OldTables, Error>
    requires { IsReadyForIn S.Store true tx.old.conn.now }
    ensures same_reference { tx.new.conn.ghost_name ≡ tx.old.conn.ghost_name }
    ensures rows { ReadsOld S.Store old_rows tx.old.conn.now tx.new.conn.now result }
    ensures same { StaysIn S.Store true tx.old.conn.now tx.new.conn.now result }
    ensures kept { KeepsCommitIn S.Store tx.old.conn.now tx.new.conn.now }
    ensures survives { CommitsNothing S.Store tx.old.conn.now tx.new.conn.now }
{
    let meta = read_meta(tx, alloc, true)?;
    let inputs = read_inputs(tx, alloc, true)?;
    let cache = read_results(tx, alloc)?;
    let logs = read_jobs(tx, alloc, true)?;
    Ok(OldTables {
        meta,
        inputs,
        cache,
        logs,
    })
}

/// The logs by job.
fn read_logs<S: Alter>(tx: &mut Transaction<'_, S>, alloc: Global) -> Result<ListOf<LogRow>, Error>
    requires { IsReadyForIn S.Store true tx.old.conn.now }
    ensures same_reference { tx.new.conn.ghost_name ≡ tx.old.conn.ghost_name }
    ensures rows { ReadsOld S.Store log_rows tx.old.conn.now tx.new.conn.now result }
    ensures same { StaysIn S.Store true tx.old.conn.now tx.new.conn.now result }
    ensures undone { Undoes S.Store tx.old.conn.now tx.new.conn.now result }
    ensures survives { CommitsNothing S.Store tx.old.conn.now tx.new.conn.now }
{
    read_all(tx, alloc, true, "SELECT job, output FROM logs ORDER BY job")
}

/// All that a store of the first schema has.
#[derive(Drop)]
pub(crate) struct OldStore {
    pub tables: OldTables,
    pub logs: ListOf<LogRow>,
}

/// All rows in order, with the outputs.
pub(crate) fn read_store<S: Alter>(
    tx: &mut Transaction<'_, S>,
    alloc: Global,
) -> Result<OldStore, Error>
    requires { IsReadyForIn S.Store true tx.old.conn.now }
    ensures same_reference { tx.new.conn.ghost_name ≡ tx.old.conn.ghost_name }
    ensures rows { ReadsOld S.Store store_of tx.old.conn.now tx.new.conn.now result }
    ensures same { StaysIn S.Store true tx.old.conn.now tx.new.conn.now result }
    ensures kept { KeepsCommitIn S.Store tx.old.conn.now tx.new.conn.now }
    ensures survives { CommitsNothing S.Store tx.old.conn.now tx.new.conn.now }
{
    let tables = read_tables(tx, alloc)?;
    let logs = read_logs(tx, alloc)?;
    Ok(OldStore { tables, logs })
}
