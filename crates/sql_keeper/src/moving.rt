//! A migration: all rows are read, the tables are dropped, made anew under the second schema, and
//! filled, as one transaction. So the trees of a store that was moved are those of a fresh one.
ghost use Rattle.std.specs.Prelude.{◌≡◌, false, length, true};
ghost use Rattle.sql_keeper.specs.inside.Schemas.{no_schema, old_schema};
ghost use Rattle.sql_keeper.specs.inside.Moving.{after_cache, after_inputs, after_logs};
ghost use Rattle.sql_keeper.specs.inside.Moving.{with_inputs, with_logs, with_old_result};
ghost use Rattle.sql_keeper.specs.inside.Moving.{with_old_results, with_store};
ghost use Rattle.keeper_core.specs.Contents.{with_literal, with_output};
ghost use Rattle.keeper_core.specs.WellFormed.{next_of};
ghost use Rattle.sql_keeper.specs.inside.Calls.{AddsTable, CommitsNothing, DropsTableIn};
ghost use Rattle.sql_keeper.specs.inside.Calls.{FailsToCommit, HasStore, IsDroppingIn};
ghost use Rattle.sql_keeper.specs.inside.Calls.{IsReadyForIn, IsReadyIn, IsSettled};
ghost use Rattle.sql_keeper.specs.inside.Calls.{KeepsCommitIn, LeavesMovedIn, MovesIn, OnceMoved};
ghost use Rattle.sql_keeper.specs.inside.Calls.{SparesBadRow, SparesIn, Steps, Undoes, WasClean};

use crate::columns::LogRow;
use crate::commits::is_live;
use crate::first::{OldStore, read_store};
use crate::making::make_all;
use crate::statements::{Texts, add_log, number, put_input, put_result, touch};
use keeper_core::{InputRow, MetaRow, OldCacheRow, Table, key_hash, old_first_bad};
use sqlite::{Alter, Connection, Error, ErrorCode, Transaction};
use std::alloc::Global;
use std::str;

fn drop_logs<S: Alter>(tx: &mut Transaction<'_, S>) -> Result<usize, Error>
    requires { IsDroppingIn S.Store old_schema tx.old.conn.now }
    ensures same_reference { tx.new.conn.ghost_name ≡ tx.old.conn.ghost_name }
    ensures dropped { DropsTableIn S.Store after_logs tx.old.conn.now tx.new.conn.now result }
    ensures undone { Undoes S.Store tx.old.conn.now tx.new.conn.now result }
    ensures survives { CommitsNothing S.Store tx.old.conn.now tx.new.conn.now }
{
    tx.execute("DROP TABLE logs", &[])
}

fn drop_cache<S: Alter>(tx: &mut Transaction<'_, S>) -> Result<usize, Error>
    requires { IsDroppingIn S.Store after_logs tx.old.conn.now }
    ensures same_reference { tx.new.conn.ghost_name ≡ tx.old.conn.ghost_name }
    ensures dropped { DropsTableIn S.Store after_cache tx.old.conn.now tx.new.conn.now result }
    ensures undone { Undoes S.Store tx.old.conn.now tx.new.conn.now result }
    ensures survives { CommitsNothing S.Store tx.old.conn.now tx.new.conn.now }
{
    tx.execute("DROP TABLE cache", &[])
}

fn drop_inputs<S: Alter>(tx: &mut Transaction<'_, S>) -> Result<usize, Error>
    requires { IsDroppingIn S.Store after_cache tx.old.conn.now }
    ensures same_reference { tx.new.conn.ghost_name ≡ tx.old.conn.ghost_name }
    ensures dropped { DropsTableIn S.Store after_inputs tx.old.conn.now tx.new.conn.now result }
    ensures undone { Undoes S.Store tx.old.conn.now tx.new.conn.now result }
    ensures survives { CommitsNothing S.Store tx.old.conn.now tx.new.conn.now }
{
    tx.execute("DROP TABLE inputs", &[])
}

fn drop_meta<S: Alter>(tx: &mut Transaction<'_, S>) -> Result<usize, Error>
    requires { IsDroppingIn S.Store after_inputs tx.old.conn.now }
    ensures same_reference { tx.new.conn.ghost_name ≡ tx.old.conn.ghost_name }
    ensures blank { AddsTable S.Store no_schema tx.old.conn.now tx.new.conn.now result }
    ensures undone { Undoes S.Store tx.old.conn.now tx.new.conn.now result }
    ensures survives { CommitsNothing S.Store tx.old.conn.now tx.new.conn.now }
{
    tx.execute("DROP TABLE meta", &[])
}

/// Drops all tables of the first schema.
fn drop_tables<S: Alter>(tx: &mut Transaction<'_, S>) -> Result<(), Error>
    requires { IsDroppingIn S.Store old_schema tx.old.conn.now }
    ensures same_reference { tx.new.conn.ghost_name ≡ tx.old.conn.ghost_name }
    ensures blank { AddsTable S.Store no_schema tx.old.conn.now tx.new.conn.now result }
    ensures kept { KeepsCommitIn S.Store tx.old.conn.now tx.new.conn.now }
    ensures survives { CommitsNothing S.Store tx.old.conn.now tx.new.conn.now }
{
    drop_logs(tx)?;
    drop_cache(tx)?;
    drop_inputs(tx)?;
    drop_meta(tx)?;
    Ok(())
}

/// Puts an input.
fn put_row<S: Alter>(tx: &mut Transaction<'_, S>, row: &InputRow) -> Result<(), Error>
    requires { IsReadyIn S.Store tx.old.conn.now }
    ensures same_reference { tx.new.conn.ghost_name ≡ tx.old.conn.ghost_name }
    ensures put { Steps S.Store (with_literal row.now.name row.now.literal)
        tx.old.conn.now tx.new.conn.now result }
    ensures undone { Undoes S.Store tx.old.conn.now tx.new.conn.now result }
    ensures survives { CommitsNothing S.Store tx.old.conn.now tx.new.conn.now }
{
    let Ok(name) = str::from_utf8(row.name.as_slice()) else {
        return Err(Error::InvalidQuery);
    };
    let Ok(literal) = str::from_utf8(row.literal.as_slice()) else {
        return Err(Error::InvalidQuery);
    };
    put_input(tx, name, literal)?;
    Ok(())
}

/// Puts the inputs.
fn put_inputs<S: Alter>(tx: &mut Transaction<'_, S>, rows: &[InputRow]) -> Result<(), Error>
    requires { IsReadyIn S.Store tx.old.conn.now }
    ensures same_reference { tx.new.conn.ghost_name ≡ tx.old.conn.ghost_name }
    ensures put { Steps S.Store (with_inputs rows.now) tx.old.conn.now tx.new.conn.now result }
    ensures kept { KeepsCommitIn S.Store tx.old.conn.now tx.new.conn.now }
    ensures survives { CommitsNothing S.Store tx.old.conn.now tx.new.conn.now }
{
    for row in rows {
        put_row(tx, row)?;
    }
    Ok(())
}

/// Puts a result, with the hash of its key.
fn put_old_result<S: Alter>(tx: &mut Transaction<'_, S>, row: &OldCacheRow) -> Result<(), Error>
    requires { IsReadyIn S.Store tx.old.conn.now }
    ensures same_reference { tx.new.conn.ghost_name ≡ tx.old.conn.ghost_name }
    ensures put { Steps S.Store (with_old_result row.now)
        tx.old.conn.now tx.new.conn.now result }
    ensures undone { Undoes S.Store tx.old.conn.now tx.new.conn.now result }
    ensures survives { CommitsNothing S.Store tx.old.conn.now tx.new.conn.now }
{
    let hash = key_hash(row.ckey.as_slice());
    let Ok(op) = str::from_utf8(row.op.as_slice()) else {
        return Err(Error::InvalidQuery);
    };
    let Ok(ckey) = str::from_utf8(row.ckey.as_slice()) else {
        return Err(Error::InvalidQuery);
    };
    let Ok(cvalue) = str::from_utf8(row.cvalue.as_slice()) else {
        return Err(Error::InvalidQuery);
    };
    let Ok(result) = str::from_utf8(row.result.as_slice()) else {
        return Err(Error::InvalidQuery);
    };
    let khash = hash.as_slice();
    let texts = Texts {
        op,
        khash,
        ckey,
        cvalue,
        result,
    };
    put_result(tx, &texts, row.fine, row.finished, row.job, row.rebuild)?;
    Ok(())
}

/// Puts the results.
fn put_results<S: Alter>(tx: &mut Transaction<'_, S>, rows: &[OldCacheRow]) -> Result<(), Error>
    requires { IsReadyIn S.Store tx.old.conn.now }
    ensures same_reference { tx.new.conn.ghost_name ≡ tx.old.conn.ghost_name }
    ensures put { Steps S.Store (with_old_results rows.now)
        tx.old.conn.now tx.new.conn.now result }
    ensures kept { KeepsCommitIn S.Store tx.old.conn.now tx.new.conn.now }
    ensures survives { CommitsNothing S.Store tx.old.conn.now tx.new.conn.now }
{
    for row in rows {
        put_old_result(tx, row)?;
    }
    Ok(())
}

/// Puts a log.
fn put_log<S: Alter>(tx: &mut Transaction<'_, S>, row: &LogRow) -> Result<(), Error>
    requires { IsReadyIn S.Store tx.old.conn.now }
    ensures same_reference { tx.new.conn.ghost_name ≡ tx.old.conn.ghost_name }
    ensures put { Steps S.Store (with_output row.now.job row.now.output)
        tx.old.conn.now tx.new.conn.now result }
    ensures undone { Undoes S.Store tx.old.conn.now tx.new.conn.now result }
    ensures survives { CommitsNothing S.Store tx.old.conn.now tx.new.conn.now }
{
    add_log(tx, row.job, row.output.as_slice())?;
    Ok(())
}

/// Puts the logs.
fn put_logs<S: Alter>(tx: &mut Transaction<'_, S>, rows: &[LogRow]) -> Result<(), Error>
    requires { IsReadyIn S.Store tx.old.conn.now }
    ensures same_reference { tx.new.conn.ghost_name ≡ tx.old.conn.ghost_name }
    ensures put { Steps S.Store (with_logs rows.now) tx.old.conn.now tx.new.conn.now result }
    ensures kept { KeepsCommitIn S.Store tx.old.conn.now tx.new.conn.now }
    ensures survives { CommitsNothing S.Store tx.old.conn.now tx.new.conn.now }
{
    for row in rows {
        put_log(tx, row)?;
    }
    Ok(())
}

/// The next number, which is 1 without a row.
fn next_number(meta: &[MetaRow]) -> i64
    ensures { result ≡ next_of meta.now }
{
    match meta {
        [row, ..] => row.next_job,
        [] => 1,
    }
}

/// Fills fresh tables with the rows of a store of the first schema.
fn refill<S: Alter>(tx: &mut Transaction<'_, S>, store: &OldStore) -> Result<(), Error>
    requires { IsReadyIn S.Store tx.old.conn.now }
    ensures same_reference { tx.new.conn.ghost_name ≡ tx.old.conn.ghost_name }
    ensures put { Steps S.Store (with_store store.now) tx.old.conn.now tx.new.conn.now result }
    ensures kept { KeepsCommitIn S.Store tx.old.conn.now tx.new.conn.now }
    ensures survives { CommitsNothing S.Store tx.old.conn.now tx.new.conn.now }
{
    number(tx, next_number(store.tables.meta.as_slice()))?;
    put_inputs(tx, store.tables.inputs.as_slice())?;
    put_results(tx, store.tables.cache.as_slice())?;
    put_logs(tx, store.logs.as_slice())
}

fn count(rows: &[OldCacheRow]) -> u64
    ensures { result ≡ length rows.now }
{
    rows.len() as u64
}

/// What came of a move.
pub(crate) enum Moved {
    /// So many results were moved.
    Rows(u64),
    /// This row is the first that isn't well formed.
    BadRow(Table, u64),
}

/// Moves all rows, if they are well formed.
fn move_store<S: Alter>(tx: &mut Transaction<'_, S>, alloc: Global) -> Result<Moved, Error>
    requires { IsReadyForIn S.Store true tx.old.conn.now }
    ensures same_reference { tx.new.conn.ghost_name ≡ tx.old.conn.ghost_name }
    ensures moved { MovesIn S.Store tx.old.conn.now tx.new.conn.now result }
    ensures kept { KeepsCommitIn S.Store tx.old.conn.now tx.new.conn.now }
    ensures survives { CommitsNothing S.Store tx.old.conn.now tx.new.conn.now }
{
    let store = read_store(tx, alloc)?;
    if let Some((table, number)) = old_first_bad(alloc, &store.tables)? {
        return Ok(Moved::BadRow(table, number));
    }
    drop_tables(tx)?;
    make_all(tx)?;
    refill(tx, &store)?;
    Ok(Moved::Rows(count(store.tables.cache.as_slice())))
}

/// Moves all rows as one transaction, or changes nothing.
fn move_once<S: Alter>(conn: &mut Connection<S>, alloc: Global) -> Result<Moved, Error>
    requires idle { conn.old.in_transaction ≡ false }
    requires database { HasStore S.Store true conn.old }
    ensures idle { conn.new.in_transaction ≡ false }
    ensures moved { OnceMoved S.Store conn.old conn.new result }
    ensures err { FailsToCommit S.Store conn.old conn.new result }
    ensures stop { LeavesMovedIn S.Store conn.old conn.new }
    ensures spared { SparesBadRow S.Store conn.old conn.new result }
    ensures clean { WasClean S.Store conn.old conn.new }
{
    let mut tx = conn.transaction();
    touch(&mut tx, true)?;
    match move_store(&mut tx, alloc)? {
        Moved::Rows(count) => {
            tx.commit()?;
            Ok(Moved::Rows(count))
        }
        bad => Ok(bad),
    }
}

/// Moves all rows as one transaction. Out of memory, it is known that nothing of it was made.
pub(crate) fn move_tables<S: Alter>(conn: &mut Connection<S>, alloc: Global) -> Result<Moved, Error>
    requires idle { conn.old.in_transaction ≡ false }
    requires database { HasStore S.Store true conn.old }
    requires settled { IsSettled S.Store conn.old }
    ensures idle { conn.new.in_transaction ≡ false }
    ensures moved { OnceMoved S.Store conn.old conn.new result }
    ensures err { FailsToCommit S.Store conn.old conn.new result }
    ensures stop { LeavesMovedIn S.Store conn.old conn.new }
    ensures spared { SparesBadRow S.Store conn.old conn.new result }
    ensures no_more { SparesIn S.Store conn.old conn.new result }
    ensures clean { WasClean S.Store conn.old conn.new }
{
    let done = move_once(conn, alloc);
    match done {
        Err(Error::SqliteFailure(ErrorCode::OutOfMemory)) => {
            if is_live(conn, true) {
                Err(Error::SqliteFailure(ErrorCode::OutOfMemory))
            } else {
                Err(Error::SqliteFailure(ErrorCode::Closed))
            }
        }
        done => done,
    }
}
