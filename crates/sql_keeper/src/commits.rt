//! A delta as one transaction.
ghost use Rattle.std.specs.Prelude.{◌≡◌, IfSome, false};
ghost use Rattle.keeper_core.specs.Commits.{Fits, IsCommittable, flag, with_delta};
ghost use Rattle.sql_keeper.specs.inside.Steps.{with_put_in, with_log_in, with_input_in};
ghost use Rattle.sql_keeper.specs.inside.Steps.{with_void_in};
ghost use Rattle.sql_keeper.specs.inside.Calls.{CommitsNothing, FailsToCommit, HasDatabase};
ghost use Rattle.sql_keeper.specs.inside.Calls.{HasStore, IsInside, IsReadyIn, IsSettled};
ghost use Rattle.sql_keeper.specs.inside.Calls.{KeepsCommitIn, LeavesEitherIn, MakesIn};
ghost use Rattle.sql_keeper.specs.inside.Calls.{MakesShown, OnceCommitted, ShowsCommitted};
ghost use Rattle.sql_keeper.specs.inside.Calls.{SparesIn, Steps, Undoes, WasClean, WasOpen};

use crate::statements::{Texts, add_log, number, put_input, put_result, touch, void_key};
use core_rules::Delta;
use keeper_core::key_hash;
use sched_rows::Row;
use sqlite::{Alter, Connection, Error, ErrorCode, Transaction};
use std::str;
use value_core::{ListOf, Text};

/// A column that says yes or no.
fn flag(b: bool) -> i64
    ensures { result ≡ flag b }
{
    if b { 1 } else { 0 }
}

fn put_if<S: Alter>(
    tx: &mut Transaction<'_, S>,
    input: &Option<(Text, ListOf<u8>)>,
) -> Result<(), Error>
    requires { IsReadyIn S.Store tx.old.conn.now }
    ensures same_reference { tx.new.conn.ghost_name ≡ tx.old.conn.ghost_name }
    ensures put { Steps S.Store (with_input_in input.now)
        tx.old.conn.now tx.new.conn.now result }
    ensures undone { Undoes S.Store tx.old.conn.now tx.new.conn.now result }
    ensures survives { CommitsNothing S.Store tx.old.conn.now tx.new.conn.now }
{
    let Some((name, literal)) = input else {
        return Ok(());
    };
    let Ok(literal) = str::from_utf8(literal.as_slice()) else {
        return Err(Error::InvalidQuery);
    };
    put_input(tx, name.as_str(), literal)?;
    Ok(())
}

fn void_if<S: Alter>(tx: &mut Transaction<'_, S>, void: &Option<(Text, Text)>) -> Result<(), Error>
    requires { IsReadyIn S.Store tx.old.conn.now }
    ensures same_reference { tx.new.conn.ghost_name ≡ tx.old.conn.ghost_name }
    ensures voided { Steps S.Store (with_void_in void.now)
        tx.old.conn.now tx.new.conn.now result }
    ensures undone { Undoes S.Store tx.old.conn.now tx.new.conn.now result }
    ensures survives { CommitsNothing S.Store tx.old.conn.now tx.new.conn.now }
{
    let Some((op, key)) = void else {
        return Ok(());
    };
    let hash = key_hash(key.as_str().as_bytes());
    void_key(tx, op.as_str(), hash.as_slice(), key.as_str())?;
    Ok(())
}

fn file_if<S: Alter>(tx: &mut Transaction<'_, S>, put: &Option<Row>) -> Result<(), Error>
    requires ready { IsReadyIn S.Store tx.old.conn.now }
    requires fits { IfSome put.now (λ r. Fits r.finished × Fits r.job) }
    ensures same_reference { tx.new.conn.ghost_name ≡ tx.old.conn.ghost_name }
    ensures put { Steps S.Store (with_put_in put.now)
        tx.old.conn.now tx.new.conn.now result }
    ensures undone { Undoes S.Store tx.old.conn.now tx.new.conn.now result }
    ensures survives { CommitsNothing S.Store tx.old.conn.now tx.new.conn.now }
{
    let Some(row) = put else {
        return Ok(());
    };
    let hash = key_hash(row.key.as_str().as_bytes());
    let texts = Texts {
        op: row.op.as_str(),
        khash: hash.as_slice(),
        ckey: row.key.as_str(),
        cvalue: row.value.as_str(),
        result: row.result.as_str(),
    };
    let (finished, job) = (row.finished as i64, row.job as i64);
    put_result(tx, &texts, flag(row.fine), finished, job, flag(row.rebuild))?;
    Ok(())
}

fn log_if<S: Alter>(
    tx: &mut Transaction<'_, S>,
    log: &Option<(u64, ListOf<u8>)>,
) -> Result<(), Error>
    requires ready { IsReadyIn S.Store tx.old.conn.now }
    requires fits { IfSome log.now (λ e. Fits e.0) }
    ensures same_reference { tx.new.conn.ghost_name ≡ tx.old.conn.ghost_name }
    ensures logged { Steps S.Store (with_log_in log.now)
        tx.old.conn.now tx.new.conn.now result }
    ensures undone { Undoes S.Store tx.old.conn.now tx.new.conn.now result }
    ensures survives { CommitsNothing S.Store tx.old.conn.now tx.new.conn.now }
{
    let Some((job, output)) = log else {
        return Ok(());
    };
    add_log(tx, *job as i64, output.as_slice())?;
    Ok(())
}

/// The changes of a delta, inside a transaction.
fn make_changes<S: Alter>(tx: &mut Transaction<'_, S>, delta: &Delta) -> Result<(), Error>
    requires inside { IsInside S.Store tx.old.conn.now }
    requires database { HasDatabase S.Store tx.old.conn.now }
    requires fits { IsCommittable delta.now }
    ensures same_reference { tx.new.conn.ghost_name ≡ tx.old.conn.ghost_name }
    ensures made { MakesIn S.Store (with_delta delta.now)
        tx.old.conn.now tx.new.conn.now result }
    ensures kept { KeepsCommitIn S.Store tx.old.conn.now tx.new.conn.now }
    ensures survives { CommitsNothing S.Store tx.old.conn.now tx.new.conn.now }
{
    touch(tx, false)?;
    number(tx, delta.next as i64)?;
    put_if(tx, &delta.input)?;
    void_if(tx, &delta.void)?;
    file_if(tx, &delta.put)?;
    log_if(tx, &delta.log)
}

/// The same, with what the trees show after it.
fn make_delta<S: Alter>(tx: &mut Transaction<'_, S>, delta: &Delta) -> Result<(), Error>
    requires inside { IsInside S.Store tx.old.conn.now }
    requires database { HasDatabase S.Store tx.old.conn.now }
    requires fits { IsCommittable delta.now }
    ensures same_reference { tx.new.conn.ghost_name ≡ tx.old.conn.ghost_name }
    ensures made { MakesShown S.Store (with_delta delta.now)
        tx.old.conn.now tx.new.conn.now result }
    ensures kept { KeepsCommitIn S.Store tx.old.conn.now tx.new.conn.now }
    ensures survives { CommitsNothing S.Store tx.old.conn.now tx.new.conn.now }
{
    make_changes(tx, delta)
}

/// The whole delta as one transaction, or nothing of it.
fn commit_delta<S: Alter>(conn: &mut Connection<S>, delta: &Delta) -> Result<(), Error>
    requires idle { conn.old.in_transaction ≡ false }
    requires database { HasDatabase S.Store conn.old }
    requires fits { IsCommittable delta.now }
    ensures idle { conn.new.in_transaction ≡ false }
    ensures ok { OnceCommitted S.Store delta.now conn.old conn.new result }
    ensures err { FailsToCommit S.Store conn.old conn.new result }
    ensures stop { LeavesEitherIn S.Store delta.now conn.old conn.new }
    ensures clean { WasClean S.Store conn.old conn.new }
{
    let mut tx = conn.transaction();
    make_delta(&mut tx, delta)?;
    tx.commit()
}

/// The whole delta as one transaction. Out of memory, it is known that nothing of it was made.
pub(crate) fn commit<S: Alter>(conn: &mut Connection<S>, delta: &Delta) -> Result<(), Error>
    requires idle { conn.old.in_transaction ≡ false }
    requires database { HasDatabase S.Store conn.old }
    requires settled { IsSettled S.Store conn.old }
    requires fits { IsCommittable delta.now }
    ensures idle { conn.new.in_transaction ≡ false }
    ensures ok { OnceCommitted S.Store delta.now conn.old conn.new result }
    ensures err { FailsToCommit S.Store conn.old conn.new result }
    ensures stop { LeavesEitherIn S.Store delta.now conn.old conn.new }
    ensures spared { SparesIn S.Store conn.old conn.new result }
    ensures clean { WasClean S.Store conn.old conn.new }
{
    let done = commit_delta(conn, delta);
    match done {
        Err(Error::SqliteFailure(ErrorCode::OutOfMemory)) => {
            if is_live(conn, false) {
                Err(Error::SqliteFailure(ErrorCode::OutOfMemory))
            } else {
                Err(Error::SqliteFailure(ErrorCode::Closed))
            }
        }
        done => done,
    }
}

/// Whether the connection still runs a text.
pub(crate) fn is_live<S: Alter>(conn: &mut Connection<S>, is_old: bool) -> bool
    requires idle { conn.old.in_transaction ≡ false }
    requires database { HasStore S.Store is_old conn.old }
    ensures idle { conn.new.in_transaction ≡ false }
    ensures live { WasOpen S.Store conn.old conn.new result }
    ensures same { ShowsCommitted S.Store conn.old conn.new }
    ensures survives { CommitsNothing S.Store conn.old conn.new }
{
    let mut tx = conn.transaction();
    let ran = touch(&mut tx, is_old).is_ok();
    tx.rollback();
    ran
}
