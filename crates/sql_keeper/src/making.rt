//! The tables of a store that has none.
ghost use Rattle.std.specs.Prelude.{◌≡◌, false};
ghost use Rattle.sql_keeper.specs.inside.Schemas.{keeper_schema, no_schema};
ghost use Rattle.sql_keeper.specs.inside.Fresh.{cache_schema, inputs_schema, meta_schema};
ghost use Rattle.sql_keeper.specs.inside.Calls.{AddsTable, CommitsNothing, Fills, IsBlankIn};
ghost use Rattle.sql_keeper.specs.inside.Calls.{IsMakingIn, KeepsCommitIn, OnceMade, Undoes};
ghost use Rattle.sql_keeper.specs.inside.Calls.{WasClean};

use sqlite::{Alter, Connection, Error, Transaction};

fn make_meta<S: Alter>(tx: &mut Transaction<'_, S>) -> Result<usize, Error>
    requires { IsMakingIn S.Store no_schema tx.old.conn.now }
    ensures same_reference { tx.new.conn.ghost_name ≡ tx.old.conn.ghost_name }
    ensures made { AddsTable S.Store meta_schema tx.old.conn.now tx.new.conn.now result }
    ensures undone { Undoes S.Store tx.old.conn.now tx.new.conn.now result }
    ensures survives { CommitsNothing S.Store tx.old.conn.now tx.new.conn.now }
{
    tx.execute(
        "CREATE TABLE meta (id INTEGER NOT NULL PRIMARY KEY CHECK (id = 1), format INTEGER NOT NULL, next_job INTEGER NOT NULL) STRICT",
        &[],
    )
}

fn make_inputs<S: Alter>(tx: &mut Transaction<'_, S>) -> Result<usize, Error>
    requires { IsMakingIn S.Store meta_schema tx.old.conn.now }
    ensures same_reference { tx.new.conn.ghost_name ≡ tx.old.conn.ghost_name }
    ensures made { AddsTable S.Store inputs_schema tx.old.conn.now tx.new.conn.now result }
    ensures undone { Undoes S.Store tx.old.conn.now tx.new.conn.now result }
    ensures survives { CommitsNothing S.Store tx.old.conn.now tx.new.conn.now }
{
    tx.execute(
        "CREATE TABLE inputs (name TEXT NOT NULL PRIMARY KEY, literal TEXT NOT NULL) STRICT",
        &[],
    )
}

fn make_cache<S: Alter>(tx: &mut Transaction<'_, S>) -> Result<usize, Error>
    requires { IsMakingIn S.Store inputs_schema tx.old.conn.now }
    ensures same_reference { tx.new.conn.ghost_name ≡ tx.old.conn.ghost_name }
    ensures made { AddsTable S.Store cache_schema tx.old.conn.now tx.new.conn.now result }
    ensures undone { Undoes S.Store tx.old.conn.now tx.new.conn.now result }
    ensures survives { CommitsNothing S.Store tx.old.conn.now tx.new.conn.now }
{
    tx.execute(
        "CREATE TABLE cache2 (op TEXT NOT NULL, khash BLOB NOT NULL, ckey TEXT NOT NULL, cvalue TEXT NOT NULL, fine INTEGER NOT NULL, result TEXT NOT NULL, finished INTEGER NOT NULL, job INTEGER NOT NULL, rebuild INTEGER NOT NULL, PRIMARY KEY (op, khash, ckey)) STRICT",
        &[],
    )
}

fn make_logs<S: Alter>(tx: &mut Transaction<'_, S>) -> Result<usize, Error>
    requires { IsMakingIn S.Store cache_schema tx.old.conn.now }
    ensures same_reference { tx.new.conn.ghost_name ≡ tx.old.conn.ghost_name }
    ensures made { AddsTable S.Store keeper_schema tx.old.conn.now tx.new.conn.now result }
    ensures undone { Undoes S.Store tx.old.conn.now tx.new.conn.now result }
    ensures survives { CommitsNothing S.Store tx.old.conn.now tx.new.conn.now }
{
    tx.execute(
        "CREATE TABLE logs (job INTEGER NOT NULL PRIMARY KEY, output BLOB NOT NULL) STRICT",
        &[],
    )
}

/// The row of `meta`.
fn fill_meta<S: Alter>(tx: &mut Transaction<'_, S>) -> Result<usize, Error>
    requires { IsMakingIn S.Store keeper_schema tx.old.conn.now }
    ensures same_reference { tx.new.conn.ghost_name ≡ tx.old.conn.ghost_name }
    ensures filled { Fills S.Store tx.old.conn.now tx.new.conn.now result }
    ensures undone { Undoes S.Store tx.old.conn.now tx.new.conn.now result }
    ensures survives { CommitsNothing S.Store tx.old.conn.now tx.new.conn.now }
{
    tx.execute("INSERT INTO meta VALUES (1, 2, 1)", &[])
}

/// Makes the tables, and what a fresh store has in them, inside a transaction.
pub(crate) fn make_all<S: Alter>(tx: &mut Transaction<'_, S>) -> Result<(), Error>
    requires { IsMakingIn S.Store no_schema tx.old.conn.now }
    ensures same_reference { tx.new.conn.ghost_name ≡ tx.old.conn.ghost_name }
    ensures filled { Fills S.Store tx.old.conn.now tx.new.conn.now result }
    ensures kept { KeepsCommitIn S.Store tx.old.conn.now tx.new.conn.now }
    ensures survives { CommitsNothing S.Store tx.old.conn.now tx.new.conn.now }
{
    make_meta(tx)?;
    make_inputs(tx)?;
    make_cache(tx)?;
    make_logs(tx)?;
    fill_meta(tx)?;
    Ok(())
}

/// Makes the tables, and what a fresh store has in them, as one.
pub(crate) fn make_tables<S: Alter>(conn: &mut Connection<S>) -> Result<(), Error>
    requires idle { conn.old.in_transaction ≡ false }
    requires blank { IsBlankIn S.Store conn.old }
    ensures idle { conn.new.in_transaction ≡ false }
    ensures made { OnceMade S.Store conn.new result }
    ensures clean { WasClean S.Store conn.old conn.new }
{
    let mut tx = conn.transaction();
    make_all(&mut tx)?;
    tx.commit()
}
