//! What is read of the tables, each inside a transaction.
ghost use Rattle.std.specs.Prelude.{◌≡◌, IfOk, false, pos};
ghost use Rattle.sqlite.specs.Given.{IsPlain};
ghost use Rattle.sqlite.specs.Listing.{understood};
ghost use Rattle.keeper_core.specs.Contents.{has_format, meta_rows};
ghost use Rattle.sql_keeper.specs.inside.Schemas.{schema_of};
ghost use Rattle.sql_keeper.specs.inside.ShownRows.{output_of};
ghost use Rattle.sql_keeper.specs.inside.Calls.{CommitsNothing, HasDatabase, HasStore};
ghost use Rattle.sql_keeper.specs.inside.Calls.{IsReadyForIn, IsReadyIn, IsSettled};
ghost use Rattle.sql_keeper.specs.inside.Calls.{KeepsCommitIn, LoadsStored, ReadsAs, SaysIn};
ghost use Rattle.sql_keeper.specs.inside.Calls.{ShowsCommitted, StaysIn, Undoes, input_rows};
ghost use Rattle.sql_keeper.specs.inside.Calls.{job_numbers, log_at, meta_of, output_at, rest_of};
ghost use Rattle.sql_keeper.specs.inside.Calls.{result_rows, says_second};

use crate::columns::{FromRow, read_rows};
use crate::statements::touch;
use keeper_core::{CacheRow, InputRow, MetaRow, Tables};
use sqlite::{Alter, Connection, Error, Row, Transaction, params};
use std::alloc::Global;
use value_core::ListOf;

/// The first number that no column holds.
const COLUMN_LIMIT: u64 = 1 << 63;

/// The number of the second schema.
const FORMAT: i64 = 2;

/// The first column of the first row, if there is one.
fn first_output(rows: &[Row]) -> Result<Option<ListOf<u8>>, Error>
    ensures { IfOk result (λ output. output ≡ output_of rows.now) }
{
    match rows {
        [] => Ok(None),
        [row, ..] => {
            let output: Vec<u8> = row.get(0)?;
            Ok(Some(ListOf::from_vec(output)))
        }
    }
}

/// The log of a job.
fn read_output<S: Alter>(
    tx: &mut Transaction<'_, S>,
    is_old: bool,
    job: i64,
) -> Result<Option<ListOf<u8>>, Error>
    requires { IsReadyForIn S.Store is_old tx.old.conn.now }
    ensures same_reference { tx.new.conn.ghost_name ≡ tx.old.conn.ghost_name }
    ensures log { ReadsAs S.Store (output_at job) tx.old.conn.now tx.new.conn.now result }
    ensures same { StaysIn S.Store is_old tx.old.conn.now tx.new.conn.now result }
    ensures undone { Undoes S.Store tx.old.conn.now tx.new.conn.now result }
    ensures survives { CommitsNothing S.Store tx.old.conn.now tx.new.conn.now }
{
    let _ = is_old;
    let rows = tx.query_all("SELECT output FROM logs WHERE job = ?1", params![job])?;
    first_output(rows.as_slice())
}

/// What the rows say that a query shows.
pub(crate) fn read_all<T: FromRow, S: Alter>(
    tx: &mut Transaction<'_, S>,
    alloc: Global,
    is_old: bool,
    query: &str,
) -> Result<ListOf<T>, Error>
    requires ready { IsReadyForIn S.Store is_old tx.old.conn.now }
    requires plain { IsPlain (understood (schema_of is_old) query.now) }
    ensures same_reference { tx.new.conn.ghost_name ≡ tx.old.conn.ghost_name }
    ensures says { SaysIn S.Store T.says query.now
        tx.old.conn.now tx.new.conn.now result }
    ensures same { StaysIn S.Store is_old tx.old.conn.now tx.new.conn.now result }
    ensures undone { Undoes S.Store tx.old.conn.now tx.new.conn.now result }
    ensures survives { CommitsNothing S.Store tx.old.conn.now tx.new.conn.now }
{
    let _ = is_old;
    let rows = tx.query_all(query, params![])?;
    read_rows(alloc, rows.as_slice())
}

/// The rows of `meta`.
pub(crate) fn read_meta<S: Alter>(
    tx: &mut Transaction<'_, S>,
    alloc: Global,
    is_old: bool,
) -> Result<ListOf<MetaRow>, Error>
    requires { IsReadyForIn S.Store is_old tx.old.conn.now }
    ensures same_reference { tx.new.conn.ghost_name ≡ tx.old.conn.ghost_name }
    ensures rows { ReadsAs S.Store meta_of tx.old.conn.now tx.new.conn.now result }
    ensures same { StaysIn S.Store is_old tx.old.conn.now tx.new.conn.now result }
    ensures undone { Undoes S.Store tx.old.conn.now tx.new.conn.now result }
    ensures survives { CommitsNothing S.Store tx.old.conn.now tx.new.conn.now }
{
    read_all(tx, alloc, is_old, "SELECT id, format, next_job FROM meta")
}

/// The inputs by name.
pub(crate) fn read_inputs<S: Alter>(
    tx: &mut Transaction<'_, S>,
    alloc: Global,
    is_old: bool,
) -> Result<ListOf<InputRow>, Error>
    requires { IsReadyForIn S.Store is_old tx.old.conn.now }
    ensures same_reference { tx.new.conn.ghost_name ≡ tx.old.conn.ghost_name }
    ensures rows { ReadsAs S.Store input_rows tx.old.conn.now tx.new.conn.now result }
    ensures same { StaysIn S.Store is_old tx.old.conn.now tx.new.conn.now result }
    ensures undone { Undoes S.Store tx.old.conn.now tx.new.conn.now result }
    ensures survives { CommitsNothing S.Store tx.old.conn.now tx.new.conn.now }
{
    read_all(
        tx,
        alloc,
        is_old,
        "SELECT name, literal FROM inputs ORDER BY name",
    )
}

/// The results by operation and key.
fn read_results<S: Alter>(
    tx: &mut Transaction<'_, S>,
    alloc: Global,
) -> Result<ListOf<CacheRow>, Error>
    requires { IsReadyIn S.Store tx.old.conn.now }
    ensures same_reference { tx.new.conn.ghost_name ≡ tx.old.conn.ghost_name }
    ensures rows { ReadsAs S.Store result_rows tx.old.conn.now tx.new.conn.now result }
    ensures same { StaysIn S.Store false tx.old.conn.now tx.new.conn.now result }
    ensures undone { Undoes S.Store tx.old.conn.now tx.new.conn.now result }
    ensures survives { CommitsNothing S.Store tx.old.conn.now tx.new.conn.now }
{
    read_all(
        tx,
        alloc,
        false,
        "SELECT op, khash, ckey, cvalue, fine, result, finished, job, rebuild FROM cache2 ORDER BY op, ckey, khash",
    )
}

/// The numbers of the jobs that have a log.
pub(crate) fn read_jobs<S: Alter>(
    tx: &mut Transaction<'_, S>,
    alloc: Global,
    is_old: bool,
) -> Result<ListOf<i64>, Error>
    requires { IsReadyForIn S.Store is_old tx.old.conn.now }
    ensures same_reference { tx.new.conn.ghost_name ≡ tx.old.conn.ghost_name }
    ensures rows { ReadsAs S.Store job_numbers tx.old.conn.now tx.new.conn.now result }
    ensures same { StaysIn S.Store is_old tx.old.conn.now tx.new.conn.now result }
    ensures undone { Undoes S.Store tx.old.conn.now tx.new.conn.now result }
    ensures survives { CommitsNothing S.Store tx.old.conn.now tx.new.conn.now }
{
    read_all(tx, alloc, is_old, "SELECT job FROM logs ORDER BY job")
}

/// Whether there is one row of `meta`, and it has the format of the second schema.
pub(crate) fn is_current(meta: &[MetaRow]) -> bool
    ensures { result ≡ has_format (pos 2) meta.now }
{
    match meta {
        [row] => row.format == FORMAT,
        _ => false,
    }
}

/// The rows of `meta` and no others.
fn meta_alone(alloc: Global, meta: ListOf<MetaRow>) -> Tables
    ensures { result ≡ meta_rows meta }
{
    Tables {
        meta,
        inputs: ListOf::new(alloc),
        cache: ListOf::new(alloc),
        logs: ListOf::new(alloc),
    }
}

/// All rows in order, after those of `meta`.
fn read_rest<S: Alter>(
    tx: &mut Transaction<'_, S>,
    alloc: Global,
    meta: ListOf<MetaRow>,
) -> Result<Tables, Error>
    requires { IsReadyIn S.Store tx.old.conn.now }
    ensures same_reference { tx.new.conn.ghost_name ≡ tx.old.conn.ghost_name }
    ensures rows { ReadsAs S.Store (rest_of meta) tx.old.conn.now tx.new.conn.now result }
    ensures kept { KeepsCommitIn S.Store tx.old.conn.now tx.new.conn.now }
    ensures survives { CommitsNothing S.Store tx.old.conn.now tx.new.conn.now }
{
    let inputs = read_inputs(tx, alloc, false)?;
    let cache = read_results(tx, alloc)?;
    let logs = read_jobs(tx, alloc, false)?;
    Ok(Tables {
        meta,
        inputs,
        cache,
        logs,
    })
}

/// All rows in order, or those of `meta` alone if the format isn't that of the second schema.
/// Tables of the first schema that have its number are refused.
fn read_tables<S: Alter>(
    tx: &mut Transaction<'_, S>,
    alloc: Global,
    is_old: bool,
) -> Result<Tables, Error>
    requires { IsReadyForIn S.Store is_old tx.old.conn.now }
    ensures same_reference { tx.new.conn.ghost_name ≡ tx.old.conn.ghost_name }
    ensures rows { LoadsStored S.Store is_old tx.old.conn.now tx.new.conn.now result }
    ensures kept { KeepsCommitIn S.Store tx.old.conn.now tx.new.conn.now }
    ensures survives { CommitsNothing S.Store tx.old.conn.now tx.new.conn.now }
{
    let meta = read_meta(tx, alloc, is_old)?;
    if !is_current(meta.as_slice()) {
        return Ok(meta_alone(alloc, meta));
    }
    if is_old {
        return Err(Error::InvalidQuery);
    }
    read_rest(tx, alloc, meta)
}

/// All rows in order, or those of `meta` alone if the format isn't that of the second schema.
pub(crate) fn load<S: Alter>(
    conn: &mut Connection<S>,
    alloc: Global,
    is_old: bool,
) -> Result<Tables, Error>
    requires idle { conn.old.in_transaction ≡ false }
    requires database { HasStore S.Store is_old conn.old }
    ensures idle { conn.new.in_transaction ≡ false }
    ensures rows { LoadsStored S.Store is_old conn.old conn.new result }
    ensures same { ShowsCommitted S.Store conn.old conn.new }
    ensures survives { CommitsNothing S.Store conn.old conn.new }
{
    let mut tx = conn.transaction();
    touch(&mut tx, is_old)?;
    read_tables(&mut tx, alloc, is_old)
}

/// The log of a job.
pub(crate) fn log_of<S: Alter>(
    conn: &mut Connection<S>,
    is_old: bool,
    job: u64,
) -> Result<Option<ListOf<u8>>, Error>
    requires idle { conn.old.in_transaction ≡ false }
    requires database { HasStore S.Store is_old conn.old }
    requires settled { IsSettled S.Store conn.old }
    ensures idle { conn.new.in_transaction ≡ false }
    ensures log { ReadsAs S.Store (log_at job) conn.old conn.new result }
    ensures same { ShowsCommitted S.Store conn.old conn.new }
    ensures survives { CommitsNothing S.Store conn.old conn.new }
{
    if COLUMN_LIMIT <= job {
        return Ok(None);
    }
    let mut tx = conn.transaction();
    touch(&mut tx, is_old)?;
    read_output(&mut tx, is_old, job as i64)
}

/// Whether the tables say that they are of the second schema.
pub(crate) fn says_current<S: Alter>(conn: &mut Connection<S>, alloc: Global) -> Result<bool, Error>
    requires idle { conn.old.in_transaction ≡ false }
    requires database { HasDatabase S.Store conn.old }
    ensures idle { conn.new.in_transaction ≡ false }
    ensures says { ReadsAs S.Store says_second conn.old conn.new result }
    ensures same { ShowsCommitted S.Store conn.old conn.new }
    ensures survives { CommitsNothing S.Store conn.old conn.new }
{
    let mut tx = conn.transaction();
    touch(&mut tx, false)?;
    let meta = read_meta(&mut tx, alloc, false)?;
    Ok(is_current(meta.as_slice()))
}
