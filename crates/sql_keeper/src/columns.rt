//! Rows of an answer as rows of the tables.
ghost use Rattle.std.specs.Prelude.{◌≡◌, List, IfOk, map};
ghost use Rattle.sqlite.specs.Edit.{id_in};
ghost use Rattle.sqlite.specs.Order.{bytes, column};
ghost use Rattle.sqlite.specs.declared.types.Value.{Value as SqlValue};
ghost use Rattle.sqlite.specs.declared.types.Value.TheVariants.{Text};
ghost use Rattle.sql_keeper.specs.inside.ShownRows.{input_shown, job_shown, log_row_shown};
ghost use Rattle.sql_keeper.specs.inside.ShownRows.{meta_shown};
ghost use Rattle.sql_keeper.specs.inside.ShownRows.{old_result_shown, result_shown};

use keeper_core::{CacheRow, InputRow, MetaRow, OldCacheRow};
use sqlite::types::{FromSql, FromSqlError, ValueRef};
use sqlite::{Error, Row};
use std::alloc::Global;
use value_core::ListOf;

/// The bytes of a text, which need not be UTF-8.
#[derive(Drop)]
struct TextBytes {
    bytes: ListOf<u8>,
}

impl FromSql for TextBytes {
    ghost reads_as = { λ v t. v ≡ Text t.bytes };

    ghost is_readable = { λ v. (t : _) × (v ≡ Text t) };

    fn column_result(alloc: Global, value: ValueRef<'_>) -> Result<TextBytes, FromSqlError> {
        match value {
            ValueRef::Text(text) => Ok(TextBytes {
                bytes: ListOf::from_vec(Vec::from_slice(alloc, text)?),
            }),
            _ => Err(FromSqlError::InvalidType),
        }
    }
}

fn text(row: &Row, at: usize) -> Result<ListOf<u8>, Error>
    ensures { IfOk result (λ t. t ≡ bytes (column row.now at)) }
{
    let text: TextBytes = row.get(at)?;
    Ok(text.bytes)
}

fn blob(row: &Row, at: usize) -> Result<ListOf<u8>, Error>
    ensures { IfOk result (λ b. b ≡ bytes (column row.now at)) }
{
    let blob: Vec<u8> = row.get(at)?;
    Ok(ListOf::from_vec(blob))
}

fn number(row: &Row, at: usize) -> Result<i64, Error>
    ensures { IfOk result (λ n. n ≡ id_in (column row.now at)) }
{
    row.get(at)
}

/// What a row of an answer says.
pub(crate) trait FromRow: Drop + Sized {
    ghost says: { List SqlValue → Self };

    fn from_row(row: &Row) -> Result<Self, Error>
        ensures { IfOk result (λ x. x ≡ says row.now) };
}

/// What the rows of an answer say, in their order.
pub(crate) fn read_rows<T: FromRow>(alloc: Global, rows: &[Row]) -> Result<ListOf<T>, Error>
    ensures { IfOk result (λ list. list ≡ map T.says rows.now) }
{
    let mut list = ListOf::new(alloc);
    for row in rows {
        list.push(T::from_row(row)?)?;
    }
    Ok(list)
}

impl FromRow for MetaRow {
    ghost says = { meta_shown };

    fn from_row(row: &Row) -> Result<MetaRow, Error> {
        Ok(MetaRow {
            id: number(row, 0)?,
            format: number(row, 1)?,
            next_job: number(row, 2)?,
        })
    }
}

impl FromRow for InputRow {
    ghost says = { input_shown };

    fn from_row(row: &Row) -> Result<InputRow, Error> {
        Ok(InputRow {
            name: text(row, 0)?,
            literal: text(row, 1)?,
        })
    }
}

impl FromRow for CacheRow {
    ghost says = { result_shown };

    fn from_row(row: &Row) -> Result<CacheRow, Error> {
        Ok(CacheRow {
            op: text(row, 0)?,
            khash: blob(row, 1)?,
            ckey: text(row, 2)?,
            cvalue: text(row, 3)?,
            fine: number(row, 4)?,
            result: text(row, 5)?,
            finished: number(row, 6)?,
            job: number(row, 7)?,
            rebuild: number(row, 8)?,
        })
    }
}

impl FromRow for OldCacheRow {
    ghost says = { old_result_shown };

    fn from_row(row: &Row) -> Result<OldCacheRow, Error> {
        Ok(OldCacheRow {
            op: text(row, 0)?,
            ckey: text(row, 1)?,
            cvalue: text(row, 2)?,
            fine: number(row, 3)?,
            result: text(row, 4)?,
            finished: number(row, 5)?,
            job: number(row, 6)?,
            rebuild: number(row, 7)?,
        })
    }
}

/// A log with its job's number.
#[derive(Drop)]
pub(crate) struct LogRow {
    pub job: i64,
    pub output: ListOf<u8>,
}

impl FromRow for LogRow {
    ghost says = { log_row_shown };

    fn from_row(row: &Row) -> Result<LogRow, Error> {
        Ok(LogRow {
            job: number(row, 0)?,
            output: blob(row, 1)?,
        })
    }
}

/// Of a log the job's number alone.
impl FromRow for i64 {
    ghost says = { job_shown };

    fn from_row(row: &Row) -> Result<i64, Error> {
        number(row, 0)
    }
}
