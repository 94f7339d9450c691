//! Which rows are well formed.
ghost use Rattle.std.specs.Prelude.{◌≡◌, option_copied};
ghost use Rattle.std.specs.Option.{option_map};
ghost use Rattle.std.specs.Str.{bytes_eq};
ghost use Rattle.sha2.specs.Sha256.{sha256};
ghost use Rattle.value_core.specs.Orders.{bytes_cmp};
ghost use Rattle.sched_rows.specs.RowKeys.{row_key_cmp};
ghost use Rattle.keeper_core.specs.WellFormed.{are_columns, are_flags, are_numbers, are_texts};
ghost use Rattle.keeper_core.specs.WellFormed.{is_flag, is_input_name, is_job, is_key};
ghost use Rattle.keeper_core.specs.WellFormed.{is_old_result, is_result, is_short_text, is_within, key_in};
ghost use Rattle.keeper_core.specs.WellFormed.{name_of, old_key_in, old_value_in, rises_over};
ghost use Rattle.keeper_core.specs.WellFormed.{value_in};
ghost use Rattle.keeper_core.specs.inside.RowColumns.{FindsMeta, key_before, row_key_of, value_of};

use crate::hashing::key_hash;
use crate::tables::{CacheRow, InputRow, MetaRow, OldCacheRow};
use value_core::{TEXT_LIMIT, is_name, is_text};

/// The greatest number of a job, and one more.
const NEXT_LIMIT: i64 = 1 << 62;

/// The greatest time that a row can have finished at.
const TIME_LIMIT: i64 = 1 << 60;

/// The greatest number of bytes of a key under the first schema.
const OLD_KEY_LIMIT: usize = 4096;

/// Whether these are the bytes of a text of at most so many bytes.
pub(crate) fn is_short_text(bytes: &[u8], limit: usize) -> bool
    ensures { result ≡ is_short_text limit bytes.now }
{
    bytes.len() <= limit && is_text(bytes)
}

fn is_within(z: i64, low: i64, high: i64) -> bool
    ensures { result ≡ is_within low high z }
{
    low <= z && z <= high
}

fn is_flag(z: i64) -> bool
    ensures { result ≡ is_flag z }
{
    is_within(z, 0, 1)
}

fn is_job(job: i64, next: i64) -> bool
    ensures { result ≡ is_job next job }
{
    1 <= job && job < next
}

/// Whether bytes are above others.
fn is_above(bytes: &[u8], before: Option<&[u8]>) -> bool
    ensures { result ≡ rises_over bytes_cmp (option_copied before.entry) bytes.now }
{
    match before {
        Some(before) => before.cmp(bytes).is_lt(),
        None => true,
    }
}

/// The row of `meta`, if there is just one, of this format and with a next number.
pub(crate) fn good_meta(meta: &[MetaRow], format: i64) -> Option<&MetaRow>
    ensures { FindsMeta format meta.now (option_copied result) }
{
    let [row] = meta else {
        return None;
    };
    if row.format == format && is_within(row.next_job, 1, NEXT_LIMIT) {
        Some(row)
    } else {
        None
    }
}

/// Whether an input's name is well formed after the one before it.
pub(crate) fn is_input_name(before: Option<&InputRow>, row: &InputRow) -> bool
    ensures { result ≡ is_input_name (option_copied before.entry) row.now }
{
    let name = row.name.as_slice();
    is_name(name) && is_above(name, name_before(before))
}

fn name_before(before: Option<&InputRow>) -> Option<&[u8]>
    ensures { option_copied result ≡ option_map name_of (option_copied before.entry) }
{
    match before {
        Some(row) => Some(row.name.as_slice()),
        None => None,
    }
}

/// The columns of a result that aren't in its key.
#[derive(Clone, Copy)]
pub(crate) struct ValueColumns<'a> {
    pub cvalue: &'a [u8],
    pub fine: i64,
    pub result: &'a [u8],
    pub finished: i64,
    pub job: i64,
    pub rebuild: i64,
}

fn are_texts(columns: &ValueColumns) -> bool
    ensures { result ≡ are_texts (value_of columns.now) }
{
    is_short_text(columns.cvalue, TEXT_LIMIT) && is_short_text(columns.result, TEXT_LIMIT)
}

fn are_flags(columns: &ValueColumns) -> bool
    ensures { result ≡ are_flags (value_of columns.now) }
{
    is_flag(columns.fine) && is_flag(columns.rebuild)
}

fn are_numbers(next: i64, columns: &ValueColumns) -> bool
    ensures { result ≡ are_numbers next (value_of columns.now) }
{
    is_within(columns.finished, 0, TIME_LIMIT) && is_job(columns.job, next)
}

fn are_columns(meta: &MetaRow, columns: &ValueColumns) -> bool
    ensures { result ≡ are_columns meta.now.next_job (value_of columns.now) }
{
    are_texts(columns) && are_flags(columns) && are_numbers(meta.next_job, columns)
}

/// An operation and a key.
#[derive(Clone, Copy)]
pub(crate) struct KeyColumns<'a> {
    pub op: &'a [u8],
    pub ckey: &'a [u8],
}

/// Whether an operation and a key are above those before.
fn rises(before: Option<KeyColumns>, key: &KeyColumns) -> bool
    ensures { result ≡ rises_over row_key_cmp (key_before before.entry) (row_key_of key.now) }
{
    match before {
        Some(b) => b.op.cmp(key.op).then(b.ckey.cmp(key.ckey)).is_lt(),
        None => true,
    }
}

fn is_key(limit: usize, before: Option<KeyColumns>, key: &KeyColumns) -> bool
    ensures { result ≡ is_key limit (key_before before.entry) (row_key_of key.now) }
{
    is_name(key.op) && is_short_text(key.ckey, limit) && rises(before, key)
}

fn is_hash_of(hash: &[u8], bytes: &[u8]) -> bool
    ensures { result ≡ bytes_eq hash.now (sha256 bytes.now) }
{
    hash == key_hash(bytes).as_slice()
}

fn key_in(row: &CacheRow) -> KeyColumns
    ensures { row_key_of result ≡ key_in row.now }
{
    KeyColumns {
        op: row.op.as_slice(),
        ckey: row.ckey.as_slice(),
    }
}

fn key_of_last(before: Option<&CacheRow>) -> Option<KeyColumns>
    ensures { key_before result ≡ option_map key_in (option_copied before.entry) }
{
    match before {
        Some(row) => Some(key_in(row)),
        None => None,
    }
}

fn value_in(row: &CacheRow) -> ValueColumns
    ensures { value_of result ≡ value_in row.now }
{
    ValueColumns {
        cvalue: row.cvalue.as_slice(),
        fine: row.fine,
        result: row.result.as_slice(),
        finished: row.finished,
        job: row.job,
        rebuild: row.rebuild,
    }
}

/// Whether a result is well formed after the one before it.
pub(crate) fn is_result(meta: &MetaRow, before: Option<&CacheRow>, row: &CacheRow) -> bool
    ensures { result ≡ is_result meta.now.next_job (option_copied before.entry) row.now }
{
    is_key(TEXT_LIMIT, key_of_last(before), &key_in(row))
        && is_hash_of(row.khash.as_slice(), row.ckey.as_slice())
        && are_columns(meta, &value_in(row))
}

fn old_key_in(row: &OldCacheRow) -> KeyColumns
    ensures { row_key_of result ≡ old_key_in row.now }
{
    KeyColumns {
        op: row.op.as_slice(),
        ckey: row.ckey.as_slice(),
    }
}

fn old_key_of_last(before: Option<&OldCacheRow>) -> Option<KeyColumns>
    ensures { key_before result ≡ option_map old_key_in (option_copied before.entry) }
{
    match before {
        Some(row) => Some(old_key_in(row)),
        None => None,
    }
}

fn old_value_in(row: &OldCacheRow) -> ValueColumns
    ensures { value_of result ≡ old_value_in row.now }
{
    ValueColumns {
        cvalue: row.cvalue.as_slice(),
        fine: row.fine,
        result: row.result.as_slice(),
        finished: row.finished,
        job: row.job,
        rebuild: row.rebuild,
    }
}

/// Whether a result of the first schema is well formed after the one before it.
pub(crate) fn is_old_result(meta: &MetaRow, before: Option<&OldCacheRow>, row: &OldCacheRow) -> bool
    ensures { result ≡ is_old_result meta.now.next_job (option_copied before.entry) row.now }
{
    is_key(OLD_KEY_LIMIT, old_key_of_last(before), &old_key_in(row))
        && are_columns(meta, &old_value_in(row))
}

/// Whether a log's job has a number below the next one.
pub(crate) fn is_log(meta: &MetaRow, job: &i64) -> bool
    ensures { result ≡ is_job meta.now.next_job job.now }
{
    is_job(*job, meta.next_job)
}
