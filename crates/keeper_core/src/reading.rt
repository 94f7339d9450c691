//! Loaded tables, read into what a session opens with.
ghost use Rattle.std.specs.Prelude.{◌≡◌, IfOk, None, map, option_copied, pos, true};
ghost use Rattle.std.specs.Ordering.{int_eq};
ghost use Rattle.std.specs.Str.{is_utf8};
ghost use Rattle.value_core.specs.Names.{is_name};
ghost use Rattle.value_core.specs.Texts.{no_nul};
ghost use Rattle.keeper_core.specs.Durables.{Reads, row_of, values_of};
ghost use Rattle.keeper_core.specs.Openings.{IsOpenableWithin};
ghost use Rattle.keeper_core.specs.inside.RowReads.{IsNextInput, ReadsRows};
ghost use Rattle.keeper_core.specs.WellFormed.{are_texts, first_refused, is_input, is_log};
ghost use Rattle.keeper_core.specs.WellFormed.{is_old_result, is_result, is_short_text, old_first_bad};
ghost use Rattle.keeper_core.specs.WellFormed.{value_in};

use crate::checking::{good_meta, is_input_name, is_log, is_old_result, is_result};
use crate::tables::{CacheRow, InputRow, MetaRow, OldCacheRow, OldTables, Table, Tables};
use core_rules::Durable;
use sched_rows::Row;
use std::alloc::{AllocError, Global};
use value_core::{ListOf, LiteralFault, NoMemory, Text, Value, read_literal};

/// Why tables aren't read.
#[derive(Clone, Copy, Debug, PartialEq, Eq)]
pub enum TableFault {
    /// This row, counted from 1 in its table, is the first that isn't well formed.
    BadRow(Table, u64),
    NoMemory,
}

/// Why the rows of one table aren't read.
#[derive(Clone, Copy, Debug, PartialEq, Eq)]
pub(crate) enum RowFault {
    /// The row of this number, counted from 1.
    Refused(u64),
    NoMemory,
}

impl From<AllocError> for RowFault {
    ghost use Rattle.keeper_core.specs.declared.reading.RowFault.TheVariants as fault;

    ghost from_gives = { λ _ e. e ≡ fault.NoMemory };

    fn from(_e: AllocError) -> RowFault {
        RowFault::NoMemory
    }
}

/// The text of bytes that are one.
fn text_of(alloc: Global, bytes: &[u8]) -> Result<Text, NoMemory>
    requires utf8 { is_utf8 bytes.now ≡ true }
    requires no_nul { no_nul bytes.now ≡ true }
    ensures { IfOk result (λ text. text ≡ bytes.now) }
{
    match str::from_utf8(bytes) {
        Ok(text) => Text::of(alloc, text),
        Err(_) => unreachable!(),
    }
}

fn stored_text(alloc: Global, bytes: &ListOf<u8>) -> Result<Text, NoMemory>
    requires { is_short_text 65536 bytes.now ≡ true }
    ensures { IfOk result (λ text. text ≡ bytes.now) }
{
    text_of(alloc, bytes.as_slice())
}

fn name_of(alloc: Global, bytes: &ListOf<u8>) -> Result<Text, NoMemory>
    requires { is_name bytes.now ≡ true }
    ensures { IfOk result (λ text. text ≡ bytes.now) }
{
    text_of(alloc, bytes.as_slice())
}

/// An input's name and value, if the row is well formed.
fn read_input(
    alloc: Global,
    before: Option<&InputRow>,
    row: &InputRow,
) -> Result<Option<(Text, Value)>, NoMemory>
    ensures { IfOk result (IsNextInput (option_copied before.entry) row.now) }
{
    if !is_input_name(before, row) {
        return Ok(None);
    }
    match read_literal(alloc, row.literal.as_slice()) {
        Ok(value) => Ok(Some((name_of(alloc, &row.name)?, value))),
        Err(LiteralFault::NotLiteral) => Ok(None),
        Err(LiteralFault::NoMemory) => Err(AllocError),
    }
}

/// The inputs' values by their names.
fn read_inputs(alloc: Global, rows: &[InputRow]) -> Result<ListOf<(Text, Value)>, RowFault>
    ensures { ReadsRows is_input values_of rows.now result }
{
    let mut inputs = ListOf::new(alloc);
    let mut before: Option<&InputRow> = None;
    let mut number = 1;
    for row in rows {
        let Some(input) = read_input(alloc, before, row)? else {
            return Err(RowFault::Refused(number));
        };
        inputs.push(input)?;
        before = Some(row);
        number += 1;
    }
    Ok(inputs)
}

/// Whether a column says yes.
fn is_yes(z: i64) -> bool
    ensures { result ≡ int_eq z (pos 1) }
{
    z == 1
}

/// The result that a row says.
fn read_row(alloc: Global, row: &CacheRow) -> Result<Row, NoMemory>
    requires op { is_name row.now.op ≡ true }
    requires key { is_short_text 65536 row.now.ckey ≡ true }
    requires texts { are_texts (value_in row.now) ≡ true }
    ensures { IfOk result (λ r. r ≡ row_of row.now) }
{
    Ok(Row {
        op: name_of(alloc, &row.op)?,
        key: stored_text(alloc, &row.ckey)?,
        value: stored_text(alloc, &row.cvalue)?,
        fine: is_yes(row.fine),
        result: stored_text(alloc, &row.result)?,
        finished: row.finished.unsigned_abs(),
        job: row.job.unsigned_abs(),
        rebuild: is_yes(row.rebuild),
    })
}

/// The results.
fn read_rows(alloc: Global, meta: &MetaRow, rows: &[CacheRow]) -> Result<ListOf<Row>, RowFault>
    ensures { ReadsRows (is_result meta.now.next_job) (map row_of) rows.now result }
{
    let mut results = ListOf::new(alloc);
    let mut before: Option<&CacheRow> = None;
    let mut number = 1;
    for row in rows {
        if !is_result(meta, before, row) {
            return Err(RowFault::Refused(number));
        }
        results.push(read_row(alloc, row)?)?;
        before = Some(row);
        number += 1;
    }
    Ok(results)
}

/// The first result of the first schema that isn't well formed.
fn refused_old_result(meta: &MetaRow, rows: &[OldCacheRow]) -> Option<u64>
    ensures { result ≡ first_refused (is_old_result meta.now.next_job) None 1 rows.now }
{
    let mut before: Option<&OldCacheRow> = None;
    let mut number = 1;
    for row in rows {
        if !is_old_result(meta, before, row) {
            return Some(number);
        }
        before = Some(row);
        number += 1;
    }
    None
}

/// The first log that isn't well formed.
fn refused_log(meta: &MetaRow, jobs: &[i64]) -> Option<u64>
    ensures { result ≡ first_refused (is_log meta.now.next_job) None 1 jobs.now }
{
    let mut number = 1;
    for job in jobs {
        if !is_log(meta, job) {
            return Some(number);
        }
        number += 1;
    }
    None
}

/// Reads loaded tables, or names their first row that isn't well formed. A session can open with
/// what is read.
pub fn read_tables(alloc: Global, tables: &Tables) -> Result<Durable, TableFault>
    ensures read { Reads tables.now result }
    ensures openable { IfOk result IsOpenableWithin }
{
    read_whole(alloc, tables)
}

fn read_whole(alloc: Global, tables: &Tables) -> Result<Durable, TableFault>
    ensures { Reads tables.now result }
{
    let Some(meta) = good_meta(tables.meta.as_slice(), 2) else {
        return Err(TableFault::BadRow(Table::Meta, 1));
    };
    let inputs = match read_inputs(alloc, tables.inputs.as_slice()) {
        Ok(inputs) => inputs,
        Err(RowFault::Refused(n)) => return Err(TableFault::BadRow(Table::Inputs, n)),
        Err(RowFault::NoMemory) => return Err(TableFault::NoMemory),
    };
    let rows = match read_rows(alloc, meta, tables.cache.as_slice()) {
        Ok(rows) => rows,
        Err(RowFault::Refused(n)) => return Err(TableFault::BadRow(Table::Cache, n)),
        Err(RowFault::NoMemory) => return Err(TableFault::NoMemory),
    };
    if let Some(n) = refused_log(meta, tables.logs.as_slice()) {
        return Err(TableFault::BadRow(Table::Logs, n));
    }
    Ok(Durable {
        inputs,
        rows,
        next: meta.next_job.unsigned_abs(),
    })
}

/// The first row of tables of the first schema that isn't well formed, counted from 1 in its table.
pub fn old_first_bad(alloc: Global, tables: &OldTables) -> Result<Option<(Table, u64)>, NoMemory>
    ensures { IfOk result (λ bad. bad ≡ old_first_bad tables.now) }
{
    let Some(meta) = good_meta(tables.meta.as_slice(), 1) else {
        return Ok(Some((Table::Meta, 1)));
    };
    match read_inputs(alloc, tables.inputs.as_slice()) {
        Ok(_) => {}
        Err(RowFault::Refused(n)) => return Ok(Some((Table::Inputs, n))),
        Err(RowFault::NoMemory) => return Err(AllocError),
    }
    if let Some(n) = refused_old_result(meta, tables.cache.as_slice()) {
        return Ok(Some((Table::Cache, n)));
    }
    match refused_log(meta, tables.logs.as_slice()) {
        Some(n) => Ok(Some((Table::Logs, n))),
        None => Ok(None),
    }
}
