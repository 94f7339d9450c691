//! The lines of results, and of a row that isn't well formed.
ghost use Rattle.std.specs.Prelude.{◌≡◌, IfOk};
ghost use Rattle.session_rules.specs.StoreTexts.{bad_row_line, is_set, number, outcome_word};
ghost use Rattle.session_rules.specs.StoreTexts.{rebuild_text, result_line, results_text};
ghost use Rattle.session_rules.specs.StoreTexts.{table_word, value_text};
ghost use Rattle.store_reports.specs.inside.Writers.{Adds, end_text, target_text};

use crate::writing::{write_number, write_quoted};
use keeper_core::{CacheRow, Table, Tables};
use report_text::row_line;
use std::alloc::Global;
use value_core::{ListOf, NoMemory};

/// Whether a column says yes.
pub(crate) fn is_set(flag: i64) -> bool
    ensures { result ≡ is_set flag }
{
    flag == 1
}

fn outcome_word(row: &CacheRow) -> &'static str
    ensures { result.now ≡ outcome_word row.now }
{
    if is_set(row.fine) { "ok" } else { "failed" }
}

fn rebuild_text(row: &CacheRow) -> &'static str
    ensures { result.now ≡ rebuild_text row.now }
{
    if is_set(row.rebuild) { " rebuild" } else { "" }
}

/// Writes a value after a space, unless it is empty.
fn write_value(out: &mut Vec<u8>, value: &[u8]) -> Result<(), NoMemory>
    ensures { Adds result out.old out.new (value_text value.now) }
{
    match value {
        [] => Ok(()),
        _ => {
            out.extend_from_slice(b" ")?;
            write_quoted(out, value)
        }
    }
}

/// Writes what was built or set.
fn write_target(out: &mut Vec<u8>, row: &CacheRow) -> Result<(), NoMemory>
    ensures { Adds result out.old out.new (target_text row.now) }
{
    out.extend_from_slice(row.op.as_slice())?;
    out.extend_from_slice(b" ")?;
    write_quoted(out, row.ckey.as_slice())?;
    write_value(out, row.cvalue.as_slice())
}

/// Writes which job finished, and when.
fn write_end(out: &mut Vec<u8>, row: &CacheRow) -> Result<(), NoMemory>
    ensures { Adds result out.old out.new (end_text row.now) }
{
    out.extend_from_slice(b" ")?;
    write_number(out, row.job.unsigned_abs())?;
    out.extend_from_slice(b" at ")?;
    write_number(out, row.finished.unsigned_abs())
}

fn write_result(out: &mut Vec<u8>, row: &CacheRow) -> Result<(), NoMemory>
    ensures { Adds result out.old out.new (result_line row.now) }
{
    write_target(out, row)?;
    out.extend_from_slice(b" ")?;
    out.extend_from_slice(outcome_word(row).as_bytes())?;
    write_end(out, row)?;
    out.extend_from_slice(rebuild_text(row).as_bytes())?;
    out.extend_from_slice(b"\n")
}

/// The line of each result.
#[tactic(auto, unfolding(session_rules::specs::StoreTexts::results_text))]
pub fn row_lines(alloc: Global, tables: &Tables) -> Result<ListOf<u8>, NoMemory>
    ensures { IfOk result (λ text. text ≡ results_text tables.now) }
{
    let mut out = Vec::new(alloc);
    for row in tables.cache.as_slice() {
        write_result(&mut out, row)?;
    }
    Ok(ListOf::from_vec(out))
}

fn table_word(table: Table) -> &'static str
    ensures { result.now ≡ table_word table }
{
    match table {
        Table::Meta => "meta",
        Table::Inputs => "inputs",
        Table::Cache => "cache",
        Table::Logs => "logs",
    }
}

/// The line of the first row that isn't well formed.
pub fn bad_row_line(alloc: Global, table: Table, number: u64) -> Result<ListOf<u8>, NoMemory>
    ensures { IfOk result (λ line. line ≡ bad_row_line (table, number)) }
{
    row_line(alloc, table_word(table), number)
}
