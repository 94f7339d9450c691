//! The lines of how much is stored.
ghost use Rattle.std.specs.Prelude.{◌≡◌, IfOk, length, nat_abs};
ghost use Rattle.keeper_core.specs.WellFormed.{next_of};
ghost use Rattle.session_rules.specs.StoreTexts.{count_line, stats_text};
ghost use Rattle.store_reports.specs.inside.Writers.{Adds, failed_rows};

use crate::rows::is_set;
use crate::writing::write_number;
use keeper_core::{CacheRow, MetaRow, Tables};
use std::alloc::Global;
use value_core::{ListOf, NoMemory};

/// Writes a word and a number.
#[tactic(auto, unfolding(session_rules::specs::StoreTexts::count_line))]
fn write_count(out: &mut Vec<u8>, word: &str, n: u64) -> Result<(), NoMemory>
    ensures { Adds result out.old out.new (count_line word.now n) }
{
    out.extend_from_slice(word.as_bytes())?;
    out.extend_from_slice(b" ")?;
    write_number(out, n)?;
    out.extend_from_slice(b"\n")
}

fn failed_count(rows: &[CacheRow]) -> usize
    ensures { result ≡ length (failed_rows rows.now) }
{
    rows.iter().filter(|row| !is_set(row.fine)).count()
}

fn next_number(meta: &[MetaRow]) -> u64
    ensures { result ≡ nat_abs (next_of meta.now) }
{
    match meta {
        [] => 1,
        [row, ..] => row.next_job.unsigned_abs(),
    }
}

/// How many results there are and how many of them failed, how many logs, and the next number.
#[tactic(auto, unfolding(session_rules::specs::StoreTexts::stats_text))]
pub fn stats_lines(alloc: Global, tables: &Tables) -> Result<ListOf<u8>, NoMemory>
    ensures { IfOk result (λ text. text ≡ stats_text tables.now) }
{
    let mut out = Vec::new(alloc);
    write_count(&mut out, "rows", tables.cache.len() as u64)?;
    write_count(
        &mut out,
        "failed",
        failed_count(tables.cache.as_slice()) as u64,
    )?;
    write_count(&mut out, "logs", tables.logs.len() as u64)?;
    write_count(&mut out, "next", next_number(tables.meta.as_slice()))?;
    Ok(ListOf::from_vec(out))
}
