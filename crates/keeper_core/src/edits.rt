//! What a delta puts and takes out, ready to be installed.
ghost use Rattle.std.specs.Prelude.{◌≡◌, IfOk, IfSome};
ghost use Rattle.keeper_core.specs.Commits.{Fits, IsCommittable, cache_key, flag, with_input};
ghost use Rattle.keeper_core.specs.Commits.{with_log, with_put, with_void};
ghost use Rattle.keeper_core.specs.inside.TableEntries.{IsEditOf};
ghost use Rattle.keeper_core.specs.inside.EntryMaps.{with_entry, without_key};
ghost use Rattle.keeper_core.specs.Contents.{Cache, Inputs, Logs};

use crate::copying::{CopyIn, copy_bytes};
use crate::hashing::key_hash;
use crate::sorted::Entry;
use crate::tables::{CacheKey, CacheValue};
use core_rules::Delta;
use sched_rows::Row;
use std::alloc::Global;
use value_core::{ListOf, NoMemory, Text};

/// The entries that a delta puts, the key that it takes out, and the next number.
#[derive(Drop)]
pub struct Edits {
    pub input: Option<Entry<ListOf<u8>, ListOf<u8>>>,
    pub void: Option<CacheKey>,
    pub put: Option<Entry<CacheKey, CacheValue>>,
    pub log: Option<Entry<i64, ListOf<u8>>>,
    pub next: u64,
}

/// The bytes of a text.
fn bytes_of(alloc: Global, text: &Text) -> Result<ListOf<u8>, NoMemory>
    ensures { IfOk result (λ bytes. bytes ≡ text.now) }
{
    copy_bytes(alloc, text.as_str().as_bytes())
}

/// The key of the results of an operation's name and a key.
fn key_of(alloc: Global, op: &Text, key: &Text) -> Result<CacheKey, NoMemory>
    ensures { IfOk result (λ k. k ≡ cache_key op.now key.now) }
{
    let hash = key_hash(key.as_str().as_bytes());
    Ok(CacheKey {
        op: bytes_of(alloc, op)?,
        khash: copy_bytes(alloc, &hash)?,
        ckey: bytes_of(alloc, key)?,
    })
}

/// A column that says yes or no.
fn flag(b: bool) -> i64
    ensures { result ≡ flag b }
{
    if b { 1 } else { 0 }
}

fn input_entry(
    alloc: Global,
    input: &Option<(Text, ListOf<u8>)>,
) -> Result<Option<Entry<ListOf<u8>, ListOf<u8>>>, NoMemory>
    ensures { IfOk result (λ e. (m : Inputs) → with_entry e m ≡ with_input input.now m) }
{
    match input {
        None => Ok(None),
        Some((name, literal)) => Ok(Some(Entry {
            key: bytes_of(alloc, name)?,
            value: literal.copy_in(alloc)?,
        })),
    }
}

fn void_key(alloc: Global, void: &Option<(Text, Text)>) -> Result<Option<CacheKey>, NoMemory>
    ensures { IfOk result (λ k. (m : Cache) → without_key k m ≡ with_void void.now m) }
{
    match void {
        None => Ok(None),
        Some((op, key)) => Ok(Some(key_of(alloc, op, key)?)),
    }
}

fn put_entry(
    alloc: Global,
    put: &Option<Row>,
) -> Result<Option<Entry<CacheKey, CacheValue>>, NoMemory>
    requires { IfSome put.now (λ r. Fits r.finished × Fits r.job) }
    ensures { IfOk result (λ e. (m : Cache) → with_entry e m ≡ with_put put.now m) }
{
    match put {
        None => Ok(None),
        Some(row) => Ok(Some(Entry {
            key: key_of(alloc, &row.op, &row.key)?,
            value: CacheValue {
                cvalue: bytes_of(alloc, &row.value)?,
                fine: flag(row.fine),
                result: bytes_of(alloc, &row.result)?,
                finished: row.finished as i64,
                job: row.job as i64,
                rebuild: flag(row.rebuild),
            },
        })),
    }
}

fn log_entry(
    alloc: Global,
    log: &Option<(u64, ListOf<u8>)>,
) -> Result<Option<Entry<i64, ListOf<u8>>>, NoMemory>
    requires { IfSome log.now (λ e. Fits e.0) }
    ensures { IfOk result (λ e. (m : Logs) → with_entry e m ≡ with_log log.now m) }
{
    match log {
        None => Ok(None),
        Some((job, output)) => Ok(Some(Entry {
            key: *job as i64,
            value: output.copy_in(alloc)?,
        })),
    }
}

impl Edits {
    /// The edits that make a delta's changes.
    pub fn of(alloc: Global, delta: &Delta) -> Result<Edits, NoMemory>
        requires { IsCommittable delta.now }
        ensures { IfOk result (λ edits. IsEditOf delta.now edits) }
    {
        Ok(Edits {
            input: input_entry(alloc, &delta.input)?,
            void: void_key(alloc, &delta.void)?,
            put: put_entry(alloc, &delta.put)?,
            log: log_entry(alloc, &delta.log)?,
            next: delta.next,
        })
    }
}
