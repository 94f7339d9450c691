//! Tables of the first schema in memory.
ghost use Rattle.std.specs.Prelude.{◌≡◌, IfOk, OnErr, OnOk, length, map, pos};
ghost use Rattle.std.specs.FinMap.{entries};
ghost use Rattle.keeper_core.specs.Migrations.{moved, with_format};
ghost use Rattle.keeper_core.specs.inside.HashedEntries.{hashed_entry};
ghost use Rattle.keeper_core.specs.Contents.{has_format, log_in, old_rows, old_with_literal};
ghost use Rattle.keeper_core.specs.Contents.{old_with_meta_alone, old_with_output, old_with_result};

use crate::copying::{CopyIn, copy_all, copy_bytes};
use crate::hashing::key_hash;
use crate::mem_tables::{MemTables, log_among};
use crate::rows::{has_format, rows_of};
use crate::sorted::{Entry, put, reserve_one};
use crate::tables::{CacheKey, CacheValue, MetaRow, OldCacheKey, OldTables};
use std::alloc::Global;
use std::marker::Model;
use value_core::{ListOf, NoMemory};

/// The tables of the first schema, with the bytes of each log.
#[derive(Drop)]
pub struct OldMemTables {
    meta: Vec<MetaRow>,
    inputs: Vec<Entry<ListOf<u8>, ListOf<u8>>>,
    cache: Vec<Entry<OldCacheKey, CacheValue>>,
    logs: Vec<Entry<i64, ListOf<u8>>>,
}

impl Model for OldMemTables {
    ghost use Rattle.keeper_core.specs.Contents.{OldContents, old_contents_code};

    ghost Value = { OldContents };

    ghost coded = { old_contents_code };

    ghost use Rattle.keeper_core.specs.inside.TableEntries.{IsOldOrderly, old_contents_of};

    ghost view = { old_contents_of };

    ghost invariant = { IsOldOrderly };
}

/// Equal rows of `meta`, under the second schema.
fn moved_meta(alloc: Global, rows: &[MetaRow]) -> Result<Vec<MetaRow>, NoMemory>
    ensures { IfOk result (λ new. new.items ≡ map with_format rows.now) }
{
    let mut moved = Vec::new(alloc);
    for row in rows {
        moved.push(MetaRow { format: 2, ..*row })?;
    }
    Ok(moved)
}

/// A result under its key with its hash.
fn hashed_entry(
    alloc: Global,
    entry: &Entry<OldCacheKey, CacheValue>,
) -> Result<Entry<CacheKey, CacheValue>, NoMemory>
    ensures { IfOk result (λ e. e ≡ hashed_entry entry.now) }
{
    let hash = key_hash(entry.key.ckey.as_slice());
    Ok(Entry {
        key: CacheKey {
            op: entry.key.op.copy_in(alloc)?,
            khash: copy_bytes(alloc, &hash)?,
            ckey: entry.key.ckey.copy_in(alloc)?,
        },
        value: entry.value.copy_in(alloc)?,
    })
}

/// All results under their keys with their hashes.
fn hashed_entries(
    alloc: Global,
    entries: &[Entry<OldCacheKey, CacheValue>],
) -> Result<Vec<Entry<CacheKey, CacheValue>>, NoMemory>
    ensures { IfOk result (λ es. es.items ≡ map hashed_entry entries.now) }
{
    let mut hashed = Vec::new(alloc);
    for entry in entries {
        hashed.push(hashed_entry(alloc, entry)?)?;
    }
    Ok(hashed)
}

impl OldMemTables {
    /// Tables with these rows of `meta` and no others.
    pub fn with_meta(alloc: Global, meta: Vec<MetaRow>) -> OldMemTables
        ensures { result ≡ old_with_meta_alone meta.items }
    {
        OldMemTables {
            meta,
            inputs: Vec::new(alloc),
            cache: Vec::new(alloc),
            logs: Vec::new(alloc),
        }
    }

    /// Puts an input's literal in, in place of the one of its name.
    pub fn put_input(&mut self, name: ListOf<u8>, literal: ListOf<u8>) -> Result<(), NoMemory>
        ensures ok { OnOk result (self.new ≡ old_with_literal name literal self.old) }
        ensures err { OnErr result (self.new ≡ self.old) }
    {
        reserve_one(&mut self.inputs)?;
        put(
            &mut self.inputs,
            Entry {
                key: name,
                value: literal,
            },
        );
        Ok(())
    }

    /// Puts a result in, in place of the one of its key.
    pub fn put_result(&mut self, key: OldCacheKey, value: CacheValue) -> Result<(), NoMemory>
        ensures ok { OnOk result (self.new ≡ old_with_result key value self.old) }
        ensures err { OnErr result (self.new ≡ self.old) }
    {
        reserve_one(&mut self.cache)?;
        put(&mut self.cache, Entry { key, value });
        Ok(())
    }

    /// Puts a job's log in, in place of the one of its number.
    pub fn put_log(&mut self, job: i64, output: ListOf<u8>) -> Result<(), NoMemory>
        ensures ok { OnOk result (self.new ≡ old_with_output job output self.old) }
        ensures err { OnErr result (self.new ≡ self.old) }
    {
        reserve_one(&mut self.logs)?;
        put(
            &mut self.logs,
            Entry {
                key: job,
                value: output,
            },
        );
        Ok(())
    }

    /// Equal tables.
    pub fn copy(&self, alloc: Global) -> Result<OldMemTables, NoMemory>
        ensures { IfOk result (λ tables. tables ≡ self.now) }
    {
        Ok(OldMemTables {
            meta: copy_all(alloc, self.meta.as_slice())?,
            inputs: copy_all(alloc, self.inputs.as_slice())?,
            cache: copy_all(alloc, self.cache.as_slice())?,
            logs: copy_all(alloc, self.logs.as_slice())?,
        })
    }

    /// Equal rows of `meta`.
    pub fn meta_rows(&self, alloc: Global) -> Result<ListOf<MetaRow>, NoMemory>
        ensures { IfOk result (λ rows. rows ≡ self.now.meta) }
    {
        Ok(ListOf::from_vec(copy_all(alloc, self.meta.as_slice())?))
    }

    /// Whether the format is that of the second schema, which isn't that of these tables.
    pub fn claims_current(&self) -> bool
        ensures { result ≡ has_format (pos 2) self.now.meta }
    {
        has_format(self.meta.as_slice(), 2)
    }

    /// How many results there are.
    pub fn results(&self) -> usize
        ensures { result ≡ length (entries self.now.cache) }
    {
        self.cache.len()
    }

    /// All rows.
    pub fn load(&self, alloc: Global) -> Result<OldTables, NoMemory>
        ensures { IfOk result (λ tables. tables ≡ old_rows self.now) }
    {
        Ok(OldTables {
            meta: ListOf::from_vec(copy_all(alloc, self.meta.as_slice())?),
            inputs: rows_of(alloc, self.inputs.as_slice())?,
            cache: rows_of(alloc, self.cache.as_slice())?,
            logs: rows_of(alloc, self.logs.as_slice())?,
        })
    }

    /// The log of a job.
    pub fn log_of(&self, alloc: Global, job: u64) -> Result<Option<ListOf<u8>>, NoMemory>
        ensures { IfOk result (λ log. log ≡ log_in self.now.logs job) }
    {
        log_among(alloc, self.logs.as_slice(), job)
    }

    /// The same under the second schema.
    pub fn moved(&self, alloc: Global) -> Result<MemTables, NoMemory>
        ensures { IfOk result (λ tables. tables ≡ moved self.now) }
    {
        let meta = moved_meta(alloc, self.meta.as_slice())?;
        let inputs = copy_all(alloc, self.inputs.as_slice())?;
        let cache = hashed_entries(alloc, self.cache.as_slice())?;
        let logs = copy_all(alloc, self.logs.as_slice())?;
        Ok(MemTables::of_entries(meta, inputs, cache, logs))
    }
}
