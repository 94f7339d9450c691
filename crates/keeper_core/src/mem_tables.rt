//! Tables in memory.
ghost use Rattle.std.specs.Prelude.{◌≡◌, IfOk, OnErr, OnOk, map, option_copied, pos};
ghost use Rattle.value_core.specs.Orders.{bytes_cmp};
ghost use Rattle.keeper_core.specs.Commits.{Fits, IsCommittable, with_delta, with_next};
ghost use Rattle.std.specs.Ordering.{int_cmp};
ghost use Rattle.keeper_core.specs.inside.EntryMaps.{IsInOrder, map_of};
ghost use Rattle.keeper_core.specs.Contents.{fresh, has_format, key_cmp, loaded, log_in};
ghost use Rattle.keeper_core.specs.Contents.{with_literal, with_meta_alone, with_output, with_result};
ghost use Rattle.keeper_core.specs.inside.TableEntries.{contents_of};

use crate::copying::{CopyIn, copy_all};
use crate::edits::Edits;
use crate::rows::{has_format, rows_of};
use crate::sorted::{Entry, get, put, put_if, remove_if, reserve_one};
use crate::tables::{CacheKey, CacheValue, MetaRow, Tables};
use core_rules::Delta;
use std::alloc::Global;
use std::marker::Model;
use value_core::{ListOf, NoMemory};

/// The first number that no column holds.
const COLUMN_LIMIT: u64 = 1 << 63;

/// The tables of the second schema, with the bytes of each log.
#[derive(Drop)]
pub struct MemTables {
    meta: Vec<MetaRow>,
    inputs: Vec<Entry<ListOf<u8>, ListOf<u8>>>,
    cache: Vec<Entry<CacheKey, CacheValue>>,
    logs: Vec<Entry<i64, ListOf<u8>>>,
}

impl Model for MemTables {
    ghost use Rattle.keeper_core.specs.Contents.{Contents, contents_code};

    ghost Value = { Contents };

    ghost coded = { contents_code };

    ghost use Rattle.keeper_core.specs.inside.TableEntries.{IsOrderly, contents_of};

    ghost view = { contents_of };

    ghost invariant = { IsOrderly };
}

/// Writes the next number.
fn number(meta: &mut [MetaRow], next: u64)
    requires { Fits next }
    ensures { meta.new ≡ map (with_next (pos next)) meta.old }
{
    for row in meta.iter_mut() {
        row.next_job = next as i64;
    }
}

/// The log of a job.
pub(crate) fn log_among(
    alloc: Global,
    logs: &[Entry<i64, ListOf<u8>>],
    job: u64,
) -> Result<Option<ListOf<u8>>, NoMemory>
    requires { IsInOrder int_cmp logs.now }
    ensures { IfOk result (λ log. log ≡ log_in (map_of int_cmp logs.now) job) }
{
    if COLUMN_LIMIT <= job {
        return Ok(None);
    }
    match get(logs, &(job as i64)) {
        Some(output) => Ok(Some(output.copy_in(alloc)?)),
        None => Ok(None),
    }
}

impl MemTables {
    /// The tables of a store that holds nothing yet.
    pub fn fresh(alloc: Global) -> Result<MemTables, NoMemory>
        ensures { IfOk result (λ tables. tables ≡ fresh) }
    {
        let mut meta = Vec::new(alloc);
        meta.push(MetaRow {
            id: 1,
            format: 2,
            next_job: 1,
        })?;
        Ok(MemTables::with_meta(alloc, meta))
    }

    /// Tables with these rows of `meta` and no others.
    pub fn with_meta(alloc: Global, meta: Vec<MetaRow>) -> MemTables
        ensures { result ≡ with_meta_alone meta.items }
    {
        MemTables {
            meta,
            inputs: Vec::new(alloc),
            cache: Vec::new(alloc),
            logs: Vec::new(alloc),
        }
    }

    /// The tables of these entries.
    pub(crate) fn of_entries(
        meta: Vec<MetaRow>,
        inputs: Vec<Entry<ListOf<u8>, ListOf<u8>>>,
        cache: Vec<Entry<CacheKey, CacheValue>>,
        logs: Vec<Entry<i64, ListOf<u8>>>,
    ) -> MemTables
        requires inputs { IsInOrder bytes_cmp inputs.items }
        requires cache { IsInOrder key_cmp cache.items }
        requires logs { IsInOrder int_cmp logs.items }
        ensures { result ≡ contents_of
            (record { meta = meta; inputs = inputs; cache = cache; logs = logs }) }
    {
        MemTables {
            meta,
            inputs,
            cache,
            logs,
        }
    }

    /// Puts an input's literal in, in place of the one of its name.
    pub fn put_input(&mut self, name: ListOf<u8>, literal: ListOf<u8>) -> Result<(), NoMemory>
        ensures ok { OnOk result (self.new ≡ with_literal name literal self.old) }
        ensures err { OnErr result (self.new ≡ self.old) }
    {
        reserve_one(&mut self.inputs)?;
        put(
            &mut self.inputs,
            Entry {
                key: name,
                value: literal,
            },
        );
        Ok(())
    }

    /// Puts a result in, in place of the one of its key.
    pub fn put_result(&mut self, key: CacheKey, value: CacheValue) -> Result<(), NoMemory>
        ensures ok { OnOk result (self.new ≡ with_result key value self.old) }
        ensures err { OnErr result (self.new ≡ self.old) }
    {
        reserve_one(&mut self.cache)?;
        put(&mut self.cache, Entry { key, value });
        Ok(())
    }

    /// Puts a job's log in, in place of the one of its number.
    pub fn put_log(&mut self, job: i64, output: ListOf<u8>) -> Result<(), NoMemory>
        ensures ok { OnOk result (self.new ≡ with_output job output self.old) }
        ensures err { OnErr result (self.new ≡ self.old) }
    {
        reserve_one(&mut self.logs)?;
        put(
            &mut self.logs,
            Entry {
                key: job,
                value: output,
            },
        );
        Ok(())
    }

    /// Equal tables.
    pub fn copy(&self, alloc: Global) -> Result<MemTables, NoMemory>
        ensures { IfOk result (λ tables. tables ≡ self.now) }
    {
        Ok(MemTables {
            meta: copy_all(alloc, self.meta.as_slice())?,
            inputs: copy_all(alloc, self.inputs.as_slice())?,
            cache: copy_all(alloc, self.cache.as_slice())?,
            logs: copy_all(alloc, self.logs.as_slice())?,
        })
    }

    /// Whether the format is that of the second schema.
    pub fn is_current(&self) -> bool
        ensures { result ≡ has_format (pos 2) self.now.meta }
    {
        has_format(self.meta.as_slice(), 2)
    }

    /// All rows where the format is that of the second schema, else those of `meta` alone.
    pub fn load(&self, alloc: Global) -> Result<Tables, NoMemory>
        ensures { IfOk result (λ tables. tables ≡ loaded self.now) }
    {
        let meta = ListOf::from_vec(copy_all(alloc, self.meta.as_slice())?);
        if !has_format(self.meta.as_slice(), 2) {
            return Ok(Tables {
                meta,
                inputs: ListOf::new(alloc),
                cache: ListOf::new(alloc),
                logs: ListOf::new(alloc),
            });
        }
        Ok(Tables {
            meta,
            inputs: rows_of(alloc, self.inputs.as_slice())?,
            cache: rows_of(alloc, self.cache.as_slice())?,
            logs: rows_of(alloc, self.logs.as_slice())?,
        })
    }

    /// The log of a job.
    pub fn log_of(&self, alloc: Global, job: u64) -> Result<Option<ListOf<u8>>, NoMemory>
        ensures { IfOk result (λ log. log ≡ log_in self.now.logs job) }
    {
        log_among(alloc, self.logs.as_slice(), job)
    }

    /// Makes all changes of a delta, or none.
    pub fn commit(&mut self, alloc: Global, delta: &Delta) -> Result<(), NoMemory>
        requires { IsCommittable delta.now }
        ensures ok { OnOk result (self.new ≡ with_delta delta.now self.old) }
        ensures err { OnErr result (self.new ≡ self.old) }
    {
        let Edits {
            input,
            void,
            put,
            log,
            next,
        } = Edits::of(alloc, delta)?;
        reserve_one(&mut self.inputs)?;
        reserve_one(&mut self.cache)?;
        reserve_one(&mut self.logs)?;
        put_if(&mut self.inputs, input);
        remove_if(&mut self.cache, void);
        put_if(&mut self.cache, put);
        put_if(&mut self.logs, log);
        number(self.meta.as_mut_slice(), next);
        Ok(())
    }
}
