//! Entries as the rows that are loaded.
ghost use Rattle.std.specs.Prelude.{◌≡◌, IfOk, map, pos};
ghost use Rattle.keeper_core.specs.inside.EntryMaps.{pair_of};
ghost use Rattle.keeper_core.specs.Contents.{cache_row, has_format, input_row, old_cache_row};

use crate::copying::CopyIn;
use crate::sorted::Entry;
use crate::tables::{CacheKey, CacheRow, CacheValue, InputRow, MetaRow, OldCacheKey, OldCacheRow};
use std::alloc::Global;
use value_core::{ListOf, NoMemory};

/// What is loaded as a row.
pub trait ToRow {
    type Row: Drop;

    /// The row.
    ghost loaded_row: { Self → Self.Row };

    fn to_row(&self, alloc: Global) -> Result<Self::Row, NoMemory>
        ensures { IfOk result (λ r. r ≡ loaded_row self.now) };
}

/// The rows of entries, in their order.
pub(crate) fn rows_of<T: ToRow>(alloc: Global, entries: &[T]) -> Result<ListOf<T::Row>, NoMemory>
    ensures { IfOk result (λ rows. rows ≡ map T.loaded_row entries.now) }
{
    let mut rows = ListOf::new(alloc);
    for entry in entries {
        rows.push(entry.to_row(alloc)?)?;
    }
    Ok(rows)
}

/// Whether there is one row of `meta`, and it has this format.
pub(crate) fn has_format(meta: &[MetaRow], format: i64) -> bool
    ensures { result ≡ has_format format meta.now }
{
    match meta {
        [row] => row.format == format,
        _ => false,
    }
}

impl ToRow for Entry<ListOf<u8>, ListOf<u8>> {
    type Row = InputRow;

    ghost loaded_row = { λ e. input_row (pair_of e) };

    fn to_row(&self, alloc: Global) -> Result<InputRow, NoMemory> {
        Ok(InputRow {
            name: self.key.copy_in(alloc)?,
            literal: self.value.copy_in(alloc)?,
        })
    }
}

impl ToRow for Entry<CacheKey, CacheValue> {
    type Row = CacheRow;

    ghost loaded_row = { λ e. cache_row (pair_of e) };

    fn to_row(&self, alloc: Global) -> Result<CacheRow, NoMemory> {
        let Entry { key, value } = self;
        Ok(CacheRow {
            op: key.op.copy_in(alloc)?,
            khash: key.khash.copy_in(alloc)?,
            ckey: key.ckey.copy_in(alloc)?,
            cvalue: value.cvalue.copy_in(alloc)?,
            fine: value.fine,
            result: value.result.copy_in(alloc)?,
            finished: value.finished,
            job: value.job,
            rebuild: value.rebuild,
        })
    }
}

impl ToRow for Entry<OldCacheKey, CacheValue> {
    type Row = OldCacheRow;

    ghost loaded_row = { λ e. old_cache_row (pair_of e) };

    fn to_row(&self, alloc: Global) -> Result<OldCacheRow, NoMemory> {
        let Entry { key, value } = self;
        Ok(OldCacheRow {
            op: key.op.copy_in(alloc)?,
            ckey: key.ckey.copy_in(alloc)?,
            cvalue: value.cvalue.copy_in(alloc)?,
            fine: value.fine,
            result: value.result.copy_in(alloc)?,
            finished: value.finished,
            job: value.job,
            rebuild: value.rebuild,
        })
    }
}

/// Of a log the job's number alone.
impl ToRow for Entry<i64, ListOf<u8>> {
    type Row = i64;

    ghost loaded_row = { λ e. e.key };

    fn to_row(&self, alloc: Global) -> Result<i64, NoMemory> {
        let _ = alloc;
        Ok(self.key)
    }
}
