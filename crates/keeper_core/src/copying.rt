//! Equal copies of what tables hold.
ghost use Rattle.std.specs.Prelude.{◌≡◌, IfOk};

use crate::sorted::Entry;
use crate::tables::{CacheKey, CacheValue, MetaRow, OldCacheKey};
use std::alloc::Global;
use value_core::{ListOf, NoMemory};

/// What can be copied, unless out of memory.
pub trait CopyIn: Drop {
    /// An equal one.
    fn copy_in(&self, alloc: Global) -> Result<Self, NoMemory>
    where
        Self: Sized,
        ensures { IfOk result (λ copy. copy ≡ self.now) };
}

/// A list of these bytes.
pub(crate) fn copy_bytes(alloc: Global, bytes: &[u8]) -> Result<ListOf<u8>, NoMemory>
    ensures { IfOk result (λ copy. copy ≡ bytes.now) }
{
    Ok(ListOf::from_vec(Vec::from_slice(alloc, bytes)?))
}

/// Equal items.
pub(crate) fn copy_all<T: CopyIn>(alloc: Global, items: &[T]) -> Result<Vec<T>, NoMemory>
    ensures { IfOk result (λ copies. copies.items ≡ items.now) }
{
    let mut copies = Vec::new(alloc);
    for item in items {
        copies.push(item.copy_in(alloc)?)?;
    }
    Ok(copies)
}

impl CopyIn for i64 {
    fn copy_in(&self, alloc: Global) -> Result<i64, NoMemory> {
        let _ = alloc;
        Ok(*self)
    }
}

impl CopyIn for MetaRow {
    fn copy_in(&self, alloc: Global) -> Result<MetaRow, NoMemory> {
        let _ = alloc;
        Ok(*self)
    }
}

impl CopyIn for ListOf<u8> {
    fn copy_in(&self, alloc: Global) -> Result<ListOf<u8>, NoMemory> {
        copy_bytes(alloc, self.as_slice())
    }
}

impl CopyIn for CacheKey {
    fn copy_in(&self, alloc: Global) -> Result<CacheKey, NoMemory> {
        Ok(CacheKey {
            op: self.op.copy_in(alloc)?,
            khash: self.khash.copy_in(alloc)?,
            ckey: self.ckey.copy_in(alloc)?,
        })
    }
}

impl CopyIn for OldCacheKey {
    fn copy_in(&self, alloc: Global) -> Result<OldCacheKey, NoMemory> {
        Ok(OldCacheKey {
            op: self.op.copy_in(alloc)?,
            ckey: self.ckey.copy_in(alloc)?,
        })
    }
}

impl CopyIn for CacheValue {
    fn copy_in(&self, alloc: Global) -> Result<CacheValue, NoMemory> {
        Ok(CacheValue {
            cvalue: self.cvalue.copy_in(alloc)?,
            fine: self.fine,
            result: self.result.copy_in(alloc)?,
            finished: self.finished,
            job: self.job,
            rebuild: self.rebuild,
        })
    }
}

impl<K: CopyIn, V: CopyIn> CopyIn for Entry<K, V> {
    fn copy_in(&self, alloc: Global) -> Result<Entry<K, V>, NoMemory> {
        Ok(Entry {
            key: self.key.copy_in(alloc)?,
            value: self.value.copy_in(alloc)?,
        })
    }
}
