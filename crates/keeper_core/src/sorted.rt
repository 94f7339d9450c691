//! Entries in the strict order of their keys.
ghost use Rattle.std.specs.Prelude.{◌≡◌, OnOk, Some, option_copied};
ghost use Rattle.std.specs.declared.cmp.Ordering.{Ordering};
ghost use Rattle.std.specs.Cmp.{IsTotalOrder};
ghost use Rattle.std.specs.FinMap.{IsAntisymmetric, get, remove};
ghost use Rattle.keeper_core.specs.inside.EntryMaps.{HasRoom, IsInOrder, IsIndexOf};
ghost use Rattle.keeper_core.specs.inside.EntryMaps.{map_of, vec_map, with_entry, without_key};

use std::cmp::Ordering;
use value_core::NoMemory;

/// The key of an entry.
pub trait Key: Drop {
    /// The order of the entries.
    ghost order: { Self → Self → Ordering };

    fn order_to(&self, other: &Self) -> Ordering
        ensures { result ≡ order self.now other.now };

    ghost total: { IsTotalOrder order };

    ghost antisymmetric: { IsAntisymmetric order };
}

/// A value under a key.
#[derive(Debug, Drop)]
pub struct Entry<K, V> {
    pub key: K,
    pub value: V,
}

/// The index of a key's entry, or the index at which one would keep the order.
pub(crate) fn search<K: Key, V>(entries: &[Entry<K, V>], key: &K) -> Result<usize, usize>
    requires { IsInOrder K.order entries.now }
    ensures { IsIndexOf K.order key.now entries.now result }
{
    entries.binary_search_by(|entry| entry.key.order_to(key))
}

/// The value under a key.
pub(crate) fn get<'a, K: Key, V>(entries: &'a [Entry<K, V>], key: &K) -> Option<&'a V>
    requires { IsInOrder K.order entries.now }
    ensures { option_copied result ≡ get (map_of K.order entries.now) key.now }
{
    match search(entries, key) {
        Ok(index) => Some(&entries[index].value),
        Err(_) => None,
    }
}

/// Puts an entry in, in place of the one of its key. Takes no memory.
pub(crate) fn put<K: Key, V: Drop>(entries: &mut Vec<Entry<K, V>>, entry: Entry<K, V>)
    requires order { IsInOrder K.order entries.old.items }
    requires room { HasRoom entries.old }
    ensures order { IsInOrder K.order entries.new.items }
    ensures map { let before = vec_map K.order entries.old in
        vec_map K.order entries.new ≡ with_entry (Some entry) before }
{
    match search(entries.as_slice(), &entry.key) {
        Ok(index) => entries[index] = entry,
        Err(index) => {
            let _ = entries.insert(index, entry);
        }
    }
}

/// Takes out the entry of a key, if there is one.
pub(crate) fn remove<K: Key, V: Drop>(entries: &mut Vec<Entry<K, V>>, key: &K)
    requires { IsInOrder K.order entries.old.items }
    ensures order { IsInOrder K.order entries.new.items }
    ensures room { HasRoom entries.old → HasRoom entries.new }
    ensures map { vec_map K.order entries.new ≡ remove (vec_map K.order entries.old) key.now }
{
    if let Ok(index) = search(entries.as_slice(), key) {
        entries.remove(index);
    }
}

/// Puts an entry in, if there is one.
pub(crate) fn put_if<K: Key, V: Drop>(entries: &mut Vec<Entry<K, V>>, entry: Option<Entry<K, V>>)
    requires order { IsInOrder K.order entries.old.items }
    requires room { HasRoom entries.old }
    ensures order { IsInOrder K.order entries.new.items }
    ensures map { vec_map K.order entries.new ≡ with_entry entry (vec_map K.order entries.old) }
{
    if let Some(entry) = entry {
        put(entries, entry);
    }
}

/// Takes out the entry of a key, if there is a key.
pub(crate) fn remove_if<K: Key, V: Drop>(entries: &mut Vec<Entry<K, V>>, key: Option<K>)
    requires { IsInOrder K.order entries.old.items }
    ensures order { IsInOrder K.order entries.new.items }
    ensures room { HasRoom entries.old → HasRoom entries.new }
    ensures map { vec_map K.order entries.new ≡ without_key key (vec_map K.order entries.old) }
{
    if let Some(key) = key {
        remove(entries, &key);
    }
}

/// Makes room for one entry more.
pub(crate) fn reserve_one<K, V: Drop>(entries: &mut Vec<Entry<K, V>>) -> Result<(), NoMemory>
    ensures items { entries.new.items ≡ entries.old.items }
    ensures room { OnOk result (HasRoom entries.new) }
{
    entries.reserve(1)
}
