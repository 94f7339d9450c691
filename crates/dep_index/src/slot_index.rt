//! Numbers of slots in an order of their pairs, searched by halving.
ghost use Rattle.std.specs.Prelude.{◌≡◌, ◌-◌, ◌+◌, ◌<◌, ◌≤◌, false, length, slice_get, vec_capacity, vec_len};
ghost use Rattle.std.specs.FinSet.{contains, insert, remove};
ghost use Rattle.dep_index.specs.inside.Layout.{Finds, IsIndex, IsMovedLast, IsStartOf, compared, link, link_at, links_of};

use crate::pair::{By, Pair};
use crate::used::Used;
use std::cmp::Ordering;

/// How the pair in a slot compares to the one of a source and an instance.
fn compare_at(slots: &[Pair], slot: usize, by: By, source: &Used, to: u32) -> Ordering
    ensures { result ≡ compared by (link source.now to) (slice_get slots.now slot) }
{
    match slots.get(slot) {
        Some(pair) => pair.compare(by, source, to),
        None => Ordering::Greater,
    }
}

/// The index of the number of a pair's slot, or the one at which it would go in.
pub(crate) fn search(
    slots: &[Pair],
    numbers: &[usize],
    by: By,
    source: &Used,
    to: u32,
) -> Result<usize, usize>
    requires { IsIndex by slots.now numbers.now }
    ensures { Finds by (link source.now to) slots.now numbers.now result }
{
    numbers.binary_search_by(|slot| compare_at(slots, *slot, by, source, to))
}

/// How many numbers are of slots with lesser pairs.
pub(crate) fn count_below(
    slots: &[Pair],
    numbers: &[usize],
    by: By,
    source: &Used,
    to: u32,
) -> usize
    requires { IsIndex by slots.now numbers.now }
    ensures { IsStartOf by (link source.now to) slots.now numbers.now result }
{
    match search(slots, numbers, by, source, to) {
        Ok(at) => at,
        Err(at) => at,
    }
}

/// Adds the number of a slot, for which there is room.
pub(crate) fn add(slots: &[Pair], numbers: &mut Vec<usize>, by: By, slot: usize)
    requires within { slot < length slots.now }
    requires room { vec_len numbers.old < vec_capacity numbers.old }
    requires index { IsIndex by slots.now numbers.old.items }
    ensures index { IsIndex by slots.now numbers.new.items }
    ensures links { let links = links_of slots.now numbers.old.items in
        links_of slots.now numbers.new.items ≡ insert links (link_at slots.now slot) }
    ensures len { vec_len numbers.new ≤ vec_len numbers.old + 1 }
    ensures capacity { vec_capacity numbers.new ≡ vec_capacity numbers.old }
{
    let pair = &slots[slot];
    if let Err(gap) = search(slots, numbers.as_slice(), by, &pair.source, pair.to) {
        let _ = numbers.insert(gap, slot);
    }
}

/// Removes the number of the slot that has the pair in this one.
pub(crate) fn remove(slots: &[Pair], numbers: &mut Vec<usize>, by: By, slot: usize)
    requires within { slot < length slots.now }
    requires index { IsIndex by slots.now numbers.old.items }
    ensures index { IsIndex by slots.now numbers.new.items }
    ensures links { let links = links_of slots.now numbers.old.items in
        links_of slots.now numbers.new.items ≡ remove links (link_at slots.now slot) }
    ensures len { vec_len numbers.new ≤ vec_len numbers.old }
    ensures capacity { vec_capacity numbers.new ≡ vec_capacity numbers.old }
{
    let pair = &slots[slot];
    if let Ok(at) = search(slots, numbers.as_slice(), by, &pair.source, pair.to) {
        numbers.remove(at);
    }
}

/// The last slot's pair moves to a slot whose pair isn't among these.
pub(crate) fn move_last(slots: &[Pair], numbers: &mut Vec<usize>, by: By, slot: usize)
    requires within { slot < length slots.now }
    requires index { IsIndex by slots.now numbers.old.items }
    requires gone { let links = links_of slots.now numbers.old.items in
        contains links (link_at slots.now slot) ≡ false }
    ensures moved { IsMovedLast slot slots.now numbers.old.items numbers.new.items }
    ensures len { vec_len numbers.new ≡ vec_len numbers.old }
    ensures capacity { vec_capacity numbers.new ≡ vec_capacity numbers.old }
{
    let pair = &slots[slots.len() - 1];
    if let Ok(at) = search(slots, numbers.as_slice(), by, &pair.source, pair.to) {
        numbers[at] = slot;
    }
}
