//! Held rows in the order of their names and keys, with an index of their ends by place.
ghost use Rattle.std.specs.Prelude.{◌≡◌, ◌+◌, ◌<◌, ◌≤◌, All, MatchResult, insert, remove, slice_index_or, slice_set, vec_len};
ghost use Rattle.std.specs.Vec.{vec_capacity};
ghost use Rattle.sched_rows.specs.declared.holding.Held.{Held};
ghost use Rattle.sched_rows.specs.Ends.{with_end, without_end};
ghost use Rattle.sched_rows.specs.Holding.{IsHeldInRange, IsIndexOf, IsMarkedAt, IsOrdered, held_key};
ghost use Rattle.sched_rows.specs.Ordered.{Finds};
ghost use Rattle.sched_rows.specs.RowKeys.{key_of, row_key, row_key_cmp};
ghost use Rattle.sched_rows.specs.Rows.{end_under};
ghost use Rattle.sched_rows.specs.Validity.{IsInRange, IsTime};

use crate::expiry_index::{End, ExpiryIndex};
use crate::holding::Held;
use crate::row::Row;
use crate::validity::expires;
use op_keys::Expiry;
use std::cmp::Ordering;
use std::mem;
use value_core::Text;

/// How a row's name and key compare to these.
fn key_order(row: &Row, op: &Text, key: &Text) -> Ordering
    ensures { result ≡ row_key_cmp (key_of row.now) (row_key op.now key.now) }
{
    match row.op.cmp(op) {
        Ordering::Less => Ordering::Less,
        Ordering::Equal => row.key.cmp(key),
        Ordering::Greater => Ordering::Greater,
    }
}

/// When a row without mark runs out; `None` for a marked one too.
fn end_of(row: &Row, expiry: &Expiry) -> Option<u64>
    requires finished { IsTime row.now.finished }
    requires expiry { IsInRange expiry.now }
    ensures { result ≡ end_under row.now expiry.now }
{
    if row.rebuild {
        None
    } else {
        expires(row, expiry)
    }
}

fn add_end(index: &mut ExpiryIndex, end: Option<u64>, place: usize)
    requires { 1 ≤ index.old.room }
    ensures set { index.new.set ≡ with_end end place index.old.set }
    ensures room { index.old.room ≤ index.new.room + 1 }
{
    if let Some(time) = end {
        index.add(End { time, place });
    }
}

fn remove_end(index: &mut ExpiryIndex, end: Option<u64>, place: usize)
    ensures set { index.new.set ≡ without_end end place index.old.set }
    ensures room { index.old.room ≤ index.new.room }
{
    if let Some(time) = end {
        index.remove(End { time, place });
    }
}

/// Where the row of a name and key stands, or where one would.
pub(crate) fn search(held: &[Held], op: &Text, key: &Text) -> Result<usize, usize>
    requires { IsOrdered held.now }
    ensures { Finds row_key_cmp held_key (row_key op.now key.now) held.now result }
{
    held.binary_search_by(|h| key_order(&h.row, op, key))
}

/// Puts a row in at a place. Takes no memory.
pub(crate) fn insert_at(held: &mut Vec<Held>, index: &mut ExpiryIndex, place: usize, one: Held)
    requires room { vec_len held.old < vec_capacity held.old }
    requires index_room { 1 ≤ index.old.room }
    requires within { place ≤ vec_len held.old }
    requires range { IsHeldInRange one }
    requires indexed { IsIndexOf held.old.items index.old.set }
    ensures items { held.new.items ≡ insert held.old.items place one }
    ensures indexed { IsIndexOf held.new.items index.new.set }
    ensures len { vec_len held.new ≡ vec_len held.old + 1 }
    ensures capacity { vec_capacity held.old ≤ vec_capacity held.new }
    ensures room { index.old.room ≤ index.new.room + 1 }
{
    let end = end_of(&one.row, &one.expiry);
    index.open_place(place);
    add_end(index, end, place);
    let _ = held.insert(place, one);
}

/// Puts a row in the stead of the one at a place, which it hands back. Takes no memory.
pub(crate) fn replace_at(
    held: &mut Vec<Held>,
    index: &mut ExpiryIndex,
    place: usize,
    one: Held,
) -> Held
    requires index_room { 1 ≤ index.old.room }
    requires within { place < vec_len held.old }
    requires old_range { IsHeldInRange (slice_index_or held.old.items place one) }
    requires range { IsHeldInRange one }
    requires indexed { IsIndexOf held.old.items index.old.set }
    ensures value { result ≡ slice_index_or held.old.items place one }
    ensures items { held.new.items ≡ slice_set held.old.items place one }
    ensures indexed { IsIndexOf held.new.items index.new.set }
    ensures len { vec_len held.new ≡ vec_len held.old }
    ensures capacity { vec_capacity held.new ≡ vec_capacity held.old }
    ensures room { index.old.room ≤ index.new.room + 1 }
{
    let old = &held[place];
    let old_end = end_of(&old.row, &old.expiry);
    let end = end_of(&one.row, &one.expiry);
    remove_end(index, old_end, place);
    add_end(index, end, place);
    mem::replace(&mut held[place], one)
}

/// Takes out the row at a place.
pub(crate) fn remove_at(held: &mut Vec<Held>, index: &mut ExpiryIndex, place: usize)
    requires within { place < vec_len held.old }
    requires range { All IsHeldInRange held.old.items }
    requires indexed { IsIndexOf held.old.items index.old.set }
    ensures items { held.new.items ≡ remove held.old.items place }
    ensures indexed { IsIndexOf held.new.items index.new.set }
    ensures len { vec_len held.new + 1 ≡ vec_len held.old }
    ensures capacity { vec_capacity held.new ≡ vec_capacity held.old }
    ensures room { index.old.room ≤ index.new.room }
{
    let old = held.remove(place);
    remove_end(index, end_of(&old.row, &old.expiry), place);
    index.close_place(place);
}

/// Marks the row at a place.
pub(crate) fn mark_at(held: &mut Vec<Held>, index: &mut ExpiryIndex, place: usize)
    requires within { place < vec_len held.old }
    requires range { All IsHeldInRange held.old.items }
    requires indexed { IsIndexOf held.old.items index.old.set }
    ensures items { IsMarkedAt place held.old.items held.new.items }
    ensures indexed { IsIndexOf held.new.items index.new.set }
    ensures len { vec_len held.new ≡ vec_len held.old }
    ensures capacity { vec_capacity held.new ≡ vec_capacity held.old }
    ensures room { index.old.room ≤ index.new.room }
{
    let one = &mut held[place];
    remove_end(index, end_of(&one.row, &one.expiry), place);
    one.row.rebuild = true;
}
