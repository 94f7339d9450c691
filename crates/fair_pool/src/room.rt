//! Insertions for which room was made before, and what takes items out.
ghost use Rattle.std.specs.Prelude.{◌≡◌, ◌<◌, ◌≤◌, insert, remove, slice_index_or, vec_len};
ghost use Rattle.std.specs.Vec.{vec_capacity};
ghost use Rattle.std.specs.VecDeque.{deque_capacity, deque_len};

use std::collections::VecDeque;

/// Puts an item in before the one of this index, with room that was made before. Takes no memory.
pub fn insert_within<T: Drop>(items: &mut Vec<T>, at: usize, item: T)
    requires within { at ≤ vec_len items.old }
    requires room { vec_len items.old < vec_capacity items.old }
    ensures items { items.new.items ≡ insert items.old.items at item }
    ensures capacity { vec_capacity items.new ≡ vec_capacity items.old }
{
    if items.insert(at, item).is_err() {
        unreachable!()
    }
}

/// The same in a queue, where the shorter side moves.
pub fn put_at<T: Drop>(items: &mut VecDeque<T>, at: usize, item: T)
    requires within { at ≤ deque_len items.old }
    requires room { deque_len items.old < deque_capacity items.old }
    ensures items { items.new.items ≡ insert items.old.items at item }
    ensures capacity { deque_capacity items.old ≤ deque_capacity items.new }
{
    if items.insert(at, item).is_err() {
        unreachable!()
    }
}

/// Takes the item of an index out of a queue. The shorter side moves.
pub fn take_at<T>(items: &mut VecDeque<T>, at: usize) -> T
    requires { at < deque_len items.old }
    ensures value { result ≡ slice_index_or items.old.items at result }
    ensures items { items.new.items ≡ remove items.old.items at }
    ensures capacity { deque_capacity items.new ≡ deque_capacity items.old }
{
    match items.remove(at) {
        Some(item) => item,
        None => unreachable!(),
    }
}
