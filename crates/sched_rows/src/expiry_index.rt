//! When rows run out, in order.
ghost use Rattle.std.specs.Prelude.{◌≡◌, ◌≢◌, ◌+◌, ◌-◌, ◌^◌, ◌<◌, ◌≤◌, All, length, map, filter, take_while, IfOk, MatchResult, OnOk, nat_le, nat_lt, if◌then◌else◌};
ghost use Rattle.std.specs.FinMap.{empty, insert, keys, remove};
ghost use Rattle.std.specs.List.Sorted.{IsNonDecreasing, IsPartitionPoint, IsPermutation};
ghost use Rattle.sched_rows.specs.Ends.{IsRising, end_cmp, first_places, moved_down, moved_up, places_within};
ghost use Rattle.sched_rows.specs.Ordered.{Finds};

use std::alloc::Global;
use std::marker::Model;
use value_core::NoMemory;

/// When the row at a place expires.
#[derive(Clone, Copy, Debug, PartialEq, Eq, PartialOrd, Ord)]
pub(crate) struct End {
    pub(crate) time: u64,
    pub(crate) place: usize,
}

/// The ends of rows, by time and place. Searched by halving.
#[derive(Drop)]
pub(crate) struct ExpiryIndex {
    ends: Vec<End>,
}

impl Model for ExpiryIndex {
    ghost use Rattle.std.specs.Prelude.{◌-◌};
    ghost use Rattle.std.specs.Vec.{vec_len, vec_capacity};
    ghost use Rattle.sched_rows.specs.Ends.{Ends, IsRising, ends_code, ends_of};

    ghost Value = { Ends };

    ghost coded = { ends_code };

    ghost view = { λ i. record {
      set = ends_of i.ends.items;
      room = vec_capacity i.ends - vec_len i.ends;
    } };

    ghost invariant = { λ i. IsRising i.ends.items };
}

/// The index of an end, or the one at which it would go in.
fn search(ends: &[End], end: &End) -> Result<usize, usize>
    requires { IsRising ends.now }
    ensures { Finds end_cmp (λ e. e) end.now ends.now result }
{
    ends.binary_search(end)
}

/// Where a place is once a place has come in.
fn above_gap(gap: usize, place: usize) -> usize
    requires { place < 2 ^ 63 }
    ensures { result ≡ (if nat_le gap place then place + 1 else place) }
{
    if gap <= place { place + 1 } else { place }
}

/// Where a place is once a place has gone.
fn below_gap(gap: usize, place: usize) -> usize
    ensures { result ≡ (if nat_lt gap place then place - 1 else place) }
{
    if gap < place { place - 1 } else { place }
}

/// Moves the ends from a place on one place up.
fn move_up(ends: &mut [End], from: usize)
    requires { All (λ e. e.place < 2 ^ 63) ends.old }
    ensures { ends.new ≡ map (moved_up from) ends.old }
{
    for end in ends.iter_mut() {
        end.place = above_gap(from, end.place);
    }
}

/// Moves the ends after a place one place down.
fn move_down(ends: &mut [End], from: usize)
    ensures { ends.new ≡ map (moved_down from) ends.old }
{
    for end in ends.iter_mut() {
        end.place = below_gap(from, end.place);
    }
}

/// The places of the first ends, at a time at the latest.
fn places_upto(alloc: Global, ends: &[End], upto: u64) -> Result<Vec<usize>, NoMemory>
    ensures { IfOk result (λ ps. ps.items ≡ first_places upto ends.now) }
{
    ends.iter()
        .take_while(|end| end.time <= upto)
        .map(|end| end.place)
        .collect(alloc)
}

/// How many ends are at a time at the latest.
fn count_upto(ends: &[End], time: u64) -> usize
    requires { IsRising ends.now }
    ensures bound { result ≤ length ends.now }
    ensures point { IsPartitionPoint (λ e. e.time ≤ time) (λ e. time < e.time) ends.now result }
{
    ends.partition_point(|end| end.time <= time)
}

impl ExpiryIndex {
    pub(crate) fn new(alloc: Global) -> ExpiryIndex
        ensures { result.set ≡ empty }
    {
        ExpiryIndex {
            ends: Vec::new(alloc),
        }
    }

    /// Makes room for so many ends more.
    pub(crate) fn reserve(&mut self, more: usize) -> Result<(), NoMemory>
        ensures set { self.new.set ≡ self.old.set }
        ensures room { OnOk result (more ≤ self.new.room) }
        ensures kept { self.old.room ≤ self.new.room }
    {
        self.ends.reserve(more)
    }

    /// Takes no memory.
    pub(crate) fn add(&mut self, end: End)
        requires { 1 ≤ self.old.room }
        ensures set { self.new.set ≡ insert self.old.set end tt }
        ensures room { self.old.room ≤ self.new.room + 1 }
    {
        if let Err(gap) = search(self.ends.as_slice(), &end) {
            let _ = self.ends.insert(gap, end);
        }
    }

    pub(crate) fn remove(&mut self, end: End)
        ensures set { self.new.set ≡ remove self.old.set end }
        ensures room { self.old.room ≤ self.new.room }
    {
        if let Ok(at) = search(self.ends.as_slice(), &end) {
            self.ends.remove(at);
        }
    }

    /// Moves the ends from a place on one place up.
    pub(crate) fn open_place(&mut self, place: usize)
        requires { All (λ e. e.place < 2 ^ 63) (keys self.old.set) }
        ensures items { keys self.new.set ≡ map (moved_up place) (keys self.old.set) }
        ensures room { self.new.room ≡ self.old.room }
    {
        move_up(&mut self.ends, place);
    }

    /// Moves the ends after a place, which has none, one place down.
    pub(crate) fn close_place(&mut self, place: usize)
        requires { All (λ e. e.place ≢ place) (keys self.old.set) }
        ensures items { keys self.new.set ≡ map (moved_down place) (keys self.old.set) }
        ensures room { self.new.room ≡ self.old.room }
    {
        move_down(&mut self.ends, place);
    }

    /// The places whose ends are after one time and at another at the latest, in order.
    pub(crate) fn places(
        &self,
        alloc: Global,
        after: u64,
        upto: u64,
    ) -> Result<Vec<usize>, NoMemory>
        ensures rising { IfOk result (λ ps. IsNonDecreasing ps.items) }
        ensures within { let within = places_within after upto self.now.set in
            IfOk result (λ ps. IsPermutation within ps.items) }
    {
        let ends = self.ends.as_slice();
        let start = count_upto(ends, after);
        let mut places = places_upto(alloc, &ends[start..], upto)?;
        places.sort_unstable();
        Ok(places)
    }

    /// An equal index, without room for more.
    pub(crate) fn copy(&self, alloc: Global) -> Result<ExpiryIndex, NoMemory>
        ensures { IfOk result (λ i. i.set ≡ self.now.set) }
    {
        Ok(ExpiryIndex {
            ends: Vec::from_slice(alloc, self.ends.as_slice())?,
        })
    }
}
