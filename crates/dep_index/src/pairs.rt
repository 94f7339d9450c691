//! Pairs in slots, which two indexes find by source and by instance.
ghost use Rattle.std.specs.Prelude.{◌≡◌, ℕ, ◌+◌, ◌<◌, length, IfOk, OnOk};
ghost use Rattle.std.specs.FinSet.{contains, empty};
ghost use Rattle.std.specs.List.{AllByRecursion};
ghost use Rattle.std.specs.List.Sorted.{IsStrictlyIncreasing};
ghost use Rattle.dep_index.specs.inside.Layout.{AreKept, FindsUser, HasRoom, IsOneLess, leading_users, link, links_in, listed, without_user};
ghost use Rattle.dep_index.specs.Pairs.{AreUsers, with_link};

use crate::pair::{By, Pair};
use crate::slot_index::{add, count_below, move_last, remove, search};
use crate::used::Used;
use std::alloc::Global;
use value_core::NoMemory;

/// The instances of the first pairs, as long as these have the source.
fn leading_users(
    alloc: Global,
    slots: &[Pair],
    numbers: &[usize],
    source: &Used,
) -> Result<Vec<u32>, NoMemory>
    requires { AllByRecursion (λ n. n < length slots.now) numbers.now }
    ensures { let pairs = listed slots.now numbers.now in
        IfOk result (λ us. us.items ≡ leading_users source.now pairs) }
{
    let mut users = Vec::new(alloc);
    for slot in numbers {
        let pair = &slots[*slot];
        if !pair.source.is(source) {
            return Ok(users);
        }
        users.push(pair.to)?;
    }
    Ok(users)
}

/// Each pair once. Its functions take no memory, but for `reserve` and `users`.
#[derive(Drop)]
pub(crate) struct Pairs {
    slots: Vec<Pair>,
    /// Slots' numbers in order of the sources, then of the instances.
    by_source: Vec<usize>,
    /// Slots' numbers in order of the instances, then of the sources.
    by_user: Vec<usize>,
}

impl Pairs {
    pub(crate) fn new(alloc: Global) -> Pairs
        ensures kept { AreKept result }
        ensures room { HasRoom 0 result }
        ensures links { links_in result ≡ empty }
    {
        Pairs {
            slots: Vec::new(alloc),
            by_source: Vec::new(alloc),
            by_user: Vec::new(alloc),
        }
    }

    /// Makes room for so many pairs more.
    pub(crate) fn reserve(&mut self, more: usize) -> Result<(), NoMemory>
        requires kept { AreKept self.old }
        ensures kept { AreKept self.new }
        ensures links { links_in self.new ≡ links_in self.old }
        ensures room { OnOk result (HasRoom more self.new) }
        ensures room_left { (n : ℕ) → HasRoom n self.old → HasRoom n self.new }
    {
        self.slots.reserve(more)?;
        self.by_source.reserve(more)?;
        self.by_user.reserve(more)?;
        Ok(())
    }

    fn has(&self, source: &Used, to: u32) -> bool
        requires { AreKept self.now }
        ensures { result ≡ contains (links_in self.now) (link source.now to) }
    {
        let numbers = self.by_source.as_slice();
        search(self.slots.as_slice(), numbers, By::Source, source, to).is_ok()
    }

    /// Adds a pair, if it isn't there; there is room for it.
    pub(crate) fn insert(&mut self, source: Used, to: u32)
        requires kept { AreKept self.old }
        requires room { HasRoom 1 self.old }
        ensures kept { AreKept self.new }
        ensures links { links_in self.new ≡ with_link (links_in self.old) source to }
        ensures room { (n : ℕ) → HasRoom (n + 1) self.old → HasRoom n self.new }
    {
        if self.has(&source, to) {
            return;
        }
        let slot = self.slots.len();
        self.slots.push_reserved(Pair { source, to });
        add(self.slots.as_slice(), &mut self.by_source, By::Source, slot);
        add(self.slots.as_slice(), &mut self.by_user, By::User, slot);
    }

    /// Removes the pair in a slot, into which the last pair then moves.
    fn take(&mut self, slot: usize)
        requires kept { AreKept self.old }
        requires within { slot < length self.old.slots.items }
        ensures kept { AreKept self.new }
        ensures less { IsOneLess slot self.old self.new }
        ensures room { (n : ℕ) → HasRoom n self.old → HasRoom n self.new }
    {
        let slots = self.slots.as_slice();
        remove(slots, &mut self.by_source, By::Source, slot);
        remove(slots, &mut self.by_user, By::User, slot);
        move_last(slots, &mut self.by_source, By::Source, slot);
        move_last(slots, &mut self.by_user, By::User, slot);
        self.slots.swap_remove(slot);
    }

    /// The slot of a pair of an instance, by halving.
    fn find_user(&self, to: u32) -> Option<usize>
        requires { AreKept self.now }
        ensures { FindsUser to self.now result }
    {
        let slots = self.slots.as_slice();
        let numbers = self.by_user.as_slice();
        let at = count_below(slots, numbers, By::User, &Used::Input(0), to);
        if at < numbers.len() && slots[numbers[at]].to == to {
            Some(numbers[at])
        } else {
            None
        }
    }

    /// Removes the pairs of an instance, each of which is found by halving.
    pub(crate) fn remove_all(&mut self, to: u32)
        requires kept { AreKept self.old }
        ensures kept { AreKept self.new }
        ensures links { links_in self.new ≡ without_user (links_in self.old) to }
        ensures room { (n : ℕ) → HasRoom n self.old → HasRoom n self.new }
    {
        'users: while let Some(slot) = self.find_user(to) {
            self.take(slot);
        }
    }

    /// The instances that read a source, in rising order, found by halving.
    pub(crate) fn users(&self, alloc: Global, source: &Used) -> Result<Vec<u32>, NoMemory>
        requires { AreKept self.now }
        ensures rising { IfOk result (λ us. IsStrictlyIncreasing us.items) }
        ensures users { IfOk result (λ us. AreUsers (links_in self.now) source.now us.items) }
    {
        let slots = self.slots.as_slice();
        let numbers = self.by_source.as_slice();
        let start = count_below(slots, numbers, By::Source, source, 0);
        leading_users(alloc, slots, &numbers[start..], source)
    }
}
