//! Slots for items, and the stack of those that are vacant.
ghost use Rattle.std.specs.Prelude.{◌≡◌, ℕ, ◌+◌, ◌<◌, ◌≤◌, ◌^◌, true, All, List, length, slice_set, IsSome, OnOk, Some, None, vec_capacity, vec_len};
ghost use Rattle.std.specs.Option.{option_map};
ghost use Rattle.scope_pool.specs.Layout.{held_at, holdings, is_held, item_at, link_at, link_in, links, newest_first, slot_item, slot_with, AreChained, ChainSame, HoldSame, IsAscending, IsChained, IsExchanged, IsFilled, IsLaidOut, IsVacated, IsVacatedOf, KeepsOthers, KeepsScopes, Link};
ghost use Rattle.scope_pool.specs.Region.{IsOpen};

use crate::scopes::{Scope, index_of};
use std::alloc::AllocError;
use std::mem;

#[derive(Drop)]
pub(crate) enum Slot<T> {
    /// Its place in the stack of vacant slots.
    Vacant(usize),
    Held {
        scope: u64,
        /// The place of the item that was put into the scope before.
        before: Option<u32>,
        item: T,
    },
}

/// Places are numbers of 32 bits.
const PLACES: usize = 4_294_967_296;

impl<T> Slot<T> {
    fn exchange(&mut self, item: T) -> T
        requires { is_held self.old ≡ true }
        ensures old { slot_item self.old ≡ Some result }
        ensures new { self.new ≡ slot_with item self.old }
    {
        match self {
            Slot::Held {
                scope: _,
                before: _,
                item: held,
            } => mem::replace(held, item),
            Slot::Vacant(_) => unreachable!(),
        }
    }
}

/// Makes room for so many more items.
pub(crate) fn reserve_slots<T>(
    slots: &mut Vec<Slot<T>>,
    vacant: &mut Vec<u32>,
    more: usize,
) -> Result<(), AllocError>
    requires laid_out { IsLaidOut slots.old.items vacant.old.items }
    requires few { vec_len slots.old ≤ 2 ^ 32 }
    requires room_to_vacate { vec_len slots.old ≤ vec_capacity vacant.old }
    ensures laid_out { IsLaidOut slots.new.items vacant.new.items }
    ensures places { HoldSame slots.old.items slots.new.items }
    ensures chains { ChainSame slots.old.items slots.new.items }
    ensures few { vec_len slots.new ≤ 2 ^ 32 }
    ensures room_to_vacate { vec_len slots.new ≤ vec_capacity vacant.new }
    ensures vacant { vec_len vacant.old ≤ vec_len vacant.new }
    ensures ok { OnOk result (more ≤ vec_len vacant.new) }
{
    let missing = more.saturating_sub(vacant.len());
    if missing > PLACES - slots.len() {
        return Err(AllocError);
    }
    slots.reserve(missing)?;
    vacant.reserve(slots.len() + missing)?;
    add_vacant(slots, vacant, missing);
    Ok(())
}

/// Adds so many vacant slots, for which there is room.
fn add_vacant<T>(slots: &mut Vec<Slot<T>>, vacant: &mut Vec<u32>, more: usize)
    requires laid_out { IsLaidOut slots.old.items vacant.old.items }
    requires few { vec_len slots.old + more ≤ 2 ^ 32 }
    requires room { vec_len slots.old + more ≤ vec_capacity slots.old }
    requires room_to_vacate { vec_len vacant.old + more ≤ vec_capacity vacant.old }
    ensures laid_out { IsLaidOut slots.new.items vacant.new.items }
    ensures places { HoldSame slots.old.items slots.new.items }
    ensures chains { ChainSame slots.old.items slots.new.items }
    ensures len { vec_len slots.new ≡ vec_len slots.old + more }
    ensures vacant { vec_len vacant.new ≡ vec_len vacant.old + more }
    ensures capacity { vec_capacity slots.new ≡ vec_capacity slots.old }
    ensures capacity_to_vacate { vec_capacity vacant.new ≡ vec_capacity vacant.old }
{
    for _ in 0..more {
        add_slot(slots, vacant);
    }
}

/// Adds a vacant slot, for which there is room.
fn add_slot<T>(slots: &mut Vec<Slot<T>>, vacant: &mut Vec<u32>)
    requires laid_out { IsLaidOut slots.old.items vacant.old.items }
    requires few { vec_len slots.old < 2 ^ 32 }
    requires room { vec_len slots.old < vec_capacity slots.old }
    requires room_to_vacate { vec_len vacant.old < vec_capacity vacant.old }
    ensures laid_out { IsLaidOut slots.new.items vacant.new.items }
    ensures places { HoldSame slots.old.items slots.new.items }
    ensures chains { ChainSame slots.old.items slots.new.items }
    ensures len { vec_len slots.new ≡ vec_len slots.old + 1 }
    ensures vacant { vec_len vacant.new ≡ vec_len vacant.old + 1 }
    ensures capacity { vec_capacity slots.new ≡ vec_capacity slots.old }
    ensures capacity_to_vacate { vec_capacity vacant.new ≡ vec_capacity vacant.old }
{
    let number = slots.len() as u32;
    slots.push_reserved(Slot::Vacant(vacant.len()));
    vacant.push_reserved(number);
}

/// Puts an item into the next vacant slot.
pub(crate) fn fill<T: Drop>(
    slots: &mut Vec<Slot<T>>,
    vacant: &mut Vec<u32>,
    scope: u64,
    before: Option<u32>,
    item: T,
) -> u32
    requires laid_out { IsLaidOut slots.old.items vacant.old.items }
    requires some { 0 < vec_len vacant.old }
    ensures laid_out { IsLaidOut slots.new.items vacant.new.items }
    ensures was_vacant { held_at slots.old.items result ≡ None }
    ensures within { result < vec_len slots.old }
    ensures filled { IsFilled result (record { scope = scope; item = item })
        slots.old.items slots.new.items }
    ensures chained { let link : Link = record { scope = scope; before = before } in
        links slots.new.items ≡ slice_set (links slots.old.items) result (Some link) }
    ensures len { vec_len slots.new ≡ vec_len slots.old }
    ensures vacant { vec_len vacant.new + 1 ≡ vec_len vacant.old }
    ensures capacity { vec_capacity vacant.new ≡ vec_capacity vacant.old }
{
    let number = match vacant.pop() {
        Some(number) => number,
        None => unreachable!(),
    };
    slots[number as usize] = Slot::Held {
        scope,
        before,
        item,
    };
    number
}

/// Puts another item into a slot that is held.
pub(crate) fn exchange<T>(slots: &mut Vec<Slot<T>>, place: u32, item: T) -> T
    requires { IsSome (held_at slots.old.items place) }
    ensures old { item_at slots.old.items place ≡ Some result }
    ensures new { IsExchanged place item slots.old.items slots.new.items }
    ensures chains { ChainSame slots.old.items slots.new.items }
    ensures laid_out { (vacant : List ℕ) → IsLaidOut slots.old.items vacant
        → IsLaidOut slots.new.items vacant }
    ensures len { vec_len slots.new ≡ vec_len slots.old }
{
    let slot = &mut slots[place as usize];
    slot.exchange(item)
}

/// The item of a slot that is held.
pub(crate) fn item_in<T>(slots: &[Slot<T>], place: u32) -> &T
    requires { IsSome (held_at slots.now place) }
    ensures { item_at slots.now place ≡ Some result.now }
{
    match &slots[place as usize] {
        Slot::Held { item, .. } => item,
        Slot::Vacant(_) => unreachable!(),
    }
}

/// Vacates the slots of these open scopes.
pub(crate) fn vacate_all<T: Drop>(
    slots: &mut Vec<Slot<T>>,
    vacant: &mut Vec<u32>,
    scopes: &mut Vec<Scope>,
    closing: &[u64],
)
    requires laid_out { IsLaidOut slots.old.items vacant.old.items }
    requires few { vec_len slots.old ≤ 2 ^ 32 }
    requires room { vec_len slots.old ≤ vec_capacity vacant.old }
    requires ascending { IsAscending scopes.old.items }
    requires chained { AreChained slots.old.items scopes.old.items }
    requires open { All (λ n. IsOpen (newest_first scopes.old.items) n) closing.now }
    ensures laid_out { IsLaidOut slots.new.items vacant.new.items }
    ensures chained { AreChained slots.new.items scopes.new.items }
    ensures unused { (t : ℕ) → IsChained (link_at slots.old.items) t None
        → IsChained (link_at slots.new.items) t None }
    ensures left { IsVacated closing.now slots.old.items slots.new.items }
    ensures scopes { KeepsScopes scopes.old.items scopes.new.items }
    ensures scopes_capacity { vec_capacity scopes.new ≡ vec_capacity scopes.old }
    ensures len { vec_len slots.new ≡ vec_len slots.old }
    ensures vacant { vec_len vacant.old ≤ vec_len vacant.new }
    ensures capacity { vec_capacity vacant.new ≡ vec_capacity vacant.old }
{
    for name in closing {
        let index = index_of(scopes.as_slice(), *name);
        vacate(slots, vacant, &mut scopes[index]);
    }
}

/// Vacates the slots of a scope.
fn vacate<T: Drop>(slots: &mut Vec<Slot<T>>, vacant: &mut Vec<u32>, scope: &mut Scope)
    requires laid_out { IsLaidOut slots.old.items vacant.old.items }
    requires few { vec_len slots.old ≤ 2 ^ 32 }
    requires room { vec_len slots.old ≤ vec_capacity vacant.old }
    requires chained { IsChained (link_at slots.old.items) scope.old.name scope.old.last }
    ensures laid_out { IsLaidOut slots.new.items vacant.new.items }
    ensures chained { IsChained (link_at slots.new.items) scope.old.name None }
    ensures others { KeepsOthers scope.old.name slots.old.items slots.new.items }
    ensures left { IsVacatedOf scope.old.name slots.old.items slots.new.items }
    ensures scope { scope.new ≡ record scope.old { last = None } }
    ensures len { vec_len slots.new ≡ vec_len slots.old }
    ensures vacant { vec_len vacant.old ≤ vec_len vacant.new }
    ensures capacity { vec_capacity vacant.new ≡ vec_capacity vacant.old }
{
    while let Some(place) = scope.last {
        scope.last = vacate_one(slots, vacant, place);
    }
}

/// Vacates a slot that is held, and returns the place before it in its chain.
fn vacate_one<T: Drop>(slots: &mut Vec<Slot<T>>, vacant: &mut Vec<u32>, place: u32) -> Option<u32>
    requires laid_out { IsLaidOut slots.old.items vacant.old.items }
    requires room { vec_len slots.old ≤ vec_capacity vacant.old }
    requires held { IsSome (held_at slots.old.items place) }
    ensures laid_out { IsLaidOut slots.new.items vacant.new.items }
    ensures before { option_map (λ l. l.before) (link_at slots.old.items place) ≡ Some result }
    ensures left { holdings slots.new.items ≡ slice_set (holdings slots.old.items) place None }
    ensures links { links slots.new.items ≡ slice_set (links slots.old.items) place None }
    ensures len { vec_len slots.new ≡ vec_len slots.old }
    ensures vacant { vec_len vacant.new ≡ vec_len vacant.old + 1 }
    ensures capacity { vec_capacity vacant.new ≡ vec_capacity vacant.old }
{
    let before = before_in(&slots[place as usize]);
    slots[place as usize] = Slot::Vacant(vacant.len());
    vacant.push_reserved(place);
    before
}

/// The place before a slot that is held.
fn before_in<T>(slot: &Slot<T>) -> Option<u32>
    requires { is_held slot.now ≡ true }
    ensures { option_map (λ l. l.before) (link_in slot.now) ≡ Some result }
{
    match slot {
        Slot::Held { before, .. } => *before,
        Slot::Vacant(_) => unreachable!(),
    }
}
