//! The pool: which scopes are open, and which items are in them.
ghost use Rattle.std.specs.Prelude.{◌≡◌, ◌<◌, false, OnErr, OnOk, None, Some};
ghost use Rattle.std.specs.FinMap.{get, len};
ghost use Rattle.std.specs.Option.{option_map};
ghost use Rattle.scope_pool.specs.Laws.{AreNestedByParents};
ghost use Rattle.scope_pool.specs.Region.{AreSound, IsLive, IsOpen, IsOpenOrTop, closed, is_open, item_at, nothing_open, opened, put_at, reserved, set_at};

use crate::scopes::{Scope, drop_scopes, find_within, index_of, reserve_scopes};
use crate::slots::{Slot, exchange, fill, item_in, reserve_slots, vacate_all};
use std::alloc::{AllocError, Global};
use std::marker::Model;

/// The name of an open scope. Names are never used again.
#[derive(Clone, Copy, Debug, PartialEq, Eq)]
pub struct ScopeId {
    pub name: u64,
}

/// Where an item is kept. A place is used again once its item is gone.
#[derive(Clone, Copy, Debug, PartialEq, Eq)]
pub struct Place {
    pub number: u32,
}

/// Items in scopes, and scopes in scopes.
#[derive(Drop)]
pub struct Pool<T> {
    scopes: Vec<Scope>,
    slots: Vec<Slot<T>>,
    /// The vacant slots, the next to be used last.
    vacant: Vec<u32>,
    /// The scopes that are being closed; empty between two calls.
    closing: Vec<u64>,
    next_scope: u64,
    spare_scopes: usize,
    spare_puts: usize,
}

impl<T> Model for Pool<T> {
    ghost use Rattle.scope_pool.specs.Region.{AreSound, Region, region_code};

    ghost Value = { Region T };

    ghost coded = { region_code T.code };

    ghost use Rattle.std.specs.Prelude.{◌≡◌, ℕ, ◌+◌, ◌<◌, ◌≤◌, ◌^◌, [], None, All, length, map, vec_capacity};
    ghost use Rattle.scope_pool.specs.Layout.{AreChained, IsAscending, IsChained, IsLaidOut, held_in, link_at, newest_first, standing};

    ghost view = { λ p. record {
      scopes = newest_first p.scopes.items;
      items = standing (map held_in p.slots.items);
      spare_scopes = p.spare_scopes;
      spare_puts = p.spare_puts;
    } };

    ghost invariant = { λ p. record {
      laid_out : IsLaidOut p.slots.items p.vacant.items;
      few : length p.slots.items ≤ 2 ^ 32;
      room_for_items : p.spare_puts ≤ length p.vacant.items;
      room_to_vacate : length p.slots.items ≤ vec_capacity p.vacant;
      room_for_scopes : length p.scopes.items + p.spare_scopes ≤ vec_capacity p.scopes;
      room_to_close : length p.scopes.items + p.spare_scopes ≤ vec_capacity p.closing;
      none_closing : p.closing.items ≡ [];
      names_left : p.next_scope + p.spare_scopes < 2 ^ 64;
      names_used : All (λ s. s.name < p.next_scope) p.scopes.items;
      sound : AreSound (newest_first p.scopes.items);
      ascending : IsAscending p.scopes.items;
      chained : AreChained p.slots.items p.scopes.items;
      unused : (t : ℕ) → p.next_scope ≤ t → IsChained (link_at p.slots.items) t None;
    } };
}

fn name_of(scope: Option<ScopeId>) -> Option<u64>
    ensures { result ≡ option_map (λ s. s.name) scope }
{
    match scope {
        Some(scope) => Some(scope.name),
        None => None,
    }
}

impl<T: Drop> Pool<T> {
    /// No scope, no item and no room.
    pub fn new(alloc: Global) -> Pool<T>
        ensures { result ≡ nothing_open }
    {
        Pool {
            scopes: Vec::new(alloc),
            slots: Vec::new(alloc),
            vacant: Vec::new(alloc),
            closing: Vec::new(alloc),
            next_scope: 0,
            spare_scopes: 0,
            spare_puts: 0,
        }
    }

    /// Makes room for at least so many more scopes and items.
    pub fn reserve(&mut self, scopes: usize, puts: usize) -> Result<(), AllocError>
        ensures ok { OnOk result (self.new ≡ reserved self.old scopes puts) }
        ensures err { OnErr result (self.new ≡ self.old) }
    {
        let names_left = u64::MAX - self.next_scope;
        if scopes as u64 > names_left {
            return Err(AllocError);
        }
        reserve_scopes(&mut self.scopes, &mut self.closing, scopes)?;
        reserve_slots(&mut self.slots, &mut self.vacant, puts)?;
        self.spare_scopes = self.spare_scopes.max(scopes);
        self.spare_puts = self.spare_puts.max(puts);
        Ok(())
    }

    /// Opens a scope in its parent, or at the top. Takes no memory.
    pub fn open_scope(&mut self, parent: Option<ScopeId>) -> ScopeId
        requires parent { IsOpenOrTop self.old.scopes (option_map (λ s. s.name) parent) }
        requires spare { 0 < self.old.spare_scopes }
        ensures fresh { is_open self.old.scopes result.name ≡ false }
        ensures opened { self.new ≡ opened self.old result.name (option_map (λ s. s.name) parent) }
    {
        let name = self.next_scope;
        self.scopes.push_reserved(Scope {
            name,
            parent: name_of(parent),
            last: None,
        });
        self.next_scope += 1;
        self.spare_scopes -= 1;
        ScopeId { name }
    }

    /// Puts an item into a scope. Takes no memory.
    pub fn put(&mut self, scope: ScopeId, item: T) -> Place
        requires open { IsOpen self.old.scopes scope.name }
        requires spare { 0 < self.old.spare_puts }
        ensures fresh { get self.old.items result.number ≡ None }
        ensures live { IsLive self.new result.number }
        ensures put { self.new ≡ put_at self.old result.number scope.name item }
    {
        self.spare_puts -= 1;
        let index = index_of(self.scopes.as_slice(), scope.name);
        let last = self.scopes[index].last;
        let number = fill(&mut self.slots, &mut self.vacant, scope.name, last, item);
        self.scopes[index].last = Some(number);
        Place { number }
    }

    /// The item at a live place.
    pub fn get(&self, place: Place) -> &T
        requires { IsLive self.now place.number }
        ensures { item_at self.now place.number ≡ Some result.now }
    {
        item_in(self.slots.as_slice(), place.number)
    }

    /// Puts another item at a live place, in the same scope, and returns the one that was there.
    /// Takes no memory.
    pub fn set(&mut self, place: Place, item: T) -> T
        requires { IsLive self.old place.number }
        ensures old { item_at self.old place.number ≡ Some result }
        ensures live { IsLive self.new place.number }
        ensures set { self.new ≡ set_at self.old place.number item }
    {
        exchange(&mut self.slots, place.number, item)
    }

    /// Closes a scope and all scopes nested in it, and drops all their items. Their places may be
    /// used again. Takes no memory.
    pub fn close_scope(&mut self, scope: ScopeId)
        requires { IsOpen self.old.scopes scope.name }
        ensures { self.new ≡ closed self.old scope.name }
    {
        find_within(self.scopes.as_slice(), scope.name, &mut self.closing);
        vacate_all(
            &mut self.slots,
            &mut self.vacant,
            &mut self.scopes,
            self.closing.as_slice(),
        );
        drop_scopes(&mut self.scopes, self.closing.as_slice());
        self.closing.clear();
    }

    /// How many items are in the pool.
    pub fn live(&self) -> usize
        ensures { result ≡ len self.now.items }
    {
        self.slots.len() - self.vacant.len()
    }
}

/// What holds of the open scopes of every pool. Does nothing.
pub fn scopes_law<T>(pool: &Pool<T>)
    ensures sound { AreSound pool.now.scopes }
    ensures nested { AreNestedByParents pool.now.scopes }
{
    let _scopes = &pool.scopes;
}
