//! Stores in memory by their paths.
ghost use Rattle.std.specs.Prelude.{◌≡◌, ◌↔◌, true, IfNone, IfSome, OnErr, OnOk, Some};
ghost use Rattle.keeper_core.specs.HeldByPath.{FindsHeld, HoldsAlike, Leaves, LeavesNothing, held_at};
ghost use Rattle.keeper_core.specs.declared.stored.Stored.{Stored};

use crate::failing::{Calls, FailingCall};
use crate::keeper::{KeepFault, Keepers};
use crate::mem_keeper::MemKeeper;
use crate::stored::Stored;
use std::alloc::Global;
use value_core::NoMemory;

/// The tables of a path.
#[derive(Drop)]
pub struct HeldTables {
    pub path: String,
    pub stored: Stored,
}

/// The tables of the keeper that was given back last.
#[derive(Drop)]
enum LastGiven {
    /// No keeper was given back.
    None,
    /// Those that are held at this index.
    Held(usize),
    /// Those of a keeper that was opened without a path.
    Apart(Stored),
}

/// Stores in memory by their paths, with lists of calls that are to fail.
#[derive(Drop)]
pub struct MemKeepers {
    alloc: Global,
    held: Vec<HeldTables>,
    opens: Calls,
    failing: Vec<FailingCall>,
    last: LastGiven,
}

/// The index of a path's tables.
fn index_of_path(held: &[HeldTables], path: &str) -> Option<usize>
    ensures { FindsHeld held.now path.now result }
{
    let mut at = 0;
    for tables in held {
        if tables.path.as_str() == path {
            return Some(at);
        }
        at += 1;
    }
    None
}

/// Holds fresh tables for one more path.
fn hold_fresh(alloc: Global, held: &mut Vec<HeldTables>, path: &str) -> Result<(), NoMemory>
    ensures ok { OnOk result (HoldsAlike held.old.items held.new.items) }
    ensures err { OnErr result (held.new.items ≡ held.old.items) }
{
    let path = String::from_str(alloc, path)?;
    let stored = Stored::fresh(alloc)?;
    held.push(HeldTables { path, stored })?;
    Ok(())
}

impl MemKeepers {
    /// These tables are held. The opens of the first list fail, and of each keeper the calls of the
    /// second, each as it says.
    pub fn new(
        alloc: Global,
        held: Vec<HeldTables>,
        opens: Vec<FailingCall>,
        failing: Vec<FailingCall>,
    ) -> MemKeepers
        ensures faults { ⟦<MemKeepers as Keepers>⟧.faults result ≡ 0 }
        ensures held { ⟦<MemKeepers as Keepers>⟧.held result ≡ Some (held_at held.items) }
    {
        MemKeepers {
            alloc,
            held,
            opens: Calls::new(opens),
            failing,
            last: LastGiven::None,
        }
    }

    /// What a stop may leave of the keeper that was given back last.
    pub fn left(&self) -> Option<&Stored>
        ensures some { IfSome result (λ s. ⟦<MemKeepers as Keepers>⟧.left self.now s.now) }
        ensures none { IfNone result (LeavesNothing (⟦<MemKeepers as Keepers>⟧.left self.now)) }
    {
        match &self.last {
            LastGiven::None => None,
            LastGiven::Held(index) => self.held.get(*index).map(|tables| &tables.stored),
            LastGiven::Apart(stored) => Some(stored),
        }
    }
}

impl Keepers for MemKeepers {
    type K = MemKeeper;

    ghost held = { λ k. Some (held_at k.held.items) };

    ghost knows_left = { λ _. true };

    ghost left = { λ k. Leaves k.held.items k.last };

    ghost faults = { λ k. k.opens.faults };

    fn open(&mut self, alloc: Global, path: Option<&str>) -> Result<MemKeeper, KeepFault> {
        if self.opens.next().is_some() {
            self.opens.fail();
            return Err(KeepFault::Fault);
        }
        let failing = copy_failing(alloc, self.failing.as_slice())?;
        let Some(path) = path else {
            return Ok(MemKeeper::at(None, Stored::fresh(alloc)?, failing));
        };
        match index_of_path(self.held.as_slice(), path) {
            Some(at) => {
                let stored = self.held[at].stored.copy(alloc)?;
                Ok(MemKeeper::at(Some(at), stored, failing))
            }
            None => {
                let stored = Stored::fresh(alloc)?;
                let at = self.held.len();
                hold_fresh(self.alloc, &mut self.held, path)?;
                Ok(MemKeeper::at(Some(at), stored, failing))
            }
        }
    }

    fn give_back(&mut self, keeper: MemKeeper) {
        let (stored, index, faults) = keeper.into_parts();
        if faults > 0 {
            self.opens.fail();
        }
        self.last = put_back(&mut self.held, index, stored);
    }
}

/// The same calls.
fn copy_failing(alloc: Global, failing: &[FailingCall]) -> Result<Vec<FailingCall>, NoMemory> {
    let mut copies = Vec::new(alloc);
    for call in failing {
        copies.push(*call)?;
    }
    Ok(copies)
}

/// Puts the tables of a keeper that is given back in place of those held for its path.
fn put_back(held: &mut Vec<HeldTables>, index: Option<usize>, stored: Stored) -> LastGiven
    ensures { (x : Stored) → Leaves held.new.items result x ↔ (x ≡ stored) }
{
    if let Some(index) = index {
        if let Some(tables) = held.get_mut(index) {
            tables.stored = stored;
            return LastGiven::Held(index);
        }
    }
    LastGiven::Apart(stored)
}
