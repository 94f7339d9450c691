//! Keepers in memory.
ghost use Rattle.std.specs.Prelude.{◌≡◌};
ghost use Rattle.keeper_core.specs.KeeperCalls.{Holds, sure};
ghost use Rattle.keeper_core.specs.inside.FailingCalls.{no_calls};
ghost use Rattle.keeper_core.specs.declared.stored.Stored.TheVariants.{Current};

use crate::failing::{Calls, FailingCall, Failure};
use crate::keeper::{KeepFault, Keeper, MigrateFault, Migrated};
use crate::mem_tables::MemTables;
use crate::stored::Stored;
use crate::tables::{Table, Tables};
use core_rules::Delta;
use std::alloc::Global;
use value_core::ListOf;

/// A keeper that never fails, of tables of the second schema.
#[derive(Drop)]
pub struct SteadyKeeper {
    tables: MemTables,
}

impl SteadyKeeper {
    /// A keeper of these tables.
    pub fn new(tables: MemTables) -> SteadyKeeper
        ensures { Holds (Current tables) (⟦<SteadyKeeper as Keeper>⟧.known result) }
    {
        SteadyKeeper { tables }
    }

    /// What a stop leaves.
    pub fn into_tables(self) -> MemTables
        ensures { Holds (Current result) (⟦<SteadyKeeper as Keeper>⟧.known self) }
    {
        let SteadyKeeper { tables } = self;
        tables
    }
}

impl Keeper for SteadyKeeper {
    ghost known = { λ k. sure (Current k.tables) };

    ghost faults = { λ _. 0 };

    fn load(&mut self, alloc: Global) -> Result<Tables, KeepFault> {
        Ok(self.tables.load(alloc)?)
    }

    fn commit(&mut self, alloc: Global, delta: &Delta) -> Result<(), KeepFault> {
        self.tables.commit(alloc, delta)?;
        Ok(())
    }

    fn log_of(&mut self, alloc: Global, job: u64) -> Result<Option<ListOf<u8>>, KeepFault> {
        Ok(self.tables.log_of(alloc, job)?)
    }

    fn migrate(&mut self, alloc: Global) -> Result<Migrated, MigrateFault> {
        let _ = alloc;
        if self.tables.is_current() {
            Ok(Migrated::Already)
        } else {
            Err(MigrateFault::BadRow(Table::Meta, 1))
        }
    }
}

/// A keeper of tables under either schema, with a list of calls that are to fail.
#[derive(Drop)]
pub struct MemKeeper {
    stored: Stored,
    calls: Calls,
    index: Option<usize>,
}

impl MemKeeper {
    /// A keeper of these tables. The calls of the list fail, each as it says.
    pub fn new(stored: Stored, failing: Vec<FailingCall>) -> MemKeeper
        ensures tables { Holds stored (⟦<MemKeeper as Keeper>⟧.known result) }
        ensures faults { ⟦<MemKeeper as Keeper>⟧.faults result ≡ 0 }
    {
        MemKeeper::at(None, stored, failing)
    }

    /// The same, of the tables at an index among those that are held.
    pub(crate) fn at(index: Option<usize>, stored: Stored, failing: Vec<FailingCall>) -> MemKeeper
        ensures { result ≡ record { stored = stored; calls = no_calls failing; index = index } }
    {
        MemKeeper {
            stored,
            calls: Calls::new(failing),
            index,
        }
    }

    /// What a stop leaves.
    pub fn into_stored(self) -> Stored
        ensures { Holds result (⟦<MemKeeper as Keeper>⟧.known self) }
    {
        let MemKeeper { stored, .. } = self;
        stored
    }

    /// What a stop leaves, the index of its tables, and how many calls failed.
    pub(crate) fn into_parts(self) -> (Stored, Option<usize>, u64)
        ensures { result ≡ (self.stored, self.index, self.calls.faults) }
    {
        let MemKeeper {
            stored,
            calls,
            index,
        } = self;
        (stored, index, calls.faults)
    }
}

impl Keeper for MemKeeper {
    ghost known = { λ k. sure k.stored };

    ghost faults = { λ k. k.calls.faults };

    fn load(&mut self, alloc: Global) -> Result<Tables, KeepFault> {
        if self.calls.next().is_some() {
            self.calls.fail();
            return Err(KeepFault::Fault);
        }
        match self.stored.load(alloc)? {
            Some(tables) => Ok(tables),
            None => {
                self.calls.fail();
                Err(KeepFault::Fault)
            }
        }
    }

    fn commit(&mut self, alloc: Global, delta: &Delta) -> Result<(), KeepFault> {
        let failure = self.calls.next();
        if failure == Some(Failure::Before) {
            self.calls.fail();
            return Err(KeepFault::Fault);
        }
        let done = self.stored.commit(alloc, delta)?;
        if !done || failure == Some(Failure::After) {
            self.calls.fail();
            return Err(KeepFault::Fault);
        }
        Ok(())
    }

    fn log_of(&mut self, alloc: Global, job: u64) -> Result<Option<ListOf<u8>>, KeepFault> {
        if self.calls.next().is_some() {
            self.calls.fail();
            return Err(KeepFault::Fault);
        }
        Ok(self.stored.log_of(alloc, job)?)
    }

    fn migrate(&mut self, alloc: Global) -> Result<Migrated, MigrateFault> {
        let failure = self.calls.next();
        if failure == Some(Failure::Before) {
            self.calls.fail();
            return Err(MigrateFault::Fault);
        }
        let done = self.stored.migrate(alloc)?;
        if failure == Some(Failure::After) {
            self.calls.fail();
            return Err(MigrateFault::Fault);
        }
        Ok(done)
    }
}
