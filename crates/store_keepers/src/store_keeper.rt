//! A keeper of one of two kinds.
ghost use Rattle.store_keepers.specs.Kinds.{by_kind};

use core_rules::Delta;
use keeper_core::{KeepFault, Keeper, MigrateFault, Migrated, Tables};
use std::alloc::Global;
use value_core::ListOf;

/// A keeper of a store in memory, or one over a file.
#[derive(Drop)]
pub enum StoreKeeper<M, F> {
    Memory(M),
    File(F),
}

impl<M: Keeper, F: Keeper> Keeper for StoreKeeper<M, F> {
    ghost known = { by_kind M.known F.known };

    ghost faults = { by_kind M.faults F.faults };

    fn load(&mut self, alloc: Global) -> Result<Tables, KeepFault> {
        match self {
            StoreKeeper::Memory(keeper) => keeper.load(alloc),
            StoreKeeper::File(keeper) => keeper.load(alloc),
        }
    }

    fn commit(&mut self, alloc: Global, delta: &Delta) -> Result<(), KeepFault> {
        match self {
            StoreKeeper::Memory(keeper) => keeper.commit(alloc, delta),
            StoreKeeper::File(keeper) => keeper.commit(alloc, delta),
        }
    }

    fn log_of(&mut self, alloc: Global, job: u64) -> Result<Option<ListOf<u8>>, KeepFault> {
        match self {
            StoreKeeper::Memory(keeper) => keeper.log_of(alloc, job),
            StoreKeeper::File(keeper) => keeper.log_of(alloc, job),
        }
    }

    fn migrate(&mut self, alloc: Global) -> Result<Migrated, MigrateFault> {
        match self {
            StoreKeeper::Memory(keeper) => keeper.migrate(alloc),
            StoreKeeper::File(keeper) => keeper.migrate(alloc),
        }
    }
}
