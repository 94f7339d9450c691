//! What opens the program's keepers, and takes them back.
ghost use Rattle.std.specs.Prelude.{◌≡◌, ◌≤◌, IfOk, None, option_copied, false};
ghost use Rattle.io_ends.specs.Causes.{Rose, raised};
ghost use Rattle.keeper_core.specs.KeeperCalls.{IsSure};
ghost use Rattle.store_keepers.specs.Kinds.{IsOfPath};

use crate::noted::NotedKeeper;
use crate::store_keeper::StoreKeeper;
use keeper_core::{KeepFault, Keeper, Keepers, MemTables, SteadyKeeper};
use sql_keeper::SqlKeeper;
use sqlite::{File, FileStore};
use std::alloc::Global;
use std::rt::HostRuntime;

/// A keeper over a file.
pub type FileKeeper = SqlKeeper<FileStore<File>>;

/// A keeper over the file of a path; without one, of a fresh store in memory.
pub fn open_store(
    rt: &HostRuntime,
    alloc: Global,
    path: Option<&str>,
) -> Result<StoreKeeper<SteadyKeeper, FileKeeper>, KeepFault>
    ensures begins { IfOk result (λ k.
        ⟦<StoreKeeper<SteadyKeeper, FileKeeper> as Keeper>⟧.faults k ≡ 0) }
    ensures kind { let known = ⟦<SteadyKeeper as Keeper>⟧.known in
        IfOk result (IsOfPath known (option_copied path.entry)) }
    ensures sure { IfOk result (λ k.
        IsSure (⟦<StoreKeeper<SteadyKeeper, FileKeeper> as Keeper>⟧.known k)) }
{
    match path {
        None => {
            let tables = MemTables::fresh(alloc)?;
            Ok(StoreKeeper::Memory(SteadyKeeper::new(tables)))
        }
        Some(path) => Ok(StoreKeeper::File(SqlKeeper::open_path(rt, alloc, path)?)),
    }
}

/// Opens the program's keepers. What their files hold has no ghost record.
#[derive(Drop)]
pub struct StoreKeepers<'r> {
    rt: &'r HostRuntime,
    faults: u64,
}

impl<'r> StoreKeepers<'r> {
    /// Nothing has failed.
    pub fn new(rt: &'r HostRuntime) -> StoreKeepers<'r>
        ensures held { ⟦<StoreKeepers<'r> as Keepers>⟧.held result ≡ None }
        ensures knows { ⟦<StoreKeepers<'r> as Keepers>⟧.knows_left result ≡ false }
        ensures faults { ⟦<StoreKeepers<'r> as Keepers>⟧.faults result ≡ 0 }
    {
        StoreKeepers { rt, faults: 0 }
    }

    fn count_fault(&mut self)
        ensures counted { self.new.faults ≡ raised self.old.faults }
        ensures later { self.old.faults ≤ self.new.faults }
        ensures rose { Rose self.old.faults self.new.faults }
    {
        self.faults = self.faults.saturating_add(1);
    }
}

impl<'r> Keepers for StoreKeepers<'r> {
    type K = NotedKeeper<StoreKeeper<SteadyKeeper, FileKeeper>>;

    ghost held = { λ _. None };

    ghost knows_left = { λ _. false };

    ghost left = { λ _ _. ⊥ };

    ghost faults = { λ k. k.faults };

    fn open(&mut self, alloc: Global, path: Option<&str>) -> Result<Self::K, KeepFault> {
        match open_store(self.rt, alloc, path) {
            Ok(keeper) => Ok(NotedKeeper::new(keeper)),
            Err(KeepFault::Fault) => {
                self.count_fault();
                Err(KeepFault::Fault)
            }
            Err(KeepFault::NoMemory) => Err(KeepFault::NoMemory),
        }
    }

    fn give_back(&mut self, keeper: Self::K) {
        if keeper.has_failed() {
            self.count_fault();
        }
    }
}
