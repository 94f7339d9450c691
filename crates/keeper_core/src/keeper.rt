//! What keeps the tables between sessions.
ghost use Rattle.std.specs.Prelude.{◌≡◌, ℕ, Bool, List, Option, IfOk, OnErr, option_copied};
ghost use Rattle.keeper_core.specs.Commits.{IsCommittable};
ghost use Rattle.keeper_core.specs.EitherSchema.{committed, migrated};
ghost use Rattle.keeper_core.specs.KeeperCalls.{Commits, HasCause, HoldsSame, Known, Loads};
ghost use Rattle.keeper_core.specs.KeeperCalls.{LeavesAsKeeper, LeavesEither, LeavesNothingNew};
ghost use Rattle.keeper_core.specs.KeeperCalls.{MigrateCause, knows_after};
ghost use Rattle.keeper_core.specs.KeeperCalls.{Migrates, Opens, ReadsLog, ReadsOnly, RefusesOld};
ghost use Rattle.keeper_core.specs.KeeperCalls.{counted};
ghost use Rattle.keeper_core.specs.declared.stored.Stored.{Stored};

use crate::tables::{Table, Tables};
use core_rules::Delta;
use std::alloc::{AllocError, Global};
use value_core::ListOf;

/// Why a keeper doesn't do what it is asked.
#[derive(Clone, Copy, Debug, PartialEq, Eq)]
pub enum KeepFault {
    /// The keeper failed, and has counted it.
    Fault,
    NoMemory,
}

impl From<AllocError> for KeepFault {
    ghost use Rattle.keeper_core.specs.declared.keeper.KeepFault.TheVariants as fault;

    ghost from_gives = { λ _ e. e ≡ fault.NoMemory };

    fn from(_e: AllocError) -> KeepFault {
        KeepFault::NoMemory
    }
}

/// What a migration did.
#[derive(Clone, Copy, Debug, PartialEq, Eq)]
pub enum Migrated {
    /// So many results were moved.
    Rows(u64),
    /// The tables were of the second schema already.
    Already,
}

/// Why nothing was migrated.
#[derive(Clone, Copy, Debug, PartialEq, Eq)]
pub enum MigrateFault {
    /// This row, counted from 1 in its table, is the first that isn't well formed.
    BadRow(Table, u64),
    /// The keeper failed, and has counted it. The tables may have been moved.
    Fault,
    NoMemory,
}

impl From<AllocError> for MigrateFault {
    ghost use Rattle.keeper_core.specs.declared.keeper.MigrateFault.TheVariants as fault;

    ghost from_gives = { λ _ e. e ≡ fault.NoMemory };

    fn from(_e: AllocError) -> MigrateFault {
        MigrateFault::NoMemory
    }
}

/// Keeps the tables of one store. A stop, at any moment of a call too, leaves some tables: those of
/// all commits that answered Ok, with or without the one in progress. A stop inside a call leaves
/// what it may leave after the same call with the answer Fault.
pub trait Keeper {
    /// Its tables, and those that a stop now may leave.
    ghost known: { Self → Known };
    /// How often a call has failed.
    ghost faults: { Self → ℕ };

    /// The rows of all tables in order, or those of `meta` alone if the format isn't that of the
    /// second schema.
    fn load(&mut self, alloc: Global) -> Result<Tables, KeepFault>
        ensures rows { Loads (known self.new) result }
        ensures same { ReadsOnly (known self.old) (known self.new) result }
        ensures cause { HasCause (faults self.old) (faults self.new) result };

    /// Makes all changes of a delta as one.
    fn commit(&mut self, alloc: Global, delta: &Delta) -> Result<(), KeepFault>
        requires { IsCommittable delta.now }
        ensures tables { Commits (committed delta.now) (known self.old) (known self.new) result }
        ensures old { RefusesOld (known self.old) (known self.new) result }
        ensures stop { LeavesEither (committed delta.now) (known self.old) (known self.new) }
        ensures cause { HasCause (faults self.old) (faults self.new) result };

    /// The stored bytes of a job's output, if the job has a log.
    fn log_of(&mut self, alloc: Global, job: u64) -> Result<Option<ListOf<u8>>, KeepFault>
        ensures log { ReadsLog job (known self.new) result }
        ensures same { ReadsOnly (known self.old) (known self.new) result }
        ensures cause { HasCause (faults self.old) (faults self.new) result };

    /// Moves tables of the first schema under the second, as one.
    fn migrate(&mut self, alloc: Global) -> Result<Migrated, MigrateFault>
        ensures tables { Migrates (known self.old) (known self.new) result }
        ensures stop { LeavesEither migrated (known self.old) (known self.new) }
        ensures cause { MigrateCause (faults self.old) (faults self.new) result };
}

/// Opens keepers, and takes them back.
pub trait Keepers {
    /// What it opens.
    type K: Keeper;

    /// The tables that are held for each path, unless they are unknown; fresh ones if none are.
    ghost held: { Self → Option (List ℕ → Stored) };
    /// Whether it is known what a stop may leave.
    ghost knows_left: { Self → Bool };
    /// The tables that a stop may leave of the keeper that was given back last.
    ghost left: { Self → Stored → Type 0 };
    /// How often a call has failed, and how many keepers with faults were given back.
    ghost faults: { Self → ℕ };

    /// A keeper of the tables that are held for a path; without a path, of a fresh store in memory.
    fn open(&mut self, alloc: Global, path: Option<&str>) -> Result<Self::K, KeepFault>
        ensures begins { IfOk result (λ k. Self.K.faults k ≡ 0) }
        ensures tables { Opens Self.K.known (held self.old) (option_copied path.entry) result }
        ensures same { HoldsSame (held self.old) (held self.new) }
        ensures left { OnErr result (LeavesNothingNew (left self.old) (left self.new)) }
        ensures cause { HasCause (faults self.old) (faults self.new) result };

    /// Takes a keeper back.
    fn give_back(&mut self, keeper: Self::K)
        ensures left { LeavesAsKeeper (knows_left self.new) (left self.new) (Self.K.known keeper) }
        ensures known { knows_left self.new ≡ knows_after (knows_left self.old) (Self.K.known keeper) }
        ensures count { faults self.new ≡ counted (faults self.old) (Self.K.faults keeper) };
}
