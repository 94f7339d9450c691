//! A keeper that remembers whether a call of it has failed.
ghost use Rattle.std.specs.Prelude.{◌≡◌, ◌||◌, nat_lt};
ghost use Rattle.store_keepers.specs.inside.Notes.{is_fault, is_migrate_fault};

use core_rules::Delta;
use keeper_core::{KeepFault, Keeper, MigrateFault, Migrated, Tables};
use std::alloc::Global;
use std::marker::Model;
use value_core::ListOf;

/// A keeper, and whether a call of it has failed. Contracts see the keeper alone.
#[derive(Drop)]
pub struct NotedKeeper<K: Keeper> {
    keeper: K,
    failed: bool,
}

impl<K: Keeper> Model for NotedKeeper<K> {
    ghost use Rattle.std.specs.Prelude.{◌≡◌, nat_lt};

    ghost Value = { K };

    ghost coded = { K.code };

    ghost view = { λ k. k.keeper };

    ghost invariant = { λ k. k.failed ≡ nat_lt 0 (K.faults k.keeper) };
}

impl<K: Keeper> NotedKeeper<K> {
    /// A keeper none of whose calls has failed.
    pub fn new(keeper: K) -> NotedKeeper<K>
        requires { K.faults keeper ≡ 0 }
        ensures { result ≡ keeper }
    {
        NotedKeeper {
            keeper,
            failed: false,
        }
    }

    /// Whether a call of it has failed.
    pub fn has_failed(&self) -> bool
        ensures { result ≡ nat_lt 0 (K.faults self.now) }
    {
        self.failed
    }
}

/// Notes whether a call failed.
fn note<T>(failed: &mut bool, answer: &Result<T, KeepFault>)
    ensures { failed.new ≡ (failed.old || is_fault answer.now) }
{
    if let Err(KeepFault::Fault) = answer {
        *failed = true;
    }
}

/// The same of a migration.
fn note_migration(failed: &mut bool, answer: &Result<Migrated, MigrateFault>)
    ensures { failed.new ≡ (failed.old || is_migrate_fault answer.now) }
{
    if let Err(MigrateFault::Fault) = answer {
        *failed = true;
    }
}

impl<K: Keeper> Keeper for NotedKeeper<K> {
    ghost known = { K.known };

    ghost faults = { K.faults };

    fn load(&mut self, alloc: Global) -> Result<Tables, KeepFault> {
        let answer = self.keeper.load(alloc);
        note(&mut self.failed, &answer);
        answer
    }

    fn commit(&mut self, alloc: Global, delta: &Delta) -> Result<(), KeepFault> {
        let answer = self.keeper.commit(alloc, delta);
        note(&mut self.failed, &answer);
        answer
    }

    fn log_of(&mut self, alloc: Global, job: u64) -> Result<Option<ListOf<u8>>, KeepFault> {
        let answer = self.keeper.log_of(alloc, job);
        note(&mut self.failed, &answer);
        answer
    }

    fn migrate(&mut self, alloc: Global) -> Result<Migrated, MigrateFault> {
        let answer = self.keeper.migrate(alloc);
        note_migration(&mut self.failed, &answer);
        answer
    }
}
