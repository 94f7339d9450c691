//! What a store in memory holds, under either schema.
ghost use Rattle.std.specs.Prelude.{◌≡◌, IfOk, OnErr, OnOk, false, not};
ghost use Rattle.keeper_core.specs.Commits.{IsCommittable};
ghost use Rattle.keeper_core.specs.KeeperCalls.{MovesStored};
ghost use Rattle.keeper_core.specs.EitherSchema.{committed, fresh_stored, is_old, loaded_of, log_of};

use crate::keeper::{MigrateFault, Migrated};
use crate::mem_tables::MemTables;
use crate::old_tables::OldMemTables;
use crate::reading::old_first_bad;
use crate::tables::{Table, Tables};
use core_rules::Delta;
use std::alloc::Global;
use value_core::{ListOf, NoMemory};

/// The tables of a store.
#[derive(Drop)]
pub enum Stored {
    /// Of the second schema.
    Current(MemTables),
    /// Of the first schema.
    Old(OldMemTables),
}

impl Stored {
    /// What a store holds that was just made.
    pub fn fresh(alloc: Global) -> Result<Stored, NoMemory>
        ensures { IfOk result (λ s. s ≡ fresh_stored) }
    {
        Ok(Stored::Current(MemTables::fresh(alloc)?))
    }

    /// Equal tables.
    pub fn copy(&self, alloc: Global) -> Result<Stored, NoMemory>
        ensures { IfOk result (λ s. s ≡ self.now) }
    {
        Ok(match self {
            Stored::Current(tables) => Stored::Current(tables.copy(alloc)?),
            Stored::Old(tables) => Stored::Old(tables.copy(alloc)?),
        })
    }
}

impl Stored {
    /// What is loaded, if it can be.
    pub(crate) fn load(&self, alloc: Global) -> Result<Option<Tables>, NoMemory>
        ensures { IfOk result (λ tables. tables ≡ loaded_of self.now) }
    {
        match self {
            Stored::Current(tables) => Ok(Some(tables.load(alloc)?)),
            Stored::Old(tables) => {
                if tables.claims_current() {
                    return Ok(None);
                }
                Ok(Some(Tables {
                    meta: tables.meta_rows(alloc)?,
                    inputs: ListOf::new(alloc),
                    cache: ListOf::new(alloc),
                    logs: ListOf::new(alloc),
                }))
            }
        }
    }

    /// The log of a job.
    pub(crate) fn log_of(&self, alloc: Global, job: u64) -> Result<Option<ListOf<u8>>, NoMemory>
        ensures { IfOk result (λ log. log ≡ log_of self.now job) }
    {
        match self {
            Stored::Current(tables) => tables.log_of(alloc, job),
            Stored::Old(tables) => tables.log_of(alloc, job),
        }
    }

    /// Makes all changes of a delta, and whether it did: tables of the first schema take none.
    pub(crate) fn commit(&mut self, alloc: Global, delta: &Delta) -> Result<bool, NoMemory>
        requires { IsCommittable delta.now }
        ensures done { IfOk result (λ done. done ≡ not (is_old self.old)) }
        ensures ok { OnOk result (self.new ≡ committed delta.now self.old) }
        ensures err { OnErr result (self.new ≡ self.old) }
        ensures refused { OnErr result (is_old self.old ≡ false) }
    {
        match self {
            Stored::Current(tables) => {
                tables.commit(alloc, delta)?;
                Ok(true)
            }
            Stored::Old(_) => Ok(false),
        }
    }

    /// Moves well-formed tables of the first schema under the second.
    pub(crate) fn migrate(&mut self, alloc: Global) -> Result<Migrated, MigrateFault>
        ensures { MovesStored self.old self.new result }
    {
        match self {
            Stored::Current(tables) => {
                if tables.is_current() {
                    Ok(Migrated::Already)
                } else {
                    Err(MigrateFault::BadRow(Table::Meta, 1))
                }
            }
            Stored::Old(tables) => {
                let rows = tables.load(alloc)?;
                if let Some((table, number)) = old_first_bad(alloc, &rows)? {
                    return Err(MigrateFault::BadRow(table, number));
                }
                let results = tables.results() as u64;
                let moved = tables.moved(alloc)?;
                *self = Stored::Current(moved);
                Ok(Migrated::Rows(results))
            }
        }
    }
}
