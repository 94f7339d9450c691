//! A keeper over a connection.
ghost use Rattle.std.specs.Prelude.{◌≡◌, IfOk, IsTrue};
ghost use Rattle.sqlite.specs.Held.{state};
ghost use Rattle.keeper_core.specs.EitherSchema.{migrated};
ghost use Rattle.keeper_core.specs.KeeperCalls.{LeavesEither, MigrateCause, Migrates};
ghost use Rattle.sql_keeper.specs.Refusals.{FaultsIfRefused, fault_of};
ghost use Rattle.sql_keeper.specs.inside.Keeping.{Refuses, unmigrated};
ghost use Rattle.sql_keeper.specs.Kept.{AdoptsLast, LeavesWithin, known_of};

use crate::adopting::adopted;
use crate::commits::commit;
use crate::moving::{Moved, move_tables};
use crate::reads::{load, log_of, says_current};
use core_rules::Delta;
use keeper_core::{KeepFault, Keeper, MigrateFault, Migrated, Table, Tables};
use sqlite::{Alter, Connection, Error, ErrorCode};
use std::alloc::Global;
use std::marker::Model;
use std::snapshot::Snapshot;
use value_core::ListOf;

/// A keeper over a database. Each commit is one transaction, and a statement that is refused for
/// another cause than memory is a fault. Its tables are known as long as the disk returns what was
/// written and no failure of it has shut the connection.
#[derive(Drop)]
pub struct SqlKeeper<S: Alter> {
    conn: Connection<S>,
    /// Whether the tables are of the first schema.
    is_old: bool,
    faults: u64,
    /// The connection as the last commit left it: for contracts alone, it has no bytes.
    last: Snapshot<Connection<S>>,
}

impl<S: Alter> Model for SqlKeeper<S> {
    ghost use Rattle.sql_keeper.specs.Kept.{Kept, kept, kept_code};
    ghost use Rattle.sql_keeper.specs.inside.Keeping.{IsKept};

    ghost Value = { Kept S };

    ghost coded = { kept_code S.code };

    ghost view = { λ k. kept k.conn k.is_old k.faults k.last.value };

    ghost invariant = { λ k. IsKept S.Store (kept k.conn k.is_old k.faults k.last.value) };
}

impl<S: Alter + Drop> SqlKeeper<S> {
    /// A keeper of the tables that a connection's last commit left: a transaction in progress is
    /// rolled back. A store without a table gets fresh ones, in one transaction. A store of another
    /// schema than the first and the second is left as it is, and is a fault. Each row is read once.
    pub fn adopt(alloc: Global, conn: Connection<S>) -> Result<SqlKeeper<S>, KeepFault>
        ensures begins { IfOk result (λ k. k.faults ≡ 0) }
        ensures tables { IfOk result (AdoptsLast S.Store conn) }
        ensures cause { FaultsIfRefused S.Store conn result }
    {
        match adopted(alloc, conn) {
            Ok((conn, is_old)) => Ok(SqlKeeper {
                last: Snapshot::of(&conn),
                conn,
                is_old,
                faults: 0,
            }),
            Err(error) => Err(fault_of(error)),
        }
    }

    /// Its connection, which takes no memory.
    pub fn into_connection(self) -> Connection<S>
        ensures same { result ≡ self.conn }
        ensures left { LeavesWithin (known_of S.Store self) (state S.Store result) }
    {
        let SqlKeeper { conn, .. } = self;
        conn
    }
}

/// Out of memory stays, and each other error is a fault.
fn fault_of(error: Error) -> KeepFault
    ensures { result ≡ fault_of error }
{
    match error {
        Error::SqliteFailure(ErrorCode::OutOfMemory) => KeepFault::NoMemory,
        _ => KeepFault::Fault,
    }
}

/// Counts a fault, unless memory ran out.
fn refusal(faults: &mut u64, error: Error) -> KeepFault
    ensures { Refuses faults.old faults.new result }
{
    if let Error::SqliteFailure(ErrorCode::OutOfMemory) = error {
        return KeepFault::NoMemory;
    }
    *faults = faults.saturating_add(1);
    KeepFault::Fault
}

/// The same fault, of a migration.
fn unmigrated(fault: KeepFault) -> MigrateFault
    ensures { result ≡ unmigrated fault }
{
    match fault {
        KeepFault::Fault => MigrateFault::Fault,
        KeepFault::NoMemory => MigrateFault::NoMemory,
    }
}

impl<S: Alter> SqlKeeper<S> {
    /// Moves tables of the first schema under the second, as one transaction.
    fn migrate_old(&mut self, alloc: Global) -> Result<Migrated, MigrateFault>
        requires { IsTrue self.old.is_old }
        ensures tables { Migrates (known_of S.Store self.old) (known_of S.Store self.new) result }
        ensures stop { LeavesEither migrated
            (known_of S.Store self.old) (known_of S.Store self.new) }
        ensures cause { MigrateCause self.old.faults self.new.faults result }
    {
        match move_tables(&mut self.conn, alloc) {
            Ok(Moved::Rows(count)) => {
                self.last = Snapshot::of(&self.conn);
                self.is_old = false;
                Ok(Migrated::Rows(count))
            }
            Ok(Moved::BadRow(table, number)) => Err(MigrateFault::BadRow(table, number)),
            Err(Error::SqliteFailure(ErrorCode::OutOfMemory)) => Err(MigrateFault::NoMemory),
            Err(_) => {
                self.last = Snapshot::of(&self.conn);
                self.faults = self.faults.saturating_add(1);
                Err(MigrateFault::Fault)
            }
        }
    }
}

impl<S: Alter> Keeper for SqlKeeper<S> {
    ghost known = { known_of S.Store };

    ghost faults = { λ k. k.faults };

    fn load(&mut self, alloc: Global) -> Result<Tables, KeepFault> {
        match load(&mut self.conn, alloc, self.is_old) {
            Ok(tables) => Ok(tables),
            Err(error) => Err(refusal(&mut self.faults, error)),
        }
    }

    fn commit(&mut self, alloc: Global, delta: &Delta) -> Result<(), KeepFault> {
        let _ = alloc;
        if self.is_old {
            self.faults = self.faults.saturating_add(1);
            return Err(KeepFault::Fault);
        }
        match commit(&mut self.conn, delta) {
            Ok(()) => {
                self.last = Snapshot::of(&self.conn);
                Ok(())
            }
            Err(Error::SqliteFailure(ErrorCode::OutOfMemory)) => Err(KeepFault::NoMemory),
            Err(_) => {
                self.last = Snapshot::of(&self.conn);
                self.faults = self.faults.saturating_add(1);
                Err(KeepFault::Fault)
            }
        }
    }

    fn log_of(&mut self, alloc: Global, job: u64) -> Result<Option<ListOf<u8>>, KeepFault> {
        let _ = alloc;
        match log_of(&mut self.conn, self.is_old, job) {
            Ok(log) => Ok(log),
            Err(error) => Err(refusal(&mut self.faults, error)),
        }
    }

    fn migrate(&mut self, alloc: Global) -> Result<Migrated, MigrateFault> {
        if self.is_old {
            return self.migrate_old(alloc);
        }
        match says_current(&mut self.conn, alloc) {
            Ok(true) => Ok(Migrated::Already),
            Ok(false) => Err(MigrateFault::BadRow(Table::Meta, 1)),
            Err(error) => Err(unmigrated(refusal(&mut self.faults, error))),
        }
    }
}
