//! A keeper over a file.
ghost use Rattle.std.specs.Prelude.{◌≡◌, IfOk};
ghost use Rattle.keeper_core.specs.KeeperCalls.{IsSure};

use crate::keeper::SqlKeeper;
use keeper_core::{KeepFault, Keeper};
use sqlite::{Connection, Error, ErrorCode, File, FileStore};
use std::alloc::Global;
use std::rt::HostRuntime;

impl SqlKeeper<FileStore<File>> {
    /// A keeper over the file of a path, as `adopt` makes it. A file that isn't there is made; one that
    /// can't be opened, or that another handle has open, is a fault.
    pub fn open_path(
        rt: &HostRuntime,
        alloc: Global,
        path: &str,
    ) -> Result<SqlKeeper<FileStore<File>>, KeepFault>
        ensures begins { IfOk result (λ k. ⟦<SqlKeeper<FileStore<File>> as Keeper>⟧.faults k ≡ 0) }
        ensures sure { IfOk result (λ k. IsSure (⟦<SqlKeeper<FileStore<File>> as Keeper>⟧.known k)) }
    {
        match Connection::open(rt, path) {
            Ok(conn) => SqlKeeper::adopt(alloc, conn),
            Err(Error::SqliteFailure(ErrorCode::OutOfMemory)) => Err(KeepFault::NoMemory),
            Err(_) => Err(KeepFault::Fault),
        }
    }
}
