//! Connections that a keeper takes.
ghost use Rattle.std.specs.Prelude.{◌≡◌, IfErr, IfOk, false};
ghost use Rattle.sql_keeper.specs.Refusals.{FailsToAdopt};
ghost use Rattle.sql_keeper.specs.inside.Calls.{AdoptedFrom, IsKeyedIn, IsOpened, ShowsLastOf};

use crate::known::{is_blank, is_current, is_first};
use crate::making::make_tables;
use sqlite::{Alter, Connection, Error, ErrorCode};
use std::alloc::Global;

/// A connection over the same store, as its last commit left it. Each row is read and tested.
fn reopened<S: Alter + Drop>(alloc: Global, conn: Connection<S>) -> Result<Connection<S>, Error>
    ensures opens { IfOk result (IsOpened S.Store) }
    ensures keyed { IfOk result (IsKeyedIn S.Store) }
    ensures idle { IfOk result (λ c. c.in_transaction ≡ false) }
    ensures same { IfOk result (ShowsLastOf S.Store conn) }
    ensures cause { IfErr result (FailsToAdopt S.Store conn) }
{
    let store = conn.into_store();
    if store.is_broken() {
        return Err(Error::SqliteFailure(ErrorCode::Closed));
    }
    match Connection::over(alloc, store) {
        Ok(conn) => Ok(conn),
        Err((error, _)) => Err(error),
    }
}

/// A connection over the same store, which has the tables: they are made if it has none. Whether
/// they are of the first schema is answered too.
pub(crate) fn adopted<S: Alter + Drop>(
    alloc: Global,
    conn: Connection<S>,
) -> Result<(Connection<S>, bool), Error>
    ensures idle { IfOk result (λ a. a.0.in_transaction ≡ false) }
    ensures adopted { IfOk result (λ a. AdoptedFrom S.Store conn a.0 a.1) }
    ensures cause { IfErr result (FailsToAdopt S.Store conn) }
{
    let mut conn = reopened(alloc, conn)?;
    if is_blank(conn.schema()) {
        make_tables(&mut conn)?;
        return Ok((conn, false));
    }
    if is_current(conn.schema()) {
        return Ok((conn, false));
    }
    if is_first(conn.schema()) {
        return Ok((conn, true));
    }
    Err(Error::SqliteFailure(ErrorCode::NotADatabase))
}
