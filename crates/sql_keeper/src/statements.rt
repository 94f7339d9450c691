//! The statements of a commit, each inside a transaction.
ghost use Rattle.std.specs.Prelude.{◌≡◌};
ghost use Rattle.sql_keeper.specs.inside.Steps.{with_next_job, without_result};
ghost use Rattle.keeper_core.specs.Contents.{with_output, with_literal};
ghost use Rattle.sql_keeper.specs.inside.Borrowed.{key_from, with_texts};
ghost use Rattle.sql_keeper.specs.inside.Calls.{CommitsNothing, HasStore, IsInside, IsReadyIn};
ghost use Rattle.sql_keeper.specs.inside.Calls.{Steps, Touches, Undoes};

use sqlite::{Alter, Error, Transaction, params};

/// Nothing, which an open connection alone runs, over tables of the first schema or the second.
pub(crate) fn touch<S: Alter>(tx: &mut Transaction<'_, S>, is_old: bool) -> Result<usize, Error>
    requires inside { IsInside S.Store tx.old.conn.now }
    requires database { HasStore S.Store is_old tx.old.conn.now }
    ensures same_reference { tx.new.conn.ghost_name ≡ tx.old.conn.ghost_name }
    ensures ready { Touches S.Store is_old tx.old.conn.now tx.new.conn.now result }
    ensures undone { Undoes S.Store tx.old.conn.now tx.new.conn.now result }
    ensures survives { CommitsNothing S.Store tx.old.conn.now tx.new.conn.now }
{
    let _ = is_old;
    tx.execute("", &[])
}

/// Puts an input's literal.
pub(crate) fn put_input<S: Alter>(
    tx: &mut Transaction<'_, S>,
    name: &str,
    literal: &str,
) -> Result<usize, Error>
    requires { IsReadyIn S.Store tx.old.conn.now }
    ensures same_reference { tx.new.conn.ghost_name ≡ tx.old.conn.ghost_name }
    ensures put { Steps S.Store (with_literal name.now literal.now)
        tx.old.conn.now tx.new.conn.now result }
    ensures undone { Undoes S.Store tx.old.conn.now tx.new.conn.now result }
    ensures survives { CommitsNothing S.Store tx.old.conn.now tx.new.conn.now }
{
    tx.execute(
        "INSERT OR REPLACE INTO inputs VALUES (?1, ?2)",
        params![name, literal],
    )
}

/// Takes out the row of a key.
pub(crate) fn void_key<S: Alter>(
    tx: &mut Transaction<'_, S>,
    op: &str,
    khash: &[u8],
    ckey: &str,
) -> Result<usize, Error>
    requires { IsReadyIn S.Store tx.old.conn.now }
    ensures same_reference { tx.new.conn.ghost_name ≡ tx.old.conn.ghost_name }
    ensures voided { Steps S.Store (without_result (key_from op.now khash.now ckey.now))
        tx.old.conn.now tx.new.conn.now result }
    ensures undone { Undoes S.Store tx.old.conn.now tx.new.conn.now result }
    ensures survives { CommitsNothing S.Store tx.old.conn.now tx.new.conn.now }
{
    tx.execute(
        "DELETE FROM cache2 WHERE op = ?1 AND khash = ?2 AND ckey = ?3",
        params![op, khash, ckey],
    )
}

/// Adds a job's log.
pub(crate) fn add_log<S: Alter>(
    tx: &mut Transaction<'_, S>,
    job: i64,
    output: &[u8],
) -> Result<usize, Error>
    requires { IsReadyIn S.Store tx.old.conn.now }
    ensures same_reference { tx.new.conn.ghost_name ≡ tx.old.conn.ghost_name }
    ensures logged { Steps S.Store (with_output job output.now)
        tx.old.conn.now tx.new.conn.now result }
    ensures undone { Undoes S.Store tx.old.conn.now tx.new.conn.now result }
    ensures survives { CommitsNothing S.Store tx.old.conn.now tx.new.conn.now }
{
    tx.execute("INSERT INTO logs VALUES (?1, ?2)", params![job, output])
}

/// Sets the next number.
pub(crate) fn number<S: Alter>(tx: &mut Transaction<'_, S>, next: i64) -> Result<usize, Error>
    requires { IsReadyIn S.Store tx.old.conn.now }
    ensures same_reference { tx.new.conn.ghost_name ≡ tx.old.conn.ghost_name }
    ensures numbered { Steps S.Store (with_next_job next)
        tx.old.conn.now tx.new.conn.now result }
    ensures undone { Undoes S.Store tx.old.conn.now tx.new.conn.now result }
    ensures survives { CommitsNothing S.Store tx.old.conn.now tx.new.conn.now }
{
    tx.execute("UPDATE meta SET next_job = ?1 WHERE id = 1", params![next])
}

/// The texts of a result and the hash of its key.
#[derive(Clone, Copy)]
pub(crate) struct Texts<'a> {
    pub op: &'a str,
    pub khash: &'a [u8],
    pub ckey: &'a str,
    pub cvalue: &'a str,
    pub result: &'a str,
}

/// Puts a result.
pub(crate) fn put_result<S: Alter>(
    tx: &mut Transaction<'_, S>,
    texts: &Texts,
    fine: i64,
    finished: i64,
    job: i64,
    rebuild: i64,
) -> Result<usize, Error>
    requires { IsReadyIn S.Store tx.old.conn.now }
    ensures same_reference { tx.new.conn.ghost_name ≡ tx.old.conn.ghost_name }
    ensures put { Steps S.Store (with_texts texts.now fine finished job rebuild)
        tx.old.conn.now tx.new.conn.now result }
    ensures undone { Undoes S.Store tx.old.conn.now tx.new.conn.now result }
    ensures survives { CommitsNothing S.Store tx.old.conn.now tx.new.conn.now }
{
    tx.execute(
        "INSERT OR REPLACE INTO cache2 VALUES (?1, ?2, ?3, ?4, ?5, ?6, ?7, ?8, ?9)",
        params![
            texts.op,
            texts.khash,
            texts.ckey,
            texts.cvalue,
            fine,
            texts.result,
            finished,
            job,
            rebuild
        ],
    )
}
