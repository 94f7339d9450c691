//! Which worker has a hint in a pool.
ghost use Rattle.std.specs.Prelude.{◌≡◌, ◌+◌, ◌<◌, ◌≤◌, map, IfOk, OnOk};
ghost use Rattle.std.specs.FinMap.{empty, entries, get};
ghost use Rattle.fair_pool.specs.Hints.{hint_key_cmp, hint_key, hint_entry};
ghost use Rattle.fair_pool.specs.Kept.{AreHintsKept, IsSearched, with_known};

use crate::room::insert_within;
use crate::ticket::HintWorker;
use std::alloc::Global;
use std::cmp::Ordering;
use std::marker::Model;
use value_core::{NoMemory, Text};

/// The workers of hints.
#[derive(Drop)]
pub(crate) struct Hints {
    /// In order of pools and hints, searched by halving.
    known: Vec<HintWorker>,
}

impl Model for Hints {
    ghost use Rattle.std.specs.Prelude.{◌-◌, length};
    ghost use Rattle.std.specs.Vec.{vec_capacity};
    ghost use Rattle.fair_pool.specs.KeptCodes.{hints_code};
    ghost use Rattle.fair_pool.specs.Kept.{HintsState, hint_table, AreHintsKept};

    ghost Value = { HintsState };

    ghost coded = { hints_code };

    ghost view = { λ h. record {
      workers = hint_table h.known.items;
      room = vec_capacity h.known - length h.known.items;
    } };

    ghost invariant = { λ h. AreHintsKept h.known.items };
}

/// How a hint compares to another.
fn compared(known: &HintWorker, pool: u32, hint: &Text) -> Ordering
    ensures { result ≡ hint_key_cmp (hint_key known.now) (record { pool = pool; hint = hint.now }) }
{
    known.pool.cmp(&pool).then(known.hint.cmp(hint))
}

/// The index of a hint among these, which are in order, or the one at which it would come in.
fn search(known: &[HintWorker], pool: u32, hint: &Text) -> Result<usize, usize>
    requires { AreHintsKept known.now }
    ensures { IsSearched pool hint.now known.now result }
{
    known.binary_search_by(|other| compared(other, pool, hint))
}

fn copy_of_known(alloc: Global, known: &[HintWorker]) -> Result<Vec<HintWorker>, NoMemory>
    ensures { IfOk result (λ hs. hs.items ≡ known.now) }
{
    let mut copies = Vec::new(alloc);
    for hint in known {
        copies.push(hint.copy(alloc)?)?;
    }
    Ok(copies)
}

impl Hints {
    ghost use Rattle.fair_pool.specs.Kept.{HintsState};

    pub(crate) fn new(alloc: Global) -> Hints
        ensures { result.workers ≡ empty }
    {
        Hints {
            known: Vec::new(alloc),
        }
    }

    /// All of them, in order.
    pub(crate) fn known(&self) -> &[HintWorker]
        ensures { map hint_entry result.now ≡ entries self.now.workers }
    {
        self.known.as_slice()
    }

    /// The worker of a hint.
    pub(crate) fn worker_of(&self, pool: u32, hint: &Text) -> Option<u32>
        ensures { result ≡ get self.now.workers (record { pool = pool; hint = hint.now }) }
    {
        match search(self.known.as_slice(), pool, hint) {
            Ok(at) => Some(self.known[at].worker),
            Err(_) => None,
        }
    }

    /// A worker has a hint from now on; there is room for it.
    pub(crate) fn note(&mut self, pool: u32, hint: Text, worker: u32)
        requires { 0 < self.old.room }
        ensures workers { self.new.workers ≡ with_known pool hint worker self.old.workers }
        ensures room { self.old.room ≤ self.new.room + 1 }
    {
        match search(self.known.as_slice(), pool, &hint) {
            Ok(at) => self.known[at].worker = worker,
            Err(at) => insert_within(&mut self.known, at, HintWorker { pool, hint, worker }),
        }
    }

    /// Makes room for so many more hints.
    pub(crate) fn reserve(&mut self, more: usize) -> Result<(), NoMemory>
        ensures workers { self.new.workers ≡ self.old.workers }
        ensures room { self.old.room ≤ self.new.room }
        ensures ok { OnOk result (more ≤ self.new.room) }
    {
        self.known.reserve(more)
    }

    /// Equal ones, with room for so many more.
    pub(crate) fn copy(&self, alloc: Global, more: usize) -> Result<Hints, NoMemory>
        ensures workers { IfOk result (λ h. h.workers ≡ self.now.workers) }
        ensures room { IfOk result (λ h. more ≤ h.room) }
    {
        let mut known = copy_of_known(alloc, self.known.as_slice())?;
        known.reserve(more)?;
        Ok(Hints { known })
    }
}
