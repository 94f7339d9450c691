//! What is wanted, and what follows for single jobs and triples.
ghost use Rattle.std.specs.Prelude.{◌≡◌, ◌<◌, ◌≤◌, length, IfOk, OnOk};
ghost use Rattle.term_core.specs.Counts.{is_wanted};
ghost use Rattle.value_core.specs.Orders.{triple_cmp};
ghost use Rattle.job_core.specs.Wants.{TriplesRise, triples_in};
ghost use Rattle.job_core.specs.Walks.{AreUnwanted, IsLeastAt, IsNotPast, IsOpenAt, IsReached, is_want_past, wants_passed, with_drop, with_loss};

use crate::jobs::op_at;
use crate::live_jobs::{LiveJobs, LiveWalk, is_on, is_same};
use core_rules::{Job, Mark, goes_on};
use op_keys::OpDecl;
use std::alloc::Global;
use std::cmp::Ordering;
use value_core::{NoMemory, Triple};

/// How two triples compare.
fn triple_order(a: &Triple, b: &Triple) -> Ordering
    ensures { result ≡ triple_cmp a.now b.now }
{
    match a.op.cmp(&b.op) {
        Ordering::Less => Ordering::Less,
        Ordering::Equal => match a.key.cmp(&b.key) {
            Ordering::Less => Ordering::Less,
            Ordering::Equal => a.value.cmp(&b.value),
            Ordering::Greater => Ordering::Greater,
        },
        Ordering::Greater => Ordering::Greater,
    }
}

/// A walk over the wanted triples, for triples that are asked for in order.
#[derive(Drop)]
struct WantsWalk<'a> {
    wants: &'a [(Triple, u64)],
    /// How many wanted triples are passed: each comes before any triple that is still asked for.
    passed: usize,
}

impl WantsWalk<'_> {
    /// Whether the next wanted triple comes before another.
    fn is_past(&self, triple: &Triple) -> bool
        ensures { result ≡ is_want_past triple.now self.now }
    {
        self.passed < self.wants.len() && triple_order(&self.wants[self.passed].0, triple).is_lt()
    }

    /// Whether a triple is wanted that comes no earlier than the last one.
    fn has(&mut self, triple: &Triple) -> bool
        requires rising { TriplesRise (triples_in self.old.wants.now) }
        requires later { self.old.passed ≤ wants_passed triple.now (triples_in self.old.wants.now) }
        ensures wants { self.new.wants ≡ self.old.wants }
        ensures passed { self.new.passed ≡ wants_passed triple.now (triples_in self.old.wants.now) }
        ensures wanted { result ≡ is_wanted (triples_in self.old.wants.now) triple.now }
    {
        while self.is_past(triple) {
            self.passed += 1;
        }
        self.passed < self.wants.len() && is_same(&self.wants[self.passed].0, triple)
    }
}

/// The numbers of the jobs to which nothing refers, as far as something becomes of them.
#[derive(Drop)]
pub(crate) struct Unwanted {
    /// Queued jobs, which go.
    pub(crate) drops: Vec<u64>,
    /// Running jobs, which get the automatic mark.
    pub(crate) lost: Vec<u64>,
}

impl Unwanted {
    /// The jobs to which nothing refers, found in one walk over the live jobs and the wanted triples.
    pub(crate) fn find(
        alloc: Global,
        wants: &[(Triple, u64)],
        ops: &[OpDecl],
        live: &LiveJobs,
    ) -> Result<Unwanted, NoMemory>
        requires { TriplesRise (triples_in wants.now) }
        ensures { IfOk result (AreUnwanted (triples_in wants.now) ops.now live.now.jobs) }
    {
        let mut walk = WantsWalk { wants, passed: 0 };
        let mut unwanted = Unwanted {
            drops: Vec::new(alloc),
            lost: Vec::new(alloc),
        };
        for rank in 0..live.len() {
            if let Some(job) = live.in_keys(rank) {
                if !walk.has(&job.triple) {
                    unwanted.add(ops, job)?;
                }
            }
        }
        unwanted.drops.sort_unstable();
        unwanted.lost.sort_unstable();
        Ok(unwanted)
    }

    /// Takes note of a job to which nothing refers.
    fn add(&mut self, ops: &[OpDecl], job: &Job) -> Result<(), NoMemory>
        ensures drops { OnOk result (self.new.drops.items ≡ with_drop job.now self.old) }
        ensures lost { OnOk result (self.new.lost.items ≡ with_loss ops.now job.now self.old) }
    {
        if job.worker.is_none() {
            self.drops.push(job.number)?;
        } else if job.mark == Mark::Unmarked && !goes_on(op_at(ops, job.triple.op)) {
            self.lost.push(job.number)?;
        }
        Ok(())
    }
}

/// Whether the wanted triple of an index has the least value of its operation and key.
fn is_least(wants: &[(Triple, u64)], index: usize) -> bool
    requires rising { TriplesRise (triples_in wants.now) }
    requires within { index < length wants.now }
    ensures { IsLeastAt wants.now index result }
{
    let triple = &wants[index].0;
    index == 0 || !is_on(&wants[index - 1].0, triple.op, &triple.key)
}

/// Whether the wanted triple of an index is a target of which no live job stays. The walk comes to
/// its operation and key.
pub(crate) fn is_open(wants: &[(Triple, u64)], index: usize, walk: &mut LiveWalk<'_>) -> bool
    requires rising { TriplesRise (triples_in wants.now) }
    requires within { index < length wants.now }
    requires later { IsNotPast wants.now walk.old.live.now.jobs index walk.old.passed }
    ensures opens { IsOpenAt wants.now walk.old.live.now.jobs index result }
    ensures live { walk.new.live ≡ walk.old.live }
    ensures walked { IsReached wants.now walk.old.live.now.jobs index walk.new.passed }
{
    let triple = &wants[index].0;
    let job = walk.on(triple.op, &triple.key);
    if !is_least(wants, index) {
        return false;
    }
    let mut rest = WantsWalk {
        wants,
        passed: index,
    };
    match job {
        Some(job) => job.worker.is_none() && !rest.has(&job.triple),
        None => true,
    }
}
