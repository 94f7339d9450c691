//! Live jobs, found by their numbers and by their operations and keys.
ghost use Rattle.std.specs.Prelude.{◌≡◌, ◌-◌, ◌^◌, ◌<◌, ◌≤◌, [], ◌∷◌, ◌++◌, true, length, max, slice_get, vec_len, insert, IfOk, OnOk, OnErr, Some, None};
ghost use Rattle.std.specs.Option.{option_copied};
ghost use Rattle.std.specs.VecDeque.{deque_capacity};
ghost use Rattle.value_core.specs.Orders.{same_triple};
ghost use Rattle.core_rules.specs.Core.{has_job, job_numbered, with_job, without_job};
ghost use Rattle.core_rules.specs.Entries.{job_of};
ghost use Rattle.core_rules.specs.Laws.{JobsBelow, OneEach, Rising};
ghost use Rattle.core_rules.specs.Settling.{live_on, on_key};
ghost use Rattle.job_core.specs.Keys.{by_keys, is_number_before, key_cmp, key_rank, rank_found};
ghost use Rattle.job_core.specs.Walks.{is_job_past};

use crate::numbered::Numbered;
use core_rules::{Job, Mark};
use fair_pool::{put_at, take_at};
use std::alloc::Global;
use std::cmp::Ordering;
use std::collections::VecDeque;
use std::marker::Model;
use value_core::{NoMemory, Text, Triple};

/// The live jobs, at most one of an operation and key.
#[derive(Drop)]
pub(crate) struct LiveJobs {
    numbered: Numbered,
    /// The jobs' numbers in order of operations and keys, searched by halving.
    by_key: VecDeque<u64>,
}

impl Model for LiveJobs {
    ghost use Rattle.std.specs.VecDeque.{deque_capacity};
    ghost use Rattle.job_core.specs.Live.{LiveState, live_code};
    ghost use Rattle.job_core.specs.Keys.{AreKeysKept};

    ghost Value = { LiveState };

    ghost coded = { live_code };

    ghost view = { λ l. record { jobs = l.numbered.jobs; spare = l.numbered.spare } };

    ghost invariant = { λ l. AreKeysKept l.numbered.jobs l.numbered.spare l.by_key.items (deque_capacity l.by_key) };
}

/// How a triple's operation and key compare to these.
pub(crate) fn key_order(triple: &Triple, op: u32, key: &Text) -> Ordering
    ensures { result ≡ key_cmp triple.now op key.now }
{
    match triple.op.cmp(&op) {
        Ordering::Less => Ordering::Less,
        Ordering::Equal => triple.key.cmp(key),
        Ordering::Greater => Ordering::Greater,
    }
}

/// Whether a triple is of an operation and key.
pub(crate) fn is_on(triple: &Triple, op: u32, key: &Text) -> bool
    ensures { result ≡ on_key op key.now triple.now }
{
    triple.op == op && triple.key.is(key)
}

pub(crate) fn is_same(a: &Triple, b: &Triple) -> bool
    ensures { result ≡ same_triple a.now b.now }
{
    a.op == b.op && a.key.is(&b.key) && a.value.is(&b.value)
}

impl Numbered {
    /// Whether the job of a number has a lesser operation and key.
    fn comes_before(&self, number: u64, op: u32, key: &Text) -> bool
        ensures { result ≡ is_number_before op key.now self.now.jobs number }
    {
        match self.find(number) {
            Some(job) => key_order(&job.triple, op, key).is_lt(),
            None => false,
        }
    }
}

impl LiveJobs {
    ghost use Rattle.job_core.specs.Live.{LiveState, added, confirmed, given, marked, removed};

    pub(crate) fn new(alloc: Global) -> LiveJobs
        ensures { result ≡ record { jobs = []; spare = 0 } }
    {
        LiveJobs {
            numbered: Numbered::new(alloc),
            by_key: VecDeque::new(alloc),
        }
    }

    pub(crate) fn all(&self) -> &VecDeque<Job>
        ensures jobs { result.now.items ≡ self.now.jobs }
        ensures rising { Rising self.now.jobs }
        ensures one_each { OneEach self.now.jobs }
    {
        self.numbered.all()
    }

    /// How many jobs have a lesser operation and key.
    fn key_rank(&self, op: u32, key: &Text) -> usize
        ensures rank { result ≡ key_rank op key.now self.now.jobs }
        ensures rising { Rising self.now.jobs }
        ensures one_each { OneEach self.now.jobs }
    {
        let jobs = &self.numbered;
        self.by_key.partition_point(
            |number: &u64| -> bool
                ensures { result ≡ is_number_before op key.entry.now jobs.entry.now.jobs number.now }
            { jobs.comes_before(*number, op, key) },
        )
    }

    /// The job of a number.
    pub(crate) fn find(&self, number: u64) -> Option<&Job>
        ensures job { option_copied result ≡ job_numbered self.now.jobs number }
        ensures rising { Rising self.now.jobs }
    {
        self.numbered.find(number)
    }

    /// The job of an operation and key.
    pub(crate) fn live_on(&self, op: u32, key: &Text) -> Option<&Job>
        ensures job { option_copied result ≡ live_on self.now.jobs op key.now }
        ensures rising { Rising self.now.jobs }
        ensures one_each { OneEach self.now.jobs }
    {
        let at = self.key_rank(op, key);
        if at == self.by_key.len() {
            return None;
        }
        let job = self.numbered.find(self.by_key[at])?;
        if is_on(&job.triple, op, key) {
            Some(job)
        } else {
            None
        }
    }

    /// The job of a triple.
    pub(crate) fn job_of(&self, triple: &Triple) -> Option<&Job>
        ensures job { option_copied result ≡ job_of self.now.jobs triple.now }
        ensures rising { Rising self.now.jobs }
        ensures one_each { OneEach self.now.jobs }
    {
        let job = self.live_on(triple.op, &triple.key)?;
        if job.triple.value.is(&triple.value) {
            Some(job)
        } else {
            None
        }
    }

    /// How many jobs there are.
    pub(crate) fn len(&self) -> usize
        ensures len { result ≡ length self.now.jobs }
        ensures rising { Rising self.now.jobs }
        ensures one_each { OneEach self.now.jobs }
    {
        self.by_key.len()
    }

    /// The job of a rank in the order of operations and keys.
    pub(crate) fn in_keys(&self, rank: usize) -> Option<&Job>
        ensures job { option_copied result ≡ slice_get (by_keys self.now.jobs) rank }
        ensures one_each { OneEach self.now.jobs }
        ensures few { length self.now.jobs < 2 ^ 64 }
    {
        if rank < self.by_key.len() {
            self.numbered.find(self.by_key[rank])
        } else {
            None
        }
    }

    /// Adds the job of the greatest number, for which there is room.
    pub(crate) fn add(&mut self, job: Job)
        requires above { JobsBelow job.number self.old.jobs }
        requires free { live_on self.old.jobs job.triple.op job.triple.key ≡ None }
        requires room { 0 < self.old.spare }
        ensures { self.new ≡ added job self.old }
    {
        let at = self.key_rank(job.triple.op, &job.triple.key);
        put_at(&mut self.by_key, at, job.number);
        self.numbered.add(job);
    }

    /// The index of a job's number among those in order of operations and keys.
    fn key_rank_of(&self, number: u64) -> usize
        ensures rank { result ≡ rank_found self.now.jobs (job_numbered self.now.jobs number) }
        ensures rising { Rising self.now.jobs }
        ensures one_each { OneEach self.now.jobs }
    {
        match self.numbered.find(number) {
            Some(job) => self.key_rank(job.triple.op, &job.triple.key),
            None => 0,
        }
    }

    /// Takes the job of a number away.
    pub(crate) fn remove(&mut self, number: u64) -> Job
        requires { has_job self.old.jobs number ≡ true }
        ensures job { job_numbered self.old.jobs number ≡ Some result }
        ensures left { self.new ≡ removed number self.old }
        ensures rising { Rising self.old.jobs }
    {
        let at = self.key_rank_of(number);
        let _number = take_at(&mut self.by_key, at);
        self.numbered.remove(number)
    }

    /// The job of a number may start.
    pub(crate) fn confirm(&mut self, number: u64)
        requires { has_job self.old.jobs number ≡ true }
        ensures { self.new ≡ confirmed number self.old }
    {
        self.numbered.confirm(number);
    }

    /// The result of the job of a number is thrown away.
    pub(crate) fn mark(&mut self, number: u64, mark: Mark)
        requires { has_job self.old.jobs number ≡ true }
        ensures { self.new ≡ marked number mark self.old }
    {
        self.numbered.mark(number, mark);
    }

    /// A worker runs the job of a number.
    pub(crate) fn give(&mut self, number: u64, worker: u32)
        requires { has_job self.old.jobs number ≡ true }
        ensures given { self.new ≡ given number worker self.old }
        ensures rising { Rising self.old.jobs }
    {
        self.numbered.give(number, worker);
    }

    /// Makes room for at least so many more jobs.
    pub(crate) fn reserve(&mut self, more: usize) -> Result<(), NoMemory>
        ensures ok { OnOk result (self.new ≡ record self.old { spare = max self.old.spare more }) }
        ensures err { OnErr result (self.new ≡ self.old) }
    {
        self.by_key.reserve(more)?;
        self.numbered.reserve(more)
    }

    /// Equal jobs, without room for more.
    pub(crate) fn copy(&self, alloc: Global) -> Result<LiveJobs, NoMemory>
        ensures { IfOk result (λ l. l ≡ record self.now { spare = 0 }) }
    {
        let (front, rest) = self.by_key.as_slices();
        let mut by_key = Vec::with_capacity(alloc, self.by_key.len())?;
        by_key.extend_from_slice(front)?;
        by_key.extend_from_slice(rest)?;
        Ok(LiveJobs {
            numbered: self.numbered.copy(alloc)?,
            by_key: VecDeque::from_vec(by_key),
        })
    }
}

/// A walk over the live jobs in order of operations and keys, for those that are asked for in order.
#[derive(Drop)]
pub(crate) struct LiveWalk<'a> {
    live: &'a LiveJobs,
    /// How many jobs are passed: each has a lesser operation and key than any that is still asked for.
    passed: usize,
}

impl<'a> LiveWalk<'a> {
    pub(crate) fn new(live: &'a LiveJobs) -> LiveWalk<'a>
        ensures live { result.live.now ≡ live.now }
        ensures passed { result.passed ≡ 0 }
    {
        LiveWalk { live, passed: 0 }
    }

    /// Whether the next job has a lesser operation and key.
    fn is_past(&self, op: u32, key: &Text) -> bool
        ensures past { result ≡ is_job_past op key.now self.now.live.now.jobs self.now.passed }
        ensures few { length self.now.live.now.jobs < 2 ^ 64 }
    {
        match self.live.in_keys(self.passed) {
            Some(job) => key_order(&job.triple, op, key).is_lt(),
            None => false,
        }
    }

    /// The job of an operation and key that aren't less than the last ones.
    pub(crate) fn on(&mut self, op: u32, key: &Text) -> Option<&'a Job>
        requires { self.old.passed ≤ key_rank op key.now self.old.live.now.jobs }
        ensures live { self.new.live ≡ self.old.live }
        ensures passed { self.new.passed ≡ key_rank op key.now self.old.live.now.jobs }
        ensures job { option_copied result ≡ live_on self.old.live.now.jobs op key.now }
    {
        while self.is_past(op, key) {
            self.passed += 1;
        }
        let job = self.live.in_keys(self.passed)?;
        if is_on(&job.triple, op, key) {
            Some(job)
        } else {
            None
        }
    }
}
