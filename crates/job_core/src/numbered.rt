//! Live jobs in order of their numbers.
ghost use Rattle.std.specs.Prelude.{◌≡◌, ◌-◌, ◌<◌, ◌≤◌, [], ◌∷◌, ◌++◌, true, max, nat_lt, vec_len, IfSome, IfOk, OnOk, OnErr, Some, None};
ghost use Rattle.std.specs.Option.{option_copied};
ghost use Rattle.std.specs.VecDeque.{deque_capacity};
ghost use Rattle.fair_pool.specs.Order.{leading};
ghost use Rattle.core_rules.specs.Core.{has_job, job_numbered, with_job, without_job};
ghost use Rattle.core_rules.specs.Laws.{JobsBelow, OneEach, Rising};
ghost use Rattle.core_rules.specs.Settling.{live_on};

use core_rules::{Job, Mark};
use fair_pool::take_at;
use std::alloc::Global;
use std::collections::VecDeque;
use std::marker::Model;
use value_core::NoMemory;

/// Jobs in order of their numbers, at most one of an operation and key.
#[derive(Drop)]
pub(crate) struct Numbered {
    /// In order of numbers, of which few are missing in between.
    jobs: VecDeque<Job>,
    /// For how many more jobs there is room.
    spare: usize,
}

impl Model for Numbered {
    ghost use Rattle.std.specs.VecDeque.{deque_capacity};
    ghost use Rattle.job_core.specs.Live.{AreLiveKept, LiveState, live_code};

    ghost Value = { LiveState };

    ghost coded = { live_code };

    ghost view = { λ l. record { jobs = l.jobs.items; spare = l.spare } };

    ghost invariant = { λ l. AreLiveKept l.jobs.items l.spare (deque_capacity l.jobs) };
}

fn copy_of_jobs(alloc: Global, jobs: &VecDeque<Job>) -> Result<VecDeque<Job>, NoMemory>
    ensures { IfOk result (λ js. js.items ≡ jobs.now.items) }
{
    let mut copies = VecDeque::new(alloc);
    for job in jobs {
        copies.push_back(job.copy(alloc)?)?;
    }
    Ok(copies)
}

impl Numbered {
    ghost use Rattle.job_core.specs.Live.{LiveState, added, confirmed, given, marked, removed};

    pub(crate) fn new(alloc: Global) -> Numbered
        ensures { result ≡ record { jobs = []; spare = 0 } }
    {
        Numbered {
            jobs: VecDeque::new(alloc),
            spare: 0,
        }
    }

    pub(crate) fn all(&self) -> &VecDeque<Job>
        ensures jobs { result.now.items ≡ self.now.jobs }
        ensures rising { Rising self.now.jobs }
        ensures one_each { OneEach self.now.jobs }
    {
        &self.jobs
    }

    /// The rank of the job of a number, if no number between it and the first job's is missing.
    fn dense_rank(&self, number: u64) -> Option<usize>
        ensures { IfSome result (λ at. at ≡ leading (λ j. nat_lt j.number number) self.now.jobs) }
    {
        let first = self.jobs.front()?.number;
        let at = number.checked_sub(first)? as usize;
        if self.jobs.get(at)?.number == number {
            Some(at)
        } else {
            None
        }
    }

    /// How many jobs have a smaller number, by halving.
    fn halved_rank(&self, number: u64) -> usize
        ensures { result ≡ leading (λ j. nat_lt j.number number) self.now.jobs }
    {
        self.jobs.partition_point(
            |j: &Job| -> bool
                ensures { result ≡ nat_lt j.now.number number }
            { j.number < number },
        )
    }

    /// How many jobs have a smaller number.
    fn rank(&self, number: u64) -> usize
        ensures { result ≡ leading (λ j. nat_lt j.number number) self.now.jobs }
    {
        match self.dense_rank(number) {
            Some(at) => at,
            None => self.halved_rank(number),
        }
    }

    /// The job of a number.
    pub(crate) fn find(&self, number: u64) -> Option<&Job>
        ensures job { option_copied result ≡ job_numbered self.now.jobs number }
        ensures rising { Rising self.now.jobs }
    {
        let at = self.rank(number);
        if at < self.jobs.len() && self.jobs[at].number == number {
            Some(&self.jobs[at])
        } else {
            None
        }
    }

    /// Adds the job of the greatest number, for which there is room.
    pub(crate) fn add(&mut self, job: Job)
        requires above { JobsBelow job.number self.old.jobs }
        requires free { live_on self.old.jobs job.triple.op job.triple.key ≡ None }
        requires room { 0 < self.old.spare }
        ensures { self.new ≡ added job self.old }
    {
        self.jobs.push_back_reserved(job);
        self.spare -= 1;
    }

    /// Takes the job of a number away.
    pub(crate) fn remove(&mut self, number: u64) -> Job
        requires { has_job self.old.jobs number ≡ true }
        ensures job { job_numbered self.old.jobs number ≡ Some result }
        ensures left { self.new ≡ removed number self.old }
        ensures rising { Rising self.old.jobs }
    {
        let at = self.rank(number);
        take_at(&mut self.jobs, at)
    }

    /// The job of a number may start.
    pub(crate) fn confirm(&mut self, number: u64)
        requires { has_job self.old.jobs number ≡ true }
        ensures { self.new ≡ confirmed number self.old }
    {
        let at = self.rank(number);
        self.jobs[at].confirmed = true;
    }

    /// The result of the job of a number is thrown away.
    pub(crate) fn mark(&mut self, number: u64, mark: Mark)
        requires { has_job self.old.jobs number ≡ true }
        ensures { self.new ≡ marked number mark self.old }
    {
        let at = self.rank(number);
        self.jobs[at].mark = mark;
    }

    /// A worker runs the job of a number.
    pub(crate) fn give(&mut self, number: u64, worker: u32)
        requires { has_job self.old.jobs number ≡ true }
        ensures given { self.new ≡ given number worker self.old }
        ensures rising { Rising self.old.jobs }
    {
        let at = self.rank(number);
        self.jobs[at].worker = Some(worker);
    }

    /// Makes room for at least so many more jobs.
    pub(crate) fn reserve(&mut self, more: usize) -> Result<(), NoMemory>
        ensures ok { OnOk result (self.new ≡ record self.old { spare = max self.old.spare more }) }
        ensures err { OnErr result (self.new ≡ self.old) }
    {
        if more <= self.spare {
            return Ok(());
        }
        self.jobs.reserve(more)?;
        self.spare = more;
        Ok(())
    }

    /// Equal jobs, without room for more.
    pub(crate) fn copy(&self, alloc: Global) -> Result<Numbered, NoMemory>
        ensures { IfOk result (λ l. l ≡ record self.now { spare = 0 }) }
    {
        Ok(Numbered {
            jobs: copy_of_jobs(alloc, &self.jobs)?,
            spare: 0,
        })
    }
}
