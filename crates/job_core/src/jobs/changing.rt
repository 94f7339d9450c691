//! What events change of the jobs by themselves.
ghost use Rattle.std.specs.Prelude.{◌≡◌, ◌<◌, length, map, filter, true, false, IfErr, OnOk, Some, None};
ghost use Rattle.fair_pool.specs.Sound.{is_rate};
ghost use Rattle.core_rules.specs.Changes.{confirm};
ghost use Rattle.core_rules.specs.Core.{is_queued, job_numbered};
ghost use Rattle.core_rules.specs.Orders.{is_ready, picked};
ghost use Rattle.job_core.specs.Stages.{AreTicketsOf, restaged_pools};

use super::{Jobs, op_at};
use crate::answers::{Cancelled, JobFault};
use core_rules::{Job, Mark, stage_under};
use fair_pool::{Pools, RateOutOfRange};
use op_keys::{Level, OpDecl};
use std::collections::VecDeque;
use value_core::Stage;

pub(super) fn is_ready(stage: Stage) -> bool
    ensures { result ≡ is_ready stage }
{
    match stage {
        Stage::Ready => true,
        Stage::Waiting => false,
        Stage::Running => false,
    }
}

/// Queued jobs become ready, or are no longer, by the level of the moment.
fn set_stages(ops: &[OpDecl], threshold: Option<Level>, jobs: &VecDeque<Job>, pools: &mut Pools)
    requires { AreTicketsOf jobs.now.items pools.old }
    ensures { pools.new ≡ restaged_pools ops.now threshold jobs.now.items pools.old }
{
    for index in 0..jobs.len() {
        let job = &jobs[index];
        if job.worker.is_none() {
            let op = op_at(ops, job.triple.op);
            let ready = is_ready(stage_under(threshold, op, job));
            pools.set_ready(job.number, ready);
        }
    }
}

impl Jobs {
    ghost use Rattle.job_core.specs.State.{bare, core_at};
    ghost use Rattle.job_core.specs.Answers.{cancel_answer, confirming_fault, if_running};
    ghost use Rattle.job_core.specs.Own.{with_own};
    ghost use Rattle.job_core.specs.Single.{is_queued_in, withdrawn_work};
    ghost use Rattle.core_rules.specs.declared.own.Own.TheVariants as own;

    /// Operations at or above the level wait to be confirmed. Takes no memory.
    pub fn set_level(&mut self, threshold: Option<Level>)
        ensures { self.new ≡ with_own (own.Level threshold) 0 self.old }
    {
        self.threshold = threshold;
        set_stages(
            self.program.ops.as_slice(),
            threshold,
            self.live.all(),
            &mut self.pools,
        );
    }

    /// A waiting job may start. Takes no memory.
    pub fn confirm(&mut self, job: u64) -> Result<(), JobFault>
        ensures ok { OnOk result (confirming_fault self.old.work job ≡ None) }
        ensures fault { IfErr result (λ e. confirming_fault self.old.work job ≡ Some e) }
        ensures after { self.new ≡ with_own (own.Confirm job) 0 self.old }
    {
        let stage = match self.live.find(job) {
            Some(found) => self.stage(found),
            None => return Err(JobFault::UnknownJob),
        };
        if stage != Stage::Waiting {
            return Err(JobFault::NotWaiting(stage));
        }
        self.live.confirm(job);
        self.pools.set_ready(job, true);
        Ok(())
    }

    /// Takes a queued job away, with its ticket.
    pub(crate) fn withdraw(&mut self, job: u64) -> Job
        requires { is_queued_in self.old.work.jobs job ≡ true }
        ensures job { job_numbered self.old.work.jobs job ≡ Some result }
        ensures after { self.new ≡ record self.old { work = withdrawn_work job self.old.work } }
    {
        self.pools.withdraw(job);
        self.live.remove(job)
    }

    /// A job's result isn't wanted: a queued one goes, a running one is marked. Takes no memory.
    pub fn cancel(&mut self, job: u64) -> Result<Cancelled, JobFault>
        ensures answer { result ≡ cancel_answer (job_numbered self.old.work.jobs job) }
        ensures after { self.new ≡ with_own (own.Cancel job) 0 self.old }
    {
        let (runs, mark) = match self.live.find(job) {
            Some(found) => (found.worker.is_some(), found.mark),
            None => return Err(JobFault::UnknownJob),
        };
        if mark != Mark::Unmarked {
            return Err(JobFault::AlreadyCancelling);
        }
        if runs {
            self.live.mark(job, Mark::User);
            Ok(Cancelled::Marked)
        } else {
            Ok(Cancelled::Queued(self.withdraw(job)))
        }
    }

    /// A worker takes the next job for it; `None` where there is none. Takes no memory.
    pub fn take(&mut self, worker: u32, now: u64) -> Option<u64>
        requires { worker < length self.old.work.program.workers }
        ensures pick { result ≡ picked (core_at self.old.work now) worker }
        ensures after { self.new ≡ with_own (own.Take worker) now self.old }
    {
        match self.pools.pick(worker, now) {
            Some(job) => {
                self.live.give(job, worker);
                self.pools.taken(job, worker, now);
                Some(job)
            }
            None => None,
        }
    }

    /// A running job has ended, and is handed out; `None` where it isn't running. Takes no memory.
    pub fn finish(&mut self, job: u64) -> Option<Job>
        ensures job { result ≡ if_running (job_numbered self.old.work.jobs job) }
        ensures after { self.new ≡ with_own (own.Finish job) 0 self.old }
    {
        let found = self.live.find(job)?;
        let worker = found.worker?;
        self.pools.done(worker);
        Some(self.live.remove(job))
    }

    /// A worker takes no more jobs. Takes no memory.
    pub fn pause(&mut self, worker: u32)
        requires { worker < length self.old.work.program.workers }
        ensures { self.new ≡ with_own (own.Pause worker) 0 self.old }
    {
        self.pools.pause(worker);
    }

    /// A worker takes jobs again. Takes no memory.
    pub fn resume(&mut self, worker: u32)
        requires { worker < length self.old.work.program.workers }
        ensures { self.new ≡ with_own (own.Resume worker) 0 self.old }
    {
        self.pools.resume(worker);
    }

    /// A client has another rate from its next ticket on. Takes no memory.
    pub fn set_rate(&mut self, client: u32, rate: u64) -> Result<(), RateOutOfRange>
        requires { client < length self.old.work.program.clients }
        ensures ok { OnOk result (is_rate rate ≡ true) }
        ensures refused { IfErr result (λ e. (e.0 ≡ rate) × (is_rate rate ≡ false)) }
        ensures after { self.new ≡ with_own (own.Rate client rate) 0 self.old }
    {
        self.pools.set_rate(client, rate)
    }
}
