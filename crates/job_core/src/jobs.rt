//! The jobs as a whole: their list, their tickets, and what they go by.
ghost use Rattle.std.specs.Prelude.{◌≡◌, ◌^◌, ◌≤◌, [], length, IfOk, map, slice_get};
ghost use Rattle.std.specs.Option.{option_copied};
ghost use Rattle.term_core.specs.Soundness.{IsSound};
ghost use Rattle.fair_pool.specs.Pools.{opened};
ghost use Rattle.core_rules.specs.Core.{layout_of, op_of, job_numbered, stage};
ghost use Rattle.core_rules.specs.Parts.{pools_of};
ghost use Rattle.core_rules.specs.Settling.{live_on};
ghost use Rattle.job_core.specs.State.{AreJobsLawful};

mod changing;
mod installing;
mod looking;
mod planning;

use crate::live_jobs::LiveJobs;
use core_rules::{Job, stage_under};
use fair_pool::Pools;
use op_keys::{Level, OpDecl};
use std::alloc::Global;
use std::marker::Model;
use term_core::Program;
use value_core::{ListOf, NoMemory, Stage, Text, Triple};

/// The live jobs of a pipeline, with the pools in which the queued ones wait.
#[derive(Drop)]
pub struct Jobs {
    alloc: Global,
    program: Program,
    threshold: Option<Level>,
    /// The number of the next job.
    next: u64,
    live: LiveJobs,
    pools: Pools,
}

impl Model for Jobs {
    ghost use Rattle.job_core.specs.State.{AreJobsKept, JobsState, state_code};

    ghost Value = { JobsState };

    ghost coded = { state_code };

    ghost view = { λ j. record {
      work = record { program = j.program; threshold = j.threshold; next = j.next; jobs = j.live.jobs; fair = j.pools.fair };
      spare = j.pools.spare;
    } };

    ghost invariant = { λ j. AreJobsKept (record { program = j.program; threshold = j.threshold; next = j.next; jobs = j.live.jobs; fair = j.pools.fair }) j.pools j.live.spare };
}

/// The operation of this number.
pub(crate) fn op_at(ops: &[OpDecl], op: u32) -> Option<&OpDecl>
    ensures { option_copied result ≡ slice_get ops.now op }
{
    if (op as usize) < ops.len() {
        Some(&ops[op as usize])
    } else {
        None
    }
}

impl Jobs {
    ghost use Rattle.job_core.specs.State.{JobsState, bare, jobs_opened};
    ghost use Rattle.core_rules.specs.Entries.{stage_in};

    /// No job yet, for a sound program and pools that were just opened from its declarations; the
    /// first job has the number `next`.
    pub fn open(
        alloc: Global,
        program: &Program,
        pools: Pools,
        next: u64,
        threshold: Option<Level>,
    ) -> Result<Jobs, NoMemory>
        requires sound { IsSound program.now }
        requires pools { pools ≡ opened (layout_of program.now) }
        requires some_next { 1 ≤ next }
        requires next { next ≤ 2 ^ 62 }
        ensures { IfOk result (λ j. j ≡ jobs_opened program.now threshold next) }
    {
        Ok(Jobs {
            alloc,
            program: program.copy(alloc)?,
            threshold,
            next,
            live: LiveJobs::new(alloc),
            pools,
        })
    }

    /// Equal jobs, without room for more.
    pub fn copy(&self) -> Result<Jobs, NoMemory>
        ensures { IfOk result (λ j. j ≡ record self.now { spare = 0 }) }
    {
        Ok(Jobs {
            alloc: self.alloc,
            program: self.program.copy(self.alloc)?,
            threshold: self.threshold,
            next: self.next,
            live: self.live.copy(self.alloc)?,
            pools: self.pools.copy()?,
        })
    }

    /// The pools, with the tickets of the queued jobs. Takes no memory.
    pub fn pools(&self) -> &Pools
        ensures { result.now ≡ pools_of (bare self.now.work) self.now.spare }
    {
        &self.pools
    }

    /// The level at and above which jobs wait to be confirmed. Takes no memory.
    pub fn threshold(&self) -> Option<Level>
        ensures { result ≡ self.now.work.threshold }
    {
        self.threshold
    }

    /// The number of the next job. Takes no memory.
    pub fn next_number(&self) -> u64
        ensures { result ≡ self.now.work.next }
    {
        self.next
    }

    /// The operation of this number.
    pub(crate) fn op(&self, op: u32) -> Option<&OpDecl>
        ensures op { option_copied result ≡ op_of (bare self.now.work) op }
    {
        op_at(self.program.ops.as_slice(), op)
    }

    /// How far a job has come.
    pub(crate) fn stage(&self, job: &Job) -> Stage
        ensures { result ≡ stage (bare self.now.work) job.now }
    {
        stage_under(self.threshold, self.op(job.triple.op), job)
    }

    /// How far the live job of a triple has come, where there is one. Takes no memory.
    pub fn stage_of(&self, triple: &Triple) -> Option<Stage>
        ensures { result ≡ stage_in (bare self.now.work) triple.now }
    {
        match self.live.job_of(triple) {
            Some(job) => Some(self.stage(job)),
            None => None,
        }
    }

    /// The live job of an operation and key. Takes no memory.
    pub fn live_on(&self, op: u32, key: &Text) -> Option<&Job>
        ensures { option_copied result ≡ live_on self.now.work.jobs op key.now }
    {
        self.live.live_on(op, key)
    }

    /// The live job of a number. Takes no memory.
    pub fn job_of(&self, job: u64) -> Option<&Job>
        ensures { option_copied result ≡ job_numbered self.now.work.jobs job }
    {
        self.live.find(job)
    }

    /// The live jobs, in order of their numbers.
    pub fn live(&self) -> Result<ListOf<&Job>, NoMemory>
        ensures { IfOk result (λ js. map (λ j. j.now) js ≡ self.now.work.jobs) }
    {
        let mut jobs = ListOf::new(self.alloc);
        for job in self.live.all() {
            jobs.push(job)?;
        }
        Ok(jobs)
    }
}

/// What holds of jobs at each moment.
pub fn jobs_law(jobs: &Jobs)
    ensures { AreJobsLawful jobs.now.work }
{
    let _jobs = jobs.live.all();
}
