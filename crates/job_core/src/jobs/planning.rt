//! Plans: what an own change and settling will make of the jobs, before anything changes.
ghost use Rattle.std.specs.Prelude.{◌≡◌, ℕ, ◌^◌, ◌<◌, ◌≤◌, length, max, true, IfOk, OnOk, OnErr};
ghost use Rattle.std.specs.List.{AllByRecursion};
ghost use Rattle.job_core.specs.Answers.{IsUsed};
ghost use Rattle.core_rules.specs.Core.{has_job};
ghost use Rattle.core_rules.specs.Replies.{with_numbers};
ghost use Rattle.job_core.specs.Marking.{cancelled_jobs, listed};

use super::Jobs;
use crate::answers::SettleFault;
use crate::live_jobs::{LiveJobs, LiveWalk};
use crate::plan::{JobsPlan, NewJob};
use crate::row_look::RowsAfter;
use crate::wants::{Unwanted, is_open};
use core_rules::{Mark, Own, RowChange};
use op_keys::hint_of;
use sched_rows::Rows;
use std::alloc::Global;
use value_core::{ListOf, NoMemory, Triple};

/// The first number that no job can have.
const NUMBER_LIMIT: u64 = 1 << 62;

/// What a cancel makes of a list of live jobs.
fn cancel_in(live: &mut LiveJobs, job: u64)
    requires { has_job live.old.jobs job ≡ true }
    ensures { live.new ≡ record live.old { jobs = cancelled_jobs job live.old.jobs } }
{
    let runs = match live.find(job) {
        Some(found) => found.worker.is_some(),
        None => false,
    };
    if runs {
        live.mark(job, Mark::User);
    } else {
        let _job = live.remove(job);
    }
}

/// Rising numbers with one more in its place, if there is one.
fn with_mark(alloc: Global, mark: Option<u64>, numbers: &[u64]) -> Result<ListOf<u64>, NoMemory>
    ensures { IfOk result (λ ns. ns ≡ with_numbers (listed mark) numbers.now) }
{
    let mut all = ListOf::new(alloc);
    let mut left = mark;
    for number in numbers {
        if let Some(mark) = left {
            if mark < *number {
                all.push(mark)?;
                left = None;
            }
        }
        all.push(*number)?;
    }
    if let Some(mark) = left {
        all.push(mark)?;
    }
    Ok(all)
}

impl Jobs {
    ghost use Rattle.core_rules.specs.Own.{IsMade, PutsInTime, own_change};
    ghost use Rattle.job_core.specs.Own.{own_marks, own_work};
    ghost use Rattle.job_core.specs.Plans.{IsPlanFor};
    ghost use Rattle.job_core.specs.Rowing.{core_after};
    ghost use Rattle.job_core.specs.Settled.{IsPlan, IsUnsettled, NoPlan, Settles};
    ghost use Rattle.job_core.specs.State.{core_at};
    ghost use Rattle.job_core.specs.Walks.{AreNews, IsFreshAt, IsNotPast, IsReached};
    ghost use Rattle.job_core.specs.Wants.{AreWants, HasHint, has_valid};

    /// The job that an own change marks by itself.
    fn own_mark(&self, own: &Own) -> Option<u64>
        ensures { (now : ℕ) → listed result ≡ own_marks own.now now self.now.work }
    {
        match own {
            Own::Cancel(job) => match self.live.find(*job) {
                Some(found) if found.mark == Mark::Unmarked && found.worker.is_some() => Some(
                    found.number,
                ),
                _ => None,
            },
            _ => None,
        }
    }

    /// The live jobs after an own change.
    fn jobs_after(&self, own: &Own, now: u64) -> Result<LiveJobs, NoMemory>
        requires { IsMade (own_change (core_at self.now.work now) own.now) }
        ensures { IfOk result (λ l. l.jobs ≡ (own_work own.now now self.now.work).jobs) }
    {
        let mut live = self.live.copy(self.alloc)?;
        match own {
            Own::None => Ok(live),
            Own::Level(_) => Ok(live),
            Own::Confirm(job) => {
                live.confirm(*job);
                Ok(live)
            }
            Own::Cancel(job) => {
                cancel_in(&mut live, *job);
                Ok(live)
            }
            Own::Take(worker) => match self.pools.pick(*worker, now) {
                Some(job) => {
                    live.give(job, *worker);
                    Ok(live)
                }
                None => Ok(live),
            },
            Own::Finish(job) => {
                let _job = live.remove(*job);
                Ok(live)
            }
            Own::Pause(_) => Ok(live),
            Own::Resume(_) => Ok(live),
            Own::Rate(_, _) => Ok(live),
        }
    }

    /// Whether the row of a triple is valid among these rows.
    fn has_valid(&self, rows: &RowsAfter<'_>, triple: &Triple) -> bool
        requires declared { triple.now.op < length self.now.work.program.ops }
        requires timely { PutsInTime rows.now.change.now }
        ensures { result ≡ has_valid (core_after self.now rows.now) triple.now }
    {
        rows.has_valid(&self.program.ops.as_slice()[triple.op as usize], triple)
    }

    /// Whether the wanted triple of an index gets a job. The walk comes to its operation and key.
    fn is_fresh(
        &self,
        wants: &[(Triple, u64)],
        index: usize,
        walk: &mut LiveWalk<'_>,
        rows: &RowsAfter<'_>,
    ) -> bool
        requires wants { AreWants (length self.now.work.program.ops) wants.now }
        requires within { index < length wants.now }
        requires timely { PutsInTime rows.now.change.now }
        requires later { IsNotPast wants.now walk.old.live.now.jobs index walk.old.passed }
        ensures fresh { IsFreshAt wants.now self.now walk.old.live.now.jobs rows.now index result }
        ensures live { walk.new.live ≡ walk.old.live }
        ensures walked { IsReached wants.now walk.old.live.now.jobs index walk.new.passed }
    {
        is_open(wants, index, walk) && !self.has_valid(rows, &wants[index].0)
    }

    /// A job for a triple, with the hint of its order.
    fn new_job(&self, triple: &Triple) -> Result<NewJob, NoMemory>
        requires { triple.now.op < length self.now.work.program.ops }
        ensures triple { IfOk result (λ n. n.triple ≡ triple.now) }
        ensures hint { IfOk result (HasHint self.now.work.program.ops) }
    {
        let op = &self.program.ops.as_slice()[triple.op as usize];
        let hint = hint_of(self.alloc, op, &triple.key, &triple.value)?;
        Ok(NewJob {
            triple: triple.copy(self.alloc)?,
            hint,
        })
    }

    /// The jobs that are to be created, in order, found in one walk over the wanted triples and the
    /// live jobs.
    fn news(
        &self,
        live: &LiveJobs,
        wants: &[(Triple, u64)],
        rows: &RowsAfter<'_>,
    ) -> Result<ListOf<NewJob>, NoMemory>
        requires wants { AreWants (length self.now.work.program.ops) wants.now }
        requires timely { PutsInTime rows.now.change.now }
        ensures triples { IfOk result (AreNews wants.now self.now live.now.jobs rows.now) }
        ensures hints { IfOk result (λ ns. AllByRecursion (HasHint self.now.work.program.ops) ns) }
    {
        let mut news = ListOf::new(self.alloc);
        let mut walk = LiveWalk::new(live);
        for index in 0..wants.len() {
            if self.is_fresh(wants, index, &mut walk, rows) {
                news.push(self.new_job(&wants[index].0)?)?;
            }
        }
        Ok(news)
    }

    /// Makes room for at least so many more jobs.
    fn reserve(&mut self, more: usize) -> Result<(), NoMemory>
        ensures ok { OnOk result (self.new ≡ record self.old { spare = max self.old.spare more }) }
        ensures err { OnErr result (self.new ≡ self.old) }
    {
        self.live.reserve(more)?;
        self.pools.reserve(more)
    }

    /// Plans an own change, and settling for what is wanted over the rows with a change of their
    /// own. No job, ticket, worker or number changes. `NumbersUsed` where a job of the number 2^62
    /// would be needed.
    pub fn plan(
        &mut self,
        own: &Own,
        wants: &[(Triple, u64)],
        rows: &Rows,
        change: &RowChange,
        now: u64,
    ) -> Result<JobsPlan, SettleFault>
        requires own { IsMade (own_change (core_at self.old.work now) own.now) }
        requires wants { AreWants (length self.old.work.program.ops) wants.now }
        requires timely { PutsInTime change.now }
        requires time { now ≤ 2 ^ 60 }
        ensures plan { IfOk result (IsPlan wants.now own.now change.now rows.now now self.old) }
        ensures fits { IfOk result (λ p. IsPlanFor p self.new) }
        ensures used { IsUsed result → NoPlan wants.now own.now change.now rows.now now self.old }
        ensures jobs { self.new.work ≡ self.old.work }
        ensures room { self.old.spare ≤ self.new.spare }
        ensures err { OnErr result (self.new ≡ self.old) }
    {
        let _before = self.live.all();
        let live = self.jobs_after(own, now)?;
        let _jobs = live.all();
        let Unwanted { drops, lost } = Unwanted::find(
            self.alloc,
            wants,
            self.program.ops.as_slice(),
            &live,
        )?;
        let news = self.news(
            &live,
            wants,
            &RowsAfter {
                rows,
                change,
                moment: now,
            },
        )?;
        let signals = with_mark(self.alloc, self.own_mark(own), lost.as_slice())?;
        if NUMBER_LIMIT - self.next < news.len() as u64 {
            return Err(SettleFault::NumbersUsed);
        }
        let next = self.next + news.len() as u64;
        self.reserve(news.len())?;
        Ok(JobsPlan {
            own: *own,
            moment: now,
            drops: ListOf::from_vec(drops),
            lost: ListOf::from_vec(lost),
            news,
            signals,
            next,
        })
    }

    /// Settles the jobs for what is wanted, and answers which jobs are newly marked, in rising
    /// order. `NumbersUsed` where a job of the number 2^62 would be needed.
    pub fn settle(
        &mut self,
        wants: &[(Triple, u64)],
        rows: &Rows,
        now: u64,
    ) -> Result<ListOf<u64>, SettleFault>
        requires wants { AreWants (length self.old.work.program.ops) wants.now }
        requires time { now ≤ 2 ^ 60 }
        ensures settled { IfOk result (Settles wants.now rows.now now self.old self.new) }
        ensures used { IsUsed result → IsUnsettled wants.now rows.now now self.old }
        ensures err { OnErr result (self.new ≡ self.old) }
    {
        let plan = self.plan(&Own::None, wants, rows, &RowChange::None, now)?;
        Ok(self.install(plan))
    }
}
