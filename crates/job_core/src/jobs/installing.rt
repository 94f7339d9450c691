//! The installation of a plan, for which no memory is needed.
ghost use Rattle.std.specs.Prelude.{◌≡◌, ◌-◌, ◌^◌, ◌≤◌, true, length};
ghost use Rattle.core_rules.specs.Core.{has_job};

use super::Jobs;
use super::changing::is_ready;
use crate::plan::{JobsPlan, NewJob};
use core_rules::{Job, Mark, Own, stage_under};
use value_core::ListOf;

impl Jobs {
    ghost use Rattle.core_rules.specs.Own.{IsMade, own_change};
    ghost use Rattle.job_core.specs.Own.{own_work};
    ghost use Rattle.job_core.specs.Plans.{CanCreate, CanCreateOne, CanLose, CanWithdraw, IsPlanFor, lost_all, lost_work, plan_signals, planned, with_created, with_news, withdrawn_all};
    ghost use Rattle.job_core.specs.State.{core_at};

    /// Makes an own change.
    fn own(&mut self, own: &Own, now: u64)
        requires { IsMade (own_change (core_at self.old.work now) own.now) }
        ensures { self.new ≡ record self.old { work = own_work own.now now self.old.work } }
    {
        match own {
            Own::None => {}
            Own::Level(threshold) => self.set_level(*threshold),
            Own::Confirm(job) => {
                let _confirmed = self.confirm(*job);
            }
            Own::Cancel(job) => {
                let _cancelled = self.cancel(*job);
            }
            Own::Take(worker) => {
                let _job = self.take(*worker, now);
            }
            Own::Finish(job) => {
                let _job = self.finish(*job);
            }
            Own::Pause(worker) => self.pause(*worker),
            Own::Resume(worker) => self.resume(*worker),
            Own::Rate(client, rate) => {
                let _set = self.set_rate(*client, *rate);
            }
        }
    }

    /// Takes queued jobs away.
    fn withdraw_all(&mut self, numbers: &[u64])
        requires { CanWithdraw numbers.now self.old.work }
        ensures { self.new ≡ record self.old { work = withdrawn_all numbers.now self.old.work } }
    {
        for number in numbers {
            let _job = self.withdraw(*number);
        }
    }

    /// A running job gets the automatic mark.
    fn mark_lost(&mut self, number: u64)
        requires { has_job self.old.work.jobs number ≡ true }
        ensures { self.new ≡ record self.old { work = lost_work number self.old.work } }
    {
        self.live.mark(number, Mark::Automatic);
    }

    fn mark_all_lost(&mut self, numbers: &[u64])
        requires { CanLose numbers.now self.old.work }
        ensures { self.new ≡ record self.old { work = lost_all numbers.now self.old.work } }
    {
        for number in numbers {
            self.mark_lost(*number);
        }
    }

    /// Creates the next job, for which there is room.
    fn create(&mut self, new: NewJob, now: u64)
        requires new { CanCreateOne new self.old.work }
        requires time { now ≤ 2 ^ 60 }
        requires room { 1 ≤ self.old.spare }
        ensures { self.new ≡ with_created now new.triple self.old }
    {
        let NewJob { triple, hint } = new;
        let job = Job::new(self.next, triple);
        let op = &self.program.ops.as_slice()[job.triple.op as usize];
        let ready = is_ready(stage_under(self.threshold, Some(op), &job));
        self.pools.submit_spare(self.next, op, hint, ready, now);
        self.live.add(job);
        self.next += 1;
    }

    /// Creates jobs in order, for which there is room.
    fn create_all(&mut self, news: ListOf<NewJob>, now: u64)
        requires news { CanCreate now news self.old.work }
        requires time { now ≤ 2 ^ 60 }
        requires room { length news ≤ self.old.spare }
        ensures { self.new ≡ with_news now news self.old }
    {
        let mut left = news.into_vec();
        left.reverse();
        while let Some(new) = left.pop() {
            self.create(new, now);
        }
    }

    /// Makes the change that was planned for these jobs, settles them, and answers which jobs are
    /// newly marked, in rising order. Takes no memory.
    pub fn install(&mut self, plan: JobsPlan) -> ListOf<u64>
        requires { IsPlanFor plan self.old }
        ensures work { self.new.work ≡ planned plan self.old.work }
        ensures signals { result ≡ plan_signals plan }
    {
        let JobsPlan {
            own,
            moment,
            drops,
            lost,
            news,
            signals,
            next: _,
        } = plan;
        self.own(&own, moment);
        self.withdraw_all(drops.as_slice());
        self.mark_all_lost(lost.as_slice());
        self.create_all(news, moment);
        signals
    }

    /// Gives a plan up; nothing changes. Takes no memory.
    pub fn abandon(&mut self, plan: JobsPlan)
        ensures { self.new ≡ self.old }
    {
        drop(plan);
    }
}
