//! What jobs will be after an own change.
ghost use Rattle.std.specs.Prelude.{◌≡◌, ◌==◌, if◌then◌else◌, Some};

use super::Jobs;
use core_rules::{Job, Own, stage_under};
use value_core::{Stage, Triple};

/// A stage that a job keeps, unless its number is this one.
fn unless(stage: Stage, job: &Job, number: u64, other: Option<Stage>) -> Option<Stage>
    ensures { result ≡ (if job.now.number == number then other else Some stage) }
{
    if job.number == number {
        other
    } else {
        Some(stage)
    }
}

impl Jobs {
    ghost use Rattle.core_rules.specs.Own.{IsMade, own_change};
    ghost use Rattle.core_rules.specs.Entries.{stage_in};
    ghost use Rattle.job_core.specs.Own.{owned};
    ghost use Rattle.job_core.specs.State.{core_at};

    /// How far the live job of a triple will have come after an own change, where there will be
    /// one. Takes no memory.
    pub fn stage_after(&self, own: &Own, triple: &Triple, now: u64) -> Option<Stage>
        requires { IsMade (own_change (core_at self.now.work now) own.now) }
        ensures { result ≡ stage_in (owned (core_at self.now.work now) own.now) triple.now }
    {
        let job = self.live.job_of(triple)?;
        let stage = self.stage(job);
        match own {
            Own::Level(threshold) => Some(stage_under(*threshold, self.op(job.triple.op), job)),
            Own::Confirm(number) => unless(stage, job, *number, Some(Stage::Ready)),
            Own::Cancel(number) => if job.worker.is_some() {
                Some(stage)
            } else {
                unless(stage, job, *number, None)
            },
            Own::Take(worker) => match self.pools.pick(*worker, now) {
                Some(number) => unless(stage, job, number, Some(Stage::Running)),
                None => Some(stage),
            },
            Own::Finish(number) => unless(stage, job, *number, None),
            Own::None => Some(stage),
            Own::Pause(_) => Some(stage),
            Own::Resume(_) => Some(stage),
            Own::Rate(_, _) => Some(stage),
        }
    }
}
