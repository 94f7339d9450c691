//! The jobs and the rows at a moment, as the rules look them up.
ghost use Rattle.std.specs.Prelude.{◌≡◌};
ghost use Rattle.core_rules.specs.Parts.{core_of};
ghost use Rattle.engine_core.specs.inside.Bare.{AreParts};

use core_rules::{Job, Own};
use engine_rules::{Lookups, Stages};
use job_core::Jobs;
use op_keys::{Level, OpDecl};
use sched_rows::{Row, Rows};
use std::marker::Model;
use term_core::Program;
use value_core::{Stage, Text, Triple};

/// The jobs and the rows of a program, at a moment in milliseconds since 1970.
#[derive(Drop)]
pub(crate) struct Parts<'a> {
    program: &'a Program,
    jobs: &'a Jobs,
    rows: &'a Rows,
    moment: u64,
}

impl<'a> Model for Parts<'a> {
    ghost use Rattle.core_rules.specs.Codes.{core_state_code};
    ghost use Rattle.core_rules.specs.Core.{CoreState};
    ghost use Rattle.core_rules.specs.Parts.{core_of};
    ghost use Rattle.engine_core.specs.inside.Bare.{AreParts};

    ghost Value = { CoreState };

    ghost coded = { core_state_code };

    ghost view = { λ p. core_of p.jobs.now.work p.rows.now.rows p.moment };

    ghost invariant = { λ p. AreParts p.program.now
        (core_of p.jobs.now.work p.rows.now.rows p.moment) };
}

impl<'a> Parts<'a> {
    /// These parts, at a moment.
    pub(crate) fn of(program: &'a Program, jobs: &'a Jobs, rows: &'a Rows, moment: u64) -> Parts<'a>
        requires { AreParts program.now (core_of jobs.now.work rows.now.rows moment) }
        ensures { result ≡ core_of jobs.now.work rows.now.rows moment }
    {
        Parts {
            program,
            jobs,
            rows,
            moment,
        }
    }
}

impl<'a> Lookups for Parts<'a> {
    ghost state = { λ p. p };

    fn program(&self) -> &Program {
        self.program
    }

    fn threshold(&self) -> Option<Level> {
        self.jobs.threshold()
    }

    fn now(&self) -> u64 {
        self.moment
    }

    fn op(&self, op: u32) -> Option<&OpDecl> {
        self.program.ops.as_slice().get(op as usize)
    }

    fn job(&self, number: u64) -> Option<&Job> {
        self.jobs.job_of(number)
    }

    fn live_on(&self, op: u32, key: &Text) -> Option<&Job> {
        self.jobs.live_on(op, key)
    }

    fn row(&self, op: &Text, key: &Text) -> Option<&Row> {
        self.rows.get(op, key)
    }

    fn worker_named(&self, name: &Text) -> Option<u32> {
        self.jobs.pools().worker_named(name.as_str())
    }

    fn client_named(&self, pool: &Text, client: &Text) -> Option<u32> {
        self.jobs
            .pools()
            .client_named(pool.as_str(), client.as_str())
    }

    fn pick(&self, worker: u32) -> Option<u64> {
        self.jobs.pools().pick(worker, self.moment)
    }
}

impl<'a> Stages for Parts<'a> {
    #[tactic(auto, using(crate::proofs::OwnAlone::made_alone, crate::proofs::OwnAlone::stage_alone))]
    fn stage_after(&self, own: &Own, triple: &Triple) -> Option<Stage> {
        self.jobs.stage_after(own, triple, self.moment)
    }
}
