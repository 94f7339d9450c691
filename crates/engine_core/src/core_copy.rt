//! A copy of the core's state as plain data.
use job_core::Jobs;
use sched_rows::Rows;
use std::marker::Model;
use value_core::Value;

/// The core's state, apart from the engine that it was copied from.
#[derive(Drop)]
pub struct CoreCopy {
    pub(crate) inputs: Vec<Value>,
    pub(crate) rows: Rows,
    pub(crate) jobs: Jobs,
    pub(crate) moment: u64,
    pub(crate) version: u64,
}

impl Model for CoreCopy {
    ghost use Rattle.core_rules.specs.Codes.{core_state_code};
    ghost use Rattle.core_rules.specs.Core.{CoreState};
    ghost use Rattle.core_rules.specs.Parts.{core_of, dressed};

    ghost Value = { CoreState };

    ghost coded = { core_state_code };

    ghost view = { λ c. dressed c.inputs.items c.version
        (core_of c.jobs.work c.rows.rows c.moment) };
}
