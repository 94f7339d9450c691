//! What is looked up of a state that is kept in parts.
ghost use Rattle.std.specs.Prelude.{◌≡◌};
ghost use Rattle.core_rules.specs.Core.{stage};

use core_rules::{Job, stage_under};
use op_keys::{Level, OpDecl};
use sched_rows::Row;
use term_core::Program;
use value_core::{Stage, Text};

/// The look-ups that the parts of a state offer, at a moment that is set already.
pub trait Lookups {
    ghost use Rattle.std.specs.Prelude.{◌≡◌, ◌<◌, IfSome, length};
    ghost use Rattle.std.specs.FinMap.{get};
    ghost use Rattle.std.specs.Option.{option_copied};
    ghost use Rattle.term_core.specs.Limits.{IsWithinLimits};
    ghost use Rattle.sched_rows.specs.RowKeys.{row_key};
    ghost use Rattle.sched_rows.specs.Validity.{IsInRange, IsTime};
    ghost use Rattle.core_rules.specs.Changes.{client_named, worker_named};
    ghost use Rattle.core_rules.specs.Core.{CoreState, job_numbered, op_of};
    ghost use Rattle.core_rules.specs.Orders.{picked};
    ghost use Rattle.core_rules.specs.Settling.{live_on};

    /// The state, as plain data.
    ghost state: { Self → CoreState };

    fn program(&self) -> &Program
        ensures program { result.now ≡ (state self.now).program }
        ensures limits { IsWithinLimits result.now };

    /// Operations at or above the level wait to be confirmed.
    fn threshold(&self) -> Option<Level>
        ensures { result ≡ (state self.now).threshold };

    /// The moment, in milliseconds since 1970.
    fn now(&self) -> u64
        ensures { result ≡ (state self.now).now };

    /// The operation of this number.
    fn op(&self, op: u32) -> Option<&OpDecl>
        ensures op { option_copied result ≡ op_of (state self.now) op }
        ensures range { IfSome result (λ d. IsInRange d.now.expiry) };

    /// The live job of this number.
    fn job(&self, number: u64) -> Option<&Job>
        ensures { option_copied result ≡ job_numbered (state self.now).jobs number };

    /// The live job of an operation and key.
    fn live_on(&self, op: u32, key: &Text) -> Option<&Job>
        ensures { option_copied result ≡ live_on (state self.now).jobs op key.now };

    /// The row of an operation's name and a key.
    fn row(&self, op: &Text, key: &Text) -> Option<&Row>
        ensures row { option_copied result ≡ get (state self.now).rows (row_key op.now key.now) }
        ensures time { IfSome result (λ r. IsTime r.now.finished) };

    fn worker_named(&self, name: &Text) -> Option<u32>
        ensures { result ≡ worker_named (state self.now) name.now };

    fn client_named(&self, pool: &Text, client: &Text) -> Option<u32>
        ensures { result ≡ client_named (state self.now) pool.now client.now };

    /// The number of the job that a declared worker takes next.
    fn pick(&self, worker: u32) -> Option<u64>
        requires { worker < length (state self.now).program.workers }
        ensures { result ≡ picked (state self.now) worker };
}

/// How far a job has come.
pub(crate) fn stage<P: Lookups>(parts: &P, job: &Job) -> Stage
    ensures { result ≡ stage (P.state parts.now) job.now }
{
    stage_under(parts.threshold(), parts.op(job.triple.op), job)
}
