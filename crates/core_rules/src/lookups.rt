//! Small questions about operations, jobs and wanted values, which the crates above ask too.
ghost use Rattle.std.specs.Prelude.{◌≡◌, map};
ghost use Rattle.std.specs.Option.{option_copied};
ghost use Rattle.core_rules.specs.Core.{goes_on, is_latched, may_start, stage_under, when_allowed};
ghost use Rattle.core_rules.specs.Settling.{least_value, lesser, values_on};

use crate::jobs::Job;
use op_keys::{Level, OpDecl, permitted};
use value_core::{Stage, Text, Triple};

/// Whether a job of the operation may start without being confirmed.
pub fn may_start(threshold: Option<Level>, op: Option<&OpDecl>) -> bool
    ensures { result ≡ may_start threshold (option_copied op.entry) }
{
    match op {
        Some(op) => permitted(threshold, op.level),
        None => true,
    }
}

/// The stage of what nobody has taken, by whether it may start.
pub fn when_allowed(allowed: bool) -> Stage
    ensures { result ≡ when_allowed allowed }
{
    if allowed {
        Stage::Ready
    } else {
        Stage::Waiting
    }
}

/// How far a job of the operation has come.
pub fn stage_under(threshold: Option<Level>, op: Option<&OpDecl>, job: &Job) -> Stage
    ensures { result ≡ stage_under threshold (option_copied op.entry) job.now }
{
    if job.worker.is_some() {
        Stage::Running
    } else {
        when_allowed(may_start(threshold, op) || job.confirmed)
    }
}

/// Whether a running job of the operation goes on when nothing refers to it.
pub fn goes_on(op: Option<&OpDecl>) -> bool
    ensures { result ≡ goes_on (option_copied op.entry) }
{
    match op {
        Some(op) => op.no_cancel,
        None => true,
    }
}

/// Whether a row of the operation is kept in view while a newer one is made.
pub fn is_latched(op: Option<&OpDecl>) -> bool
    ensures { result ≡ is_latched (option_copied op.entry) }
{
    match op {
        Some(op) => op.latched,
        None => false,
    }
}

/// The lesser of a text and the least one so far.
pub fn lesser<'a>(least: Option<&'a Text>, value: &'a Text) -> &'a Text
    ensures { result.now ≡ lesser (option_copied least.entry) value.now }
{
    match least {
        Some(least) if !(value < least) => least,
        _ => value,
    }
}

/// The least value of an operation and key among wanted triples with their counts.
pub fn least_on<'a>(wants: &'a [(Triple, u64)], op: u32, key: &Text) -> Option<&'a Text>
    ensures { option_copied result ≡ least_value (values_on (map (λ w. w.0) wants.now) op key.now) }
{
    let mut least: Option<&'a Text> = None;
    for want in wants {
        if want.0.op == op && want.0.key.is(key) {
            least = Some(lesser(least, &want.0.value));
        }
    }
    least
}
