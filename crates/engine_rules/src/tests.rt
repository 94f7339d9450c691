//! What refuses an event, by what is looked up.
ghost use Rattle.std.specs.Prelude.{◌≡◌, ◌<◌, length, option_map};
ghost use Rattle.std.specs.Option.{option_copied};
ghost use Rattle.value_core.specs.Values.{fits_kind};
ghost use Rattle.value_core.specs.declared.value.Kind.TheVariants as kind;
ghost use Rattle.core_rules.specs.Changes.{op_named, takes};
ghost use Rattle.core_rules.specs.Core.{stage};
ghost use Rattle.engine_rules.specs.Edits.{pick_job};
ghost use Rattle.engine_rules.specs.Tests.{busy_with, cancel_test, confirm_test, input_named};
ghost use Rattle.engine_rules.specs.Tests.{input_test, rate_test, rebuild_test, rebuild_tested, runs};
ghost use Rattle.engine_rules.specs.Tests.{take_tested, test_of, worker_test};

use crate::lookups::{Lookups, stage};
use core_rules::{Job, Mark, Refusal, What};
use op_keys::index_of;
use sched_rows::Row;
use term_core::{InputDecl, Program};
use value_core::{Kind, Stage, Text, Value, is_kind};

/// What the test of an event finds.
#[derive(Clone, Copy, Debug, PartialEq, Eq)]
pub enum Tested {
    /// It makes its change, unless numbers are used up.
    Passes,
    /// It is refused.
    Refused(Refusal),
    /// The worker has no job to take, and nothing changes.
    Nothing,
    /// The job isn't running, and nothing changes.
    Ignored,
}

fn are_texts(value: &Value) -> bool
    ensures { result ≡ fits_kind (kind.List kind.Text) value.now }
{
    match value {
        Value::List(items) => {
            for item in items.as_slice() {
                if !is_kind(item, &Kind::Text) {
                    return false;
                }
            }
            true
        }
        _ => false,
    }
}

/// Whether a value is of the kind of an input's declared one.
fn takes(decl: &InputDecl, value: &Value) -> bool
    ensures { result ≡ takes decl.now value.now }
{
    match &decl.value {
        Value::Words(_) => is_kind(value, &Kind::Text),
        Value::Num(_) => is_kind(value, &Kind::Num),
        Value::List(_) => are_texts(value),
        _ => is_kind(value, &Kind::Unit),
    }
}

/// The input of this name.
fn input_named<'a>(program: &'a Program, name: &Text) -> Option<&'a InputDecl>
    ensures { option_copied result ≡ input_named program.now name.now }
{
    let inputs = program.inputs.as_slice();
    inputs.get(index_of(inputs, name.as_str()))
}

fn input_test(decl: Option<&InputDecl>, value: &Value) -> Tested
    ensures { result ≡ input_test (option_copied decl.entry) value.now }
{
    match decl {
        Some(decl) if takes(decl, value) => Tested::Passes,
        Some(_) => Tested::Refused(Refusal::WrongKind),
        None => Tested::Refused(Refusal::UnknownInput),
    }
}

fn confirm_test(stage: Option<Stage>) -> Tested
    ensures { result ≡ confirm_test stage }
{
    match stage {
        Some(Stage::Waiting) => Tested::Passes,
        Some(stage) => Tested::Refused(Refusal::NotWaiting(stage)),
        None => Tested::Refused(Refusal::UnknownJob),
    }
}

fn cancel_test(mark: Option<Mark>) -> Tested
    ensures { result ≡ cancel_test mark }
{
    match mark {
        Some(Mark::Unmarked) => Tested::Passes,
        Some(_) => Tested::Refused(Refusal::AlreadyCancelling),
        None => Tested::Refused(Refusal::UnknownJob),
    }
}

fn rebuild_test(op: Option<u32>, job: Option<u64>, has_row: bool) -> Tested
    ensures { result ≡ rebuild_test op job has_row }
{
    match (op, job) {
        (None, _) => Tested::Refused(Refusal::UnknownOp),
        (Some(_), Some(job)) => Tested::Refused(Refusal::Busy(job)),
        (Some(_), None) if has_row => Tested::Passes,
        (Some(_), None) => Tested::Refused(Refusal::NoRow),
    }
}

fn worker_test(worker: Option<u32>) -> Tested
    ensures { result ≡ worker_test worker }
{
    match worker {
        Some(_) => Tested::Passes,
        None => Tested::Refused(Refusal::UnknownWorker),
    }
}

fn rate_test(client: Option<u32>, rate: u64) -> Tested
    ensures { result ≡ rate_test client rate }
{
    match client {
        None => Tested::Refused(Refusal::UnknownClient),
        Some(_) if 1 <= rate && rate <= 1000 => Tested::Passes,
        Some(_) => Tested::Refused(Refusal::RateOutOfRange(rate)),
    }
}

fn runs(job: Option<&Job>) -> bool
    ensures { result ≡ runs (option_copied job.entry) }
{
    match job {
        Some(job) => job.worker.is_some(),
        None => false,
    }
}

fn mark_of(job: Option<&Job>) -> Option<Mark>
    ensures { result ≡ option_map (λ j. j.mark) (option_copied job.entry) }
{
    match job {
        Some(job) => Some(job.mark),
        None => None,
    }
}

fn number_of(job: Option<&Job>) -> Option<u64>
    ensures { result ≡ option_map (λ j. j.number) (option_copied job.entry) }
{
    match job {
        Some(job) => Some(job.number),
        None => None,
    }
}

/// The number of the operation of this name.
pub(crate) fn op_named<P: Lookups>(parts: &P, name: &Text) -> Option<u32>
    ensures { result ≡ op_named (P.state parts.now) name.now }
{
    let ops = parts.program().ops.as_slice();
    let index = index_of(ops, name.as_str());
    if index < ops.len() {
        Some(index as u32)
    } else {
        None
    }
}

/// The live job of an operation and key, if the operation is declared.
fn busy_with<P: Lookups>(parts: &P, op: Option<u32>, key: &Text) -> Option<u64>
    ensures { result ≡ busy_with (P.state parts.now) op key.now }
{
    match op {
        Some(op) => number_of(parts.live_on(op, key)),
        None => None,
    }
}

/// The job that a declared worker takes next.
pub(crate) fn pick_job<'a, P: Lookups>(parts: &'a P, worker: u32) -> Option<&'a Job>
    requires { worker < length (P.state parts.now).program.workers }
    ensures { option_copied result ≡ pick_job (P.state parts.now) worker }
{
    match parts.pick(worker) {
        Some(number) => parts.job(number),
        None => None,
    }
}

fn stage_of<P: Lookups>(parts: &P, job: Option<&Job>) -> Option<Stage>
    ensures { result ≡ option_map (stage (P.state parts.now)) (option_copied job.entry) }
{
    match job {
        Some(job) => Some(stage(parts, job)),
        None => None,
    }
}

fn take_test<P: Lookups>(parts: &P, worker: u32) -> Tested
    ensures { result ≡ take_tested (P.state parts.now) worker }
{
    if (worker as usize) < parts.program().workers.len() {
        if pick_job(parts, worker).is_some() {
            Tested::Passes
        } else {
            Tested::Nothing
        }
    } else {
        Tested::Refused(Refusal::UnknownWorker)
    }
}

fn test_rebuild<P: Lookups>(parts: &P, op: &Text, key: &Text) -> Tested
    ensures { result ≡ rebuild_tested (P.state parts.now) op.now key.now }
{
    let named = op_named(parts, op);
    rebuild_test(
        named,
        busy_with(parts, named, key),
        parts.row(op, key).is_some(),
    )
}

/// What refuses an event, or lets it change nothing, at a moment that is set already.
pub fn test_event<P: Lookups>(parts: &P, what: &What) -> Tested
    ensures { result ≡ test_of (P.state parts.now) what.now }
{
    match what {
        What::SetInput { name, value } => input_test(input_named(parts.program(), name), value),
        What::Tick => Tested::Passes,
        What::SetLevel(_) => Tested::Passes,
        What::Confirm(job) => confirm_test(stage_of(parts, parts.job(*job))),
        What::Cancel(job) => cancel_test(mark_of(parts.job(*job))),
        What::Rebuild { op, key } => test_rebuild(parts, op, key),
        What::Pause(worker) => worker_test(parts.worker_named(worker)),
        What::Resume(worker) => worker_test(parts.worker_named(worker)),
        What::Rate { pool, client, rate } => rate_test(parts.client_named(pool, client), *rate),
        What::Take(worker) => take_test(parts, *worker),
        What::Finish { job, exit: _ } => {
            if runs(parts.job(*job)) {
                Tested::Passes
            } else {
                Tested::Ignored
            }
        }
    }
}
