//! What is answered to an event that passes its test.
ghost use Rattle.std.specs.Prelude.{◌≡◌, ◌<◌, IfOk, IfSome, length};
ghost use Rattle.std.specs.Option.{option_copied};
ghost use Rattle.op_keys.specs.Orders.{order_words};
ghost use Rattle.core_rules.specs.Core.{op_of};
ghost use Rattle.core_rules.specs.Orders.{order_for, words_for};
ghost use Rattle.engine_rules.specs.declared.tests.Tested.TheVariants.{Passes};
ghost use Rattle.engine_rules.specs.Edits.{end_note, ending_by, note_of, start_note};
ghost use Rattle.engine_rules.specs.Orders.{Fits, OrdersFit};
ghost use Rattle.engine_rules.specs.Tests.{test_of};
ghost use Rattle.engine_rules.specs.inside.Results.{Returns};

use crate::exits::{ExitResult, exit_outcome};
use crate::lookups::Lookups;
use crate::tests::pick_job;
use core_rules::{Ending, Job, Mark, Note, What};
use op_keys::{Exit, Order, OrderFault, Word, words_of};
use std::alloc::{AllocError, Global};
use value_core::{ListOf, NoMemory, Triple};

/// The words of the order for a triple, none of which is too long.
fn words<P: Lookups>(alloc: Global, parts: &P, triple: &Triple) -> Result<ListOf<Word>, NoMemory>
    requires { Fits (P.state parts.now).program triple.now }
    ensures { Returns (words_for (op_of (P.state parts.now) triple.now.op) triple.now) result }
{
    let Some(op) = parts.op(triple.op) else {
        return Ok(ListOf::new(alloc));
    };
    match words_of(alloc, op, &triple.key, &triple.value) {
        Ok(words) => Ok(words),
        Err(OrderFault::NoMemory) => Err(AllocError),
        Err(OrderFault::WordTooLong(_)) => {
            prove!(false);
            Err(AllocError)
        }
    }
}

/// What a worker is asked to run.
fn order_for<P: Lookups>(
    alloc: Global,
    parts: &P,
    worker: u32,
    job: &Job,
) -> Result<Order, NoMemory>
    requires { Fits (P.state parts.now).program job.now.triple }
    ensures { IfOk result (λ o. o ≡ order_for (P.state parts.now) worker job.now) }
{
    Ok(Order {
        job: job.number,
        worker,
        op: job.triple.op,
        key: job.triple.key.copy(alloc)?,
        value: job.triple.value.copy(alloc)?,
        words: words(alloc, parts, &job.triple)?,
    })
}

fn start_note<P: Lookups>(
    alloc: Global,
    parts: &P,
    worker: u32,
    job: Option<&Job>,
) -> Result<Note, NoMemory>
    requires { IfSome job (λ j. Fits (P.state parts.now).program j.now.triple) }
    ensures { Returns (start_note (P.state parts.now) worker (option_copied job.entry)) result }
{
    match job {
        Some(job) => Ok(Note::Started(order_for(alloc, parts, worker, job)?)),
        None => Ok(Note::Nothing),
    }
}

/// How a job ends, by its mark.
fn ending_by(alloc: Global, mark: Mark, exit: &Exit) -> Result<Ending, NoMemory>
    ensures { IfOk result (λ e. e ≡ ending_by mark exit.now) }
{
    match mark {
        Mark::Automatic => Ok(Ending::Dropped),
        Mark::User => Ok(Ending::Cancelled),
        Mark::Unmarked => Ok(match exit_outcome(alloc, exit)? {
            ExitResult::Fine(_) => Ending::Fine,
            ExitResult::Failed(message) => Ending::Failed(message),
        }),
    }
}

fn end_note(alloc: Global, number: u64, job: Option<&Job>, exit: &Exit) -> Result<Note, NoMemory>
    ensures { IfOk result (λ n. n ≡ end_note number (option_copied job.entry) exit.now) }
{
    match job {
        Some(found) => Ok(Note::Ended {
            job: number,
            ending: ending_by(alloc, found.mark, exit)?,
        }),
        None => Ok(Note::Ignored),
    }
}

/// What is answered to an event that passes its test, at a moment that is set already.
pub fn note_of<P: Lookups>(alloc: Global, parts: &P, what: &What) -> Result<Note, NoMemory>
    requires passes { test_of (P.state parts.now) what.now ≡ Passes }
    requires fit { OrdersFit (P.state parts.now).program (P.state parts.now).jobs }
    ensures { IfOk result (λ n. n ≡ note_of (P.state parts.now) what.now) }
{
    match what {
        What::Take(worker) => start_note(alloc, parts, *worker, pick_job(parts, *worker)),
        What::Finish { job, exit } => end_note(alloc, *job, parts.job(*job), exit),
        _ => Ok(Note::Plain),
    }
}
