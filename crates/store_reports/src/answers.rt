//! Answers from a keeper's tables.
ghost use Rattle.std.specs.Prelude.{◌≡◌, ℕ, IfOk, None};
ghost use Rattle.keeper_core.specs.KeeperCalls.{HasCause};
ghost use Rattle.keeper_core.specs.WellFormed.{first_bad};
ghost use Rattle.keeper_core.specs.declared.tables.Tables.{Tables as Loaded};
ghost use Rattle.session_rules.specs.StoreTexts.{bad_row_line};
ghost use Rattle.store_reports.specs.Questions.{HasStatus, IsAnswer};
ghost use Rattle.store_reports.specs.inside.Answering.{IsAnswerFrom, OnlyReads};
ghost use Rattle.store_reports.specs.declared.answers.Question.TheVariants.{Log};

use crate::reading::{ReportFault, read_report};
use crate::rows::{bad_row_line, row_lines};
use crate::stats::stats_lines;
use keeper_core::{KeepFault, Keeper, Table, Tables};
use std::alloc::Global;
use value_core::ListOf;

/// What is asked of a store.
#[derive(Clone, Copy, Debug, PartialEq, Eq)]
pub enum Question {
    /// Its results.
    Jobs,
    /// How much it has.
    Stats,
    /// The output of a job.
    Log(u64),
}

/// What is printed, and the status once it is.
#[derive(Drop)]
pub struct Answer {
    pub text: ListOf<u8>,
    pub status: u8,
}

/// A text with status 0.
fn fine(text: ListOf<u8>) -> Answer
    ensures { result ≡ record { text = text; status = 0 } }
{
    Answer { text, status: 0 }
}

/// The first row that isn't well formed, with status 9.
fn bad_row(alloc: Global, table: Table, number: u64) -> Result<Answer, KeepFault>
    ensures text { IfOk result (λ a. a.text ≡ bad_row_line (table, number)) }
    ensures status { IfOk result (λ a. a.status ≡ 9) }
    ensures cause { (count : ℕ) → HasCause count count result }
{
    Ok(Answer {
        text: bad_row_line(alloc, table, number)?,
        status: 9,
    })
}

/// The output of a job, or that it has none.
fn log_answer<K: Keeper>(alloc: Global, keeper: &mut K, job: u64) -> Result<Answer, KeepFault>
    ensures answer { (t : Loaded) → IsAnswerFrom (Log job) t (K.known keeper.new) result }
    ensures status { IfOk result (λ a. HasStatus (Log job) (K.known keeper.new).tables a.status) }
    ensures same { OnlyReads (K.known keeper.old) (K.known keeper.new) }
    ensures cause { HasCause (K.faults keeper.old) (K.faults keeper.new) result }
{
    match keeper.log_of(alloc, job)? {
        Some(text) => Ok(fine(text)),
        None => {
            let text = Vec::from_slice(alloc, b"error: no log\n")?;
            Ok(Answer {
                text: ListOf::from_vec(text),
                status: 2,
            })
        }
    }
}

/// The answer from tables that were loaded.
fn answer_from<K: Keeper>(
    alloc: Global,
    keeper: &mut K,
    tables: &Tables,
    question: Question,
) -> Result<Answer, KeepFault>
    ensures answer { IsAnswerFrom question tables.now (K.known keeper.new) result }
    ensures status { IfOk result (λ a. HasStatus question (K.known keeper.new).tables a.status) }
    ensures same { OnlyReads (K.known keeper.old) (K.known keeper.new) }
    ensures cause { HasCause (K.faults keeper.old) (K.faults keeper.new) result }
{
    match question {
        Question::Jobs => Ok(fine(row_lines(alloc, tables)?)),
        Question::Stats => Ok(fine(stats_lines(alloc, tables)?)),
        Question::Log(job) => log_answer(alloc, keeper, job),
    }
}

/// Loads the tables, tests their rows, and answers a question.
pub(crate) fn answer_question<K: Keeper>(
    alloc: Global,
    keeper: &mut K,
    question: Question,
) -> Result<Answer, KeepFault>
    ensures answer { IsAnswer question (K.known keeper.new) result }
    ensures status { IfOk result (λ a. HasStatus question (K.known keeper.new).tables a.status) }
    ensures same { OnlyReads (K.known keeper.old) (K.known keeper.new) }
    ensures cause { HasCause (K.faults keeper.old) (K.faults keeper.new) result }
{
    match read_report(alloc, keeper) {
        Ok(tables) => answer_from(alloc, keeper, &tables, question),
        Err(ReportFault::BadRow(table, number)) => bad_row(alloc, table, number),
        Err(ReportFault::Keeper) => Err(KeepFault::Fault),
        Err(ReportFault::NoMemory) => Err(KeepFault::NoMemory),
    }
}
