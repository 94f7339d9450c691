//! Questions to the store of a path.
ghost use Rattle.std.specs.Prelude.{◌≡◌, ◌≢◌, ℕ, List, Option};
ghost use Rattle.op_keys.specs.declared.order.Exit.{Exit};
ghost use Rattle.op_keys.specs.declared.order.Order.{Order};
ghost use Rattle.session_rules.specs.Runs.{Given, IsReport};
ghost use Rattle.store_reports.specs.Causes.{IsCaused};
ghost use Rattle.store_reports.specs.Ends.{counts_with, seen_with};
ghost use Rattle.store_reports.specs.Questions.{LacksLogAt, question_plan};

use crate::answers::{Question, answer_question};
use crate::printing::{fault_status, tell};
use io_ends::Sink;
use keeper_core::Keepers;
use std::alloc::Global;

/// Answers a question from the store of a path, which is given back before the answer is printed.
pub fn report<M: Keepers, O: Sink>(
    alloc: Global,
    question: Question,
    path: &str,
    keepers: &mut M,
    out: &mut O,
) -> u8
    // Whatever orders were run before.
    ensures run { (given : Given) (ran : Option (List (Order × Exit)))
        → given.held ≡ M.held keepers.old →
        let see = seen_with M.knows_left M.left O.written ran in
        IsReport (question_plan question) path.now given result
        (see keepers.old out.old) (see keepers.new out.new) }
    ensures cause { (source files : ℕ) →
        let count = counts_with M.faults O.faults source files in
        IsCaused result (count keepers.old out.old) (count keepers.new out.new) }
    ensures no_log { result ≡ 2 → LacksLogAt question path.now (M.held keepers.old)
        (M.knows_left keepers.new) }
    ensures no_refusal { result ≢ 3 }
{
    let mut keeper = match keepers.open(alloc, Some(path)) {
        Ok(keeper) => keeper,
        Err(fault) => return fault_status(fault),
    };
    let answered = answer_question(alloc, &mut keeper, question);
    keepers.give_back(keeper);
    match answered {
        Ok(answer) => tell(out, answer.text.as_slice(), answer.status),
        Err(fault) => fault_status(fault),
    }
}
