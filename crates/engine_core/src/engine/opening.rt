//! The opening of the engine from what is stored.
ghost use Rattle.std.specs.Prelude.{◌≡◌, ◌+◌, ◌<◌, ◌≤◌, ◌^◌, [], length, IfErr, IfOk, OnOk};
ghost use Rattle.term_core.specs.Fresh.{fresh};
ghost use Rattle.core_rules.specs.Entries.{fresh_of, world};
ghost use Rattle.core_rules.specs.Openings.{IsOpenable, opened, start};
ghost use Rattle.core_rules.specs.Replies.{changed_from, new_conflicts};
ghost use Rattle.engine_rules.specs.Proper.{IsProperDurable};
ghost use Rattle.visit_rules.specs.Traces.{traces};
ghost use Rattle.visit_rules.specs.Visits.{all_wants, states};
ghost use Rattle.engine_core.specs.Answers.{IsOpening, IsUnopened};
ghost use Rattle.engine_core.specs.inside.Bare.{AreParts};
ghost use Rattle.engine_core.specs.inside.Keeping.{AreKept};
ghost use Rattle.engine_core.specs.inside.Opening.{CanSettleFirst, IsFirst, IsFirstReply};
ghost use Rattle.engine_core.specs.inside.Opening.{IsFirstSettled, IsFirstUnsettled, bare_of};
ghost use Rattle.engine_core.specs.inside.Opening.{first_done, state_of_parts};

use super::Engine;
use super::planning::reason;
use crate::evaluation::Evaluation;
use crate::parts::Parts;
use crate::stored::{OpenedParts, opened_parts};
use core_rules::{Delta, Done, Durable, Note, Own, Refusal, RowChange};
use engine_rules::{Edit, EditedState, InputChange, new_conflicts};
use op_keys::Level;
use std::alloc::Global;
use std::sync::ledger::Ledger;
use term_check::Checked;
use term_core::Program;
use value_core::{ListOf, NoMemory, State, Steps, Text};

/// What an opening answers of the nodes and of what is wanted.
#[derive(Drop)]
pub(crate) struct FirstReply {
    pub(crate) changed: ListOf<(u32, State)>,
    pub(crate) conflicts: ListOf<(u32, Text)>,
}

/// Evaluates all nodes in a state that is opened.
fn evaluate<L: Ledger>(
    alloc: Global,
    program: &Program,
    opened: &OpenedParts,
    steps: &mut Steps<L>,
) -> Result<Evaluation, NoMemory>
    requires { AreParts program.now (bare_of opened.now) }
    ensures trees { let there = world (bare_of opened.now) in
        IfOk result (λ e. e ≡ traces program.now opened.now.inputs.items there) }
    ensures ticks { let there = world (bare_of opened.now) in
        let run = fresh program.now opened.now.inputs.items there in
        OnOk result (steps.new ≡ steps.old + run.ticks) }
    ensures not_fallen { steps.old ≤ steps.new }
{
    let parts = Parts::of(program, &opened.jobs, &opened.rows, opened.moment);
    let edit = Edit {
        own: Own::None,
        row: RowChange::None,
        input: InputChange::None,
    };
    let state = EditedState::of(&parts, &edit);
    Evaluation::open(alloc, program, opened.inputs.as_slice(), &state, steps)
}

/// What is answered of so many nodes.
fn first_reply(alloc: Global, evaluation: &Evaluation, nodes: usize) -> Result<FirstReply, NoMemory>
    requires nodes { nodes ≡ length evaluation.now }
    requires few { nodes < 2 ^ 32 }
    ensures { IfOk result (IsFirstReply evaluation.now) }
{
    let wants = evaluation.wanted()?;
    let changed = evaluation.all_states(alloc, nodes)?;
    let conflicts = new_conflicts(alloc, &[], wants.as_slice())?;
    Ok(FirstReply { changed, conflicts })
}

/// The reply of an opening.
fn first_done(alloc: Global, first: FirstReply, next: u64) -> Done
    ensures { result ≡ first_done first next }
{
    Done {
        version: 1,
        note: Note::Plain,
        changed: first.changed,
        conflicts: first.conflicts,
        signals: ListOf::new(alloc),
        delta: Delta {
            input: None,
            put: None,
            void: None,
            log: None,
            next,
        },
    }
}

/// Settles opened parts for what the nodes want.
fn settled(parts: OpenedParts, evaluation: &Evaluation) -> Result<OpenedParts, Refusal>
    requires { CanSettleFirst evaluation.now parts }
    ensures settled { IfOk result (IsFirstSettled evaluation.now parts) }
    ensures unsettled { IfErr result (IsFirstUnsettled evaluation.now parts) }
{
    let wants = evaluation.wanted()?;
    let OpenedParts {
        inputs,
        rows,
        mut jobs,
        moment,
    } = parts;
    match jobs.settle(wants.as_slice(), &rows, moment) {
        Ok(_) => Ok(OpenedParts {
            inputs,
            rows,
            jobs,
            moment,
        }),
        Err(fault) => Err(reason(fault)),
    }
}

/// The engine of settled parts, with the reply of its opening.
fn first_engine(
    alloc: Global,
    checked: Checked,
    parts: OpenedParts,
    evaluation: Evaluation,
    first: FirstReply,
) -> (Engine, Done)
    requires { AreKept checked (state_of_parts parts) parts.rows evaluation }
    ensures { IsFirst parts first result.0.core result.1 }
{
    let OpenedParts {
        inputs,
        rows,
        jobs,
        moment,
    } = parts;
    let done = first_done(alloc, first, jobs.next_number());
    let engine = Engine {
        alloc,
        checked,
        inputs,
        rows,
        jobs,
        moment,
        version: 1,
        evaluation,
    };
    (engine, done)
}

impl Engine {
    /// Opens the core from what is stored, at a reading of the clock in milliseconds since 1970.
    pub fn open<L: Ledger>(
        alloc: Global,
        checked: Checked,
        durable: Durable,
        threshold: Option<Level>,
        at: u64,
        steps: &mut Steps<L>,
    ) -> Result<(Engine, Done), Refusal>
        requires openable { IsOpenable durable }
        requires proper { IsProperDurable durable }
        ensures opening { let starts = start checked durable threshold at in
            IfOk result (λ o. IsOpening starts o.0.core o.1) }
        ensures unopened { IfErr result (IsUnopened (start checked durable threshold at)) }
        ensures ticks { let run = fresh_of (opened checked durable threshold at) in
            OnOk result (steps.new ≡ steps.old + run.ticks) }
        ensures not_fallen { steps.old ≤ steps.new }
    {
        let program = checked.program();
        let begun = opened_parts(alloc, program, durable, threshold, at)?;
        let evaluation = evaluate(alloc, program, &begun, steps)?;
        let first = first_reply(alloc, &evaluation, program.nodes.len())?;
        let parts = settled(begun, &evaluation)?;
        Ok(first_engine(alloc, checked, parts, evaluation, first))
    }
}
