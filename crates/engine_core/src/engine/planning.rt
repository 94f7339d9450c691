//! Steps before they are made.
ghost use Rattle.std.specs.Prelude.{◌≡◌, ℕ, ◌+◌, ◌-◌, ◌^◌, ◌<◌, ◌≤◌, length, max, min, slice_set, IfErr, IfOk, OnErr, OnOk};
ghost use Rattle.core_rules.specs.Entries.{world};
ghost use Rattle.core_rules.specs.Steps.{at_time, idle_reply, step};
ghost use Rattle.core_rules.specs.Settling.{wanted};
ghost use Rattle.engine_rules.specs.Conflicts.{AreCounted, counted, triples_of};
ghost use Rattle.engine_rules.specs.declared.tests.Tested.TheVariants.{Passes};
ghost use Rattle.engine_rules.specs.Edits.{MayOwn, inputs_made};
ghost use Rattle.engine_rules.specs.Proper.{IsProperWhat};
ghost use Rattle.engine_rules.specs.Tests.{test_of};
ghost use Rattle.engine_core.specs.Answers.{IsRefusedBy, IsStep, stored_by};
ghost use Rattle.engine_core.specs.Evaluated.{evaluated, trees_of};
ghost use Rattle.engine_core.specs.Plans.{HasInput, HasRowRoom, IsPlannedFor, IsPlannedOver};
ghost use Rattle.engine_core.specs.Plans.{delta_planned};
ghost use Rattle.engine_core.specs.Plans.{reply_planned, state_planned};
ghost use Rattle.engine_core.specs.inside.Planning.{exchanged, planned_of, reason};

use super::Engine;
use crate::parts::Parts;
use crate::planned::{Planned, Settled, StepChange};
use crate::rows::make_room;
use crate::stored::LATEST;
use crate::storing::{Draft, draft_of};
use core_rules::{Delta, Done, Event, Note, Refusal, RowChange, What};
use engine_rules::{
    Edit, EditedState, InputChange, Tested, new_conflicts, set_inputs, test_event, touched,
};
use incr_eval::{Changes, EvalPlan};
use job_core::SettleFault;
use std::mem::swap;
use std::sync::ledger::Ledger;
use value_core::{ListOf, NoMemory, Steps, Triple, Value};

/// The later of a moment and a reading, which counts as 2^60 at most.
fn later(now: u64, reading: u64) -> u64
    ensures { result ≡ max now (min reading (2 ^ 60)) }
{
    now.max(reading.min(LATEST))
}

/// Why jobs aren't settled, as a refusal.
pub(super) fn reason(fault: SettleFault) -> Refusal
    ensures { result ≡ reason fault }
{
    match fault {
        SettleFault::NumbersUsed => Refusal::NumbersUsed,
        SettleFault::NoMemory => Refusal::NoMemory,
    }
}

/// Exchanges the value of an input with the one that it is to have.
fn exchange(inputs: &mut Vec<Value>, change: &mut InputChange)
    requires { HasInput change.old (length inputs.old.items) }
    ensures inputs { inputs.new.items ≡ inputs_made change.old inputs.old.items }
    ensures change { change.new ≡ exchanged inputs.old.items change.old }
    ensures back { inputs_made change.new inputs.new.items ≡ inputs.old.items }
    ensures input { HasInput change.new (length inputs.new.items) }
{
    if let InputChange::Set(index, value) = change {
        swap(&mut inputs[*index as usize], value);
    }
}

impl Engine {
    ghost use Rattle.engine_core.specs.inside.Bare.{bare_at};
    ghost use Rattle.engine_core.specs.inside.Drafts.{IsDraftOf};
    ghost use Rattle.engine_core.specs.inside.Planning.{AreChangesOf, CanEvaluate, CanSettle};
    ghost use Rattle.engine_core.specs.inside.Planning.{IsDrafted, IsEvaluated, IsPlan, IsPlanOf};
    ghost use Rattle.engine_core.specs.inside.Planning.{IsSettled, IsSettledPlan, IsUnplanned};
    ghost use Rattle.engine_core.specs.inside.Planning.{IsUnsettled, dirty_at};

    /// The reply to an event that changes nothing.
    fn idle(&self, note: Note) -> Planned
        ensures done { result.done ≡ idle_reply self.now.core note }
        ensures change { result.change ≡ None }
    {
        Planned {
            done: Done {
                version: self.version,
                note,
                changed: ListOf::new(self.alloc),
                conflicts: ListOf::new(self.alloc),
                signals: ListOf::new(self.alloc),
                delta: Delta {
                    input: None,
                    put: None,
                    void: None,
                    log: None,
                    next: self.jobs.next_number(),
                },
            },
            change: None,
        }
    }

    /// What an event that passes its test changes, answers and stores.
    fn draft(&self, moment: u64, what: &What) -> Result<Draft, NoMemory>
        requires { test_of (bare_at self.now.core moment) what.now ≡ Passes }
        ensures { IfOk result (IsDraftOf (bare_at self.now.core moment) what.now) }
    {
        let next = self.jobs.next_number();
        draft_of(self.alloc, &self.parts(moment), what, next)
    }

    /// The sources that an edit may change.
    fn changes(
        &self,
        moment: u64,
        wants: &[(Triple, u64)],
        edit: &Edit,
    ) -> Result<Changes, NoMemory>
        requires { MayOwn (bare_at self.now.core moment) edit.now.own }
        ensures { IfOk result (AreChangesOf self.now.core moment wants.now edit.now) }
    {
        let due = self.rows.due(self.moment, moment)?;
        let parts = self.parts(moment);
        Ok(Changes {
            inputs: set_inputs(self.alloc, &edit.input)?,
            triples: touched(self.alloc, &parts, wants, due.as_slice(), edit)?,
        })
    }

    /// Evaluates the state that an edit makes.
    fn evaluate<L: Ledger>(
        &mut self,
        moment: u64,
        edit: &mut Edit,
        changes: &Changes,
        steps: &mut Steps<L>,
    ) -> Result<EvalPlan, NoMemory>
        requires { CanEvaluate self.old.core moment edit.old changes.now }
        ensures evaluated { IfOk result (IsEvaluated self.old.core moment edit.old) }
        ensures ticks { let dirty = dirty_at self.old.core moment edit.old in
            OnOk result (steps.new ≡ steps.old + dirty) }
        ensures kept { self.new ≡ self.old }
        ensures edit { edit.new ≡ edit.old }
        ensures not_fallen { steps.old ≤ steps.new }
    {
        exchange(&mut self.inputs, &mut edit.input);
        let program = self.checked.program();
        let parts = Parts::of(program, &self.jobs, &self.rows, moment);
        let state = EditedState::of(&parts, edit);
        let plan = self
            .evaluation
            .plan(program, changes, self.inputs.as_slice(), &state, steps);
        exchange(&mut self.inputs, &mut edit.input);
        plan
    }

    /// Plans how the jobs settle after an edit, and what is answered of it.
    fn settle(
        &mut self,
        moment: u64,
        edit: &Edit,
        before: &[(Triple, u64)],
        plan: &EvalPlan,
    ) -> Result<Settled, Refusal>
        requires { CanSettle self.old.core moment edit.now plan.now }
        ensures settled { IfOk result (IsSettled self.new moment edit.now before.now plan.now) }
        ensures unsettled { IfErr result (IsUnsettled self.old.core moment edit.now plan.now) }
        ensures core { self.new.core ≡ self.old.core }
        ensures room { self.new.row_room ≡ self.old.row_room }
    {
        let wants = plan.wanted()?;
        let changed = plan.changed()?;
        let conflicts = new_conflicts(self.alloc, before, wants.as_slice())?;
        let own = &edit.own;
        let planned = self
            .jobs
            .plan(own, wants.as_slice(), &self.rows, &edit.row, moment);
        match planned {
            Ok(jobs) => Ok(Settled {
                jobs,
                changed,
                conflicts,
            }),
            Err(fault) => Err(reason(fault)),
        }
    }

    /// The plan of what was drafted, evaluated and settled.
    fn planned(&self, moment: u64, draft: Draft, plan: EvalPlan, settled: Settled) -> Planned
        requires { self.now.core.version < 2 ^ 64 - 1 }
        ensures { result ≡ planned_of (self.now.core.version + 1) moment draft plan settled }
    {
        let Draft { edit, note, delta } = draft;
        let Edit { own: _, row, input } = edit;
        let Settled {
            jobs,
            changed,
            conflicts,
        } = settled;
        let next = jobs.next_number();
        Planned {
            done: Done {
                version: self.version + 1,
                note,
                changed,
                conflicts,
                signals: ListOf::new(self.alloc),
                delta: Delta { next, ..delta },
            },
            change: Some(StepChange {
                moment,
                row,
                input,
                jobs,
                evaluation: plan,
            }),
        }
    }

    /// Evaluates the state that a draft makes.
    fn evaluate_draft<L: Ledger>(
        &mut self,
        moment: u64,
        draft: &mut Draft,
        before: &[(Triple, u64)],
        steps: &mut Steps<L>,
    ) -> Result<EvalPlan, NoMemory>
        requires drafted { IsDrafted self.old.core moment draft.old }
        requires before { triples_of before.now ≡ wanted self.old.core }
        ensures evaluated { IfOk result (IsEvaluated self.old.core moment draft.old.edit) }
        ensures ticks { let dirty = dirty_at self.old.core moment draft.old.edit in
            OnOk result (steps.new ≡ steps.old + dirty) }
        ensures kept { self.new ≡ self.old }
        ensures draft { draft.new ≡ draft.old }
        ensures not_fallen { steps.old ≤ steps.new }
    {
        let changes = self.changes(moment, before, &draft.edit)?;
        self.evaluate(moment, &mut draft.edit, &changes, steps)
    }

    /// Gives up an evaluation that was planned.
    fn abandon_evaluation(&mut self, plan: EvalPlan)
        requires { IsPlannedOver (trees_of self.old.core) plan }
        ensures { self.new ≡ self.old }
    {
        self.evaluation.abandon(plan);
    }

    /// Makes room for the row that a change puts.
    fn make_row_room(&mut self, change: &RowChange) -> Result<(), NoMemory>
        ensures room { OnOk result (HasRowRoom change.now self.new.row_room) }
        ensures core { self.new.core ≡ self.old.core }
    {
        make_room(&mut self.rows, change)
    }

    /// Settles the jobs after a draft that was evaluated.
    fn settle_draft(
        &mut self,
        moment: u64,
        draft: Draft,
        before: &[(Triple, u64)],
        plan: EvalPlan,
    ) -> Result<Planned, Refusal>
        requires settles { CanSettle self.old.core moment draft.edit plan }
        requires over { IsPlannedOver (trees_of self.old.core) plan }
        requires version { self.old.core.version < 2 ^ 64 - 1 }
        ensures planned { IfOk result (IsSettledPlan self.new moment draft before.now plan) }
        ensures unsettled { IfErr result (IsUnsettled self.old.core moment draft.edit plan) }
        ensures core { self.new.core ≡ self.old.core }
        ensures room { self.new.row_room ≡ self.old.row_room }
    {
        match self.settle(moment, &draft.edit, before, &plan) {
            Ok(settled) => Ok(self.planned(moment, draft, plan, settled)),
            Err(refusal) => {
                self.abandon_evaluation(plan);
                Err(refusal)
            }
        }
    }

    /// Evaluates and settles a draft.
    fn plan_draft<L: Ledger>(
        &mut self,
        moment: u64,
        mut draft: Draft,
        steps: &mut Steps<L>,
    ) -> Result<Planned, Refusal>
        requires drafted { IsDrafted self.old.core moment draft }
        requires version { self.old.core.version < 2 ^ 64 - 1 }
        ensures planned { IfOk result (IsPlanOf self.new moment draft) }
        ensures unplanned { IfErr result (IsUnplanned self.old.core moment draft.edit) }
        ensures core { self.new.core ≡ self.old.core }
        ensures room { self.new.row_room ≡ self.old.row_room }
        ensures ticks { let dirty = dirty_at self.old.core moment draft.edit in
            OnOk result (steps.new ≡ steps.old + dirty) }
        ensures not_fallen { steps.old ≤ steps.new }
    {
        let before = self.evaluation.wanted()?;
        let plan = self.evaluate_draft(moment, &mut draft, before.as_slice(), steps)?;
        self.settle_draft(moment, draft, before.as_slice(), plan)
    }

    /// Plans what an event that passes its test changes, unless numbers are used up.
    fn plan_change<L: Ledger>(
        &mut self,
        event: &Event,
        steps: &mut Steps<L>,
    ) -> Result<Planned, Refusal>
        requires proper { IsProperWhat event.now.what }
        requires passes { test_of (at_time self.old.core event.now.at) event.now.what ≡ Passes }
        ensures planned { IfOk result (IsPlan self.old.core event.now self.new) }
        ensures refused { IfErr result (IsRefusedBy (step self.old.core event.now)) }
        ensures core { self.new.core ≡ self.old.core }
        ensures ticks { OnOk result (steps.new ≡ steps.old + evaluated self.old.core event.now) }
        ensures not_fallen { steps.old ≤ steps.new }
    {
        if self.version == u64::MAX {
            return Err(Refusal::NumbersUsed);
        }
        let moment = later(self.moment, event.at);
        let draft = self.draft(moment, &event.what)?;
        self.make_row_room(&draft.edit.row)?;
        self.plan_draft(moment, draft, steps)
    }

    /// Plans the step of an event, which changes nothing before it is installed. Out of memory, and
    /// where the event is refused, all is as before.
    pub fn plan<L: Ledger>(
        &mut self,
        event: Event,
        steps: &mut Steps<L>,
    ) -> Result<Planned, Refusal>
        requires { IsProperWhat event.what }
        ensures step { IfOk result (λ p. IsStep self.old.core event
            (state_planned p self.old.core) (reply_planned p)) }
        ensures stored { IfOk result (λ p. delta_planned p ≡ stored_by (step self.old.core event)) }
        ensures fits { IfOk result (λ p. IsPlannedFor p self.new) }
        ensures refused { IfErr result (IsRefusedBy (step self.old.core event)) }
        ensures core { self.new.core ≡ self.old.core }
        ensures ticks { OnOk result (steps.new ≡ steps.old + evaluated self.old.core event) }
        ensures not_fallen { steps.old ≤ steps.new }
    {
        let moment = later(self.moment, event.at);
        match test_event(&self.parts(moment), &event.what) {
            Tested::Passes => self.plan_change(&event, steps),
            Tested::Refused(refusal) => Err(refusal),
            Tested::Nothing => Ok(self.idle(Note::Nothing)),
            Tested::Ignored => Ok(self.idle(Note::Ignored)),
        }
    }
}
