//! Steps that are made, or given up.
ghost use Rattle.std.specs.Prelude.{◌≡◌, ◌+◌, ◌≤◌, length, IfErr, IfOk, OnErr, OnOk};
ghost use Rattle.core_rules.specs.Steps.{step};
ghost use Rattle.job_core.specs.Plans.{plan_signals};
ghost use Rattle.engine_rules.specs.Edits.{inputs_made};
ghost use Rattle.engine_rules.specs.Proper.{IsProperWhat};
ghost use Rattle.engine_core.specs.Answers.{IsRefusedBy, IsStep};
ghost use Rattle.engine_core.specs.Evaluated.{evaluated};
ghost use Rattle.engine_core.specs.Plans.{HasInput, IsChangeFor, IsPlannedFor, changed_by};
ghost use Rattle.engine_core.specs.Plans.{reply_planned, state_planned};

use super::Engine;
use crate::planned::{Planned, StepChange};
use crate::rows::change_rows;
use core_rules::{Done, Event, Refusal};
use engine_rules::InputChange;
use std::sync::ledger::Ledger;
use value_core::{ListOf, Steps, Value};

/// Sets the value that a change sets.
fn set_input(inputs: &mut Vec<Value>, change: InputChange)
    requires { HasInput change (length inputs.old.items) }
    ensures { inputs.new.items ≡ inputs_made change inputs.old.items }
{
    if let InputChange::Set(index, value) = change {
        inputs[index as usize] = value;
    }
}

impl Engine {
    /// Makes a change, and answers which jobs it marks. Takes no memory.
    fn change(&mut self, change: StepChange) -> ListOf<u64>
        requires { IsChangeFor change self.old }
        ensures core { self.new.core ≡ changed_by change self.old.core }
        ensures signals { result ≡ plan_signals change.jobs }
    {
        let StepChange {
            moment,
            row,
            input,
            jobs,
            evaluation,
        } = change;
        self.moment = moment;
        self.version += 1;
        set_input(&mut self.inputs, input);
        change_rows(&mut self.rows, self.checked.program(), row);
        self.evaluation.install(evaluation);
        self.jobs.install(jobs)
    }

    /// Makes a step that was planned for this engine, with no change since. Takes no memory.
    pub fn install(&mut self, planned: Planned) -> Done
        requires { IsPlannedFor planned self.old }
        ensures core { self.new.core ≡ state_planned planned self.old.core }
        ensures reply { result ≡ reply_planned planned }
    {
        let Planned { mut done, change } = planned;
        if let Some(change) = change {
            done.signals = self.change(change);
        }
        done
    }

    /// Gives up a step that was planned for this engine, with no change since. Takes no memory.
    pub fn abandon(&mut self, planned: Planned)
        requires { IsPlannedFor planned self.old }
        ensures { self.new ≡ self.old }
    {
        let Planned { done: _, change } = planned;
        if let Some(change) = change {
            let StepChange {
                moment: _,
                row: _,
                input: _,
                jobs,
                evaluation,
            } = change;
            self.evaluation.abandon(evaluation);
            self.jobs.abandon(jobs);
        }
    }

    /// Makes the step of an event. Out of memory, and where the event is refused, all is as before.
    pub fn apply<L: Ledger>(&mut self, event: Event, steps: &mut Steps<L>) -> Result<Done, Refusal>
        requires { IsProperWhat event.what }
        ensures step { IfOk result (λ done. IsStep self.old.core event self.new.core done) }
        ensures refused { IfErr result (IsRefusedBy (step self.old.core event)) }
        ensures kept { OnErr result (self.new.core ≡ self.old.core) }
        ensures ticks { OnOk result (steps.new ≡ steps.old + evaluated self.old.core event) }
        ensures not_fallen { steps.old ≤ steps.new }
    {
        let planned = self.plan(event, steps)?;
        Ok(self.install(planned))
    }
}
