//! The evaluation of all nodes that is kept of the core's state.
ghost use Rattle.std.specs.Prelude.{◌≡◌, ◌+◌, ◌<◌, ◌≤◌, ◌^◌, [], length, slice_get, IfOk, OnErr, OnOk, Some};
ghost use Rattle.term_core.specs.Counts.{count_of};
ghost use Rattle.term_core.specs.Fresh.{fresh};
ghost use Rattle.term_core.specs.Limits.{IsWithinLimits};
ghost use Rattle.core_rules.specs.Replies.{changed_from};
ghost use Rattle.engine_rules.specs.Conflicts.{counted};
ghost use Rattle.visit_rules.specs.Differences.{CoversChanges};
ghost use Rattle.visit_rules.specs.Traces.{all_dirty, traces};
ghost use Rattle.visit_rules.specs.Visits.{all_wants, states};
ghost use Rattle.engine_core.specs.Plans.{IsPlannedOver};

use incr_eval::{Changes, EvalPlan, Live};
use std::alloc::Global;
use std::marker::Model;
use std::sync::ledger::Ledger;
use term_core::{Entries, Program};
use value_core::{ListOf, NoMemory, State, Steps, Triple, Value};

/// What all nodes come to, kept from step to step.
#[derive(Drop)]
pub(crate) struct Evaluation {
    live: Live,
}

impl Model for Evaluation {
    ghost use Rattle.std.specs.Prelude.{List};
    ghost use Rattle.std.specs.Coded.{coded_list};
    ghost use Rattle.visit_rules.specs.Views.{visit_code};
    ghost use Rattle.visit_rules.specs.declared.visit.Visit.{Visit};

    ghost Value = { List Visit };

    ghost coded = { coded_list visit_code };

    ghost view = { λ e. e.live.trees };
}

impl Evaluation {
    /// Evaluates all nodes.
    pub(crate) fn open<E: Entries, L: Ledger>(
        alloc: Global,
        program: &Program,
        inputs: &[Value],
        entries: &E,
        steps: &mut Steps<L>,
    ) -> Result<Evaluation, NoMemory>
        requires { IsWithinLimits program.now }
        ensures trees { IfOk result (λ e. e ≡ traces program.now inputs.now (E.world entries.now)) }
        ensures ticks { let run = fresh program.now inputs.now (E.world entries.now) in
            OnOk result (steps.new ≡ steps.old + run.ticks) }
        ensures not_fallen { steps.old ≤ steps.new }
    {
        let live = Live::open(alloc, program, inputs, entries, steps)?;
        Ok(Evaluation { live })
    }

    /// Evaluates again what the changes make dirty, for a plan.
    pub(crate) fn plan<E: Entries, L: Ledger>(
        &mut self,
        program: &Program,
        changes: &Changes,
        inputs: &[Value],
        entries: &E,
        steps: &mut Steps<L>,
    ) -> Result<EvalPlan, NoMemory>
        requires limits { IsWithinLimits program.now }
        requires covered { CoversChanges program.now self.old changes.now
            inputs.now (E.world entries.now) }
        ensures trees { let world = E.world entries.now in
            IfOk result (λ p. p.trees ≡ traces program.now inputs.now world) }
        ensures over { IfOk result (IsPlannedOver self.old) }
        ensures ticks { let world = E.world entries.now in
            let dirty = all_dirty program.now self.old inputs.now world in
            OnOk result (steps.new ≡ steps.old + dirty) }
        ensures kept { self.new ≡ self.old }
        ensures not_fallen { steps.old ≤ steps.new }
    {
        self.live.plan(program, changes, inputs, entries, steps)
    }

    /// Takes over a plan. Takes no memory.
    pub(crate) fn install(&mut self, plan: EvalPlan)
        requires { IsPlannedOver self.old plan }
        ensures { self.new ≡ plan.trees }
    {
        self.live.install(plan);
    }

    /// Gives a plan up. Takes no memory.
    pub(crate) fn abandon(&mut self, plan: EvalPlan)
        requires { IsPlannedOver self.old plan }
        ensures { self.new ≡ self.old }
    {
        self.live.abandon(plan);
    }

    /// The state of a node. Takes no memory.
    pub(crate) fn state_of(&self, node: u32) -> &State
        requires { node < length self.now }
        ensures { slice_get (states self.now) node ≡ Some result.now }
    {
        self.live.state_of(node)
    }

    /// How often a triple is wanted. Takes no memory.
    pub(crate) fn refs_of(&self, triple: &Triple) -> u64
        ensures { result ≡ count_of (all_wants self.now) triple.now }
    {
        self.live.refs_of(triple)
    }

    /// The wanted triples in order, each with how often it is wanted.
    pub(crate) fn wanted(&self) -> Result<ListOf<(Triple, u64)>, NoMemory>
        ensures { IfOk result (λ wants. wants ≡ counted (all_wants self.now)) }
    {
        self.live.wanted()
    }

    /// The nodes in file order, of which there are so many, each with its state.
    pub(crate) fn all_states(
        &self,
        alloc: Global,
        nodes: usize,
    ) -> Result<ListOf<(u32, State)>, NoMemory>
        requires nodes { nodes ≡ length self.now }
        requires few { nodes < 2 ^ 32 }
        ensures { IfOk result (λ all. all ≡ changed_from 0 [] (states self.now)) }
    {
        let mut all = ListOf::new(alloc);
        for node in 0..nodes {
            let node = node as u32;
            all.push((node, self.live.state_of(node).copy(alloc)?))?;
        }
        Ok(all)
    }
}
