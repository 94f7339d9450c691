//! The states of all nodes, kept under changes.
ghost use Rattle.std.specs.Prelude.{◌≡◌, ◌+◌, ◌<◌, ◌≤◌, false, true, length, slice_get};
ghost use Rattle.std.specs.Prelude.{IfOk, OnErr, OnOk, Some};
ghost use Rattle.std.specs.FinMap.{len};
ghost use Rattle.term_core.specs.Counts.{count_of};
ghost use Rattle.term_core.specs.Fresh.{fresh};
ghost use Rattle.visit_rules.specs.Differences.{CoversChanges};
ghost use Rattle.visit_rules.specs.Tables.{IsSmall};
ghost use Rattle.visit_rules.specs.Traces.{MatchesFresh, all_dirty, traces};
ghost use Rattle.visit_rules.specs.Visits.{all_visits, all_wants, states, tally};
ghost use Rattle.incr_eval.specs.Plans.{IsPlanOf};

use crate::forest::Forest;
use crate::gathering::wants_in;
use crate::nodes::{plant_all, renew_all};
use scope_pool::Pool;
use std::alloc::Global;
use std::marker::Model;
use std::sync::ledger::Ledger;
use term_core::{Entries, Program};
use value_core::{ListOf, NoMemory, State, Steps, Triple, Value};
use visit_rules::{Changes, Instance, Pass, changed_nodes, counted, look_at, tallied};

/// All nodes, evaluated and kept so.
#[derive(Drop)]
pub struct Live {
    alloc: Global,
    forest: Forest,
    /// What the trees want, in order of evaluation.
    wants: ListOf<Triple>,
    /// Whether a plan was made that was neither installed nor abandoned.
    waits: bool,
}

impl Model for Live {
    ghost use Rattle.incr_eval.specs.Plans.{LiveView, live_code};

    ghost Value = { LiveView };

    ghost coded = { live_code };

    ghost use Rattle.std.specs.Prelude.{◌≡◌};
    ghost use Rattle.visit_rules.specs.Visits.{all_wants};

    ghost view = { λ l. record { trees = l.forest; waits = l.waits } };

    ghost invariant = { λ l. l.wants ≡ all_wants l.forest };
}

/// What a new world makes of the trees. It is installed or abandoned.
#[derive(Drop)]
pub struct EvalPlan {
    alloc: Global,
    forest: Forest,
    wants: ListOf<Triple>,
    changed: ListOf<(u32, State)>,
}

impl Model for EvalPlan {
    ghost use Rattle.incr_eval.specs.Plans.{PlanView, plan_code};

    ghost Value = { PlanView };

    ghost coded = { plan_code };

    ghost use Rattle.std.specs.Prelude.{◌≡◌};
    ghost use Rattle.visit_rules.specs.Visits.{all_wants};

    ghost view = { λ p. record { trees = p.forest; changed = p.changed } };

    ghost invariant = { λ p. p.wants ≡ all_wants p.forest };
}

impl Live {
    /// Evaluates all nodes over a value for each input.
    pub fn open<E: Entries, L: Ledger>(
        alloc: Global,
        program: &Program,
        inputs: &[Value],
        entries: &E,
        steps: &mut Steps<L>,
    ) -> Result<Live, NoMemory>
        requires small { IsSmall program.now }
        ensures trees { IfOk result (λ l. l.trees ≡
            traces program.now inputs.now (E.world entries.now)) }
        ensures waits { IfOk result (λ l. l.waits ≡ false) }
        ensures fresh { IfOk result (λ l. MatchesFresh l.trees
            (fresh program.now inputs.now (E.world entries.now))) }
        ensures ticks { OnOk result (steps.new ≡ steps.old +
            (fresh program.now inputs.now (E.world entries.now)).ticks) }
        ensures not_fallen { steps.old ≤ steps.new }
    {
        let nothing = Forest::new(alloc);
        let pass = Pass {
            program,
            inputs,
            entries,
            named: &[],
            looked: &[],
        };
        let nodes = renew_all(alloc, &nothing, &pass, steps)?;
        let forest = plant_all(alloc, &nodes, &nothing)?;
        let wants = wants_in(alloc, &forest)?;
        Ok(Live {
            alloc,
            forest,
            wants,
            waits: false,
        })
    }

    /// Evaluates again what the changes make dirty. No tree that is seen changes; out of
    /// memory, nothing does.
    ///
    /// The changes name each input whose value is another than at the last opening or install,
    /// and each wanted triple whose entry is. They may name others.
    pub fn plan<E: Entries, L: Ledger>(
        &mut self,
        program: &Program,
        changes: &Changes,
        inputs: &[Value],
        entries: &E,
        steps: &mut Steps<L>,
    ) -> Result<EvalPlan, NoMemory>
        requires covered { CoversChanges program.now self.old.trees changes.now
            inputs.now (E.world entries.now) }
        requires small { IsSmall program.now }
        ensures trees { IfOk result (λ p. p.trees ≡
            traces program.now inputs.now (E.world entries.now)) }
        ensures fresh { IfOk result (λ p. MatchesFresh p.trees
            (fresh program.now inputs.now (E.world entries.now))) }
        ensures ticks { OnOk result (steps.new ≡ steps.old +
            all_dirty program.now self.old.trees inputs.now (E.world entries.now)) }
        ensures made { IfOk result (λ p. IsPlanOf self.new p) }
        ensures waits { OnOk result (self.new ≡ record self.old { waits = true }) }
        ensures unchanged { OnErr result (self.new ≡ self.old) }
        ensures not_fallen { steps.old ≤ steps.new }
    {
        let alloc = self.alloc;
        let named = changes.triples.as_slice();
        let looked = look_at(alloc, named, self.wants.as_slice(), entries)?;
        let pass = Pass {
            program,
            inputs,
            entries,
            named: changes.inputs.as_slice(),
            looked: looked.as_slice(),
        };
        let nodes = renew_all(alloc, &self.forest, &pass, steps)?;
        let forest = plant_all(alloc, &nodes, &self.forest)?;
        let wants = wants_in(alloc, &forest)?;
        let changed = changed_nodes(alloc, nodes.moved.as_slice(), nodes.states.as_slice())?;
        self.waits = true;
        Ok(EvalPlan {
            alloc,
            forest,
            wants,
            changed,
        })
    }

    /// Takes over the plan last made. Takes no memory.
    pub fn install(&mut self, plan: EvalPlan)
        requires { IsPlanOf self.old plan }
        ensures { self.new ≡ record { trees = plan.trees; waits = false } }
    {
        let EvalPlan {
            alloc: _,
            forest,
            wants,
            changed: _,
        } = plan;
        self.forest = forest;
        self.wants = wants;
        self.waits = false;
    }

    /// Drops the plan last made. Takes no memory.
    pub fn abandon(&mut self, plan: EvalPlan)
        requires { IsPlanOf self.old plan }
        ensures { self.new ≡ record self.old { waits = false } }
    {
        let _ = plan;
        self.waits = false;
    }

    /// The state of a node.
    pub fn state_of(&self, node: u32) -> &State
        requires { node < length self.now.trees }
        ensures { slice_get (states self.now.trees) node ≡ Some result.now }
    {
        self.forest.at(node as usize).state()
    }

    /// How many times a triple is wanted.
    pub fn refs_of(&self, triple: &Triple) -> u64
        ensures { result ≡ count_of (all_wants self.now.trees) triple.now }
    {
        counted(self.wants.as_slice(), triple)
    }

    /// The triples that are wanted, in order, each with how often it is wanted.
    pub fn wanted(&self) -> Result<ListOf<(Triple, u64)>, NoMemory>
        ensures { IfOk result (λ ts. ts ≡ tally (all_wants self.now.trees)) }
    {
        tallied(self.alloc, self.wants.as_slice())
    }

    /// How many terms are kept evaluated.
    pub fn instances(&self) -> usize
        ensures { result ≡ all_visits self.now.trees }
    {
        self.forest.visits()
    }

    /// The pool of the instances.
    pub fn pool(&self) -> &Pool<Instance>
        ensures { self.now.waits ≡ false → len result.now.items ≡ all_visits self.now.trees }
    {
        self.forest.pool()
    }
}

impl EvalPlan {
    /// The nodes whose state `install` will change, in file order, each with its new state.
    pub fn changed(&self) -> Result<ListOf<(u32, State)>, NoMemory>
        ensures { IfOk result (λ ns. ns ≡ self.now.changed) }
    {
        let mut copies = ListOf::new(self.alloc);
        for one in self.changed.as_slice() {
            let state = one.1.copy(self.alloc)?;
            copies.push((one.0, state))?;
        }
        Ok(copies)
    }

    /// What `Live::wanted` returns after `install`.
    pub fn wanted(&self) -> Result<ListOf<(Triple, u64)>, NoMemory>
        ensures { IfOk result (λ ts. ts ≡ tally (all_wants self.now.trees)) }
    {
        tallied(self.alloc, self.wants.as_slice())
    }
}
