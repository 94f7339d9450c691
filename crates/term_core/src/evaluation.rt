//! The states of terms, evaluated afresh: a method for each kind of term that has parts.
ghost use Rattle.std.specs.Prelude.{◌≡◌, ◌+◌, ◌^◌, ◌<◌, ◌≤◌, if◌then◌else◌, length, map, IfOk};
ghost use Rattle.term_core.specs.Evaluation.{all_run, bind, bind_run, build_run, eval, gate_run, items_run, list_run, map_run, outcome_run, output_run, pair_run};
ghost use Rattle.term_core.specs.Evaluators.{Runs, within};
ghost use Rattle.term_core.specs.Gathering.{made_by};
ghost use Rattle.term_core.specs.States.{caught, observed};

use crate::context::{Binding, Context};
use crate::entries::Entries;
use crate::gathering::{Collected, StateFold};
use crate::program::Term;
use crate::reading::{items_of, value_of};
use crate::states::{caught_state, gated_state, observed_state, pair_state, state_of_applied};
use sqlite_items::Boxed;
use std::alloc::Global;
use std::sync::ledger::Ledger;
use value_core::{Fun, ListOf, NoMemory, State, Steps, Text, Triple, Value, apply_fn};

/// Evaluates the term of a node.
#[derive(Drop)]
pub(crate) struct Evaluator<'a, E> {
    pub(crate) alloc: Global,
    pub(crate) context: Context<'a, E>,
    /// The bound values, the innermost last.
    pub(crate) bound: ListOf<Binding>,
    /// What was wanted so far, in order with repeats.
    pub(crate) wants: ListOf<Triple>,
}

/// A term that is evaluated under a value of this name.
#[derive(Clone, Copy)]
struct Body<'a> {
    name: &'a Text,
    term: &'a Term,
}

impl<'a> Body<'a> {
    fn new(name: &'a Text, body: &'a Boxed<Term>) -> Body<'a>
        ensures name { result.name.now ≡ name.now }
        ensures term { result.term.now ≡ body.now }
    {
        Body {
            name,
            term: body.get(),
        }
    }
}

impl<'a, E: Entries> Evaluator<'a, E> {
    /// The state of a term.
    #[cycle(evaluation)]
    pub(crate) fn term<L: Ledger>(
        &mut self,
        term: &Term,
        steps: &mut Steps<L>,
    ) -> Result<State, NoMemory>
        requires { length self.old.context.program.now.ops < 2 ^ 32 }
        ensures run { IfOk result (Runs (within E.world self.old (λ c. eval c term.now))
            self.old self.new steps.old steps.new) }
        ensures not_fallen { steps.old ≤ steps.new }
    {
        match term {
            Term::Return(value) => {
                steps.tick();
                Ok(State::Fine(value.copy(self.alloc)?))
            }
            Term::Fail { kind: _, message } => {
                steps.tick();
                let message = message.copy(self.alloc)?;
                Ok(State::Failed {
                    origin: self.context.node,
                    message,
                })
            }
            Term::Input(name) => {
                steps.tick();
                Ok(State::Fine(self.context.input(self.alloc, name)?))
            }
            Term::Node(name) => {
                steps.tick();
                self.context.state_of(self.alloc, name)
            }
            Term::Var(name) => {
                steps.tick();
                Ok(State::Fine(value_of(self.alloc, self.bound.as_slice(), name)?))
            }
            Term::Map { fun, term } => self.map(*fun, term.get(), steps),
            Term::Pair(a, b) => self.pair(a.get(), b.get(), steps),
            Term::Bind { name, left, body } => self.bind(left.get(), Body::new(name, body), steps),
            Term::ListMap { name, list, body } => {
                self.list(Collected::List, list.get(), Body::new(name, body), steps)
            }
            Term::ListIter { name, list, body } => {
                self.list(Collected::Unit, list.get(), Body::new(name, body), steps)
            }
            Term::Catch(term) => self.outcome(false, term.get(), steps),
            Term::State(term) => self.outcome(true, term.get(), steps),
            Term::Gate(on, term) => self.gate(on.get(), term.get(), steps),
            Term::All(terms) => self.all(terms.as_slice(), steps),
            Term::Build { op, key } => self.build(op, key.get(), steps),
            Term::Output { op, key, value } => self.output(op, key.get(), value.get(), steps),
        }
    }

    /// A function of the value of a term. Applying it is the visit, if there is a value.
    #[cycle(evaluation)]
    fn map<L: Ledger>(
        &mut self,
        fun: Fun,
        term: &Term,
        steps: &mut Steps<L>,
    ) -> Result<State, NoMemory>
        requires { length self.old.context.program.now.ops < 2 ^ 32 }
        ensures run { IfOk result (Runs
            (within E.world self.old (λ c. map_run c fun (eval c term.now)))
            self.old self.new steps.old steps.new) }
        ensures not_fallen { steps.old ≤ steps.new }
    {
        let node = self.context.node;
        match self.term(term, steps)? {
            State::Fine(value) => {
                let applied = apply_fn(self.alloc, fun, &value, steps)?;
                Ok(state_of_applied(node, applied))
            }
            State::Failed { origin, message } => {
                steps.tick();
                Ok(State::Failed { origin, message })
            }
            State::Active { origin, stage } => {
                steps.tick();
                Ok(State::Active { origin, stage })
            }
        }
    }

    /// The state of a term as an outcome; of an active one only if it is observed.
    #[cycle(evaluation)]
    fn outcome<L: Ledger>(
        &mut self,
        observes: bool,
        term: &Term,
        steps: &mut Steps<L>,
    ) -> Result<State, NoMemory>
        requires { length self.old.context.program.now.ops < 2 ^ 32 }
        ensures run { IfOk result (Runs
            (within E.world self.old (λ c.
            outcome_run (if observes then observed else caught) (eval c term.now)))
            self.old self.new steps.old steps.new) }
        ensures not_fallen { steps.old ≤ steps.new }
    {
        steps.tick();
        let state = self.term(term, steps)?;
        if observes {
            observed_state(self.alloc, state)
        } else {
            caught_state(self.alloc, state)
        }
    }

    /// Both terms, as a pair.
    #[cycle(evaluation)]
    fn pair<L: Ledger>(
        &mut self,
        a: &Term,
        b: &Term,
        steps: &mut Steps<L>,
    ) -> Result<State, NoMemory>
        requires { length self.old.context.program.now.ops < 2 ^ 32 }
        ensures run { IfOk result (Runs
            (within E.world self.old (λ c. pair_run c (eval c a.now) (eval c b.now)))
            self.old self.new steps.old steps.new) }
        ensures not_fallen { steps.old ≤ steps.new }
    {
        let node = self.context.node;
        steps.tick();
        let first = self.term(a, steps)?;
        let second = self.term(b, steps)?;
        pair_state(self.alloc, node, first, second)
    }

    /// The second term, if the first is fine; both are evaluated.
    #[cycle(evaluation)]
    fn gate<L: Ledger>(
        &mut self,
        on: &Term,
        term: &Term,
        steps: &mut Steps<L>,
    ) -> Result<State, NoMemory>
        requires { length self.old.context.program.now.ops < 2 ^ 32 }
        ensures run { IfOk result (Runs
            (within E.world self.old (λ c. gate_run (eval c on.now) (eval c term.now)))
            self.old self.new steps.old steps.new) }
        ensures not_fallen { steps.old ≤ steps.new }
    {
        steps.tick();
        let on = self.term(on, steps)?;
        let state = self.term(term, steps)?;
        Ok(gated_state(on, state))
    }

    /// The body, under the value of the left term.
    #[cycle(evaluation)]
    fn bind<L: Ledger>(
        &mut self,
        left: &Term,
        body: Body<'_>,
        steps: &mut Steps<L>,
    ) -> Result<State, NoMemory>
        requires { length self.old.context.program.now.ops < 2 ^ 32 }
        ensures run { IfOk result (Runs
            (within E.world self.old (λ c.
            bind_run body.entry.name.now (eval c left.now) (eval c body.entry.term.now)))
            self.old self.new steps.old steps.new) }
        ensures not_fallen { steps.old ≤ steps.new }
    {
        steps.tick();
        match self.term(left, steps)? {
            State::Fine(value) => self.under(value, body, steps),
            State::Failed { origin, message } => Ok(State::Failed { origin, message }),
            State::Active { origin, stage } => Ok(State::Active { origin, stage }),
        }
    }

    /// The body, under one more bound value.
    #[cycle(evaluation)]
    fn under<L: Ledger>(
        &mut self,
        value: Value,
        body: Body<'_>,
        steps: &mut Steps<L>,
    ) -> Result<State, NoMemory>
        requires { length self.old.context.program.now.ops < 2 ^ 32 }
        ensures run { IfOk result (Runs
            (within E.world self.old (λ c bound.
            eval c body.entry.term.now (bind bound body.entry.name.now value)))
            self.old self.new steps.old steps.new) }
        ensures not_fallen { steps.old ≤ steps.new }
    {
        let name = body.name.copy(self.alloc)?;
        self.bound.push(Binding { name, value })?;
        let state = self.term(body.term, steps)?;
        self.bound.pop();
        Ok(state)
    }

    /// The body, under each item of a list term.
    #[cycle(evaluation)]
    fn list<L: Ledger>(
        &mut self,
        collected: Collected,
        list: &Term,
        body: Body<'_>,
        steps: &mut Steps<L>,
    ) -> Result<State, NoMemory>
        requires { length self.old.context.program.now.ops < 2 ^ 32 }
        ensures run { IfOk result (Runs
            (within E.world self.old (λ c.
            list_run (made_by collected c.node) body.entry.name.now
            (eval c list.now) (eval c body.entry.term.now)))
            self.old self.new steps.old steps.new) }
        ensures not_fallen { steps.old ≤ steps.new }
    {
        steps.tick();
        match self.term(list, steps)? {
            State::Fine(value) => self.items(collected, items_of(self.alloc, value), body, steps),
            State::Failed { origin, message } => Ok(State::Failed { origin, message }),
            State::Active { origin, stage } => Ok(State::Active { origin, stage }),
        }
    }

    /// The body, under each of the items.
    #[cycle(evaluation)]
    fn items<L: Ledger>(
        &mut self,
        collected: Collected,
        items: ListOf<Value>,
        body: Body<'_>,
        steps: &mut Steps<L>,
    ) -> Result<State, NoMemory>
        requires { length self.old.context.program.now.ops < 2 ^ 32 }
        ensures run { IfOk result (Runs
            (within E.world self.old (λ c.
            items_run (made_by collected c.node) body.entry.name.now items (eval c body.entry.term.now)))
            self.old self.new steps.old steps.new) }
        ensures not_fallen { steps.old ≤ steps.new }
    {
        let node = self.context.node;
        let mut all = StateFold::new(self.alloc);
        for item in items.into_vec() {
            let state = self.under(item, body, steps)?;
            all.add(state)?;
        }
        all.finish(self.alloc, node, collected)
    }

    /// All terms, as unit.
    #[cycle(evaluation)]
    fn all<L: Ledger>(&mut self, terms: &[Term], steps: &mut Steps<L>) -> Result<State, NoMemory>
        requires { length self.old.context.program.now.ops < 2 ^ 32 }
        ensures run { IfOk result (Runs
            (within E.world self.old (λ c bound. all_run (map (λ t. eval c t bound) terms.now)))
            self.old self.new steps.old steps.new) }
        ensures not_fallen { steps.old ≤ steps.new }
    {
        let node = self.context.node;
        steps.tick();
        let mut all = StateFold::new(self.alloc);
        for part in terms {
            let state = self.term(part, steps)?;
            all.add(state)?;
        }
        all.finish(self.alloc, node, Collected::Unit)
    }

    /// The result of a build operation for a key.
    #[cycle(evaluation)]
    fn build<L: Ledger>(
        &mut self,
        op: &Text,
        key: &Term,
        steps: &mut Steps<L>,
    ) -> Result<State, NoMemory>
        requires { length self.old.context.program.now.ops < 2 ^ 32 }
        ensures run { IfOk result (Runs
            (within E.world self.old (λ c. build_run c op.now (eval c key.now)))
            self.old self.new steps.old steps.new) }
        ensures not_fallen { steps.old ≤ steps.new }
    {
        steps.tick();
        let key = self.term(key, steps)?;
        self.look_up_build(op, key)
    }

    /// Unit, if an output operation has set the key to the value.
    #[cycle(evaluation)]
    fn output<L: Ledger>(
        &mut self,
        op: &Text,
        key: &Term,
        value: &Term,
        steps: &mut Steps<L>,
    ) -> Result<State, NoMemory>
        requires { length self.old.context.program.now.ops < 2 ^ 32 }
        ensures run { IfOk result (Runs
            (within E.world self.old (λ c. output_run c op.now (eval c key.now) (eval c value.now)))
            self.old self.new steps.old steps.new) }
        ensures not_fallen { steps.old ≤ steps.new }
    {
        steps.tick();
        let key = self.term(key, steps)?;
        let value = self.term(value, steps)?;
        self.look_up_output(op, key, value)
    }
}
