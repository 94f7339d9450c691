//! The state of a visit, by what it read and by the states of its parts and bodies.
ghost use Rattle.std.specs.Prelude.{◌≡◌, ◌+◌, ◌≤◌, ◌∷◌, [], false, slice_get, IfOk, OnOk};
ghost use Rattle.std.specs.Option.{option_copied};
ghost use Rattle.value_core.specs.Parts.{items_in};
ghost use Rattle.value_core.specs.declared.value.Value.TheVariants as value;
ghost use Rattle.term_core.specs.Evaluation.{innermost, state_or_unit};
ghost use Rattle.term_core.specs.Gathering.{made_by};
ghost use Rattle.term_core.specs.States.{both, mapped};
ghost use Rattle.term_core.specs.Views.{value_for};
ghost use Rattle.term_core.specs.declared.program.Term.{out-Term};
ghost use Rattle.visit_rules.specs.Mapping.{is_map};
ghost use Rattle.visit_rules.specs.Tables.{bind_state, bound_by, build_state, first_state, items_for};
ghost use Rattle.visit_rules.specs.Tables.{list_state, listed_by, output_state, second_state};
ghost use Rattle.visit_rules.specs.Tables.{state_by, state_read};

use crate::instance::copy_values;
use crate::visit::Read;
use std::alloc::Global;
use std::sync::ledger::Ledger;
use term_core::{
    Binding, Collected, OpKind, StateFold, Term, caught_state, gated_state, observed_state,
    pair_state, state_of_applied, state_of_entry,
};
use value_core::{Fun, ListOf, NoMemory, State, Steps, Text, Value, apply_fn};

/// The states of the visits below a visit.
#[derive(Drop)]
pub struct Below {
    pub parts: ListOf<State>,
    pub bodies: ListOf<State>,
}

/// The value that was bound to the name last.
fn value_of(alloc: Global, bound: &[Binding], name: &Text) -> Result<Value, NoMemory>
    ensures { IfOk result (λ v. v ≡ innermost value.Unit bound.now name.now) }
{
    let unit = Value::Unit;
    let mut found = &unit;
    for binding in bound {
        if binding.name.is(name) {
            found = &binding.value;
        }
    }
    found.copy(alloc)
}

/// The first failed state; else the first active one; else what the values become.
fn join_states(
    alloc: Global,
    node: u32,
    collected: Collected,
    states: ListOf<State>,
) -> Result<State, NoMemory>
    ensures { IfOk result (λ s. s ≡ both states (made_by collected node)) }
{
    let mut all = StateFold::new(alloc);
    for state in states.into_vec() {
        all.add(state)?;
    }
    all.finish(alloc, node, collected)
}

/// The first state, or unit's.
fn first_of(states: ListOf<State>) -> State
    ensures { result ≡ first_state states }
{
    match states.into_vec().into_iter().next() {
        Some(state) => state,
        None => State::Fine(Value::Unit),
    }
}

/// The first and the second state, or unit's.
fn first_two(states: ListOf<State>) -> (State, State)
    ensures first { result.0 ≡ first_state states }
    ensures second { result.1 ≡ second_state states }
{
    let mut states = states.into_vec().into_iter();
    match states.next() {
        Some(first) => match states.next() {
            Some(second) => (first, second),
            None => (first, State::Fine(Value::Unit)),
        },
        None => (State::Fine(Value::Unit), State::Fine(Value::Unit)),
    }
}

/// The state of what was read.
fn state_of_read(alloc: Global, node: u32, kind: OpKind, read: &Read) -> Result<State, NoMemory>
    ensures { IfOk result (λ s. s ≡ state_read node (value_for kind) read.now) }
{
    match read {
        Read::Nothing => Ok(State::Failed {
            origin: node,
            message: Text::of(alloc, "order too long")?,
        }),
        Read::Input { place: _, value } => Ok(State::Fine(value.copy(alloc)?)),
        Read::Node { place: _, state } => state.copy(alloc),
        Read::Lookup { triple: _, entry } => Ok(state_of_entry(node, kind, entry.copy(alloc)?)),
    }
}

fn state_of_bind(left: State, bodies: ListOf<State>) -> State
    ensures { result ≡ bind_state left bodies }
{
    match left {
        State::Fine(_) => first_of(bodies),
        State::Failed { origin, message } => State::Failed { origin, message },
        State::Active { origin, stage } => State::Active { origin, stage },
    }
}

fn state_of_list(
    alloc: Global,
    node: u32,
    collected: Collected,
    list: State,
    bodies: ListOf<State>,
) -> Result<State, NoMemory>
    ensures { IfOk result (λ s. s ≡ list_state (made_by collected node) list bodies) }
{
    match list {
        State::Fine(_) => join_states(alloc, node, collected, bodies),
        State::Failed { origin, message } => Ok(State::Failed { origin, message }),
        State::Active { origin, stage } => Ok(State::Active { origin, stage }),
    }
}

fn state_of_build(alloc: Global, node: u32, key: State, read: &Read) -> Result<State, NoMemory>
    ensures { IfOk result (λ s. s ≡ build_state node key read.now) }
{
    match key {
        State::Fine(_) => state_of_read(alloc, node, OpKind::Build, read),
        State::Failed { origin, message } => Ok(State::Failed { origin, message }),
        State::Active { origin, stage } => Ok(State::Active { origin, stage }),
    }
}

fn state_of_output(
    alloc: Global,
    node: u32,
    key: State,
    value: State,
    read: &Read,
) -> Result<State, NoMemory>
    ensures { IfOk result (λ s. s ≡ output_state node key value read.now) }
{
    match key {
        State::Fine(_) => match value {
            State::Fine(_) => state_of_read(alloc, node, OpKind::Output, read),
            State::Failed { origin, message } => Ok(State::Failed { origin, message }),
            State::Active { origin, stage } => Ok(State::Active { origin, stage }),
        },
        State::Failed { origin, message } => Ok(State::Failed { origin, message }),
        State::Active { origin, stage } => match value {
            State::Failed { origin, message } => Ok(State::Failed { origin, message }),
            _ => Ok(State::Active { origin, stage }),
        },
    }
}

/// A function of the value of a term. If there is a value, applying it is the visit.
fn state_of_map<L: Ledger>(
    alloc: Global,
    node: u32,
    fun: Fun,
    state: State,
    steps: &mut Steps<L>,
) -> Result<State, NoMemory>
    ensures state { IfOk result (λ s. s ≡ mapped node fun state) }
    ensures tick { OnOk result (steps.new ≡ steps.old + 1) }
    ensures not_fallen { steps.old ≤ steps.new }
{
    match state {
        State::Fine(value) => {
            let applied = apply_fn(alloc, fun, &value, steps)?;
            Ok(state_of_applied(node, applied))
        }
        State::Failed { origin, message } => {
            steps.tick();
            Ok(State::Failed { origin, message })
        }
        State::Active { origin, stage } => {
            steps.tick();
            Ok(State::Active { origin, stage })
        }
    }
}

/// What makes the states of the visits in a node, under bound values.
#[derive(Clone, Copy)]
pub struct Visitor<'a> {
    pub alloc: Global,
    pub node: u32,
    /// The bound values, the innermost last.
    pub bound: &'a [Binding],
}

impl<'a> Visitor<'a> {
    /// The state of a term, by those of its parts and bodies.
    pub fn state<L: Ledger>(
        &self,
        term: &Term,
        read: &Read,
        below: Below,
        steps: &mut Steps<L>,
    ) -> Result<State, NoMemory>
        ensures state { IfOk result (λ s. s ≡ state_by self.now.node
            (out-Term term.now) self.now.bound.now read.now below.parts below.bodies) }
        ensures tick { OnOk result (steps.new ≡ steps.old + 1) }
        ensures not_fallen { steps.old ≤ steps.new }
    {
        match term {
            Term::Map { fun, term: _ } => {
                let state = first_of(below.parts);
                state_of_map(self.alloc, self.node, *fun, state, steps)
            }
            _ => {
                steps.tick();
                self.other_state(term, read, below)
            }
        }
    }

    /// The state of any term but the application of a function.
    fn other_state(&self, term: &Term, read: &Read, below: Below) -> Result<State, NoMemory>
        requires { is_map (out-Term term.now) ≡ false }
        ensures { IfOk result (λ s. s ≡ state_by self.now.node
            (out-Term term.now) self.now.bound.now read.now below.parts below.bodies) }
    {
        let alloc = self.alloc;
        let node = self.node;
        let Below { parts, bodies } = below;
        match term {
            Term::Return(value) => Ok(State::Fine(value.copy(alloc)?)),
            Term::Fail { message, .. } => Ok(State::Failed {
                origin: node,
                message: message.copy(alloc)?,
            }),
            Term::Input(_) => state_of_read(alloc, node, OpKind::Build, read),
            Term::Node(_) => state_of_read(alloc, node, OpKind::Build, read),
            Term::Var(name) => Ok(State::Fine(value_of(alloc, self.bound, name)?)),
            Term::Map { .. } => Ok(first_of(parts)),
            Term::Pair(_, _) => {
                let (first, second) = first_two(parts);
                pair_state(alloc, node, first, second)
            }
            Term::Bind { .. } => Ok(state_of_bind(first_of(parts), bodies)),
            Term::ListMap { .. } => {
                state_of_list(alloc, node, Collected::List, first_of(parts), bodies)
            }
            Term::ListIter { .. } => {
                state_of_list(alloc, node, Collected::Unit, first_of(parts), bodies)
            }
            Term::Catch(_) => caught_state(alloc, first_of(parts)),
            Term::State(_) => observed_state(alloc, first_of(parts)),
            Term::Gate(_, _) => {
                let (on, state) = first_two(parts);
                Ok(gated_state(on, state))
            }
            Term::All(_) => join_states(alloc, node, Collected::Unit, parts),
            Term::Build { .. } => state_of_build(alloc, node, first_of(parts), read),
            Term::Output { .. } => {
                let (key, value) = first_two(parts);
                state_of_output(alloc, node, key, value, read)
            }
        }
    }
}

/// The value of a fine state.
fn bound_by(alloc: Global, state: Option<&State>) -> Result<ListOf<Value>, NoMemory>
    ensures { IfOk result (λ vs. vs ≡ bound_by (state_or_unit (option_copied state.entry))) }
{
    let mut items = ListOf::new(alloc);
    match state {
        Some(State::Fine(value)) => items.push(value.copy(alloc)?)?,
        Some(_) => (),
        None => items.push(Value::Unit)?,
    }
    Ok(items)
}

/// The items of the list of a fine state.
fn listed_by(alloc: Global, state: Option<&State>) -> Result<ListOf<Value>, NoMemory>
    ensures { IfOk result (λ vs. vs ≡ listed_by (state_or_unit (option_copied state.entry))) }
{
    match state {
        Some(State::Fine(Value::List(items))) => copy_values(alloc, items.as_slice()),
        _ => Ok(ListOf::new(alloc)),
    }
}

/// What the body is visited for.
pub fn items_for(alloc: Global, term: &Term, parts: &[State]) -> Result<ListOf<Value>, NoMemory>
    ensures { IfOk result (λ vs. vs ≡ items_for (out-Term term.now) parts.now) }
{
    match term {
        Term::Bind { .. } => bound_by(alloc, parts.first()),
        Term::ListMap { .. } => listed_by(alloc, parts.first()),
        Term::ListIter { .. } => listed_by(alloc, parts.first()),
        _ => Ok(ListOf::new(alloc)),
    }
}
