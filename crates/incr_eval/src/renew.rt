//! A term visited again, over the tree that there was.
ghost use Rattle.std.specs.Prelude.{◌≡◌, ◌+◌, ◌<◌, ◌≤◌, length, slice_get};
ghost use Rattle.std.specs.Prelude.{IfOk, OnOk, [], Some, None};
ghost use Rattle.term_core.specs.declared.program.Term.{out-Term};
ghost use Rattle.term_core.specs.Views.{context_in};
ghost use Rattle.visit_rules.specs.Again.{again_by, old_bodies, old_items, old_parts};
ghost use Rattle.visit_rules.specs.KnownChanges.{known_in};
ghost use Rattle.visit_rules.specs.Tables.{IsSmall, state_by};
ghost use Rattle.incr_eval.specs.PatchedTrees.{body_at};
ghost use Rattle.incr_eval.specs.Renewals.{Renews, RenewsBodies, RenewsParts};
ghost use Rattle.incr_eval.specs.Renewals.{binding, bodies_in, items_in, parts_in, term_in, visit_in};

use crate::dirty::is_dirty;
use crate::old::Old;
use crate::patch::Patch;
use sqlite_items::Boxed;
use std::alloc::Global;
use std::sync::ledger::Ledger;
use term_core::{Binding, Entries, Term};
use value_core::{ListOf, NoMemory, State, Steps, Text, Value};
use visit_rules::{
    Below, Instance, Read, Setting, Visitor, find_unused, items_for, none_used, part_count,
    part_of, reading, take_body,
};

/// Renews the term of one node.
#[derive(Drop)]
pub(crate) struct Renewal<'a, E> {
    pub(crate) alloc: Global,
    pub(crate) setting: Setting<'a, E>,
    /// The bound values, the innermost last.
    pub(crate) bound: ListOf<Binding>,
}

/// What becomes of a tree, and the new state of its term.
#[derive(Drop)]
pub(crate) struct Renewed {
    pub(crate) patch: Patch,
    pub(crate) state: State,
}

/// The same of several trees.
#[derive(Drop)]
struct RenewedParts {
    patches: ListOf<Patch>,
    states: ListOf<State>,
}

/// The same of bodies, each with the place of the one from which it comes.
#[derive(Drop)]
struct RenewedBodies {
    from: ListOf<Option<usize>>,
    patches: ListOf<Patch>,
    states: ListOf<State>,
}

/// A term that is visited under a value of this name.
#[derive(Clone, Copy)]
struct Body<'a> {
    name: &'a Text,
    term: &'a Term,
}

impl<'a> Body<'a> {
    fn new(name: &'a Text, body: &'a Boxed<Term>) -> Body<'a>
        ensures name { result.name.now ≡ name.now }
        ensures term { result.term.now ≡ body.now }
    {
        Body {
            name,
            term: body.get(),
        }
    }
}

/// The tree of a part that there was.
pub(crate) fn part_before<'a>(old: &Option<Old<'a>>, i: usize) -> Option<Old<'a>>
    ensures { result ≡ slice_get (old_parts old.now) i }
{
    match old {
        Some(old) => {
            if i < old.part_count() {
                Some(old.part(i))
            } else {
                None
            }
        }
        None => None,
    }
}

/// The items that the bodies were for.
fn items_before<'a>(old: &Option<Old<'a>>) -> &'a [Value]
    ensures { result.now ≡ old_items old.now }
{
    match old {
        Some(old) => old.items(),
        None => &[],
    }
}

/// How many parts there were.
pub(crate) fn parts_before(old: &Option<Old<'_>>) -> usize
    ensures { result ≡ length (old_parts old.now) }
{
    match old {
        Some(old) => old.part_count(),
        None => 0,
    }
}

/// How many bodies there were.
pub(crate) fn bodies_before(old: &Option<Old<'_>>) -> usize
    ensures { result ≡ length (old_bodies old.now) }
{
    match old {
        Some(old) => old.body_count(),
        None => 0,
    }
}

/// The tree of a body that there was.
pub(crate) fn body_before<'a>(old: &Option<Old<'a>>, from: Option<usize>) -> Option<Old<'a>>
    ensures { result ≡ body_at (old_bodies old.now) from }
{
    match old {
        Some(old) => match from {
            Some(i) => {
                if i < old.body_count() {
                    Some(old.body(i))
                } else {
                    None
                }
            }
            None => None,
        },
        None => None,
    }
}

impl<'a, E> Renewal<'a, E> {
    /// The state of a term, by those of its parts and bodies.
    fn state<L: Ledger>(
        &self,
        term: &Term,
        read: &Read,
        below: Below,
        steps: &mut Steps<L>,
    ) -> Result<State, NoMemory>
        ensures state { IfOk result (λ s. s ≡ state_by self.now.setting.context.node
            (out-Term term.now) self.now.bound read.now below.parts below.bodies) }
        ensures tick { OnOk result (steps.new ≡ steps.old + 1) }
        ensures not_fallen { steps.old ≤ steps.new }
    {
        let visitor = Visitor {
            alloc: self.alloc,
            node: self.setting.context.node,
            bound: self.bound.as_slice(),
        };
        visitor.state(term, read, below, steps)
    }
}

impl<'a, E: Entries> Renewal<'a, E> {
    /// What becomes of the tree of a term. What is known to differ is visited again.
    #[cycle(renewing)]
    fn term<L: Ledger>(
        &mut self,
        term: &Term,
        old: &Option<Old<'_>>,
        steps: &mut Steps<L>,
    ) -> Result<Renewed, NoMemory>
        requires { IsSmall self.old.setting.context.program.now }
        ensures run { IfOk result (Renews (term_in E.world self.old term.now old.now)
            old.now steps.old steps.new) }
        ensures same { OnOk result (self.new ≡ self.old) }
        ensures not_fallen { steps.old ≤ steps.new }
    {
        match old {
            Some(tree) => {
                if is_dirty(tree, &self.setting) {
                    self.visit(term, old, steps)
                } else {
                    let patch = Patch::Kept;
                    let state = tree.state().copy(self.alloc)?;
                    Ok(Renewed { patch, state })
                }
            }
            None => self.visit(term, old, steps),
        }
    }

    /// A visit of the term, its parts and bodies over those that there were.
    #[cycle(renewing)]
    fn visit<L: Ledger>(
        &mut self,
        term: &Term,
        old: &Option<Old<'_>>,
        steps: &mut Steps<L>,
    ) -> Result<Renewed, NoMemory>
        requires { IsSmall self.old.setting.context.program.now }
        ensures run { IfOk result (Renews (visit_in E.world self.old term.now old.now)
            old.now steps.old steps.new) }
        ensures same { OnOk result (self.new ≡ self.old) }
        ensures not_fallen { steps.old ≤ steps.new }
    {
        let alloc = self.alloc;
        let parts = self.parts(term, old, steps)?;
        let RenewedParts {
            patches: parts,
            states: part_states,
        } = parts;
        let read = reading(alloc, term, &self.setting, part_states.as_slice())?;
        let items = items_for(alloc, term, part_states.as_slice())?;
        let bodies = self.bodies(term, items.as_slice(), old, steps)?;
        let RenewedBodies {
            from,
            patches: bodies,
            states: body_states,
        } = bodies;
        let below = Below {
            parts: part_states,
            bodies: body_states,
        };
        let state = self.state(term, &read, below, steps)?;
        let instance = Instance {
            state: state.copy(alloc)?,
            read,
            items,
        };
        let patch = Patch::Grown {
            instance,
            parts,
            from,
            bodies,
        };
        Ok(Renewed { patch, state })
    }

    /// The parts, each over the one at its place.
    #[cycle(renewing)]
    fn parts<L: Ledger>(
        &mut self,
        term: &Term,
        old: &Option<Old<'_>>,
        steps: &mut Steps<L>,
    ) -> Result<RenewedParts, NoMemory>
        requires { IsSmall self.old.setting.context.program.now }
        ensures run { IfOk result (RenewsParts (parts_in E.world self.old term.now old.now)
            old.now steps.old steps.new) }
        ensures same { OnOk result (self.new ≡ self.old) }
        ensures not_fallen { steps.old ≤ steps.new }
    {
        let mut patches = ListOf::new(self.alloc);
        let mut states = ListOf::new(self.alloc);
        for i in 0..part_count(term) {
            let part = part_of(term, i);
            let before = part_before(old, i);
            let renewed = self.term(part, &before, steps)?;
            let Renewed { patch, state } = renewed;
            patches.push(patch)?;
            states.push(state)?;
        }
        Ok(RenewedParts { patches, states })
    }

    /// A body for each item, if the term has a body, over those that there were.
    #[cycle(renewing)]
    fn bodies<L: Ledger>(
        &mut self,
        term: &Term,
        items: &[Value],
        old: &Option<Old<'_>>,
        steps: &mut Steps<L>,
    ) -> Result<RenewedBodies, NoMemory>
        requires { IsSmall self.old.setting.context.program.now }
        ensures run { IfOk result (RenewsBodies
            (bodies_in E.world self.old term.now items.now old.now)
            old.now steps.old steps.new) }
        ensures same { OnOk result (self.new ≡ self.old) }
        ensures not_fallen { steps.old ≤ steps.new }
    {
        match term {
            Term::Bind { name, body, .. } => {
                self.items(Body::new(name, body), items, old, steps)
            }
            Term::ListMap { name, body, .. } => {
                self.items(Body::new(name, body), items, old, steps)
            }
            Term::ListIter { name, body, .. } => {
                self.items(Body::new(name, body), items, old, steps)
            }
            _ => Ok(RenewedBodies {
                from: ListOf::new(self.alloc),
                patches: ListOf::new(self.alloc),
                states: ListOf::new(self.alloc),
            }),
        }
    }

    /// A body for each item, over the first unused one of an equal item.
    #[cycle(renewing)]
    fn items<L: Ledger>(
        &mut self,
        body: Body<'_>,
        items: &[Value],
        old: &Option<Old<'_>>,
        steps: &mut Steps<L>,
    ) -> Result<RenewedBodies, NoMemory>
        requires { IsSmall self.old.setting.context.program.now }
        ensures run { IfOk result (RenewsBodies
            (items_in E.world self.old body.entry.term.now body.entry.name.now items.now old.now)
            old.now steps.old steps.new) }
        ensures same { OnOk result (self.new ≡ self.old) }
        ensures not_fallen { steps.old ≤ steps.new }
    {
        let alloc = self.alloc;
        let old_items = items_before(old);
        let mut used = none_used(alloc, old_items.len().min(bodies_before(old)))?;
        let mut from = ListOf::new(alloc);
        let mut patches = ListOf::new(alloc);
        let mut states = ListOf::new(alloc);
        for item in items {
            let place = find_unused(used.as_slice(), old_items, item);
            let origin = take_body(&mut used, place);
            let before = body_before(old, origin);
            let value = item.copy(alloc)?;
            let renewed = self.under(body, value, &before, steps)?;
            let Renewed { patch, state } = renewed;
            from.push(origin)?;
            patches.push(patch)?;
            states.push(state)?;
        }
        Ok(RenewedBodies {
            from,
            patches,
            states,
        })
    }

    /// A body, under one more bound value.
    #[cycle(renewing)]
    fn under<L: Ledger>(
        &mut self,
        body: Body<'_>,
        value: Value,
        old: &Option<Old<'_>>,
        steps: &mut Steps<L>,
    ) -> Result<Renewed, NoMemory>
        requires { IsSmall self.old.setting.context.program.now }
        ensures run { IfOk result (Renews
            (term_in E.world (binding self.old body.entry.name.now value) body.entry.term.now old.now)
            old.now steps.old steps.new) }
        ensures same { OnOk result (self.new ≡ self.old) }
        ensures not_fallen { steps.old ≤ steps.new }
    {
        let name = body.name.copy(self.alloc)?;
        self.bound.push(Binding { name, value })?;
        let renewed = self.term(body.term, old, steps)?;
        self.bound.pop();
        Ok(renewed)
    }
}

/// What becomes of the tree of a node's term, which has no bound values.
pub(crate) fn renew<E: Entries, L: Ledger>(
    alloc: Global,
    setting: Setting<'_, E>,
    term: &Term,
    old: &Option<Old<'_>>,
    steps: &mut Steps<L>,
) -> Result<Renewed, NoMemory>
    requires { IsSmall setting.context.program.now }
    ensures run { IfOk result (Renews
        (again_by (known_in setting.entry) (context_in E.world setting.entry.context) term.now old.now [])
        old.now steps.old steps.new) }
    ensures not_fallen { steps.old ≤ steps.new }
{
    let bound = ListOf::new(alloc);
    let mut renewal = Renewal {
        alloc,
        setting,
        bound,
    };
    renewal.term(term, old, steps)
}
