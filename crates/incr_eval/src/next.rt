//! The tree that comes of the one that there was.
ghost use Rattle.std.specs.Prelude.{◌≡◌, ◌<◌, length, Some, None, get_or, slice_get, IfOk};
ghost use Rattle.visit_rules.specs.Again.{old_bodies, old_parts};
ghost use Rattle.visit_rules.specs.Visits.{bodies_of, parts_of, visits_of};
ghost use Rattle.incr_eval.specs.PatchedTrees.{patched, visit_of, visit_or_none};

use crate::old::Old;
use crate::patch::{Patch, patch_at};
use crate::renew::{bodies_before, body_before, part_before, parts_before};
use std::alloc::Global;
use std::marker::Model;
use value_core::{ListOf, NoMemory, State, Value};
use visit_rules::{Instance, Read};

/// What a patch has of a visit that was made anew.
#[derive(Clone, Copy)]
struct Grown<'a> {
    instance: &'a Instance,
    parts: &'a [Patch],
    from: &'a [Option<usize>],
    bodies: &'a [Patch],
}

/// What a patch makes of the tree that there was.
#[derive(Drop)]
pub(crate) struct Next<'a> {
    /// Nothing if the tree stays.
    grown: Option<Grown<'a>>,
    old: Option<Old<'a>>,
}

impl<'a> Model for Next<'a> {
    ghost use Rattle.visit_rules.specs.Views.{visit_code};
    ghost use Rattle.visit_rules.specs.declared.visit.Visit.{Visit};
    ghost use Rattle.incr_eval.specs.Growing.{next_visit};

    ghost Value = { Visit };

    ghost coded = { visit_code };

    ghost view = { λ n. next_visit n.grown n.old };
}

impl<'a> Next<'a> {
    /// What a patch makes of a tree, if there was one.
    pub(crate) fn new(patch: &'a Patch, old: Option<Old<'a>>) -> Next<'a>
        ensures { result ≡ patched patch.now old.entry }
    {
        match patch {
            Patch::Kept => Next::kept(old),
            Patch::Grown {
                instance,
                parts,
                from,
                bodies,
            } => {
                let grown = Some(Grown {
                    instance,
                    parts: parts.as_slice(),
                    from: from.as_slice(),
                    bodies: bodies.as_slice(),
                });
                Next { grown, old }
            }
        }
    }

    /// A tree that stays.
    fn kept(old: Option<Old<'a>>) -> Next<'a>
        ensures { result ≡ visit_or_none old.entry }
    {
        Next { grown: None, old }
    }

    /// What the visit keeps.
    pub(crate) fn instance(&self, alloc: Global) -> Result<Instance, NoMemory>
        ensures { IfOk result (λ i.
            visit_of i (parts_of self.now) (bodies_of self.now) ≡ self.now) }
    {
        match &self.grown {
            Some(grown) => grown.instance.copy(alloc),
            None => instance_before(alloc, &self.old),
        }
    }

    /// How many parts it has.
    pub(crate) fn part_count(&self) -> usize
        ensures { result ≡ length (parts_of self.now) }
    {
        match &self.grown {
            Some(grown) => grown.parts.len(),
            None => parts_before(&self.old),
        }
    }

    /// How many bodies it has.
    pub(crate) fn body_count(&self) -> usize
        ensures { result ≡ length (bodies_of self.now) }
    {
        match &self.grown {
            Some(grown) => grown.bodies.len(),
            None => bodies_before(&self.old),
        }
    }

    /// The tree of a part.
    pub(crate) fn part(&self, i: usize) -> Next<'a>
        requires { i < length (parts_of self.now) }
        ensures part { slice_get (parts_of self.now) i ≡ Some result }
        ensures smaller { visits_of result < visits_of self.now }
    {
        let old = part_before(&self.old, i);
        match &self.grown {
            Some(grown) => Next::new(patch_at(grown.parts, i), old),
            None => Next::kept(old),
        }
    }

    /// The tree of a body.
    pub(crate) fn body(&self, i: usize) -> Next<'a>
        requires { i < length (bodies_of self.now) }
        ensures body { slice_get (bodies_of self.now) i ≡ Some result }
        ensures smaller { visits_of result < visits_of self.now }
    {
        match &self.grown {
            Some(grown) => {
                let old = body_before(&self.old, origin_of(grown.from, i));
                Next::new(patch_at(grown.bodies, i), old)
            }
            None => Next::kept(body_before(&self.old, Some(i))),
        }
    }
}

/// The number of the body from which one comes, if it comes from one.
fn origin_of(from: &[Option<usize>], i: usize) -> Option<usize>
    ensures { result ≡ get_or from.now i None }
{
    if i < from.len() { from[i] } else { None }
}

/// What a visit kept; without one, what a visit has that read nothing.
fn instance_before(alloc: Global, old: &Option<Old<'_>>) -> Result<Instance, NoMemory>
    ensures { IfOk result (λ i.
        visit_of i (old_parts old.now) (old_bodies old.now) ≡ visit_or_none old.now) }
{
    match old {
        Some(old) => old.copy_instance(alloc),
        None => Ok(Instance {
            state: State::Fine(Value::Unit),
            read: Read::Nothing,
            items: ListOf::new(alloc),
        }),
    }
}
