//! What trees want.
ghost use Rattle.std.specs.Prelude.{◌≡◌, ◌++◌, IfOk, OnOk};
ghost use Rattle.std.specs.List.{flat_map};
ghost use Rattle.visit_rules.specs.Visits.{all_wants, bodies_of, parts_of, read_wants, wants_of};

use crate::forest::Forest;
use crate::old::Old;
use std::alloc::Global;
use value_core::{ListOf, NoMemory, Triple};
use visit_rules::Read;

fn add_lookup(alloc: Global, read: &Read, wants: &mut ListOf<Triple>) -> Result<(), NoMemory>
    ensures { OnOk result (wants.new ≡ wants.old ++ read_wants read.now) }
{
    if let Read::Lookup { triple, entry: _ } = read {
        wants.push(triple.copy(alloc)?)?;
    }
    Ok(())
}

/// Adds what a tree wants, in order of evaluation.
#[cycle(gathering)]
fn add_wants(alloc: Global, tree: &Old<'_>, wants: &mut ListOf<Triple>) -> Result<(), NoMemory>
    ensures { OnOk result (wants.new ≡ wants.old ++ wants_of tree.now) }
{
    add_part_wants(alloc, tree, wants)?;
    add_body_wants(alloc, tree, wants)?;
    add_lookup(alloc, tree.read(), wants)
}

#[cycle(gathering)]
fn add_part_wants(alloc: Global, tree: &Old<'_>, wants: &mut ListOf<Triple>) -> Result<(), NoMemory>
    ensures { OnOk result (wants.new ≡ wants.old ++ flat_map wants_of (parts_of tree.now)) }
{
    for i in 0..tree.part_count() {
        add_wants(alloc, &tree.part(i), wants)?;
    }
    Ok(())
}

#[cycle(gathering)]
fn add_body_wants(alloc: Global, tree: &Old<'_>, wants: &mut ListOf<Triple>) -> Result<(), NoMemory>
    ensures { OnOk result (wants.new ≡ wants.old ++ flat_map wants_of (bodies_of tree.now)) }
{
    for i in 0..tree.body_count() {
        add_wants(alloc, &tree.body(i), wants)?;
    }
    Ok(())
}

/// What trees want, one after the other.
pub(crate) fn wants_in(alloc: Global, forest: &Forest) -> Result<ListOf<Triple>, NoMemory>
    ensures { IfOk result (λ ts. ts ≡ all_wants forest.now) }
{
    let mut wants = ListOf::new(alloc);
    for i in 0..forest.len() {
        add_wants(alloc, &forest.at(i), &mut wants)?;
    }
    Ok(wants)
}
