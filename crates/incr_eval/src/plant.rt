//! A tree that is put into a pool.
ghost use Rattle.std.specs.Prelude.{◌≡◌, ◌+◌, IfOk, OnOk, Some};
ghost use Rattle.std.specs.FinMap.{len};
ghost use Rattle.scope_pool.specs.Region.{IsOpen, item_at};
ghost use Rattle.visit_rules.specs.Visits.{all_visits, bodies_of, parts_of, visits_of};
ghost use Rattle.incr_eval.specs.Pooled.{ArePlanted, IsGrown, IsPlanted};

use crate::next::Next;
use crate::twig::Twig;
use scope_pool::{Place, Pool, ScopeId};
use std::alloc::Global;
use value_core::{ListOf, NoMemory};
use visit_rules::Instance;

/// Puts one instance into a scope.
fn put(instance: Instance, scope: ScopeId, pool: &mut Pool<Instance>) -> Result<Place, NoMemory>
    requires { IsOpen pool.old.scopes scope.name }
    ensures put { IfOk result (λ p. item_at pool.new p.number ≡ Some instance) }
    ensures grown { IsGrown pool.old pool.new }
    ensures count { OnOk result (len pool.new.items ≡ len pool.old.items + 1) }
{
    pool.reserve(0, 1)?;
    Ok(pool.put(scope, instance))
}

/// Opens a scope for a body in the scope of its term.
fn open_within(scope: ScopeId, pool: &mut Pool<Instance>) -> Result<ScopeId, NoMemory>
    requires { IsOpen pool.old.scopes scope.name }
    ensures open { IfOk result (λ s. IsOpen pool.new.scopes s.name) }
    ensures grown { IsGrown pool.old pool.new }
    ensures items { pool.new.items ≡ pool.old.items }
{
    pool.reserve(1, 0)?;
    Ok(pool.open_scope(Some(scope)))
}

/// Opens a scope at the top.
fn open_at_top(pool: &mut Pool<Instance>) -> Result<ScopeId, NoMemory>
    ensures open { IfOk result (λ s. IsOpen pool.new.scopes s.name) }
    ensures grown { IsGrown pool.old pool.new }
    ensures items { pool.new.items ≡ pool.old.items }
{
    pool.reserve(1, 0)?;
    Ok(pool.open_scope(None))
}

/// Puts a tree into a scope, each body into a scope of its own within it.
#[cycle(planting)]
pub(crate) fn plant(
    alloc: Global,
    tree: &Next<'_>,
    scope: ScopeId,
    pool: &mut Pool<Instance>,
) -> Result<Twig, NoMemory>
    requires { IsOpen pool.old.scopes scope.name }
    ensures planted { IfOk result (λ t. IsPlanted pool.new t tree.now) }
    ensures count { OnOk result (len pool.new.items ≡ len pool.old.items + visits_of tree.now) }
    ensures grown { IsGrown pool.old pool.new }
{
    let parts = plant_parts(alloc, tree, scope, pool)?;
    let bodies = plant_bodies(alloc, tree, scope, pool)?;
    let place = put(tree.instance(alloc)?, scope, pool)?;
    Ok(Twig {
        place,
        scope,
        parts,
        bodies,
    })
}

/// Puts a tree into a scope of its own at the top.
pub(crate) fn plant_at_top(
    alloc: Global,
    tree: &Next<'_>,
    pool: &mut Pool<Instance>,
) -> Result<Twig, NoMemory>
    ensures planted { IfOk result (λ t. IsPlanted pool.new t tree.now) }
    ensures count { OnOk result (len pool.new.items ≡ len pool.old.items + visits_of tree.now) }
    ensures grown { IsGrown pool.old pool.new }
{
    let scope = open_at_top(pool)?;
    plant(alloc, tree, scope, pool)
}

#[cycle(planting)]
fn plant_parts(
    alloc: Global,
    tree: &Next<'_>,
    scope: ScopeId,
    pool: &mut Pool<Instance>,
) -> Result<ListOf<Twig>, NoMemory>
    requires { IsOpen pool.old.scopes scope.name }
    ensures planted { IfOk result (λ ts. ArePlanted pool.new ts (parts_of tree.now)) }
    ensures count { OnOk result (len pool.new.items ≡
        len pool.old.items + all_visits (parts_of tree.now)) }
    ensures grown { IsGrown pool.old pool.new }
{
    let mut twigs = ListOf::new(alloc);
    for i in 0..tree.part_count() {
        let part = tree.part(i);
        twigs.push(plant(alloc, &part, scope, pool)?)?;
    }
    Ok(twigs)
}

#[cycle(planting)]
fn plant_bodies(
    alloc: Global,
    tree: &Next<'_>,
    scope: ScopeId,
    pool: &mut Pool<Instance>,
) -> Result<ListOf<Twig>, NoMemory>
    requires { IsOpen pool.old.scopes scope.name }
    ensures planted { IfOk result (λ ts. ArePlanted pool.new ts (bodies_of tree.now)) }
    ensures count { OnOk result (len pool.new.items ≡
        len pool.old.items + all_visits (bodies_of tree.now)) }
    ensures grown { IsGrown pool.old pool.new }
{
    let mut twigs = ListOf::new(alloc);
    for i in 0..tree.body_count() {
        let body = tree.body(i);
        let within = open_within(scope, pool)?;
        twigs.push(plant(alloc, &body, within, pool)?)?;
    }
    Ok(twigs)
}
