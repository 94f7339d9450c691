//! All nodes in file order, each over the tree that there was and the states of the earlier ones.
ghost use Rattle.std.specs.Prelude.{◌≡◌, ◌≤◌, length, IfOk};
ghost use Rattle.visit_rules.specs.KnownChanges.{is_moved, renewed_all};
ghost use Rattle.visit_rules.specs.Tables.{IsSmall};
ghost use Rattle.incr_eval.specs.PatchedTrees.{patched_trees};
ghost use Rattle.incr_eval.specs.Renewals.{RenewsAll};

use crate::forest::Forest;
use crate::next::Next;
use crate::old::Old;
use crate::patch::{Patch, patch_at};
use crate::renew::{Renewed, renew};
use std::alloc::Global;
use std::sync::ledger::Ledger;
use term_core::{Context, Entries};
use value_core::{ListOf, NoMemory, State, Steps};
use visit_rules::{Changed, Pass, Setting};

/// What becomes of the trees of all nodes.
#[derive(Drop)]
pub(crate) struct Nodes {
    pub(crate) patches: ListOf<Patch>,
    /// The new states of the nodes.
    pub(crate) states: ListOf<State>,
    /// Whether each is another than before.
    pub(crate) moved: ListOf<bool>,
}

/// Whether a state is another than that of the tree that there was.
fn has_moved(old: &Option<Old<'_>>, state: &State) -> bool
    ensures { result ≡ is_moved old.now state.now }
{
    match old {
        Some(tree) => !state.is(tree.state()),
        None => true,
    }
}

/// What becomes of all trees.
pub(crate) fn renew_all<E: Entries, L: Ledger>(
    alloc: Global,
    forest: &Forest,
    pass: &Pass<'_, E>,
    steps: &mut Steps<L>,
) -> Result<Nodes, NoMemory>
    requires { IsSmall pass.now.program.now }
    ensures run { IfOk result (RenewsAll (renewed_all E.world pass.now forest.now)
        forest.now steps.old steps.new) }
    ensures count { IfOk result (λ n. length n.states ≡ length pass.now.program.now.nodes) }
    ensures not_fallen { steps.old ≤ steps.new }
{
    let mut patches = ListOf::new(alloc);
    let mut states = ListOf::new(alloc);
    let mut moved = ListOf::new(alloc);
    let nodes = pass.program.nodes.as_slice();
    for i in 0..nodes.len() {
        let setting = Setting {
            context: Context {
                program: pass.program,
                node: i as u32,
                inputs: pass.inputs,
                earlier: states.as_slice(),
                entries: pass.entries,
            },
            changed: Changed {
                inputs: pass.named,
                looked: pass.looked,
                moved: moved.as_slice(),
            },
        };
        let old = forest.tree(i);
        let renewed = renew(alloc, setting, &nodes[i].term, &old, steps)?;
        let Renewed { patch, state } = renewed;
        moved.push(has_moved(&old, &state))?;
        patches.push(patch)?;
        states.push(state)?;
    }
    Ok(Nodes {
        patches,
        states,
        moved,
    })
}

/// The trees that the patches make.
pub(crate) fn plant_all(alloc: Global, nodes: &Nodes, old: &Forest) -> Result<Forest, NoMemory>
    ensures { IfOk result (λ f. f ≡ patched_trees nodes.now.patches old.now) }
{
    let mut forest = Forest::new(alloc);
    let patches = nodes.patches.as_slice();
    for i in 0..patches.len() {
        let next = Next::new(patch_at(patches, i), old.tree(i));
        forest = forest.with(alloc, &next)?;
    }
    Ok(forest)
}
