//! The trees of all nodes, and the pool that their data is in.
ghost use Rattle.std.specs.Prelude.{◌≡◌, ◌<◌, ◌++◌, ◌∷◌, [], length, slice_get, IfOk, Some};
ghost use Rattle.std.specs.FinMap.{len};
ghost use Rattle.visit_rules.specs.Visits.{all_visits};

use crate::next::Next;
use crate::old::Old;
use crate::plant::plant_at_top;
use crate::twig::Twig;
use scope_pool::Pool;
use std::alloc::Global;
use std::marker::Model;
use value_core::{ListOf, NoMemory};
use visit_rules::Instance;

/// The trees of nodes in file order, each in a scope of its own, and nothing else.
#[derive(Drop)]
pub(crate) struct Forest {
    pool: Pool<Instance>,
    trees: ListOf<Twig>,
}

impl Model for Forest {
    ghost use Rattle.std.specs.Prelude.{List};
    ghost use Rattle.std.specs.Coded.{coded_list};
    ghost use Rattle.visit_rules.specs.Views.{visit_code};
    ghost use Rattle.visit_rules.specs.declared.visit.Visit.{Visit};

    ghost Value = { List Visit };

    ghost coded = { coded_list visit_code };

    ghost use Rattle.std.specs.FinMap.{len};
    ghost use Rattle.std.specs.Prelude.{◌≡◌, map, true};
    ghost use Rattle.visit_rules.specs.Visits.{all_visits};
    ghost use Rattle.incr_eval.specs.Pooled.{all_pooled, seen};

    ghost view = { λ f. map (seen f.pool) f.trees };

    ghost invariant = { λ f. record {
      stand : all_pooled f.pool f.trees ≡ true;
      counted : len f.pool.items ≡ all_visits (map (seen f.pool) f.trees);
    } };
}

impl Forest {
    /// No trees.
    pub(crate) fn new(alloc: Global) -> Forest
        ensures { result ≡ [] }
    {
        let pool = Pool::new(alloc);
        let trees = ListOf::new(alloc);
        Forest { pool, trees }
    }

    /// How many trees there are.
    pub(crate) fn len(&self) -> usize
        ensures { result ≡ length self.now }
    {
        self.trees.len()
    }

    /// The tree of a node.
    pub(crate) fn at(&self, node: usize) -> Old<'_>
        requires { node < length self.now }
        ensures { slice_get self.now node ≡ Some result }
    {
        Old::new(&self.pool, &self.trees.as_slice()[node])
    }

    /// The tree of a node, if there is one.
    pub(crate) fn tree(&self, node: usize) -> Option<Old<'_>>
        ensures { result ≡ slice_get self.now node }
    {
        if node < self.len() {
            Some(self.at(node))
        } else {
            None
        }
    }

    /// The trees with one more.
    pub(crate) fn with(self, alloc: Global, tree: &Next<'_>) -> Result<Forest, NoMemory>
        ensures { IfOk result (λ f. f ≡ self ++ tree.now ∷ []) }
    {
        let Forest {
            mut pool,
            mut trees,
        } = self;
        trees.push(plant_at_top(alloc, tree, &mut pool)?)?;
        Ok(Forest { pool, trees })
    }

    /// How many visits the trees have.
    pub(crate) fn visits(&self) -> usize
        ensures { result ≡ all_visits self.now }
    {
        self.pool.live()
    }

    /// The pool, which has one instance for each visit.
    pub(crate) fn pool(&self) -> &Pool<Instance>
        ensures { len result.now.items ≡ all_visits self.now }
    {
        &self.pool
    }
}
