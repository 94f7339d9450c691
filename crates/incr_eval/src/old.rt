//! The tree of an earlier visit.
ghost use Rattle.std.specs.Prelude.{◌≡◌, ◌<◌, true, length, IfOk, Some, slice_get};
ghost use Rattle.visit_rules.specs.Visits.{state_of, visits_of};
ghost use Rattle.visit_rules.specs.declared.visit.Visit.TheViews.{out-Visit};
ghost use Rattle.incr_eval.specs.Pooled.{seen, is_pooled};
ghost use Rattle.incr_eval.specs.PatchedTrees.{visit_of};

use crate::twig::Twig;
use scope_pool::Pool;
use std::alloc::Global;
use std::marker::Model;
use value_core::{NoMemory, State, Value};
use visit_rules::{Instance, Read};

/// A tree whose data is in a pool.
#[derive(Drop)]
pub(crate) struct Old<'a> {
    pool: &'a Pool<Instance>,
    twig: &'a Twig,
}

impl<'a> Model for Old<'a> {
    ghost use Rattle.std.specs.Prelude.{◌≡◌, true};
    ghost use Rattle.visit_rules.specs.Views.{visit_code};
    ghost use Rattle.visit_rules.specs.declared.visit.Visit.{Visit};
    ghost use Rattle.incr_eval.specs.Pooled.{seen, is_pooled};

    ghost Value = { Visit };

    ghost coded = { visit_code };

    ghost view = { λ o. seen o.pool.now o.twig.now };

    ghost invariant = { λ o. is_pooled o.pool.now o.twig.now ≡ true };
}

impl<'a> Old<'a> {
    /// A tree all of whose data is in the pool.
    pub(crate) fn new(pool: &'a Pool<Instance>, twig: &'a Twig) -> Old<'a>
        requires { is_pooled pool.now twig.now ≡ true }
        ensures { result ≡ seen pool.now twig.now }
    {
        Old { pool, twig }
    }

    fn instance(&self) -> &'a Instance
        ensures state { (out-Visit self.now).state ≡ result.now.state }
        ensures read { (out-Visit self.now).read ≡ result.now.read }
        ensures items { (out-Visit self.now).items ≡ result.now.items }
    {
        self.pool.get(self.twig.place)
    }

    /// An equal copy of what the visit keeps.
    pub(crate) fn copy_instance(&self, alloc: Global) -> Result<Instance, NoMemory>
        ensures { IfOk result (λ i.
            visit_of i (out-Visit self.now).parts (out-Visit self.now).bodies ≡ self.now) }
    {
        let instance = self.instance().copy(alloc)?;
        Ok(instance)
    }

    /// The state that it came to.
    pub(crate) fn state(&self) -> &'a State
        ensures { result.now ≡ state_of self.now }
    {
        &self.instance().state
    }

    /// What it read.
    pub(crate) fn read(&self) -> &'a Read
        ensures { result.now ≡ (out-Visit self.now).read }
    {
        &self.instance().read
    }

    /// The items that its bodies are for.
    pub(crate) fn items(&self) -> &'a [Value]
        ensures { result.now ≡ (out-Visit self.now).items }
    {
        self.instance().items.as_slice()
    }

    /// How many parts it has.
    pub(crate) fn part_count(&self) -> usize
        ensures { result ≡ length (out-Visit self.now).parts }
    {
        self.twig.parts.len()
    }

    /// How many bodies it has.
    pub(crate) fn body_count(&self) -> usize
        ensures { result ≡ length (out-Visit self.now).bodies }
    {
        self.twig.bodies.len()
    }

    /// The tree of a part.
    pub(crate) fn part(&self, i: usize) -> Old<'a>
        requires { i < length (out-Visit self.now).parts }
        ensures part { slice_get (out-Visit self.now).parts i ≡ Some result }
        ensures smaller { visits_of result < visits_of self.now }
    {
        Old {
            pool: self.pool,
            twig: &self.twig.parts.as_slice()[i],
        }
    }

    /// The tree of a body.
    pub(crate) fn body(&self, i: usize) -> Old<'a>
        requires { i < length (out-Visit self.now).bodies }
        ensures body { slice_get (out-Visit self.now).bodies i ≡ Some result }
        ensures smaller { visits_of result < visits_of self.now }
    {
        Old {
            pool: self.pool,
            twig: &self.twig.bodies.as_slice()[i],
        }
    }
}
