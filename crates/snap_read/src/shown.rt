//! A published state with the list that it ends.
ghost use Rattle.std.specs.Prelude.{◌≡◌, ◌++◌, ◌∷◌, [], IfOk, MatchBool};
ghost use mathlib.Core.List.{IsPrefix};
ghost use Rattle.snap_read.specs.Lists.{AreBelow, IsLast};

use crate::copying::copy_of;
use crate::history::{Front, Head, SnapNaming};
use left_right::Absorb;
use std::alloc::{AllocError, Global};
use std::marker::Model;
use std::sync::Arc;
use value_core::{NoMemory, Published};

/// A state that was published, with the list that it ends. Contracts see it as that list.
#[derive(Drop)]
pub struct Shown<J: SnapNaming> {
    alloc: Global,
    last: Arc<Published, Global>,
    front: Front<J>,
}

impl<J: SnapNaming> Model for Shown<J> {
    ghost use Rattle.std.specs.Prelude.{List};
    ghost use Rattle.std.specs.Arc.{arc_value};
    ghost use Rattle.snap_read.specs.Lists.{EndsWith};
    ghost use Rattle.value_core.specs.declared.state.Published.{Published};

    ghost Value = { List Published };

    ghost use Rattle.snap_read.specs.Codes.{list_code};

    ghost coded = { list_code };

    ghost view = { λ s. s.front };

    ghost invariant = { λ s. EndsWith s.front (arc_value s.last) };
}

impl<J: SnapNaming> Shown<J> {
    /// The list of a front with one more. All memory is taken before the history grows.
    pub(crate) fn after(
        alloc: Global,
        front: &Front<J>,
        head: &Head<J>,
        next: &Published,
    ) -> Result<Shown<J>, NoMemory>
        requires test { J.test next.now }
        requires above { AreBelow next.now.version front.now }
        ensures { IfOk result (λ shown. shown ≡ front.now ++ next.now ∷ []) }
    {
        let Ok(last) = Arc::new(alloc, copy_of(alloc, next)?) else {
            return Err(AllocError);
        };
        let mut front = front.again();
        if front.len() >= 1 << 61 || !front.add(head, next) {
            return Err(AllocError);
        }
        Ok(Shown { alloc, last, front })
    }

    /// An equal one, which takes no memory but for a count.
    pub(crate) fn copy(&self) -> Result<Shown<J>, AllocError>
        ensures { IfOk result (λ shown. shown ≡ self.now) }
    {
        Ok(Shown {
            alloc: self.alloc,
            last: Arc::try_clone(&self.last)?,
            front: self.front.again(),
        })
    }

    /// Of two lists the one that isn't shorter begins with the other.
    pub(crate) fn is_after(&self, other: &Shown<J>) -> bool
        ensures { MatchBool result (IsPrefix other.now self.now) (IsPrefix self.now other.now) }
    {
        self.front.compare(&other.front)
    }

    /// The state that ends the list.
    pub(crate) fn last(&self) -> Result<Published, NoMemory>
        ensures { IfOk result (IsLast J.test self.now) }
    {
        self.front.facts();
        let last: &Published = &*self.last;
        copy_of(self.alloc, last)
    }

    /// The list.
    pub(crate) fn list(&self) -> Front<J>
        ensures { result ≡ self.now }
    {
        self.front.again()
    }
}

impl<J: SnapNaming> Absorb<Shown<J>> for Shown<J> {
    type State = [Published; 0];

    ghost state = { λ s. s };

    ghost applied = { λ xs x. x };

    fn absorb_first(&mut self, operation: &Shown<J>, _other: &Shown<J>) -> Result<(), AllocError> {
        *self = operation.copy()?;
        Ok(())
    }
}
