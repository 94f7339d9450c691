//! The trait of what takes in published states.
ghost use Rattle.std.specs.Prelude.{◌≡◌, List, Option, None};
ghost use Rattle.value_core.specs.declared.state.Published.{Published};
ghost use Rattle.snap_read.specs.Lists.{IsBelow, Adds};

use std::sync::Wait;
use value_core::{NoMemory, Published};

/// What came of publishing the state of an accepted event.
#[derive(Drop)]
pub enum Told<N: Drop> {
    Note(N),
    /// Out of memory: the state was not published. The event stays accepted.
    NoMemory,
}

/// Takes in states that are published.
pub trait Publish {
    type Note: Drop;

    /// The states that were published, in order, if they are known.
    ghost published: { Self → Option (List Published) };
    /// The states that a note names, if they are known.
    ghost names: { Self.Note → Option (List Published) };
    /// Which states may be published.
    ghost test: { Published → Type 0 };

    /// Publishes the next state. Out of memory publishes nothing.
    fn publish<R: Wait>(&mut self, rt: &R, next: &Published) -> Result<Self::Note, NoMemory>
        requires above { IsBelow (published self.old) next.now.version }
        requires passes { test next.now }
        ensures { Adds names (published self.old) next.now result (published self.new) };

    /// Gives up what it holds. It may wait for readers.
    fn end<R: Wait>(self, rt: &R);
}

/// Publishes nothing.
#[derive(Drop)]
pub struct NoPublish;

impl Publish for NoPublish {
    type Note = ();

    ghost published = { λ _. None };

    ghost names = { λ _. None };

    ghost test = { λ _. Unit {0} };

    fn publish<R: Wait>(&mut self, _rt: &R, _next: &Published) -> Result<(), NoMemory> {
        Ok(())
    }

    fn end<R: Wait>(self, _rt: &R) {}
}
