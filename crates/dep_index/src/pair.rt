//! A pair of a source and an instance that reads it, and the two orders of pairs.
ghost use Rattle.std.specs.Prelude.{◌≡◌};
ghost use Rattle.dep_index.specs.inside.Layout.{link, order_of, shown};

use crate::used::Used;
use std::cmp::Ordering;

#[derive(Drop)]
pub(crate) struct Pair {
    pub(crate) source: Used,
    pub(crate) to: u32,
}

/// Whether pairs are in order of their sources first, or of their instances.
#[derive(Clone, Copy)]
pub(crate) enum By {
    Source,
    User,
}

impl Pair {
    /// How this pair compares to the one of a source and an instance.
    pub(crate) fn compare(&self, by: By, source: &Used, to: u32) -> Ordering
        ensures { result ≡ order_of by (shown self.now) (link source.now to) }
    {
        match by {
            By::Source => self.source.compare(source).then(self.to.cmp(&to)),
            By::User if self.to == to => self.source.compare(source),
            By::User => self.to.cmp(&to),
        }
    }
}
