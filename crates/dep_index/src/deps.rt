//! The index.
ghost use Rattle.std.specs.Prelude.{◌≡◌, ◌-◌, ◌<◌, max, IfOk, OnErr, OnOk};
ghost use Rattle.std.specs.List.Sorted.{IsStrictlyIncreasing};
ghost use Rattle.dep_index.specs.Pairs.{AreUsers, linked, no_links, unlinked};

use crate::pairs::Pairs;
use crate::used::Used;
use std::alloc::Global;
use std::marker::Model;
use value_core::{ListOf, NoMemory};

/// Pairs of a source and an instance that reads it.
#[derive(Drop)]
pub struct Deps {
    alloc: Global,
    pairs: Pairs,
    /// For how many more pairs there is room.
    spare: usize,
}

impl Model for Deps {
    ghost use Rattle.dep_index.specs.Pairs.{Index, index_code};

    ghost Value = { Index };

    ghost coded = { index_code };

    ghost use Rattle.dep_index.specs.inside.Layout.{AreKept, HasRoom, links_in};

    ghost view = { λ d. record { links = links_in d.pairs; spare = d.spare } };

    ghost invariant = { λ d. record { kept : AreKept d.pairs; room : HasRoom d.spare d.pairs } };
}

impl Deps {
    /// No pair, and no room.
    pub fn new(alloc: Global) -> Deps
        ensures { result ≡ no_links }
    {
        Deps {
            alloc,
            pairs: Pairs::new(alloc),
            spare: 0,
        }
    }

    /// Adds a pair, if it isn't there. It uses none of the room that was there.
    pub fn link(&mut self, used: &Used, to: u32) -> Result<(), NoMemory>
        ensures ok { OnOk result (self.new ≡ linked self.old used.now to) }
        ensures err { OnErr result (self.new ≡ self.old) }
    {
        let source = used.copy(self.alloc)?;
        let more = self.spare + 1;
        self.reserve(more)?;
        self.link_spare(source, to);
        Ok(())
    }

    /// Makes room for at least so many more pairs.
    pub fn reserve(&mut self, more: usize) -> Result<(), NoMemory>
        ensures ok { OnOk result (self.new ≡ record self.old { spare = max self.old.spare more }) }
        ensures err { OnErr result (self.new ≡ self.old) }
    {
        if more <= self.spare {
            return Ok(());
        }
        self.pairs.reserve(more)?;
        self.spare = more;
        Ok(())
    }

    /// Adds a pair as `link` does, with a spare, which is used also where the pair is there.
    /// Takes no memory.
    pub fn link_spare(&mut self, used: Used, to: u32)
        requires { 0 < self.old.spare }
        ensures { self.new ≡ record (linked self.old used to) { spare = self.old.spare - 1 } }
    {
        self.pairs.insert(used, to);
        self.spare -= 1;
    }

    /// Removes all pairs of an instance. Takes no memory.
    pub fn unlink(&mut self, to: u32)
        ensures { self.new ≡ unlinked self.old to }
    {
        self.pairs.remove_all(to);
    }

    /// The instances that read a source, each once, in rising order.
    pub fn users(&self, used: &Used) -> Result<ListOf<u32>, NoMemory>
        ensures rising { IfOk result (λ us. IsStrictlyIncreasing us) }
        ensures users { IfOk result (λ us. AreUsers self.now.links used.now us) }
    {
        let users = self.pairs.users(self.alloc, used)?;
        Ok(ListOf::from_vec(users))
    }
}
