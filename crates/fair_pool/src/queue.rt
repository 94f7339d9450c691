//! A pool's ready tickets in the order in which they are taken.
ghost use Rattle.std.specs.Prelude.{◌≡◌, ◌<◌, ◌+◌, ◌≤◌, [], length, IfOk, OnOk, OnErr};
ghost use Rattle.fair_pool.specs.Kept.{rank_before};
ghost use Rattle.fair_pool.specs.Order.{leading, placed, displaced};

use crate::room::{put_at, take_at};
use crate::ticket::Rank;
use std::alloc::Global;
use std::collections::VecDeque;
use std::marker::Model;
use value_core::NoMemory;

/// Ranks in order, searched by halving, and room for more.
#[derive(Drop)]
pub(crate) struct Queue {
    ranks: VecDeque<Rank>,
    /// For how many there is room.
    room: usize,
}

impl Model for Queue {
    ghost use Rattle.std.specs.VecDeque.{deque_capacity};
    ghost use Rattle.fair_pool.specs.KeptCodes.{queue_code};
    ghost use Rattle.fair_pool.specs.Kept.{IsQueueKept, QueueState};

    ghost Value = { QueueState };

    ghost coded = { queue_code };

    ghost view = { λ q. record { ranks = q.ranks.items; room = q.room } };

    ghost invariant = { λ q. IsQueueKept q.ranks.items q.room (deque_capacity q.ranks) };
}

impl Queue {
    ghost use Rattle.fair_pool.specs.Kept.{QueueState};

    pub(crate) fn new(alloc: Global) -> Queue
        ensures { result.ranks ≡ [] }
    {
        Queue {
            ranks: VecDeque::new(alloc),
            room: 0,
        }
    }

    pub(crate) fn ranks(&self) -> &VecDeque<Rank>
        ensures { result.now.items ≡ self.now.ranks }
    {
        &self.ranks
    }

    /// How many ranks come before one.
    fn index_of(&self, rank: Rank) -> usize
        ensures { result ≡ leading (λ p. rank_before p rank) self.now.ranks }
    {
        self.ranks.partition_point(
            |p: &Rank| -> bool
                ensures { result ≡ rank_before p.now rank }
            { p.comes_before(&rank) },
        )
    }

    /// Adds a rank, for which there is room.
    pub(crate) fn add(&mut self, rank: Rank)
        requires { length self.old.ranks < self.old.room }
        ensures { self.new ≡ record self.old { ranks = placed rank_before rank self.old.ranks } }
    {
        let at = self.index_of(rank);
        put_at(&mut self.ranks, at, rank);
    }

    /// Takes a rank away: the first that doesn't come before this one.
    pub(crate) fn remove(&mut self, rank: Rank)
        requires { leading (λ p. rank_before p rank) self.old.ranks < length self.old.ranks }
        ensures { self.new ≡ record self.old { ranks = displaced rank_before rank self.old.ranks } }
    {
        let at = self.index_of(rank);
        let _rank = take_at(&mut self.ranks, at);
    }

    /// Makes room for so many ranks in all.
    pub(crate) fn reserve(&mut self, count: usize) -> Result<(), NoMemory>
        ensures ranks { self.new.ranks ≡ self.old.ranks }
        ensures room { self.old.room ≤ self.new.room }
        ensures ok { OnOk result (count ≤ self.new.room) }
    {
        let more = count.saturating_sub(self.ranks.len());
        self.ranks.reserve(more)?;
        self.room = self.room.max(count);
        Ok(())
    }

    /// An equal queue, with room for so many ranks in all.
    pub(crate) fn copy(&self, alloc: Global, count: usize) -> Result<Queue, NoMemory>
        requires { length self.now.ranks ≤ count }
        ensures { IfOk result (λ q. (q.ranks ≡ self.now.ranks) × (count ≤ q.room)) }
    {
        let (front, rest) = self.ranks.as_slices();
        let mut ranks = Vec::with_capacity(alloc, count)?;
        ranks.extend_from_slice(front)?;
        ranks.extend_from_slice(rest)?;
        Ok(Queue {
            ranks: VecDeque::from_vec(ranks),
            room: count,
        })
    }
}
