//! Tickets in order of jobs, and the queues of the ready ones.
ghost use Rattle.std.specs.Prelude.{◌≡◌, ℕ, ◌+◌, ◌-◌, ◌<◌, ◌≤◌, [], max, true, false, nat_lt, map, length, slice_index_or, replicate, if◌then◌else◌, IfOk, OnOk, OnErr, Some, vec_len};
ghost use Rattle.std.specs.Option.{option_copied};
ghost use Rattle.std.specs.Vec.{vec_capacity};
ghost use Rattle.fair_pool.specs.Fair.{ticket_of, has_ticket, with_ticket, without_ticket, job_before};
ghost use Rattle.fair_pool.specs.Flags.{with_flag, flagged, without_flag};
ghost use Rattle.fair_pool.specs.Kept.{HasRankAt, HasRoomAt, HaveFewRanks, HaveNoRanks, HaveRoom, HaveRoomStill, HaveSameRanks, dequeued, enqueued, rank_of, queue_of};
ghost use Rattle.fair_pool.specs.Order.{leading, placed, displaced, Rises};

use crate::queue::Queue;
use crate::room::{put_at, take_at};
use crate::ticket::{Rank, Ticket};
use crate::tickets::Tickets;
use std::alloc::{AllocError, Global};
use std::collections::VecDeque;
use std::marker::Model;
use value_core::NoMemory;

/// The tickets of queued jobs.
#[derive(Drop)]
pub(crate) struct Waiting {
    /// In order of jobs, searched by halving.
    tickets: Tickets,
    /// Whether each ticket's job is ready.
    ready: VecDeque<bool>,
    /// For each pool the ranks of its ready tickets.
    queues: Vec<Queue>,
    /// For how many more tickets there is room.
    spare: usize,
}

impl Model for Waiting {
    ghost use Rattle.std.specs.Prelude.{length};
    ghost use Rattle.std.specs.VecDeque.{deque_capacity};
    ghost use Rattle.fair_pool.specs.KeptCodes.{waiting_code};
    ghost use Rattle.fair_pool.specs.Kept.{WaitingState, IsWaitingKept};

    ghost Value = { WaitingState };

    ghost coded = { waiting_code };

    ghost view = { λ w. record {
      tickets = w.tickets.items;
      ready = w.ready.items;
      pools = length w.queues.items;
      spare = w.spare;
    } };

    ghost invariant = { λ w. IsWaitingKept w.tickets.items w.ready.items w.queues.items
        w.spare w.tickets.room (deque_capacity w.ready) };
}

fn empty_queues(alloc: Global, count: usize) -> Result<Vec<Queue>, NoMemory>
    ensures len { IfOk result (λ qs. length qs.items ≡ count) }
    ensures ranks { IfOk result (λ qs. HaveNoRanks qs.items) }
{
    let mut queues = Vec::new(alloc);
    for _n in 0..count {
        queues.push(Queue::new(alloc))?;
    }
    Ok(queues)
}

fn copy_of_queues(alloc: Global, queues: &[Queue], count: usize) -> Result<Vec<Queue>, NoMemory>
    requires { HaveFewRanks count queues.now }
    ensures len { IfOk result (λ qs. length qs.items ≡ length queues.now) }
    ensures ranks { IfOk result (λ qs. HaveSameRanks (length qs.items) queues.now qs.items) }
    ensures room { IfOk result (λ qs. HaveRoom (length qs.items) count qs.items) }
{
    let mut copies = Vec::new(alloc);
    for queue in queues {
        copies.push(queue.copy(alloc, count)?)?;
    }
    Ok(copies)
}

fn copy_of_flags(alloc: Global, flags: &VecDeque<bool>) -> Result<VecDeque<bool>, NoMemory>
    ensures { IfOk result (λ rs. rs.items ≡ flags.now.items) }
{
    let mut copies = VecDeque::with_capacity(alloc, flags.len())?;
    for flag in flags {
        copies.push_back(*flag)?;
    }
    Ok(copies)
}

/// Makes room in each queue for so many ranks in all.
fn reserve_all(queues: &mut Vec<Queue>, count: usize) -> Result<(), NoMemory>
    ensures len { length queues.new.items ≡ length queues.old.items }
    ensures ranks { HaveSameRanks (length queues.old.items) queues.old.items queues.new.items }
    ensures room { HaveRoomStill queues.old.items queues.new.items }
    ensures ok { OnOk result (HaveRoom (length queues.old.items) count queues.new.items) }
{
    for i in 0..queues.len() {
        let queue = &mut queues[i];
        queue.reserve(count)?;
    }
    Ok(())
}

/// Adds a rank to a pool's queue, where its job is ready; there is room for it.
fn enqueue_ready(queues: &mut Vec<Queue>, pool: usize, rank: Rank, ready: bool)
    requires pool { pool < length queues.old.items }
    requires room { ready ≡ true → HasRoomAt pool queues.old.items }
    ensures { queues.new.items ≡ enqueued ready rank pool queues.old.items }
{
    if ready {
        let queue = &mut queues[pool];
        queue.add(rank);
    }
}

/// Takes a rank from a pool's queue, where its job was ready.
fn dequeue_ready(queues: &mut Vec<Queue>, pool: usize, rank: Rank, was_ready: bool)
    requires pool { pool < length queues.old.items }
    requires there { was_ready ≡ true → HasRankAt rank pool queues.old.items }
    ensures { queues.new.items ≡ dequeued was_ready rank pool queues.old.items }
{
    if was_ready {
        let queue = &mut queues[pool];
        queue.remove(rank);
    }
}

impl Waiting {
    ghost use Rattle.fair_pool.specs.Kept.{WaitingState, flagged_one, no_tickets, with_one, without_one};

    /// No ticket, and queues for so many pools.
    pub(crate) fn new(alloc: Global, pools: usize) -> Result<Waiting, NoMemory>
        ensures { IfOk result (λ w. w ≡ no_tickets pools) }
    {
        Ok(Waiting {
            tickets: Tickets::new(alloc),
            ready: VecDeque::new(alloc),
            queues: empty_queues(alloc, pools)?,
            spare: 0,
        })
    }

    pub(crate) fn spare(&self) -> usize
        ensures { result ≡ self.now.spare }
    {
        self.spare
    }

    pub(crate) fn tickets(&self) -> &[Ticket]
        ensures { result.now ≡ self.now.tickets }
    {
        self.tickets.as_slice()
    }

    /// How many tickets have a smaller job.
    fn index_of(&self, job: u64) -> usize
        ensures { result ≡ leading (λ k. nat_lt k.job job) self.now.tickets }
    {
        self.tickets.as_slice().partition_point(
            |k: &Ticket| -> bool
                ensures { result ≡ nat_lt k.now.job job }
            { k.job < job },
        )
    }

    /// The ticket of a job.
    pub(crate) fn find(&self, job: u64) -> Option<&Ticket>
        ensures { option_copied result ≡ ticket_of job self.now.tickets }
    {
        let at = self.index_of(job);
        let ticket = self.tickets.as_slice().get(at)?;
        if ticket.job == job {
            Some(ticket)
        } else {
            None
        }
    }

    /// The ranks of a pool's ready tickets, the next one first.
    pub(crate) fn queue(&self, pool: usize) -> &VecDeque<Rank>
        requires { pool < self.now.pools }
        ensures ranks { let queue = queue_of pool self.now.tickets self.now.ready in
            result.now.items ≡ map rank_of queue }
        ensures rising { Rises job_before self.now.tickets }
    {
        self.queues[pool].ranks()
    }

    /// Adds a ticket, for which there is room.
    pub(crate) fn add(&mut self, ticket: Ticket, ready: bool)
        requires fresh { has_ticket ticket.job self.old.tickets ≡ false }
        requires pool { ticket.pool < self.old.pools }
        requires room { 0 < self.old.spare }
        ensures { self.new ≡ with_one ticket ready self.old }
    {
        let at = self.index_of(ticket.job);
        let pool = ticket.pool as usize;
        let rank = ticket.rank();
        enqueue_ready(&mut self.queues, pool, rank, ready);
        self.tickets.insert(at, ticket);
        put_at(&mut self.ready, at, ready);
        self.spare -= 1;
    }

    /// A job becomes ready, or is no longer.
    pub(crate) fn set_ready(&mut self, job: u64, ready: bool)
        requires { has_ticket job self.old.tickets ≡ true }
        ensures { self.new ≡ flagged_one job ready self.old }
    {
        let at = self.index_of(job);
        if self.ready[at] == ready {
            return;
        }
        let ticket = self.tickets.get(at);
        let pool = ticket.pool as usize;
        let rank = ticket.rank();
        enqueue_ready(&mut self.queues, pool, rank, ready);
        dequeue_ready(&mut self.queues, pool, rank, !ready);
        self.ready[at] = ready;
    }

    /// Takes a job's ticket away.
    pub(crate) fn remove(&mut self, job: u64) -> Ticket
        requires { has_ticket job self.old.tickets ≡ true }
        ensures ticket { ticket_of job self.old.tickets ≡ Some result }
        ensures left { self.new ≡ without_one job self.old }
    {
        let at = self.index_of(job);
        let ticket = self.tickets.remove(at);
        let was_ready = take_at(&mut self.ready, at);
        let pool = ticket.pool as usize;
        let rank = ticket.rank();
        dequeue_ready(&mut self.queues, pool, rank, was_ready);
        ticket
    }

    /// Makes room for so many more tickets.
    pub(crate) fn reserve(&mut self, more: usize) -> Result<(), NoMemory>
        ensures ok { OnOk result (self.new ≡ record self.old { spare = max self.old.spare more }) }
        ensures err { OnErr result (self.new ≡ self.old) }
    {
        if more <= self.spare {
            return Ok(());
        }
        let count = self.tickets().len().checked_add(more).ok_or(AllocError)?;
        self.tickets.reserve(more)?;
        self.ready.reserve(more)?;
        reserve_all(&mut self.queues, count)?;
        self.spare = more;
        Ok(())
    }

    /// Equal tickets, with no room for more.
    pub(crate) fn copy(&self, alloc: Global) -> Result<Waiting, NoMemory>
        ensures { IfOk result (λ w. w ≡ record self.now { spare = 0 }) }
    {
        Ok(Waiting {
            tickets: self.tickets.copy(alloc)?,
            ready: copy_of_flags(alloc, &self.ready)?,
            queues: copy_of_queues(alloc, self.queues.as_slice(), self.tickets().len())?,
            spare: 0,
        })
    }
}
