//! Which job a worker takes next.
ghost use Rattle.std.specs.Prelude.{◌≡◌, ◌+◌, ◌<◌, length, slice_index};
ghost use Rattle.fair_pool.specs.Fair.{is_paused, is_full, job_before};
ghost use Rattle.fair_pool.specs.Kept.{allows_job, first_job, looked_by, ranks_for};
ghost use Rattle.fair_pool.specs.Order.{Rises};
ghost use Rattle.fair_pool.specs.Pools.{allows_in, has_waited_in, looked_of, pick_of, takes_none_in};

use super::Pools;
use crate::ticket::{Rank, Ticket};
use std::collections::VecDeque;
use std::sync::ledger::Ledger;
use value_core::Steps;

impl Pools {
    fn is_paused(&self, worker: u32) -> bool
        ensures { result ≡ is_paused self.now.fair worker }
    {
        match self.paused.get(worker as usize) {
            Some(paused) => *paused,
            None => false,
        }
    }

    /// How many jobs a worker runs.
    pub(super) fn load(&self, worker: u32) -> u64
        ensures { result ≡ slice_index self.now.loads worker }
    {
        match self.loads.get(worker as usize) {
            Some(load) => *load,
            None => 0,
        }
    }

    fn is_full(&self, worker: u32) -> bool
        ensures { result ≡ is_full self.now.layout (slice_index self.now.loads) worker }
    {
        self.declared.capacity(worker) <= self.load(worker)
    }

    /// Whether nothing is picked for a worker.
    fn takes_none(&self, worker: u32) -> bool
        ensures { result ≡ takes_none_in self.now worker }
    {
        self.is_paused(worker) || self.is_full(worker)
    }

    /// Whether a ticket has waited long enough for its hint's worker.
    fn has_waited(&self, ticket: &Ticket, now: u64) -> bool
        ensures { result ≡ has_waited_in self.now now ticket.now }
    {
        match ticket.created.checked_add(self.declared.hold(ticket.pool)) {
            Some(end) => end <= now,
            None => false,
        }
    }

    /// Whether a worker may take a ready ticket of its pool.
    fn allows(&self, ticket: &Ticket, worker: u32, now: u64) -> bool
        ensures { result ≡ allows_in self.now now worker ticket.now }
    {
        match self.hint_worker(ticket.pool, &ticket.hint) {
            Some(holder) => holder == worker
                || self.takes_none(holder)
                || self.has_waited(ticket, now),
            None => true,
        }
    }

    /// Whether a worker may take a job that stands in its pool's queue.
    fn allows_job(&self, job: u64, worker: u32, now: u64) -> bool
        ensures { result ≡ allows_job self.now now worker job }
    {
        match self.waiting.find(job) {
            Some(ticket) => self.allows(ticket, worker, now),
            None => false,
        }
    }

    /// The ranks of the ready tickets of a worker's pool, the next one first.
    fn queue(&self, worker: u32) -> &VecDeque<Rank>
        requires { worker < length self.now.layout.workers }
        ensures ranks { result.now.items ≡ ranks_for self.now worker }
        ensures rising { Rises job_before self.now.fair.tickets }
    {
        self.waiting.queue(self.declared.worker_pool(worker))
    }

    /// The first job of these that a worker may take.
    fn first_allowed(&self, ranks: &VecDeque<Rank>, worker: u32, now: u64) -> Option<u64>
        ensures { result ≡ first_job (allows_job self.now now worker) ranks.now.items }
    {
        for rank in ranks {
            if self.allows_job(rank.job, worker, now) {
                return Some(rank.job);
            }
        }
        None
    }

    /// The same, with a step for each that is looked at.
    fn first_counted<L: Ledger>(
        &self,
        ranks: &VecDeque<Rank>,
        worker: u32,
        now: u64,
        steps: &mut Steps<L>,
    ) -> Option<u64>
        ensures answer { result ≡ first_job (allows_job self.now now worker) ranks.now.items }
        ensures steps { steps.new ≡ steps.old + looked_by self.now now worker ranks.now.items }
    {
        for rank in ranks {
            steps.tick();
            if self.allows_job(rank.job, worker, now) {
                return Some(rank.job);
            }
        }
        None
    }

    /// The job that the worker takes next; `None` where it is paused or full, or may take none.
    /// Takes no memory.
    pub fn pick(&self, worker: u32, now: u64) -> Option<u64>
        requires { worker < length self.now.layout.workers }
        ensures { result ≡ pick_of self.now now worker }
    {
        if self.takes_none(worker) {
            return None;
        }
        self.first_allowed(self.queue(worker), worker, now)
    }

    /// The same, with a step for each ready ticket of the pool up to the one that is picked, or
    /// for each where none is; no step where the worker is paused or full. Takes no memory.
    pub fn pick_counted<L: Ledger>(
        &self,
        worker: u32,
        now: u64,
        steps: &mut Steps<L>,
    ) -> Option<u64>
        requires { worker < length self.now.layout.workers }
        ensures answer { result ≡ pick_of self.now now worker }
        ensures steps { steps.new ≡ steps.old + looked_of self.now now worker }
    {
        if self.takes_none(worker) {
            return None;
        }
        self.first_counted(self.queue(worker), worker, now, steps)
    }
}
