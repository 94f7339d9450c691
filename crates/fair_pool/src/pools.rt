//! The pools: who may submit, which jobs wait, and what each worker runs.
ghost use Rattle.std.specs.Prelude.{◌≡◌, ◌+◌, ◌<◌, ◌≤◌, ◌^◌, true, false, map, length, max, slice_index, if◌then◌else◌, IfOk, IfErr, OnOk, OnErr, Some};
ghost use Rattle.std.specs.FinMap.{entries};
ghost use Rattle.fair_pool.specs.Fair.{cost, has_ticket, hint_worker, with_hint};
ghost use Rattle.fair_pool.specs.Hints.{hint_entry};
ghost use Rattle.fair_pool.specs.Layouts.{client_named, layout_of_lists, worker_named};
ghost use Rattle.fair_pool.specs.Pools.{opened_for, submitted, with_ready, without_job, job_taken, job_done, with_pause, rated, pick_of};
ghost use Rattle.fair_pool.specs.Sound.{IsLayoutSound, IsOpServed, is_rate};

mod picking;

use crate::hints::Hints;
use crate::layout::Declared;
use crate::ticket::{HintWorker, Ticket};
use crate::waiting::Waiting;
use op_keys::{ClientDecl, OpDecl, PoolDecl, WorkerDecl};
use std::alloc::{AllocError, Global};
use std::marker::Model;
use value_core::{ListOf, NoMemory, Text};

/// A rate outside 1 to 1,000.
#[derive(Clone, Copy, Debug, PartialEq, Eq)]
pub struct RateOutOfRange(pub u64);

/// All pools of a pipeline. Pools, clients and workers are identified by their numbers in file
/// order, jobs by numbers of the caller's, and times are in milliseconds.
#[derive(Drop)]
pub struct Pools {
    alloc: Global,
    declared: Declared,
    waiting: Waiting,
    /// The next start of each client.
    next: Vec<u64>,
    /// The rate of each client.
    rates: Vec<u64>,
    /// Whether each worker is paused.
    paused: Vec<bool>,
    /// How many jobs each worker runs.
    loads: Vec<u64>,
    hints: Hints,
}

impl Model for Pools {
    ghost use Rattle.fair_pool.specs.Codes.{pools_code};
    ghost use Rattle.fair_pool.specs.Kept.{ArePoolsKept};
    ghost use Rattle.fair_pool.specs.Pools.{PoolsState};

    ghost Value = { PoolsState };

    ghost coded = { pools_code };

    ghost view = { λ p. record {
      layout = p.declared;
      fair = record { tickets = p.waiting.tickets; next = p.next.items; rates = p.rates.items; paused = p.paused.items; hints = p.hints.workers };
      ready = p.waiting.ready;
      loads = p.loads.items;
      spare = p.waiting.spare;
    } };

    ghost invariant = { λ p. ArePoolsKept p.declared p.waiting p.next.items p.rates.items
        p.paused.items p.loads.items p.hints.room };
}

fn declared_rates(alloc: Global, clients: &[ClientDecl]) -> Result<Vec<u64>, NoMemory>
    ensures { IfOk result (λ rs. rs.items ≡ map (λ d. d.rate) clients.now) }
{
    let mut rates = Vec::new(alloc);
    for client in clients {
        rates.push(client.rate)?;
    }
    Ok(rates)
}

/// A worker has a ticket's hint from now on, if there is one; there is room for it.
fn note_hint(hints: &mut Hints, pool: u32, hint: Option<Text>, worker: u32)
    requires { 0 < hints.old.room }
    ensures workers { hints.new.workers ≡ with_hint worker pool hint hints.old.workers }
    ensures room { hints.old.room ≤ hints.new.room + 1 }
{
    if let Some(hint) = hint {
        hints.note(pool, hint, worker);
    }
}

impl Pools {
    /// The pools of these declarations, each in file order.
    pub fn open(
        alloc: Global,
        pools: &ListOf<PoolDecl>,
        clients: &ListOf<ClientDecl>,
        workers: &ListOf<WorkerDecl>,
    ) -> Result<Pools, NoMemory>
        requires { IsLayoutSound (layout_of_lists pools.now clients.now workers.now) }
        ensures { IfOk result (λ p. p ≡ opened_for pools.now clients.now workers.now) }
    {
        let declared = Declared::copy_of(
            alloc,
            pools.as_slice(),
            clients.as_slice(),
            workers.as_slice(),
        )?;
        let waiting = Waiting::new(alloc, pools.len())?;
        let next = vec![in alloc; 0; clients.len()]?;
        let rates = declared_rates(alloc, clients.as_slice())?;
        let paused = vec![in alloc; false; workers.len()]?;
        let loads = vec![in alloc; 0; workers.len()]?;
        let hints = Hints::new(alloc);
        Ok(Pools {
            alloc,
            declared,
            waiting,
            next,
            rates,
            paused,
            loads,
            hints,
        })
    }

    /// The number of the worker of this name; `None` where none is declared. Takes no memory.
    pub fn worker_named(&self, name: &str) -> Option<u32>
        ensures { result ≡ worker_named self.now.layout name.now }
    {
        let number = self.declared.worker_number(name);
        if number < self.declared.workers().len() {
            Some(number as u32)
        } else {
            None
        }
    }

    /// The number of a pool's client of this name; `None` where none is declared. Takes no
    /// memory.
    pub fn client_named(&self, pool: &str, client: &str) -> Option<u32>
        ensures { result ≡ client_named self.now.layout pool.now client.now }
    {
        let number = self.declared.client_number(pool, client);
        if number < self.declared.clients().len() {
            Some(number as u32)
        } else {
            None
        }
    }

    /// Makes the ticket of a new job, from the operation that it is for and its hint, if it has
    /// one. It is taken once it is ready. A spare is used, where there is one.
    pub fn submit(
        &mut self,
        job: u64,
        op: &OpDecl,
        hint: Option<Text>,
        ready: bool,
        now: u64,
    ) -> Result<(), NoMemory>
        requires fresh { has_ticket job self.old.fair.tickets ≡ false }
        requires served { IsOpServed self.old.layout op.now }
        requires time { now ≤ 2 ^ 60 }
        ensures ok { OnOk result (self.new ≡ submitted self.old job op.now hint ready now) }
        ensures err { OnErr result (self.new ≡ self.old) }
    {
        if self.spare() == 0 {
            self.reserve(1)?;
        }
        self.submit_spare(job, op, hint, ready, now);
        Ok(())
    }

    /// The same with a spare, which is used. Takes no memory.
    pub fn submit_spare(&mut self, job: u64, op: &OpDecl, hint: Option<Text>, ready: bool, now: u64)
        requires fresh { has_ticket job self.old.fair.tickets ≡ false }
        requires served { IsOpServed self.old.layout op.now }
        requires time { now ≤ 2 ^ 60 }
        requires room { 1 ≤ self.old.spare }
        ensures { self.new ≡ submitted self.old job op.now hint ready now }
    {
        let pool = self.declared.pool_number(op.pool.as_str()) as u32;
        let client = self
            .declared
            .client_number(op.pool.as_str(), op.client.as_str());
        let cost = self.cost(op, pool, &hint);
        let start = now.max(self.next[client]);
        self.next[client] = start.saturating_add(cost * 1000 / self.rates[client]);
        let ticket = Ticket {
            job,
            pool,
            urgent: op.urgent,
            hint,
            start,
            created: now,
        };
        self.waiting.add(ticket, ready);
    }

    /// The cost of an order of this hint.
    fn cost(&self, op: &OpDecl, pool: u32, hint: &Option<Text>) -> u64
        ensures { result ≡ cost op.now (hint_worker self.now.fair pool hint.now) }
    {
        match self.hint_worker(pool, hint) {
            Some(_) => op.cached,
            None => op.full,
        }
    }

    /// The worker that last took a job of this hint in the pool.
    fn hint_worker(&self, pool: u32, hint: &Option<Text>) -> Option<u32>
        ensures { result ≡ hint_worker self.now.fair pool hint.now }
    {
        match hint {
            Some(hint) => self.hints.worker_of(pool, hint),
            None => None,
        }
    }

    /// For how many more tickets there is room.
    pub fn spare(&self) -> usize
        ensures { result ≡ self.now.spare }
    {
        self.waiting.spare()
    }

    /// Makes room for at least so many more tickets.
    pub fn reserve(&mut self, more: usize) -> Result<(), NoMemory>
        ensures ok { OnOk result (self.new ≡ record self.old { spare = max self.old.spare more }) }
        ensures err { OnErr result (self.new ≡ self.old) }
    {
        let tickets = self.waiting.tickets().len();
        let hints = tickets.checked_add(more).ok_or(AllocError)?;
        self.hints.reserve(hints)?;
        self.waiting.reserve(more)
    }

    /// Equal pools, with no spare of their own.
    pub fn copy(&self) -> Result<Pools, NoMemory>
        ensures { IfOk result (λ p. p ≡ record self.now { spare = 0 }) }
    {
        let alloc = self.alloc;
        let declared = self.declared.copy(alloc)?;
        let waiting = self.waiting.copy(alloc)?;
        let next = Vec::from_slice(alloc, self.next.as_slice())?;
        let rates = Vec::from_slice(alloc, self.rates.as_slice())?;
        let paused = Vec::from_slice(alloc, self.paused.as_slice())?;
        let loads = Vec::from_slice(alloc, self.loads.as_slice())?;
        let hints = self.hints.copy(alloc, self.waiting.tickets().len())?;
        Ok(Pools {
            alloc,
            declared,
            waiting,
            next,
            rates,
            paused,
            loads,
            hints,
        })
    }

    /// A job becomes ready, or is no longer. Takes no memory.
    pub fn set_ready(&mut self, job: u64, ready: bool)
        requires { has_ticket job self.old.fair.tickets ≡ true }
        ensures { self.new ≡ with_ready self.old job ready }
    {
        self.waiting.set_ready(job, ready);
    }

    /// A job's ticket goes; what its client has used up stays. Takes no memory.
    pub fn withdraw(&mut self, job: u64)
        requires { has_ticket job self.old.fair.tickets ≡ true }
        ensures { self.new ≡ without_job self.old job }
    {
        let _ticket = self.waiting.remove(job);
    }

    /// A worker runs the job that was picked for it. Takes no memory.
    pub fn taken(&mut self, job: u64, worker: u32, now: u64)
        requires { pick_of self.old now worker ≡ Some job }
        ensures { self.new ≡ job_taken self.old job worker }
    {
        let ticket = self.waiting.remove(job);
        let pool = ticket.pool;
        let hint = ticket.hint;
        note_hint(&mut self.hints, pool, hint, worker);
        self.loads[worker as usize] += 1;
    }

    /// A job that a worker runs has ended. Takes no memory.
    pub fn done(&mut self, worker: u32)
        requires { 1 ≤ slice_index self.old.loads worker }
        ensures { self.new ≡ job_done self.old worker }
    {
        self.loads[worker as usize] -= 1;
    }

    /// From now on nothing is picked for the worker, and its hints hold no ticket back. Takes no
    /// memory.
    pub fn pause(&mut self, worker: u32)
        requires { worker < length self.old.layout.workers }
        ensures { self.new ≡ with_pause self.old worker true }
    {
        self.paused[worker as usize] = true;
    }

    /// The worker is no longer paused. Takes no memory.
    pub fn resume(&mut self, worker: u32)
        requires { worker < length self.old.layout.workers }
        ensures { self.new ≡ with_pause self.old worker false }
    {
        self.paused[worker as usize] = false;
    }

    /// A client has another rate from its next ticket on. Takes no memory.
    pub fn set_rate(&mut self, client: u32, rate: u64) -> Result<(), RateOutOfRange>
        requires { client < length self.old.layout.clients }
        ensures ok { OnOk result (is_rate rate ≡ true) }
        ensures refused { IfErr result (λ e. (e.0 ≡ rate) × (is_rate rate ≡ false)) }
        ensures state { self.new ≡ rated self.old client rate }
    {
        if rate < 1 || 1000 < rate {
            return Err(RateOutOfRange(rate));
        }
        self.rates[client as usize] = rate;
        Ok(())
    }

    /// The tickets in order of jobs.
    pub fn tickets(&self) -> &[Ticket]
        ensures { result.now ≡ self.now.fair.tickets }
    {
        self.waiting.tickets()
    }

    /// The next start of each client.
    pub fn next(&self) -> &[u64]
        ensures { result.now ≡ self.now.fair.next }
    {
        self.next.as_slice()
    }

    /// The rate of each client.
    pub fn rates(&self) -> &[u64]
        ensures { result.now ≡ self.now.fair.rates }
    {
        self.rates.as_slice()
    }

    /// Whether each worker is paused.
    pub fn paused(&self) -> &[bool]
        ensures { result.now ≡ self.now.fair.paused }
    {
        self.paused.as_slice()
    }

    /// The workers of hints, in order of pools and hints.
    pub fn hints(&self) -> &[HintWorker]
        ensures { map hint_entry result.now ≡ entries self.now.fair.hints }
    {
        self.hints.known()
    }
}
