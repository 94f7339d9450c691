//! What is declared, by names and by numbers.
ghost use Rattle.std.specs.Prelude.{◌≡◌, ◌<◌, ◌≤◌, length, slice_get, IfOk};
ghost use Rattle.op_keys.specs.Names.{client_index};
ghost use Rattle.fair_pool.specs.Layouts.{layout_of_lists, pool_number, client_number, worker_number, worker_pool, capacity_of, hold_of};
ghost use Rattle.fair_pool.specs.Sound.{IsLayoutSound};

use op_keys::{ClientDecl, PoolDecl, WorkerDecl, index_of};
use std::alloc::Global;
use std::marker::Model;
use value_core::{NoMemory, Text};

/// The index of the first client of this pool and name, or how many there are.
fn index_of_client(clients: &[ClientDecl], pool: &str, name: &str) -> usize
    ensures index { result ≡ client_index 0 clients.now pool.now name.now }
    ensures within { result ≤ length clients.now }
{
    for (i, client) in clients.iter().enumerate() {
        if client.pool.as_str() == pool && client.name.as_str() == name {
            return i;
        }
    }
    clients.len()
}

fn copy_of_pools(alloc: Global, pools: &[PoolDecl]) -> Result<Vec<PoolDecl>, NoMemory>
    ensures { IfOk result (λ ds. ds.items ≡ pools.now) }
{
    let mut copies = Vec::new(alloc);
    for pool in pools {
        copies.push(pool.copy(alloc)?)?;
    }
    Ok(copies)
}

fn copy_of_clients(alloc: Global, clients: &[ClientDecl]) -> Result<Vec<ClientDecl>, NoMemory>
    ensures { IfOk result (λ ds. ds.items ≡ clients.now) }
{
    let mut copies = Vec::new(alloc);
    for client in clients {
        copies.push(client.copy(alloc)?)?;
    }
    Ok(copies)
}

fn copy_of_workers(alloc: Global, workers: &[WorkerDecl]) -> Result<Vec<WorkerDecl>, NoMemory>
    ensures { IfOk result (λ ds. ds.items ≡ workers.now) }
{
    let mut copies = Vec::new(alloc);
    for worker in workers {
        copies.push(worker.copy(alloc)?)?;
    }
    Ok(copies)
}

/// Pools, clients and workers, each list in file order.
#[derive(Drop)]
pub(crate) struct Declared {
    pools: Vec<PoolDecl>,
    clients: Vec<ClientDecl>,
    workers: Vec<WorkerDecl>,
}

impl Model for Declared {
    ghost use Rattle.fair_pool.specs.Codes.{layout_code};
    ghost use Rattle.fair_pool.specs.Layouts.{Layout};
    ghost use Rattle.fair_pool.specs.Sound.{IsLayoutSound};

    ghost Value = { Layout };

    ghost coded = { layout_code };

    ghost view = { λ d. record {
      pools = d.pools.items;
      clients = d.clients.items;
      workers = d.workers.items;
    } };

    ghost invariant = { λ d. IsLayoutSound (record {
      pools = d.pools.items;
      clients = d.clients.items;
      workers = d.workers.items;
    }) };
}

impl Declared {
    ghost use Rattle.fair_pool.specs.Layouts.{Layout};

    /// The declarations of these lists.
    pub(crate) fn copy_of(
        alloc: Global,
        pools: &[PoolDecl],
        clients: &[ClientDecl],
        workers: &[WorkerDecl],
    ) -> Result<Declared, NoMemory>
        requires { IsLayoutSound (layout_of_lists pools.now clients.now workers.now) }
        ensures { IfOk result (λ l. l ≡ layout_of_lists pools.now clients.now workers.now) }
    {
        let pools = copy_of_pools(alloc, pools)?;
        let clients = copy_of_clients(alloc, clients)?;
        let workers = copy_of_workers(alloc, workers)?;
        Ok(Declared {
            pools,
            clients,
            workers,
        })
    }

    /// Equal declarations.
    pub(crate) fn copy(&self, alloc: Global) -> Result<Declared, NoMemory>
        ensures { IfOk result (λ l. l ≡ self.now) }
    {
        Declared::copy_of(
            alloc,
            self.pools.as_slice(),
            self.clients.as_slice(),
            self.workers.as_slice(),
        )
    }

    pub(crate) fn pools(&self) -> &[PoolDecl]
        ensures pools { result.now ≡ self.now.pools }
        ensures few { length result.now ≤ 16 }
    {
        self.pools.as_slice()
    }

    pub(crate) fn clients(&self) -> &[ClientDecl]
        ensures clients { result.now ≡ self.now.clients }
        ensures few { length result.now ≤ 64 }
    {
        self.clients.as_slice()
    }

    pub(crate) fn workers(&self) -> &[WorkerDecl]
        ensures workers { result.now ≡ self.now.workers }
        ensures few { length result.now ≤ 8 }
    {
        self.workers.as_slice()
    }

    /// The number of a pool, or how many there are.
    pub(crate) fn pool_number(&self, name: &str) -> usize
        ensures number { result ≡ pool_number self.now.pools name.now }
        ensures few { length self.now.pools ≤ 16 }
    {
        index_of(self.pools(), name)
    }

    /// The number of a client, or how many there are.
    pub(crate) fn client_number(&self, pool: &str, name: &str) -> usize
        ensures number { result ≡ client_number self.now.clients pool.now name.now }
        ensures few { length self.now.clients ≤ 64 }
    {
        index_of_client(self.clients(), pool, name)
    }

    /// The number of a worker, or how many there are.
    pub(crate) fn worker_number(&self, name: &str) -> usize
        ensures number { result ≡ worker_number self.now.workers name.now }
        ensures few { length self.now.workers ≤ 8 }
    {
        index_of(self.workers(), name)
    }

    /// The number of a worker's pool.
    pub(crate) fn worker_pool(&self, worker: u32) -> usize
        requires { worker < length self.now.workers }
        ensures pool { result ≡ worker_pool self.now (slice_get self.now.workers worker) }
        ensures within { result < length self.now.pools }
    {
        index_of(self.pools(), self.workers[worker as usize].pool.as_str())
    }

    /// How many jobs a worker runs at once.
    pub(crate) fn capacity(&self, worker: u32) -> u64
        ensures { result ≡ capacity_of (slice_get self.now.workers worker) }
    {
        match self.workers.get(worker as usize) {
            Some(decl) => decl.capacity,
            None => 0,
        }
    }

    /// For how long a ticket of a pool waits for its hint's worker.
    pub(crate) fn hold(&self, pool: u32) -> u64
        ensures { result ≡ hold_of (slice_get self.now.pools pool) }
    {
        match self.pools.get(pool as usize) {
            Some(decl) => decl.hold,
            None => 0,
        }
    }
}
