//! What a pipeline file declares beside its inputs and nodes.
ghost use Rattle.std.specs.Prelude.{◌≡◌, IfOk};

use crate::level::Level;
use std::alloc::Global;
use value_core::{ListOf, NoMemory, Text};

/// When a result of an operation expires.
#[derive(Clone, Copy, Debug, PartialEq, Eq)]
pub enum Expiry {
    Never,
    /// So many milliseconds after it was finished.
    After(u64),
    /// At each day's minute, in a zone so many minutes east of the clock; negative for west.
    Daily { minute: u32, offset: i32 },
    /// At the minute of this day of each month, in such a zone.
    Monthly { day: u32, minute: u32, offset: i32 },
}

/// An operation that terms may look up.
#[derive(Drop)]
pub struct OpDecl {
    pub name: Text,
    /// Whether it sets a key to a value, rather than makes a value of a key.
    pub output: bool,
    pub pool: Text,
    pub client: Text,
    /// The cost of an order whose hint has no worker yet.
    pub full: u64,
    /// The cost of an order whose hint has a worker.
    pub cached: u64,
    /// A template, as the words are.
    pub hint: Option<Text>,
    pub urgent: bool,
    pub level: Level,
    pub expiry: Expiry,
    /// Whether a result is kept in view while a newer one is made.
    pub latched: bool,
    /// Whether a running job goes on when nothing refers to it any more.
    pub no_cancel: bool,
    /// Templates, in which `{key}` and `{value}` are replaced by the order's key and value.
    pub words: ListOf<Text>,
}

/// A pool of workers.
#[derive(Drop)]
pub struct PoolDecl {
    pub name: Text,
    /// For how many milliseconds an order waits for its hint's worker.
    pub hold: u64,
}

/// A client of one pool, with its rate there.
#[derive(Drop)]
pub struct ClientDecl {
    pub name: Text,
    pub pool: Text,
    pub rate: u64,
}

/// A worker of one pool.
#[derive(Drop)]
pub struct WorkerDecl {
    pub name: Text,
    pub pool: Text,
    /// How many orders it runs at once.
    pub capacity: u64,
}

fn copy_of_hint(alloc: Global, hint: &Option<Text>) -> Result<Option<Text>, NoMemory>
    ensures { IfOk result (λ h. h ≡ hint.now) }
{
    match hint {
        Some(template) => Ok(Some(template.copy(alloc)?)),
        None => Ok(None),
    }
}

fn copy_of_texts(alloc: Global, texts: &ListOf<Text>) -> Result<ListOf<Text>, NoMemory>
    ensures { IfOk result (λ ts. ts ≡ texts.now) }
{
    let mut copies = ListOf::new(alloc);
    for text in texts.as_slice() {
        copies.push(text.copy(alloc)?)?;
    }
    Ok(copies)
}

impl OpDecl {
    /// An equal declaration.
    pub fn copy(&self, alloc: Global) -> Result<OpDecl, NoMemory>
        ensures { IfOk result (λ d. d ≡ self.now) }
    {
        Ok(OpDecl {
            name: self.name.copy(alloc)?,
            output: self.output,
            pool: self.pool.copy(alloc)?,
            client: self.client.copy(alloc)?,
            full: self.full,
            cached: self.cached,
            hint: copy_of_hint(alloc, &self.hint)?,
            urgent: self.urgent,
            level: self.level,
            expiry: self.expiry,
            latched: self.latched,
            no_cancel: self.no_cancel,
            words: copy_of_texts(alloc, &self.words)?,
        })
    }
}

impl PoolDecl {
    /// An equal declaration.
    pub fn copy(&self, alloc: Global) -> Result<PoolDecl, NoMemory>
        ensures { IfOk result (λ d. d ≡ self.now) }
    {
        Ok(PoolDecl {
            name: self.name.copy(alloc)?,
            hold: self.hold,
        })
    }
}

impl ClientDecl {
    /// An equal declaration.
    pub fn copy(&self, alloc: Global) -> Result<ClientDecl, NoMemory>
        ensures { IfOk result (λ d. d ≡ self.now) }
    {
        Ok(ClientDecl {
            name: self.name.copy(alloc)?,
            pool: self.pool.copy(alloc)?,
            rate: self.rate,
        })
    }
}

impl WorkerDecl {
    /// An equal declaration.
    pub fn copy(&self, alloc: Global) -> Result<WorkerDecl, NoMemory>
        ensures { IfOk result (λ d. d ≡ self.now) }
    {
        Ok(WorkerDecl {
            name: self.name.copy(alloc)?,
            pool: self.pool.copy(alloc)?,
            capacity: self.capacity,
        })
    }
}
