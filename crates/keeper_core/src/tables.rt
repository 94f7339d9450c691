//! The tables as they are loaded: each number as the column has it, each text by its bytes.
use value_core::ListOf;

/// The one row of `meta`.
#[derive(Clone, Copy, Debug, PartialEq, Eq)]
pub struct MetaRow {
    pub id: i64,
    /// The number of the schema.
    pub format: i64,
    pub next_job: i64,
}

/// An input's name and the value that it was set to.
#[derive(Debug, Drop)]
pub struct InputRow {
    pub name: ListOf<u8>,
    pub literal: ListOf<u8>,
}

/// A row of results.
#[derive(Debug, Drop)]
pub struct CacheRow {
    pub op: ListOf<u8>,
    /// The SHA-256 of the key.
    pub khash: ListOf<u8>,
    pub ckey: ListOf<u8>,
    pub cvalue: ListOf<u8>,
    pub fine: i64,
    pub result: ListOf<u8>,
    pub finished: i64,
    pub job: i64,
    pub rebuild: i64,
}

/// The key of a row of results.
#[derive(Debug, Drop)]
pub struct CacheKey {
    pub op: ListOf<u8>,
    pub khash: ListOf<u8>,
    pub ckey: ListOf<u8>,
}

/// The columns of a row of results that aren't in its key.
#[derive(Debug, Drop)]
pub struct CacheValue {
    pub cvalue: ListOf<u8>,
    pub fine: i64,
    pub result: ListOf<u8>,
    pub finished: i64,
    pub job: i64,
    pub rebuild: i64,
}

/// A row of results of the first schema, which has no hash.
#[derive(Debug, Drop)]
pub struct OldCacheRow {
    pub op: ListOf<u8>,
    pub ckey: ListOf<u8>,
    pub cvalue: ListOf<u8>,
    pub fine: i64,
    pub result: ListOf<u8>,
    pub finished: i64,
    pub job: i64,
    pub rebuild: i64,
}

/// The key of a row of results of the first schema.
#[derive(Debug, Drop)]
pub struct OldCacheKey {
    pub op: ListOf<u8>,
    pub ckey: ListOf<u8>,
}

/// The tables of the second schema, in the order of loading: inputs by name, results by operation
/// and key, and logs, of which the jobs' numbers alone are loaded.
#[derive(Debug, Drop)]
pub struct Tables {
    pub meta: ListOf<MetaRow>,
    pub inputs: ListOf<InputRow>,
    pub cache: ListOf<CacheRow>,
    pub logs: ListOf<i64>,
}

/// The tables of the first schema, in the same order.
#[derive(Debug, Drop)]
pub struct OldTables {
    pub meta: ListOf<MetaRow>,
    pub inputs: ListOf<InputRow>,
    pub cache: ListOf<OldCacheRow>,
    pub logs: ListOf<i64>,
}

/// A table; `Cache` has the results under both schemas.
#[derive(Clone, Copy, Debug, PartialEq, Eq)]
pub enum Table {
    Meta,
    Inputs,
    Cache,
    Logs,
}
