//! A session between two of its steps.
use crate::numbering::Numbering;
use desk_core::Desk;
use keeper_core::Keeper;
use std::alloc::Global;
use std::marker::PhantomData;
use std::sync::ledger::Ledger;
use value_core::Steps;

/// A session between two of its steps.
#[derive(Drop)]
pub struct Session<K: Keeper, G: Ledger, N: Numbering> {
    pub alloc: Global,
    pub desk: Desk<K>,
    /// The evaluations so far.
    pub ticks: Steps<G>,
    /// The last reading of the clock.
    pub last: u64,
    pub numbering: PhantomData<N>,
}
