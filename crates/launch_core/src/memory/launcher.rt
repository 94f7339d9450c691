//! A launcher in memory.
ghost use Rattle.std.specs.Prelude.{◌≡◌, ◌≤◌, [], Some, IfOk, OnOk, OnErr};
ghost use Rattle.launch_core.specs.Launching.{HasWords, AddsRun, CountsFault};
ghost use Rattle.launch_core.specs.Memory.{next_exit, exits_later};

use crate::copying::{copy_of_exits, copy_of_runs};
use crate::launcher::Launcher;
use op_keys::{Exit, Order};
use std::alloc::{AllocError, Global};
use std::marker::Model;
use value_core::{ListOf, NoMemory};

/// Answers orders with the exits that it was given, in order. A `Fault` among them is a run that is
/// to fail, and once all are answered each run fails.
#[derive(Drop)]
pub struct LauncherInMemory {
    alloc: Global,
    exits: Vec<Exit>,
    runs: ListOf<(Order, Exit)>,
    faults: u64,
}

impl Model for LauncherInMemory {
    ghost use Rattle.launch_core.specs.Memory.{Planned};

    ghost Value = { Planned };

    ghost view = { λ s. record { exits = s.exits.items; runs = s.runs; faults = s.faults } };
}

impl LauncherInMemory {
    /// The exits to come. No order was run.
    pub fn new(alloc: Global, exits: Vec<Exit>) -> LauncherInMemory
        ensures { result ≡ record { exits = exits.items; runs = []; faults = 0 } }
    {
        LauncherInMemory {
            alloc,
            exits,
            runs: ListOf::new(alloc),
            faults: 0,
        }
    }

    /// The exits to come.
    pub fn exits(&self) -> &[Exit]
        ensures { result.now ≡ self.now.exits }
    {
        self.exits.as_slice()
    }

    /// The orders that were run, each with its exit.
    pub fn runs(&self) -> &[(Order, Exit)]
        ensures { result.now ≡ self.now.runs }
    {
        self.runs.as_slice()
    }
}

fn copy_of_next(alloc: Global, exits: &[Exit]) -> Result<Exit, NoMemory>
    ensures { IfOk result (λ exit. exit ≡ next_exit exits.now) }
{
    match exits.first() {
        Some(exit) => exit.copy(alloc),
        None => Ok(Exit::Fault),
    }
}

impl Clone for LauncherInMemory {
    ghost is_clone = { λ launcher copy. copy ≡ launcher };

    fn clone(&self) -> Result<LauncherInMemory, AllocError> {
        Ok(LauncherInMemory {
            alloc: self.alloc,
            exits: copy_of_exits(self.alloc, self.exits.as_slice())?,
            runs: copy_of_runs(self.alloc, self.runs.as_slice())?,
            faults: self.faults,
        })
    }
}

impl Launcher for LauncherInMemory {
    ghost runs = { λ s. Some s.runs };

    ghost faults = { λ s. s.faults };

    fn run(&mut self, alloc: Global, order: &Order) -> Result<Exit, NoMemory>
        requires { HasWords order.now }
        ensures next { IfOk result (λ exit. exit ≡ next_exit self.old.exits) }
        ensures taken { OnOk result (self.new.exits ≡ exits_later self.old.exits) }
        ensures ran { AddsRun (Some self.old.runs) order.now result (Some self.new.runs) }
        ensures later { self.old.faults ≤ self.new.faults }
        ensures counted { CountsFault self.old.faults self.new.faults result }
        ensures err { OnErr result (self.new ≡ self.old) }
    {
        let exit = copy_of_next(alloc, self.exits.as_slice())?;
        let run = (order.copy(alloc)?, exit.copy(alloc)?);
        self.runs.push(run)?;
        if !self.exits.is_empty() {
            self.exits.remove(0);
        }
        if let Exit::Fault = exit {
            self.faults = self.faults.saturating_add(1);
        }
        Ok(exit)
    }
}
