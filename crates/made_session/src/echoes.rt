//! A launcher that echoes orders, and counts them.
ghost use Rattle.std.specs.Prelude.{◌≡◌, [], Some, length};
ghost use Rattle.made_session.specs.inside.Echoes.{AreEchoed};

use launch_core::{EchoLauncher, Launcher};
use op_keys::{Exit, Order};
use std::alloc::Global;
use std::marker::Model;
use value_core::NoMemory;

/// Echoes orders, and counts those that it has run.
#[derive(Drop)]
pub(crate) struct CountedEchoes {
    echoes: EchoLauncher,
    /// The jobs whose orders were run.
    jobs: Vec<u64>,
}

impl Model for CountedEchoes {
    ghost use Rattle.std.specs.Prelude.{◌≡◌, length};
    ghost use Rattle.launch_core.specs.Launching.{Runs};
    ghost use Rattle.made_session.specs.inside.Echoes.{AreEchoed};

    ghost Value = { Runs };

    ghost view = { λ l. l.echoes };

    ghost invariant = { λ l. AreEchoed l.echoes × (length l.jobs.items ≡ length l.echoes) };
}

impl CountedEchoes {
    /// No order was run.
    pub(crate) fn new(alloc: Global) -> CountedEchoes
        ensures { result ≡ [] }
    {
        CountedEchoes {
            echoes: EchoLauncher::new(alloc),
            jobs: Vec::new(alloc),
        }
    }

    /// How many orders were run.
    pub(crate) fn count(&self) -> usize
        ensures count { result ≡ length self.now }
        ensures echoed { AreEchoed self.now }
    {
        self.jobs.len()
    }
}

impl Launcher for CountedEchoes {
    ghost runs = { λ runs. Some runs };

    ghost faults = { λ _. 0 };

    fn run(&mut self, alloc: Global, order: &Order) -> Result<Exit, NoMemory> {
        self.jobs.push(order.job)?;
        match self.echoes.run(alloc, order) {
            Ok(exit) => Ok(exit),
            Err(fault) => {
                self.jobs.pop();
                Err(fault)
            }
        }
    }
}
