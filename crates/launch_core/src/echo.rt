//! A launcher that runs nothing.
ghost use Rattle.std.specs.Prelude.{◌≡◌, [], Some, IfOk};
ghost use Rattle.launch_core.specs.Launching.{HasWords, AddsRun};
ghost use Rattle.launch_core.specs.Memory.{last_word, echo};

use crate::copying::copy_of_runs;
use crate::launcher::Launcher;
use op_keys::{Exit, Order};
use std::alloc::{AllocError, Global};
use std::marker::Model;
use value_core::{ListOf, NoMemory};

/// Answers each order with its last word, as a child process that prints it would. It fails only
/// when out of memory, and has a ghost record of its runs.
#[derive(Drop)]
pub struct EchoLauncher {
    alloc: Global,
    runs: ListOf<(Order, Exit)>,
}

impl Model for EchoLauncher {
    ghost use Rattle.launch_core.specs.Launching.{Runs};

    ghost Value = { Runs };

    ghost view = { λ s. s.runs };
}

impl EchoLauncher {
    /// No order was run.
    pub fn new(alloc: Global) -> EchoLauncher
        ensures { result ≡ [] }
    {
        EchoLauncher {
            alloc,
            runs: ListOf::new(alloc),
        }
    }
}

fn echo_of(alloc: Global, order: &Order) -> Result<Exit, NoMemory>
    requires { HasWords order.now }
    ensures { IfOk result (λ exit. exit ≡ echo order.now) }
{
    let words = order.words.as_slice();
    let word = words[words.len() - 1].as_str();
    Ok(Exit::Ended {
        code: Some(0),
        output: ListOf::from_vec(Vec::from_slice(alloc, word.as_bytes())?),
    })
}

impl Clone for EchoLauncher {
    ghost is_clone = { λ launcher copy. copy ≡ launcher };

    fn clone(&self) -> Result<EchoLauncher, AllocError> {
        Ok(EchoLauncher {
            alloc: self.alloc,
            runs: copy_of_runs(self.alloc, self.runs.as_slice())?,
        })
    }
}

impl Launcher for EchoLauncher {
    ghost runs = { λ runs. Some runs };

    ghost faults = { λ _. 0 };

    fn run(&mut self, alloc: Global, order: &Order) -> Result<Exit, NoMemory>
        requires { HasWords order.now }
        ensures echoes { IfOk result (λ exit. exit ≡ echo order.now) }
        ensures ran { AddsRun (Some self.old) order.now result (Some self.new) }
    {
        let exit = echo_of(alloc, order)?;
        let run = (order.copy(alloc)?, exit.copy(alloc)?);
        self.runs.push(run)?;
        Ok(exit)
    }
}
