//! The trait of launchers.
ghost use Rattle.std.specs.Prelude.{◌≡◌, ◌≤◌, ℕ, Option, Ok};
ghost use Rattle.io_ends.specs.Causes.{Rose};
ghost use Rattle.launch_core.specs.Launching.{Runs, HasWords, AddsRun};

use op_keys::{Exit, Order};
use std::alloc::Global;
use value_core::NoMemory;

/// The greatest number of words of an order.
pub const ORDER_WORDS: usize = 64;

/// Runs orders.
pub trait Launcher {
    /// The orders that were run, each with its exit, if they are known.
    ghost runs: { Self → Option Runs };
    /// How often an order, or a try at one, has failed.
    ghost faults: { Self → ℕ };

    /// Runs an order to its end. Out of memory is no exit, even if the order has run by then.
    fn run(&mut self, alloc: Global, order: &Order) -> Result<Exit, NoMemory>
        requires { HasWords order.now }
        ensures ran { AddsRun (runs self.old) order.now result (runs self.new) }
        ensures later { faults self.old ≤ faults self.new }
        ensures fault { result ≡ Ok Exit.Fault → Rose (faults self.old) (faults self.new) };
}
