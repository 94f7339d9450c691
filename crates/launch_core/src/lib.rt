//! Launchers, which run orders, and signallers, which tell running jobs to stop.
//!
//! `launcher` and `signaller` have the traits. `memory` and `echo` have forms in memory, `children`
//! and `signalled` those over child processes, and `copying` copies lists of them.
#![tactic(auto)]

mod children;
mod copying;
mod echo;
mod launcher;
mod memory;
mod signalled;
mod signaller;

pub use children::{ChildLauncher, OUTPUT_READ};
pub use echo::EchoLauncher;
pub use launcher::{Launcher, ORDER_WORDS};
pub use memory::{LauncherInMemory, SignallerInMemory};
pub use signalled::{ChildSignaller, SignalledLauncher};
pub use signaller::Signaller;

#[cfg(test)]
mod tests;
