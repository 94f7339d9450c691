//! Launchers and signallers in memory.
mod launcher;
mod signaller;

pub use launcher::LauncherInMemory;
pub use signaller::SignallerInMemory;
