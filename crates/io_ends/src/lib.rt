//! Ends through which a program meets the outside: sources, sinks, files, clocks and listeners.
#![tactic(auto)]

mod connections;
mod ends;
mod lines;
mod memory;
mod piece;
mod real;
mod writing;

pub use connections::{Accepted, Duplex, Listener};
pub use ends::{Clock, Failed, FileFault, FileRead, Files, Sink, Source};
pub use lines::{Line, LineFault, LineReader};
pub use memory::{
    ClockInMemory, ConnInMemory, FilesInMemory, HeldFile, ListenerInMemory, SinkInMemory,
    SourceInMemory, SteadyFiles, SteadySink, SteadySource,
};
pub use real::{Reading, RealClock, RealFiles, Writing};
pub use writing::write_all;

#[cfg(test)]
mod tests;
