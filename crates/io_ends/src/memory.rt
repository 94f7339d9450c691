//! Ends in memory. Those that never fail have counts that stay 0; the others have a list of the
//! calls that are to fail. Each end has its room from its making.

mod calls;
mod clock;
mod connection;
mod files;
mod held;
mod listener;
mod sink;
mod source;

pub use clock::ClockInMemory;
pub use connection::ConnInMemory;
pub use files::{FilesInMemory, SteadyFiles};
pub use held::HeldFile;
pub use listener::ListenerInMemory;
pub use sink::{SinkInMemory, SteadySink};
pub use source::{SourceInMemory, SteadySource};
