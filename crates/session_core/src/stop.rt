//! Why a session stops.
ghost use Rattle.std.specs.Prelude.{◌≡◌};
ghost use Rattle.session_core.specs.declared.stop.Stop.TheVariants.{NoMemory, WriteFault};

use io_ends::Failed;
use std::alloc::AllocError;

/// Why a session ends before its input does.
#[derive(Clone, Copy, Debug, PartialEq, Eq)]
pub enum Stop {
    /// The input, or a file of an input, could not be read.
    ReadFault,
    WriteFault,
    KeeperFault,
    NoMemory,
    /// The numbers of jobs or versions are used up.
    LimitReached,
}

impl From<AllocError> for Stop {
    ghost from_gives = { λ _ e. e ≡ NoMemory };

    fn from(_e: AllocError) -> Stop {
        Stop::NoMemory
    }
}

/// Only a sink answers this by itself.
impl From<Failed> for Stop {
    ghost from_gives = { λ _ e. e ≡ WriteFault };

    fn from(_e: Failed) -> Stop {
        Stop::WriteFault
    }
}
