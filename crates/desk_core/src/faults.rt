//! Why a desk doesn't do what it is asked.
ghost use Rattle.std.specs.Prelude.{◌≡◌};
ghost use Rattle.desk_core.specs.inside.Faults.{keeper_fault, refusal_fault, table_fault};

use core_rules::Refusal;
use keeper_core::{KeepFault, Table, TableFault};

/// What closed a desk.
#[derive(Clone, Copy, Debug, PartialEq, Eq)]
pub enum ClosedBy {
    /// Its keeper failed.
    Keeper,
}

/// Why a desk doesn't do what it is asked.
#[derive(Clone, Copy, Debug, PartialEq, Eq)]
pub enum DeskFault {
    /// The core refuses the event, or to open.
    Refused(Refusal),
    /// The keeper failed, and has counted it. A desk that was open is closed.
    Keeper,
    /// This row, counted from 1 in its table, is the first that isn't well formed.
    BadRow(Table, u64),
    /// An earlier call closed the desk.
    Closed(ClosedBy),
    NoMemory,
}

impl From<Refusal> for DeskFault {
    ghost from_gives = { λ r e. e ≡ refusal_fault r };

    fn from(refusal: Refusal) -> DeskFault {
        match refusal {
            Refusal::NoMemory => DeskFault::NoMemory,
            refusal => DeskFault::Refused(refusal),
        }
    }
}

impl From<KeepFault> for DeskFault {
    ghost from_gives = { λ f e. e ≡ keeper_fault f };

    fn from(fault: KeepFault) -> DeskFault {
        match fault {
            KeepFault::Fault => DeskFault::Keeper,
            KeepFault::NoMemory => DeskFault::NoMemory,
        }
    }
}

impl From<TableFault> for DeskFault {
    ghost from_gives = { λ f e. e ≡ table_fault f };

    fn from(fault: TableFault) -> DeskFault {
        match fault {
            TableFault::BadRow(table, number) => DeskFault::BadRow(table, number),
            TableFault::NoMemory => DeskFault::NoMemory,
        }
    }
}
