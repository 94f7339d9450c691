//! Tables that are loaded to be reported.
ghost use Rattle.std.specs.Prelude.{◌≡◌, IfErr, IfOk};
ghost use Rattle.store_reports.specs.Reading.{IsReportRead, IsReportUnread};
ghost use Rattle.store_reports.specs.inside.Faults.{fault_of_keeper, fault_of_tables};

use keeper_core::{KeepFault, Keeper, Table, TableFault, Tables, read_tables};
use std::alloc::Global;

/// Why nothing is reported of a store.
#[derive(Clone, Copy, Debug, PartialEq, Eq)]
pub enum ReportFault {
    /// This row, counted from 1 in its table, is the first that isn't well formed.
    BadRow(Table, u64),
    /// The keeper failed, and has counted it.
    Keeper,
    NoMemory,
}

impl From<KeepFault> for ReportFault {
    ghost from_gives = { λ f e. e ≡ fault_of_keeper f };

    fn from(fault: KeepFault) -> ReportFault {
        match fault {
            KeepFault::Fault => ReportFault::Keeper,
            KeepFault::NoMemory => ReportFault::NoMemory,
        }
    }
}

impl From<TableFault> for ReportFault {
    ghost from_gives = { λ f e. e ≡ fault_of_tables f };

    fn from(fault: TableFault) -> ReportFault {
        match fault {
            TableFault::BadRow(table, number) => ReportFault::BadRow(table, number),
            TableFault::NoMemory => ReportFault::NoMemory,
        }
    }
}

/// Loads the tables of a keeper, each row of which is well formed.
pub fn read_report<K: Keeper>(alloc: Global, keeper: &mut K) -> Result<Tables, ReportFault>
    ensures read { IfOk result (IsReportRead K.known K.faults keeper.old keeper.new) }
    ensures fault { IfErr result (IsReportUnread K.known K.faults keeper.old keeper.new) }
{
    let tables = keeper.load(alloc)?;
    read_tables(alloc, &tables)?;
    Ok(tables)
}
