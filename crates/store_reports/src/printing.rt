//! A text that is all there is to write.
ghost use Rattle.std.specs.Prelude.{◌≡◌};
ghost use Rattle.session_rules.specs.StoreTexts.{bad_row_line};
ghost use Rattle.store_reports.specs.Causes.{Tells, TellsMade, TellsOrNot, fault_status};
ghost use Rattle.store_reports.specs.Ends.{side_of};

use crate::rows::bad_row_line;
use io_ends::{Sink, write_all};
use keeper_core::{KeepFault, Table};
use std::alloc::Global;
use value_core::{ListOf, NoMemory};

/// Prints a text that is all there is to write, and answers the status: 5 if that failed.
pub fn tell<O: Sink>(out: &mut O, text: &[u8], status: u8) -> u8
    ensures { let side = side_of O.written O.faults in
        Tells text.now status result (side out.old) (side out.new) }
{
    match write_all(out, text) {
        Ok(()) => status,
        Err(_) => 5,
    }
}

/// The same of a text that was made, if there was memory for it.
pub fn tell_made<O: Sink>(out: &mut O, text: Result<ListOf<u8>, NoMemory>, status: u8) -> u8
    ensures { let side = side_of O.written O.faults in
        TellsMade text status result (side out.old) (side out.new) }
{
    match text {
        Ok(text) => tell(out, text.as_slice(), status),
        Err(_) => 7,
    }
}

/// Prints the line of a row that isn't well formed, with status 9.
pub fn tell_bad_row<O: Sink>(alloc: Global, table: Table, number: u64, out: &mut O) -> u8
    ensures { let side = side_of O.written O.faults in
        TellsOrNot (bad_row_line (table, number)) 9 result (side out.old) (side out.new) }
{
    tell_made(out, bad_row_line(alloc, table, number), 9)
}

/// The status of a keeper's fault.
pub fn fault_status(fault: KeepFault) -> u8
    ensures { result ≡ fault_status fault }
{
    match fault {
        KeepFault::Fault => 6,
        KeepFault::NoMemory => 7,
    }
}
