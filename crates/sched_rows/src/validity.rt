//! Until when a row is valid.
ghost use Rattle.std.specs.Prelude.{◌≡◌};
ghost use Rattle.sched_rows.specs.Rows.{ValidityEnds};
ghost use Rattle.sched_rows.specs.Validity.{IsInRange, IsTime, expires, valid};

use crate::row::Row;
use crate::schedule::{next_daily, next_monthly};
use op_keys::Expiry;

/// When a row runs out, in milliseconds since 1970; `None` where it never does. Takes no memory.
pub fn expires(row: &Row, expiry: &Expiry) -> Option<u64>
    requires finished { IsTime row.now.finished }
    requires expiry { IsInRange expiry.now }
    ensures { result ≡ expires expiry.now row.now.finished }
{
    match expiry {
        Expiry::Never => None,
        Expiry::After(n) => Some(row.finished + *n),
        Expiry::Daily { minute, offset } => next_daily(row.finished, *minute, *offset),
        Expiry::Monthly {
            day,
            minute,
            offset,
        } => next_monthly(row.finished, *day, *minute, *offset),
    }
}

/// Whether a row is valid at a moment: it has no rebuild mark and hasn't run out. Takes no memory.
pub fn valid(row: &Row, expiry: &Expiry, now: u64) -> bool
    requires finished { IsTime row.now.finished }
    requires expiry { IsInRange expiry.now }
    ensures { result ≡ valid expiry.now now row.now }
{
    if row.rebuild {
        return false;
    }
    match expires(row, expiry) {
        None => true,
        Some(end) => now < end,
    }
}

/// A row that is valid at one time is so at a later one unless it expires after the first and at
/// the later one at the latest; one that isn't valid stays so.
pub fn validity_law()
    ensures { ValidityEnds }
{}
