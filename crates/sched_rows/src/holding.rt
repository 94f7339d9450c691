//! A row beside its expiry.
ghost use Rattle.std.specs.Prelude.{◌≡◌, IfOk};

use crate::row::Row;
use op_keys::Expiry;
use std::alloc::Global;
use value_core::NoMemory;

/// A row with the expiry that it was kept with.
#[derive(Drop)]
pub struct Held {
    pub row: Row,
    pub expiry: Expiry,
}

impl Held {
    /// An equal one.
    pub(crate) fn copy(&self, alloc: Global) -> Result<Held, NoMemory>
        ensures { IfOk result (λ h. h ≡ self.now) }
    {
        Ok(Held {
            row: self.row.copy(alloc)?,
            expiry: self.expiry,
        })
    }
}
