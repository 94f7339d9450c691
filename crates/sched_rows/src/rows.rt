//! Rows, at most one for an operation's name and a key.
ghost use Rattle.std.specs.Prelude.{◌≡◌, ◌-◌, ◌≤◌, All, IfOk, IfSome, OnErr, OnOk, is_ok, map, max, option_copied};
ghost use Rattle.std.specs.FinMap.{contains_key, entries, get};
ghost use Rattle.sched_rows.specs.Holding.{IsHeldInRange, expiry_entry, row_entry};
ghost use Rattle.sched_rows.specs.RowKeys.{key_of, row_key};
ghost use Rattle.sched_rows.specs.Rows.{IsSound, due_keys, nothing_kept, with_mark, with_row, without_row};
ghost use Rattle.sched_rows.specs.Validity.{IsInRange, IsTime};

use crate::expiry_index::ExpiryIndex;
use crate::holding::Held;
use crate::places::{insert_at, mark_at, remove_at, replace_at, search};
use crate::row::Row;
use op_keys::Expiry;
use std::alloc::Global;
use std::marker::Model;
use value_core::{ListOf, NoMemory, Text};

/// No row stands under this name and key.
#[derive(Clone, Copy, Debug, PartialEq, Eq)]
pub struct NoRow;

/// Rows with their expiries, in the order of names and keys, and room for `spare` rows more.
#[derive(Drop)]
pub struct Rows {
    alloc: Global,
    held: Vec<Held>,
    index: ExpiryIndex,
    spare: usize,
}

impl Model for Rows {
    ghost use Rattle.sched_rows.specs.Rows.{Kept, kept_code};

    ghost Value = { Kept };

    ghost coded = { kept_code };

    ghost use Rattle.sched_rows.specs.Keeping.{IsKept, kept_of};

    ghost view = { kept_of };

    ghost invariant = { IsKept };
}

impl Rows {
    /// No row, and no room.
    pub fn new(alloc: Global) -> Rows
        ensures { result ≡ nothing_kept }
    {
        Rows {
            alloc,
            held: Vec::new(alloc),
            index: ExpiryIndex::new(alloc),
            spare: 0,
        }
    }

    /// The row of an operation's name and a key.
    pub fn get(&self, op: &Text, key: &Text) -> Option<&Row>
        ensures row { option_copied result ≡ get self.now.rows (row_key op.now key.now) }
        ensures time { IfSome result (λ row. IsTime row.now.finished) }
    {
        match search(self.held.as_slice(), op, key) {
            Ok(place) => Some(&self.held[place].row),
            Err(_) => None,
        }
    }

    /// All rows with their expiries, in the order of names and keys.
    pub fn as_slice(&self) -> &[Held]
        ensures rows { map row_entry result.now ≡ entries self.now.rows }
        ensures expiries { map expiry_entry result.now ≡ entries self.now.expiries }
        ensures range { All IsHeldInRange result.now }
    {
        self.held.as_slice()
    }

    /// Makes room for so many rows more.
    pub fn reserve(&mut self, more: usize) -> Result<(), NoMemory>
        ensures ok { OnOk result (self.new ≡ record self.old { spare = max self.old.spare more }) }
        ensures err { OnErr result (self.new ≡ self.old) }
    {
        if more <= self.spare {
            return Ok(());
        }
        self.held.reserve(more)?;
        self.index.reserve(more)?;
        self.spare = more;
        Ok(())
    }

    /// Puts a row in the stead of the one of its name and key, or in beside the others. It uses
    /// none of the room that was there.
    pub fn put(&mut self, row: Row, expiry: &Expiry) -> Result<(), NoMemory>
        requires finished { IsTime row.finished }
        requires expiry { IsInRange expiry.now }
        ensures ok { OnOk result (self.new ≡ with_row row expiry.now self.old) }
        ensures err { OnErr result (self.new ≡ self.old) }
    {
        let more = self.spare + 1;
        self.reserve(more)?;
        self.put_spare(row, expiry);
        Ok(())
    }

    /// Puts a row in as `put` does, with room that was reserved, and hands back the row that it
    /// replaced. Takes no memory.
    pub fn put_spare(&mut self, row: Row, expiry: &Expiry) -> Option<Row>
        requires spare { 1 ≤ self.old.spare }
        requires finished { IsTime row.finished }
        requires expiry { IsInRange expiry.now }
        ensures replaced { result ≡ get self.old.rows (key_of row) }
        ensures after { let put = with_row row expiry.now self.old in
            self.new ≡ record put { spare = self.old.spare - 1 } }
    {
        self.spare -= 1;
        let found = search(self.held.as_slice(), &row.op, &row.key);
        let one = Held {
            row,
            expiry: *expiry,
        };
        match found {
            Ok(place) => {
                let Held { row, expiry: _ } = replace_at(
                    &mut self.held,
                    &mut self.index,
                    place,
                    one,
                );
                Some(row)
            }
            Err(place) => {
                insert_at(&mut self.held, &mut self.index, place, one);
                None
            }
        }
    }

    /// Takes a row out; whether one stood there.
    pub fn void(&mut self, op: &Text, key: &Text) -> bool
        ensures removed { result ≡ contains_key self.old.rows (row_key op.now key.now) }
        ensures after { self.new ≡ without_row (row_key op.now key.now) self.old }
    {
        match search(self.held.as_slice(), op, key) {
            Ok(place) => {
                remove_at(&mut self.held, &mut self.index, place);
                true
            }
            Err(_) => false,
        }
    }

    /// Marks a row, which is to be made anew.
    pub fn mark(&mut self, op: &Text, key: &Text) -> Result<(), NoRow>
        ensures found { is_ok result ≡ contains_key self.old.rows (row_key op.now key.now) }
        ensures after { self.new ≡ with_mark (row_key op.now key.now) self.old }
    {
        match search(self.held.as_slice(), op, key) {
            Ok(place) => {
                mark_at(&mut self.held, &mut self.index, place);
                Ok(())
            }
            Err(_) => Err(NoRow),
        }
    }

    /// The names and keys of the rows without mark that run out after one time and at another at
    /// the latest, in milliseconds since 1970, in the order of names and keys.
    pub fn due(&self, after: u64, upto: u64) -> Result<ListOf<(Text, Text)>, NoMemory>
        ensures { IfOk result (λ keys. keys ≡ due_keys self.now after upto) }
    {
        let places = self.index.places(self.alloc, after, upto)?;
        let mut keys = ListOf::new(self.alloc);
        for place in &places {
            let row = &self.held[*place].row;
            keys.push((row.op.copy(self.alloc)?, row.key.copy(self.alloc)?))?;
        }
        Ok(keys)
    }

    /// Equal rows, without room for more.
    pub fn copy(&self) -> Result<Rows, NoMemory>
        ensures { IfOk result (λ rows. rows ≡ record self.now { spare = 0 }) }
    {
        let mut held = Vec::new(self.alloc);
        for one in &self.held {
            held.push(one.copy(self.alloc)?)?;
        }
        Ok(Rows {
            alloc: self.alloc,
            held,
            index: self.index.copy(self.alloc)?,
            spare: 0,
        })
    }
}

/// Each row stands under its own name and key, beside an expiry, and its numbers are in range.
pub fn rows_law(rows: &Rows)
    ensures { IsSound rows.now }
{
    let _held = &rows.held;
}
