//! Tickets in a row from which the first ones are taken cheaply.
ghost use Rattle.std.specs.Prelude.{◌≡◌, ◌+◌, ◌<◌, ◌≤◌, [], insert, length, remove, slice_index_or, IfOk, OnOk};

use crate::room::insert_within;
use crate::ticket::Ticket;
use std::alloc::Global;
use std::marker::Model;
use std::mem;
use value_core::NoMemory;

/// Tickets in a row, in front of which stand blanks in place of those that were taken.
#[derive(Drop)]
pub(crate) struct Tickets {
    row: Vec<Ticket>,
    /// How many blanks there are.
    blanks: usize,
}

impl Model for Tickets {
    ghost use Rattle.std.specs.Prelude.{◌-◌, ◌≤◌, drop, length};
    ghost use Rattle.std.specs.Vec.{vec_capacity};
    ghost use Rattle.fair_pool.specs.KeptCodes.{tickets_code};
    ghost use Rattle.fair_pool.specs.Kept.{TicketsState};

    ghost Value = { TicketsState };

    ghost coded = { tickets_code };

    ghost view = { λ t. record {
      items = drop t.blanks t.row.items;
      room = vec_capacity t.row - t.blanks;
    } };

    ghost invariant = { λ t. t.blanks ≤ length t.row.items };
}

fn copy_of_tickets(alloc: Global, tickets: &[Ticket]) -> Result<Vec<Ticket>, NoMemory>
    ensures { IfOk result (λ ks. ks.items ≡ tickets.now) }
{
    let mut copies = Vec::new(alloc);
    for ticket in tickets {
        copies.push(ticket.copy(alloc)?)?;
    }
    Ok(copies)
}

impl Tickets {
    ghost use Rattle.fair_pool.specs.Kept.{TicketsState};

    pub(crate) fn new(alloc: Global) -> Tickets
        ensures { result.items ≡ [] }
    {
        Tickets {
            row: Vec::new(alloc),
            blanks: 0,
        }
    }

    pub(crate) fn as_slice(&self) -> &[Ticket]
        ensures { result.now ≡ self.now.items }
    {
        &self.row[self.blanks..]
    }

    /// The ticket of an index.
    pub(crate) fn get(&self, at: usize) -> &Ticket
        requires { at < length self.now.items }
        ensures { result.now ≡ slice_index_or self.now.items at result.now }
    {
        &self.row[self.blanks + at]
    }

    fn len(&self) -> usize
        ensures { result ≡ length self.now.items }
    {
        self.row.len() - self.blanks
    }

    /// Puts a ticket in before the one of this index; there is room for it.
    pub(crate) fn insert(&mut self, at: usize, ticket: Ticket)
        requires within { at ≤ length self.old.items }
        requires room { length self.old.items < self.old.room }
        ensures items { self.new.items ≡ insert self.old.items at ticket }
        ensures room { self.new.room ≡ self.old.room }
    {
        insert_within(&mut self.row, self.blanks + at, ticket);
    }

    /// Takes the ticket of an index, and moves those before it.
    fn take_early(&mut self, at: usize) -> Ticket
        requires { at < length self.old.items }
        ensures ticket { result ≡ slice_index_or self.old.items at result }
        ensures items { self.new.items ≡ remove self.old.items at }
        ensures room { self.old.room ≤ self.new.room + 1 }
    {
        let first = self.blanks;
        self.row[first..first + at + 1].rotate_right(1);
        let ticket = mem::replace(&mut self.row[first], Ticket::blank());
        self.blanks += 1;
        ticket
    }

    /// Takes the ticket of an index. The shorter side moves.
    pub(crate) fn remove(&mut self, at: usize) -> Ticket
        requires { at < length self.old.items }
        ensures ticket { result ≡ slice_index_or self.old.items at result }
        ensures items { self.new.items ≡ remove self.old.items at }
        ensures room { self.old.room ≤ self.new.room + 1 }
    {
        if at < self.len() / 2 {
            self.take_early(at)
        } else {
            self.row.remove(self.blanks + at)
        }
    }

    /// Moves the tickets to where the blanks are.
    fn close_up(&mut self)
        ensures items { self.new.items ≡ self.old.items }
        ensures room { self.old.room ≤ self.new.room }
    {
        let left = self.len();
        self.row.as_mut_slice().rotate_left(self.blanks);
        self.row.truncate(left);
        self.blanks = 0;
    }

    /// Makes room for so many more tickets. Blanks go once there are as many as tickets.
    pub(crate) fn reserve(&mut self, more: usize) -> Result<(), NoMemory>
        ensures items { self.new.items ≡ self.old.items }
        ensures room { self.old.room ≤ self.new.room }
        ensures ok { OnOk result (length self.old.items + more ≤ self.new.room) }
    {
        if self.len() <= self.blanks {
            self.close_up();
        }
        self.row.reserve(more)
    }

    /// Equal tickets.
    pub(crate) fn copy(&self, alloc: Global) -> Result<Tickets, NoMemory>
        ensures items { IfOk result (λ t. t.items ≡ self.now.items) }
        ensures room { IfOk result (λ t. length self.now.items ≤ t.room) }
    {
        Ok(Tickets {
            row: copy_of_tickets(alloc, self.as_slice())?,
            blanks: 0,
        })
    }
}
