//! A listener in memory.

ghost use Rattle.std.specs.Prelude.{◌≡◌, All, IfNone, IfOk, IfSome, None, Some, map};
ghost use Rattle.io_ends.specs.Listening.{IsUnused, heard_nothing, written_on};

use super::calls::FailingCalls;
use super::connection::ConnInMemory;
use crate::connections::{Accepted, Listener};
use crate::ends::Failed;
use std::alloc::{AllocError, Global};
use std::marker::Model;

/// Connections that come in order, with a list of the calls of `accept` that are to fail. It keeps
/// those that come back while its room lasts.
#[derive(Drop)]
pub struct ListenerInMemory {
    conns: Vec<ConnInMemory>,
    calls: FailingCalls,
    back: Vec<ConnInMemory>,
    is_whole: bool,
}

impl Model for ListenerInMemory {
    ghost use Rattle.io_ends.specs.Listening.{Heard};

    ghost Value = { Heard };

    ghost use Rattle.std.specs.Prelude.{All, Some, None, if◌then◌else◌, map};
    ghost use Rattle.io_ends.specs.Listening.{IsUnused, left_in, written_on};

    ghost view = { λ l. record {
      to_come = map left_in l.conns.items;
      given_back = if l.is_whole then Some (map written_on l.back.items) else None;
      faults = l.calls.faults;
    } };

    ghost invariant = { λ l. All IsUnused l.conns.items };
}

impl ListenerInMemory {
    /// The connections to come, and room for `room` that come back. The calls with these numbers,
    /// counted from 1, fail.
    pub fn new(
        alloc: Global,
        conns: Vec<ConnInMemory>,
        room: usize,
        fails: Vec<u64>,
    ) -> Result<ListenerInMemory, AllocError>
        requires { All IsUnused conns.items }
        ensures { IfOk result (λ listener. listener ≡ heard_nothing conns.items) }
    {
        Ok(ListenerInMemory {
            conns,
            calls: FailingCalls::new(fails),
            back: Vec::with_capacity(alloc, room)?,
            is_whole: true,
        })
    }

    /// The connections that came back, unless they are more than there is room for.
    pub fn back(&self) -> Option<&[ConnInMemory]>
        ensures some { let given = self.now.given_back in
            IfSome result (λ back. given ≡ Some (map written_on back.now)) }
        ensures none { IfNone result (self.now.given_back ≡ None) }
    {
        self.is_whole.then_some(self.back.as_slice())
    }
}

impl Listener for ListenerInMemory {
    type Conn = ConnInMemory;

    ghost to_come = { λ l. Some l.to_come };

    ghost given_back = { λ l. l.given_back };

    ghost faults = { λ l. l.faults };

    fn accept(&mut self) -> Result<Accepted<ConnInMemory>, Failed> {
        if self.calls.next_fails() {
            return Err(Failed);
        }
        if self.conns.is_empty() {
            return Ok(Accepted::End);
        }
        Ok(Accepted::Conn(self.conns.remove(0)))
    }

    fn give_back(&mut self, conn: ConnInMemory) {
        if self.back.len() < self.back.capacity() {
            self.back.push_reserved(conn);
        } else {
            self.is_whole = false;
        }
    }
}
