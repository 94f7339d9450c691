//! The engine behind its keeper.
ghost use Rattle.std.specs.Prelude.{◌≡◌, ◌+◌, ◌<◌, ◌≤◌, IfErr, IfOk, IfSome, OnOk};
ghost use Rattle.core_rules.specs.Entries.{fresh_of};
ghost use Rattle.engine_rules.specs.Proper.{IsProperWhat};
ghost use Rattle.keeper_core.specs.Commits.{IsCommittable};
ghost use Rattle.keeper_core.specs.KeeperCalls.{HasCause};
ghost use Rattle.keeper_core.specs.declared.keeper.KeepFault.TheVariants.{Fault};
ghost use Rattle.desk_core.specs.Desk.{HasClosed, IsApplied, IsDeskOpened, IsLogRead};
ghost use Rattle.desk_core.specs.Desk.{IsNotApplied, IsNotOpened, IsNotRead, start_in};
ghost use Rattle.engine_core.specs.Evaluated.{evaluated};
ghost use Rattle.engine_core.specs.Plans.{IsPlannedFor, delta_planned};
ghost use Rattle.desk_core.specs.inside.Calls.{IsRead, IsUnread};
ghost use Rattle.desk_core.specs.inside.Faults.{IsCommitted, closed_after, keeper_fault};

use crate::faults::{ClosedBy, DeskFault};
use engine_core::{Done, Durable, Engine, Event, Planned, engine_law};
use keeper_core::{KeepFault, Keeper, read_tables};
use op_keys::Level;
use std::alloc::Global;
use std::marker::Model;
use std::sync::ledger::Ledger;
use term_check::Checked;
use value_core::{ListOf, Steps};

/// The engine with the keeper of what its steps store.
#[derive(Drop)]
pub struct Desk<K: Keeper> {
    alloc: Global,
    engine: Engine,
    keeper: K,
    /// What closed the desk, if something did.
    closed: Option<ClosedBy>,
}

impl<K: Keeper> Model for Desk<K> {
    ghost use Rattle.desk_core.specs.Desk.{DeskState, HasClosed, desk_code};

    ghost Value = { DeskState K };

    ghost coded = { desk_code K.code };

    ghost view = { λ d. record { engine = d.engine; keeper = d.keeper; closed = d.closed } };

    ghost invariant = { λ d. HasClosed K.faults d.keeper d.closed };
}

/// What a session opens with, from the tables of a keeper.
fn load_durable<K: Keeper>(alloc: Global, keeper: &mut K) -> Result<Durable, DeskFault>
    ensures read { IfOk result (IsRead K.known K.faults keeper.old keeper.new) }
    ensures fault { IfErr result (IsUnread K.known K.faults keeper.old keeper.new) }
{
    let tables = keeper.load(alloc)?;
    let durable = read_tables(alloc, &tables)?;
    Ok(durable)
}

/// Commits what a plan stores, if it stores something.
fn commit_planned<K: Keeper>(
    alloc: Global,
    keeper: &mut K,
    planned: &Planned,
) -> Result<(), KeepFault>
    requires { IfSome (delta_planned planned.now) IsCommittable }
    ensures stored { IsCommitted K.known (delta_planned planned.now) keeper.old keeper.new result }
    ensures cause { HasCause (K.faults keeper.old) (K.faults keeper.new) result }
{
    match planned.delta() {
        Some(delta) => keeper.commit(alloc, delta),
        None => Ok(()),
    }
}

impl<K: Keeper> Desk<K> {
    /// Loads what the keeper has, opens the engine on it, and commits the opening. Each fault hands
    /// the keeper back.
    pub fn open<L: Ledger>(
        alloc: Global,
        checked: Checked,
        mut keeper: K,
        threshold: Option<Level>,
        at: u64,
        steps: &mut Steps<L>,
    ) -> Result<(Desk<K>, Done), (K, DeskFault)>
        ensures opened { let opens = start_in checked threshold at in
            IfOk result (λ o. IsDeskOpened K.known K.faults opens keeper o.0 o.1) }
        ensures fault { let opens = start_in checked threshold at in
            IfErr result (λ f. IsNotOpened K.known K.faults opens keeper f.0 f.1) }
        ensures ticks { IfOk result (λ o. steps.new ≡ steps.old + (fresh_of o.0.engine.core).ticks) }
        ensures not_fallen { steps.old ≤ steps.new }
    {
        let durable = match load_durable(alloc, &mut keeper) {
            Ok(durable) => durable,
            Err(fault) => return Err((keeper, fault)),
        };
        let (engine, done) = match Engine::open(alloc, checked, durable, threshold, at, steps) {
            Ok(opened) => opened,
            Err(refusal) => return Err((keeper, DeskFault::from(refusal))),
        };
        engine_law(&engine);
        if let Err(fault) = keeper.commit(alloc, &done.delta) {
            return Err((keeper, DeskFault::from(fault)));
        }
        let desk = Desk {
            alloc,
            engine,
            keeper,
            closed: None,
        };
        Ok((desk, done))
    }

    /// Makes the step of an event, and commits what it stores before that. Where the keeper fails
    /// the desk is closed; out of memory, and where the event is refused, all is as before.
    pub fn apply<L: Ledger>(
        &mut self,
        event: Event,
        steps: &mut Steps<L>,
    ) -> Result<Done, DeskFault>
        requires { IsProperWhat event.what }
        ensures done { IfOk result (IsApplied K.known K.faults event self.old self.new) }
        ensures fault { IfErr result (IsNotApplied K.known K.faults event self.old self.new) }
        ensures ticks { OnOk result (steps.new ≡ steps.old + evaluated self.old.engine.core event) }
        ensures not_fallen { steps.old ≤ steps.new }
    {
        if let Some(by) = self.closed {
            return Err(DeskFault::Closed(by));
        }
        engine_law(&self.engine);
        let planned = self.engine.plan(event, steps)?;
        match commit_planned(self.alloc, &mut self.keeper, &planned) {
            Ok(()) => Ok(self.engine.install(planned)),
            Err(fault) => Err(self.give_up(planned, fault)),
        }
    }

    /// Gives up a step that couldn't be committed.
    fn give_up(&mut self, planned: Planned, fault: KeepFault) -> DeskFault
        requires fits { IsPlannedFor planned self.old.engine }
        requires counted { fault ≡ Fault → 0 < K.faults self.old.keeper }
        ensures fault { result ≡ keeper_fault fault }
        ensures closed { self.new ≡ record self.old { closed = closed_after fault self.old.closed } }
    {
        self.engine.abandon(planned);
        self.fail(fault)
    }

    /// Closes the desk if its keeper failed.
    fn fail(&mut self, fault: KeepFault) -> DeskFault
        requires { fault ≡ Fault → 0 < K.faults self.old.keeper }
        ensures fault { result ≡ keeper_fault fault }
        ensures closed { self.new ≡ record self.old { closed = closed_after fault self.old.closed } }
    {
        if let KeepFault::Fault = fault {
            self.closed = Some(ClosedBy::Keeper);
        }
        DeskFault::from(fault)
    }

    /// The stored bytes of a job's output, if the job has a log. Where the keeper fails the desk is
    /// closed.
    pub fn log_of(&mut self, job: u64) -> Result<Option<ListOf<u8>>, DeskFault>
        ensures log { IfOk result (IsLogRead K.known K.faults job self.old self.new) }
        ensures fault { IfErr result (IsNotRead K.known K.faults self.old self.new) }
    {
        if let Some(by) = self.closed {
            return Err(DeskFault::Closed(by));
        }
        match self.keeper.log_of(self.alloc, job) {
            Ok(log) => Ok(log),
            Err(fault) => Err(self.fail(fault)),
        }
    }

    /// What closed the desk, if it is closed. Takes no memory.
    pub fn closed(&self) -> Option<ClosedBy>
        ensures closed { result ≡ self.now.closed }
        ensures cause { HasClosed K.faults self.now.keeper result }
    {
        self.closed
    }

    /// The engine. Takes no memory.
    pub fn engine(&self) -> &Engine
        ensures { result.now ≡ self.now.engine }
    {
        &self.engine
    }

    /// The keeper. Takes no memory.
    pub fn keeper(&self) -> &K
        ensures { result.now ≡ self.now.keeper }
    {
        &self.keeper
    }

    /// The keeper, back. Takes no memory.
    pub fn into_keeper(self) -> K
        ensures { result ≡ self.keeper }
    {
        let Desk {
            alloc: _,
            engine: _,
            keeper,
            closed: _,
        } = self;
        keeper
    }
}
