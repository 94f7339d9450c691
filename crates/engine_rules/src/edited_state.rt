//! A state after an event's own change, before its jobs are settled: what an evaluation looks up.
ghost use Rattle.std.specs.Prelude.{◌≡◌};
ghost use Rattle.engine_rules.specs.Edits.{MayEdit, edited};

use crate::edits::Edit;
use crate::finding::entry_after;
use crate::lookups::Lookups;
use core_rules::Own;
use std::alloc::Global;
use std::marker::Model;
use term_core::{Entries, Entry};
use value_core::{NoMemory, Stage, Triple};

/// Look-ups of the stages of jobs after a change that isn't made yet.
pub trait Stages: Lookups {
    ghost use Rattle.std.specs.Prelude.{◌≡◌};
    ghost use Rattle.engine_rules.specs.Edits.{MayOwn};
    ghost use Rattle.engine_rules.specs.Found.{stage_after};

    /// The stage of the live job of a triple after a change among the jobs.
    fn stage_after(&self, own: &Own, triple: &Triple) -> Option<Stage>
        requires { MayOwn (Self.state self.now) own.now }
        ensures { result ≡ stage_after (Self.state self.now) own.now triple.now };
}

/// A state with a change that isn't made yet, seen as the state that the change makes.
#[derive(Drop)]
pub struct EditedState<'a, P: Stages> {
    parts: &'a P,
    edit: &'a Edit,
}

impl<'a, P: Stages> Model for EditedState<'a, P> {
    ghost use Rattle.core_rules.specs.Codes.{core_state_code};
    ghost use Rattle.core_rules.specs.Core.{CoreState};
    ghost use Rattle.engine_rules.specs.Edits.{MayEdit, edited};

    ghost Value = { CoreState };

    ghost coded = { core_state_code };

    ghost view = { λ a. edited a.edit.now (P.state a.parts.now) };

    ghost invariant = { λ a. MayEdit (P.state a.parts.now) a.edit.now };
}

impl<'a, P: Stages> EditedState<'a, P> {
    /// The state that a change makes.
    pub fn of(parts: &'a P, edit: &'a Edit) -> EditedState<'a, P>
        requires { MayEdit (P.state parts.now) edit.now }
        ensures { result ≡ edited edit.now (P.state parts.now) }
    {
        EditedState { parts, edit }
    }
}

impl<'a, P: Stages> Entries for EditedState<'a, P> {
    ghost use Rattle.core_rules.specs.Entries.{world};

    ghost world = { world };

    #[tactic(auto, using(core_rules::proofs::Entries::world_entry))]
    fn entry(&self, alloc: Global, triple: &Triple) -> Result<Entry, NoMemory> {
        let stage = self.parts.stage_after(&self.edit.own, triple);
        entry_after(alloc, self.parts, self.edit, stage, triple)
    }
}
