//! Laws of stored tables. A law's function does nothing: its contract is the law.
ghost use Rattle.keeper_core.specs.Chains.{NextOpeningFollows, OpeningsAreHeld, StepsAreHeld};
ghost use Rattle.keeper_core.specs.Chains.{StepsMayBeStored};
ghost use Rattle.keeper_core.specs.Laws.{CommitsKeepTables, FreshIsWellFormed};
ghost use Rattle.keeper_core.specs.Printables.{PrintedIsRead};

/// A fresh store is well formed.
pub fn fresh_is_well_formed()
    ensures { FreshIsWellFormed }
{}

/// What may be stored leaves well-formed tables well formed.
pub fn commits_keep_tables()
    ensures { CommitsKeepTables }
{}

/// What is printed of an input's value is read as that value.
pub fn printed_is_read()
    ensures { PrintedIsRead }
{}

/// Tables that are well formed hold the state that an opening on them and its commit lead to.
pub fn openings_are_held()
    ensures { OpeningsAreHeld }
{}

/// The delta of an accepted event may be stored, if its texts may.
pub fn steps_may_be_stored()
    ensures { StepsMayBeStored }
{}

/// Tables that hold a state hold the next one after the commit of an accepted event.
pub fn steps_are_held()
    ensures { StepsAreHeld }
{}

/// The next opening on tables that hold a state begins as one on the state's durable part.
pub fn next_opening_follows()
    ensures { NextOpeningFollows }
{}
