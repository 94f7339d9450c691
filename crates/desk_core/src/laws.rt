//! Laws of desks. A law's function does nothing: its contract is the law.
ghost use Rattle.desk_core.specs.Laws.{DeskOpeningsFollow, DeskStepsAreHeld};

/// Tables that hold the state before a step hold the one after it, once what it stores is
/// committed.
pub fn desk_steps_are_held()
    ensures { DeskStepsAreHeld }
{}

/// The next opening on tables that hold a state begins as one on the state's durable part.
pub fn desk_openings_follow()
    ensures { DeskOpeningsFollow }
{}
