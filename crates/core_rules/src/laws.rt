//! Laws of the core. A law's function does nothing: its contract is the law.
ghost use Rattle.core_rules.specs.Laws.{WorldIsEntries, SettlingKeepsStates, SettlingRefers, LawfulAtOpening, LawfulThroughSteps, LawfulAfterReplays, InvariantAtOpening, InvariantThroughSteps, InvariantAfterReplays, InvariantAlongEvents, StepsStoreDeltas, StartsArePicks, ChangesMakeStates, ReplaysAreOne};

/// The world of a state has the state's entry for each triple.
pub fn world_is_entries()
    ensures { WorldIsEntries }
{}

/// Settling changes no wanted triple's entry, and so neither a node's state nor what is wanted.
pub fn settling_keeps_states()
    ensures { SettlingKeepsStates }
{}

/// Each state that an opening gives is lawful, whatever the program's limits.
pub fn lawful_at_opening()
    ensures { LawfulAtOpening }
{}

/// Each accepted event keeps the state lawful.
pub fn lawful_through_steps()
    ensures { LawfulThroughSteps }
{}

/// Each state that an opening and a list of entries lead to is lawful.
pub fn lawful_after_replays()
    ensures { LawfulAfterReplays }
{}

/// Each state that an opening gives meets the invariant.
pub fn invariant_at_opening()
    ensures { InvariantAtOpening }
{}

/// Each accepted event keeps the invariant, the moment doesn't fall, and the version rises by one.
pub fn invariant_through_steps()
    ensures { InvariantThroughSteps }
{}

/// Each state that an opening and a list of entries lead to meets the invariant.
pub fn invariant_after_replays()
    ensures { InvariantAfterReplays }
{}

/// Each list of accepted events keeps the invariant, and each event raises the version by one.
pub fn invariant_along_events()
    ensures { InvariantAlongEvents }
{}

/// After settling, each queued job is wanted, and each running one that isn't is marked or goes on.
pub fn settling_refers()
    ensures { SettlingRefers }
{}

/// What is stored of the state after an accepted event is what was stored before, with its delta.
pub fn steps_store_deltas()
    ensures { StepsStoreDeltas }
{}

/// Each job that is started was ready, permitted or confirmed, and was the pick.
pub fn starts_are_picks()
    ensures { StartsArePicks }
{}

/// The changed nodes of a reply, put over the old states, give the new ones.
pub fn changes_make_states()
    ensures { ChangesMakeStates }
{}

/// A replay has one end.
pub fn replays_are_one()
    ensures { ReplaysAreOne }
{}
