//! Laws of the engine's parts. A law's function does nothing: its contract is the law.
ghost use Rattle.engine_rules.specs.Laws.{AcceptedAreNews, AcceptedByParts, AgreementLasts};
ghost use Rattle.engine_rules.specs.Laws.{AnswersByTests, ChangedAreTouched, ChangedInputsAreSet};
ghost use Rattle.engine_rules.specs.Laws.{ConflictsByOrder, DifferingAreTouched, DueByOperations};
ghost use Rattle.engine_rules.specs.Laws.{EntriesAreFound, IdlesKeep, KeptThroughChanges};
ghost use Rattle.engine_rules.specs.Laws.{MarkedAlone, MomentsAreTimes, OpenedByParts};
ghost use Rattle.engine_rules.specs.Laws.{OpeningBefore, OwnAlone, OwnAloneIsChange, OwnByWork};
ghost use Rattle.engine_rules.specs.Laws.{OwnIsChange, PassedMayOwn, PutsAtTimes, PutsNow};
ghost use Rattle.engine_rules.specs.Laws.{RepliesBefore, RunningByEvents, StagesByWork};
ghost use Rattle.engine_rules.specs.Laws.{StatesAreProper, TestsDecide, UnopenedByParts};
ghost use Rattle.engine_rules.specs.Laws.{UsedByParts, WantsAreCounted, WantsAreDeclared};
ghost use Rattle.engine_rules.specs.Reached.{BoundsAtOpening, BoundsThroughSteps};
ghost use Rattle.engine_rules.specs.Reached.{BoundsWhereReached};

/// Each event's own change is the one that its data tell, where its test by look-ups is passed.
pub fn tests_decide()
    ensures { TestsDecide }
{}

/// Each event is answered by its test, its change, and settling.
pub fn answers_by_tests()
    ensures { AnswersByTests }
{}

/// Where an event's test is passed, its change among the jobs may be made.
pub fn passed_may_own()
    ensures { PassedMayOwn }
{}

/// What changes among the jobs doesn't depend on rows, inputs and version, and stages depend on the
/// jobs alone.
pub fn own_by_work()
    ensures over { OwnByWork }
    ensures alone { OwnAlone }
    ensures stages { StagesByWork }
{}

/// What changes among the jobs is what the core's own function makes, with its marks.
pub fn own_is_change()
    ensures whole { OwnIsChange }
    ensures alone { OwnAloneIsChange }
    ensures marked { MarkedAlone }
{}

/// Each row that an event puts ended at the event's moment, so rows take it.
pub fn puts_now()
    ensures now { PutsNow }
    ensures times { PutsAtTimes }
{}

/// A step comes out of the jobs that settle alone, the changed rows and the changed inputs.
pub fn accepted_by_parts()
    ensures { AcceptedByParts }
{}

/// Where versions are used up or the jobs don't settle, the event is refused.
pub fn used_by_parts()
    ensures { UsedByParts }
{}

/// What a triple is after a change is found by the stage of its job and its row.
pub fn entries_are_found()
    ensures { EntriesAreFound }
{}

/// Rows that are kept with the expiries of their operations run out as the state's rows do.
pub fn due_by_operations()
    ensures { DueByOperations }
{}

/// Changes keep that each row is kept with the expiry of its operation.
pub fn kept_through_changes()
    ensures { KeptThroughChanges }
{}

/// Each triple that a sound program wants is of one of its operations.
pub fn wants_are_declared()
    ensures { WantsAreDeclared }
{}

/// Each wanted triple whose entry an event changes is among the touched ones.
pub fn changed_are_touched()
    ensures entries { ChangedAreTouched }
    ensures worlds { DifferingAreTouched }
{}

/// Each input whose value an event changes is among the set ones.
pub fn changed_inputs_are_set()
    ensures { ChangedInputsAreSet }
{}

/// What was evaluated before settling is the evaluation of the settled state.
pub fn agreement_lasts()
    ensures { AgreementLasts }
{}

/// The reply of a step follows from the state before it is settled, but for the next number.
pub fn replies_before()
    ensures { RepliesBefore }
{}

/// So is the reply of an opening.
pub fn opening_before()
    ensures { OpeningBefore }
{}

/// An opening comes out of the jobs that settle alone, and there is none where they don't settle.
pub fn opened_by_parts()
    ensures opened { OpenedByParts }
    ensures unopened { UnopenedByParts }
{}

/// New conflicts are found from the wanted triples in order.
pub fn conflicts_by_order()
    ensures { ConflictsByOrder }
{}

/// Wanted triples with their counts are in order, each with a count of at least 1.
pub fn wants_are_counted()
    ensures { WantsAreCounted }
{}

/// Each accepted event raises the version by one, and its note tells of a change.
pub fn accepted_are_news()
    ensures { AcceptedAreNews }
{}

/// Only a Take and a Finish may change nothing, and keep the version.
pub fn idles_keep()
    ensures { IdlesKeep }
{}

/// A Take adds a running job beside fewer than 64, a Finish takes one off, and no other event
/// changes their number.
pub fn running_by_events()
    ensures { RunningByEvents }
{}

/// The moment of an event is one of the times, and not before the last one.
pub fn moments_are_times()
    ensures { MomentsAreTimes }
{}

/// Each state that an opening and accepted events lead to is within the bounds.
pub fn bounds_where_reached()
    ensures opening { BoundsAtOpening }
    ensures steps { BoundsThroughSteps }
    ensures reached { BoundsWhereReached }
{}

/// In a state within the bounds each node of a sound program has a state of its kind, within them.
pub fn states_are_proper()
    ensures { StatesAreProper }
{}
