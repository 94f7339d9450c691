//! Laws of sound programs. A law's function does nothing: its contract is the law.
ghost use Rattle.term_check.specs.Laws.{FunctionsTakeWhatTheyWant, ReadsOnlyReported, SoundStatesHaveTheirKinds, SoundWithoutFault, WantsOnlyReported, WantsOnlyWantable};

/// A program within the limits is sound exactly if the check finds no fault.
pub fn sound_without_fault()
    ensures { SoundWithoutFault }
{}

/// A function takes exactly the kinds that it is said to want.
pub fn functions_take_what_they_want()
    ensures { FunctionsTakeWhatTheyWant }
{}

/// Over inputs of their kinds, and entries with texts of at most 65,536 bytes, each node of a sound
/// program that is fine has a value of the node's kind, which weighs at most 1,048,576.
pub fn sound_states_have_their_kinds()
    ensures { SoundStatesHaveTheirKinds }
{}

/// The states of a sound program depend only on the inputs and the operations that its report
/// lists, and it wants only triples of these operations, none above the level reported.
pub fn only_reported_things_are_read()
    ensures reads { ReadsOnlyReported }
    ensures wants { WantsOnlyReported }
{}

/// Over inputs of their kinds, and entries with texts of at most 65,536 bytes, each triple that a
/// sound program wants has a key and a value of at most 65,536 bytes, and an order whose words are
/// short enough.
pub fn only_short_triples_are_wanted()
    ensures { WantsOnlyWantable }
{}
