ghost use Rattle.acn_extreme_laws.specs.Laws.{BestIsExtreme, BestIsWritten, BestReaches, EndsAreMembers, FirstUnsingleIsFound, MeetableIsWritten, NoBestIsRefused, OneNumberIsBest, OneUseIsMeetable, RepeatedTextsHaveNoEnd, SingleIsOneUse, SpellingsLieWithinReach, TestsCanBeMet};

use acn_packet_laws::{
    accepted_is_sound, bounds_hold, each_node_is_sound, each_number_has_a_code,
    each_occurrence_asks, each_path_has_its_number, each_value_is_written_or_refused, known_behind,
    lengths_are_told, no_fault_without_a_first, parts_are_of_nodes, uses_fit_their_slots,
    values_are_of_nodes, values_lie_within_bounds,
};

/// No packet is shorter or longer than its grammar reaches.
pub fn spellings_lie_within_reach()
    ensures { SpellingsLieWithinReach }
{
    accepted_is_sound();
    known_behind();
}

/// Where a slot has one use, what a value asks of it can be met if the part that uses it can be written.
pub fn one_use_is_meetable()
    ensures { OneUseIsMeetable }
{}

/// In a grammar whose determinants serve one use each, a SEQUENCE uses its slots once.
pub fn single_is_one_use()
    ensures { SingleIsOneUse }
{}

/// Conditions that can hold ask what can be met of each slot.
pub fn tests_can_be_met()
    ensures { TestsCanBeMet }
{}

/// A text of one character that the terminator doesn't begin with has no end inside.
pub fn repeated_texts_have_no_end()
    ensures { RepeatedTextsHaveNoEnd }
{}

/// The least and the greatest number of ranges are in them.
pub fn ends_are_members()
    ensures { EndsAreMembers }
{}

/// A number of a leaf is the one that the walk takes where it is the least of those with a shortest code, or with a longest.
pub fn one_number_is_best()
    ensures { OneNumberIsBest }
{}

/// A value that meets the tree is written where its counts are permitted and what each occurrence asks of its slots can be met.
pub fn meetable_is_written()
    ensures { MeetableIsWritten }
{
    accepted_is_sound();
    known_behind();
    each_occurrence_asks();
    each_value_is_written_or_refused();
}

/// The best value of the walk ends where the grammar reaches.
pub fn best_reaches()
    ensures { BestReaches }
{
    accepted_is_sound();
    each_number_has_a_code();
}

/// In a grammar whose determinants serve one use each, the best value of the walk is written in as many bits as it ends at.
pub fn best_is_written()
    ensures { BestIsWritten }
{
    accepted_is_sound();
    each_node_is_sound();
    uses_fit_their_slots();
    values_lie_within_bounds();
    each_number_has_a_code();
    lengths_are_told();
    bounds_hold();
    no_fault_without_a_first();
    parts_are_of_nodes();
    values_are_of_nodes();
    each_path_has_its_number();
    meetable_is_written();
}

/// No packet is shorter than the best value on one side, or longer than that on the other.
pub fn best_is_extreme()
    ensures { BestIsExtreme }
{
    accepted_is_sound();
    each_number_has_a_code();
    bounds_hold();
    no_fault_without_a_first();
    best_reaches();
    spellings_lie_within_reach();
}

/// Where the walk has no best value, each value is refused.
pub fn no_best_is_refused()
    ensures { NoBestIsRefused }
{
    each_value_is_written_or_refused();
    best_reaches();
    spellings_lie_within_reach();
}

/// The pass over the nodes of a grammar finds the least reason why it isn't single, at the first node that shows it; where it finds
/// none the grammar is single.
pub fn first_unsingle_is_found()
    ensures { FirstUnsingleIsFound }
{}
