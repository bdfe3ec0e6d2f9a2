ghost use Rattle.acn_packet_laws.specs.Laws.{NumbersArePrefixFree, BoundsHold, FailuresRestOnBits, FrontsRestOnBits, NoFaultWithoutAFirst, OneFirstFault, AcceptedIsScoped, AcceptedIsSound, EachNodeIsSound, SoundIsScoped, KnownBehind, KnownStays, SlotsPermitWhatTheirFieldsSay, FewAreOpen, UsesFitTheirSlots, NodesArePrefixFree, SlotFieldsArePrefixFree, EachNodeIsPrefixFree, PacketsArePrefixFree, EachNumberHasACode, LengthsAreTold, EachLengthIsTold, WidthsAreLengths, OneFront, FrontsExcludeFailures, OneFailure, EachInputIsReadOrFails, EachInputIsANumberOrFails, WrittenIsRead, SpelledValuesMeet, SpellingsHaveNoBreach, EachOccurrenceAsks, FieldsTellTheirSlots, OneWriting, RefusedIsNotSpelled, OneRefusal, EachValueIsWrittenOrRefused, LaterStartsEndLater, ValuesLieWithinBounds, ReachesLieInside, ShortIsNear, EachNodeHasItsPath, EachPathHasItsNumber, ValuesAreOfNodes, FailuresAreAtNodes, BreachesAreAtNodes, RefusalsAreAtNodes, PartsAreOfNodes};

/// No code of a number leaf begins another, and the code tells the number.
pub fn numbers_are_prefix_free()
    ensures { NumbersArePrefixFree }
{}

/// In a tree within a packet's limit every spelling has a length between the bounds.
pub fn bounds_hold()
    ensures { BoundsHold }
{}

/// A failure other than the want of bits depends on the bits alone up to where it rests.
pub fn failures_rest_on_bits()
    ensures { FailuresRestOnBits }
{}

/// The value at the front of an input depends on its own bits alone.
pub fn fronts_rest_on_bits()
    ensures { FrontsRestOnBits }
{}

/// A tree in which no fault comes first has none.
pub fn no_fault_without_a_first()
    ensures { NoFaultWithoutAFirst }
{}

/// At most one fault of a tree comes first.
pub fn one_first_fault()
    ensures { OneFirstFault }
{}

/// In an accepted tree each use names a slot whose field stands before it, and no permitted numbers
/// choose two alternatives of one CHOICE.
pub fn accepted_is_scoped()
    ensures { AcceptedIsScoped }
{}

/// In an accepted tree each node keeps all that a reader, a writer or a compiled plan needs of it.
pub fn accepted_is_sound()
    ensures { AcceptedIsSound }
{}

/// The same of each node by its number, where some slots are known, all of them at home round it.
pub fn each_node_is_sound()
    ensures { EachNodeIsSound }
{}

/// What is sound is scoped.
pub fn sound_is_scoped()
    ensures { SoundIsScoped }
{}

/// A slot that is known behind a sound node was known before it, or is at home round it.
pub fn known_behind()
    ensures { KnownBehind }
{}

/// A slot that is known before a sound node is known behind it.
pub fn known_stays()
    ensures { KnownStays }
{}

/// The numbers that a slot permits are those of its field.
pub fn slots_permit_what_their_fields_say()
    ensures { SlotsPermitWhatTheirFieldsSay }
{}

/// At most `MOST_OPEN_SLOTS` slots are at home on the path to a node of an accepted tree.
pub fn few_are_open()
    ensures { FewAreOpen }
{}

/// In an accepted tree a size or a condition with `==` is on an INTEGER, a flag on a BOOLEAN and a
/// determinant of a CHOICE an ENUMERATED.
pub fn uses_fit_their_slots()
    ensures { UsesFitTheirSlots }
{}

/// From node to node: where one spelling begins another, they are the same, and so are their values.
pub fn nodes_are_prefix_free()
    ensures { NodesArePrefixFree }
{}

/// The same of an inserted field: its bits tell the number of its slot.
pub fn slot_fields_are_prefix_free()
    ensures { SlotFieldsArePrefixFree }
{}

/// The same of each node of an accepted tree, by its number in preorder.
pub fn each_node_is_prefix_free()
    ensures { EachNodeIsPrefixFree }
{}

/// No packet of an accepted tree begins another, and its bits tell the value.
pub fn packets_are_prefix_free()
    ensures { PacketsArePrefixFree }
{}

/// Every permitted number of a leaf that keeps its rules has a code.
pub fn each_number_has_a_code()
    ensures { EachNumberHasACode }
{}

/// In an accepted tree the value determines how many bits a packet has.
pub fn lengths_are_told()
    ensures { LengthsAreTold }
{}

/// The same of each node, by its value and its position.
pub fn each_length_is_told()
    ensures { EachLengthIsTold }
{}

/// The width of a leaf is the one length of its codes, exactly where they have one.
pub fn widths_are_lengths()
    ensures { WidthsAreLengths }
{}

/// At the front of an input stands at most one value of an accepted tree.
pub fn one_front()
    ensures { OneFront }
{}

/// Where a value of an accepted tree stands at the front of an input, nothing fails.
pub fn fronts_exclude_failures()
    ensures { FrontsExcludeFailures }
{}

/// An input has at most one failure: one path, one reason and one bit.
pub fn one_failure()
    ensures { OneFailure }
{}

/// An input has a value of an accepted tree at its front, or a failure.
pub fn each_input_is_read_or_fails()
    ensures { EachInputIsReadOrFails }
{}

/// The same of a number leaf: a code is at the front, or it fails.
pub fn each_input_is_a_number_or_fails()
    ensures { EachInputIsANumberOrFails }
{}

/// What is written for a value can be read.
pub fn written_is_read()
    ensures { WrittenIsRead }
{}

/// A value that has a spelling has the form of the tree and meets its constraints.
pub fn spelled_values_meet()
    ensures { SpelledValuesMeet }
{}

/// In what is spelled every number, size and character is permitted, and no terminator stands inside a text.
pub fn spellings_have_no_breach()
    ensures { SpellingsHaveNoBreach }
{}

/// What the whole walk asks of one field is what the occurrence of its slot's home asks of the slot.
pub fn each_occurrence_asks()
    ensures { EachOccurrenceAsks }
{}

/// The path of a field in a packet tells the slot whose number it says: that of each ask, and of each slot at home in an
/// occurrence of a SEQUENCE.
pub fn fields_tell_their_slots()
    ensures { FieldsTellTheirSlots }
{}

/// A value of an accepted tree is written in one way.
pub fn one_writing()
    ensures { OneWriting }
{}

/// A value that is refused has no spelling, neither written nor read.
pub fn refused_is_not_spelled()
    ensures { RefusedIsNotSpelled }
{}

/// A value is refused for one reason, at one place.
pub fn one_refusal()
    ensures { OneRefusal }
{}

/// A value that has the form of an accepted tree is written, or it is refused.
pub fn each_value_is_written_or_refused()
    ensures { EachValueIsWrittenOrRefused }
{}

/// A value of a node that begins later does not end earlier.
pub fn later_starts_end_later()
    ensures { LaterStartsEndLater }
{}

/// A value that meets its node has a length between the node's bounds.
pub fn values_lie_within_bounds()
    ensures { ValuesLieWithinBounds }
{}

/// A failure of an accepted tree other than the want of bits rests on bits that are there.
pub fn reaches_lie_inside()
    ensures { ReachesLieInside }
{}

/// Bits are wanting only where there are fewer than the greatest packet of the tree and the greatest
/// window round contents have.
pub fn short_is_near()
    ensures { ShortIsNear }
{}

/// The node of a number in preorder is the node of its path.
pub fn each_node_has_its_path()
    ensures { EachNodeHasItsPath }
{}

/// The node of a path is the node of a number in preorder, so what is said of nodes by their numbers holds of it.
pub fn each_path_has_its_number()
    ensures { EachPathHasItsNumber }
{}

/// What a path of a value leads to, a path of the grammar leads to.
pub fn values_are_of_nodes()
    ensures { ValuesAreOfNodes }
{}

/// The part of a value at a path is of the node that the path leads to.
pub fn parts_are_of_nodes()
    ensures { PartsAreOfNodes }
{}

/// The path of a failure leads to a node of the grammar: a field, inserted or not, an alternative, an element or a content.
pub fn failures_are_at_nodes()
    ensures { FailuresAreAtNodes }
{}

/// The path of each breach of a value leads to a node of the grammar.
pub fn breaches_are_at_nodes()
    ensures { BreachesAreAtNodes }
{}

/// The path of what a value is refused for leads to a node of the grammar, and so does that of the field that a conflict
/// names.
pub fn refusals_are_at_nodes()
    ensures { RefusalsAreAtNodes }
{}
