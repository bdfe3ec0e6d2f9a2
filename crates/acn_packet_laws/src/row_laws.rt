//! Packets that are worked by hand, as laws of the definitions.

ghost use Rattle.acn_packet_laws.specs.ChoiceRows.{AnIndexChooses, ConditionsChoose, AnItemChooses};
ghost use Rattle.acn_packet_laws.specs.ConditionRows.{TheLeastThatIsMissed, ASizeMeetsACondition};
ghost use Rattle.acn_packet_laws.specs.ContentRows.{AHeaderAndItsContents, ContentsEndInsideAField, ContentsBeginAtZero};
ghost use Rattle.acn_packet_laws.specs.CutRows.{ACutIsNamedByItsField};
ghost use Rattle.acn_packet_laws.specs.EndRows.{AnEndOfTwoOctets};
ghost use Rattle.acn_packet_laws.specs.ListRows.{AnEndedListNamesItsElements, EachElementHasItsSize};
ghost use Rattle.acn_packet_laws.specs.NumberRows.{LittleTurnsTheOctets, TwosComplementHasASign, ACountBeginsAtTheLowest, CharactersWithAnEndAreLeast, ItemsHavePlacesAndNumbers, DigitsHaveAnEnd, ATableMapsTheNumbers};
ghost use Rattle.acn_packet_laws.specs.PlaceRows.{PresenceBitsMayBeShort, PaddingMayBeShort, AnElementIsNamedByItsPlace};
ghost use Rattle.acn_packet_laws.specs.RequestRows.{APatternEndsTheList, AComponentDetermines, UnsoundNodesAreTold};
ghost use Rattle.acn_packet_laws.specs.SizeRows.{SizesStandInFrontOfStrings, ASizeStandsInAnInnerSequence, ASizeNeedsItsNumber};
ghost use Rattle.acn_packet_laws.specs.WorkedRows.{FieldsFollowEachOther, AnEndOfBitsIsShort, ASizeStandsInItsField, SizesInOneFieldAgree, WhatNothingAsksAboutIsLeast, EachDigitIsBelowTen, ATerminatorEndsTheText, ConditionsThatAreMissedAreAvoided, PaddingIsReadInAnyWay, ACountIsTheLeast, APatternHasAComplement, ZeroHasNoMinus, DigitsWithAnEndAreLeast, CharactersStandByTheirPlaces, PresenceBitsStandInFront, ASizeStandsInFront, ContentsFillTheirOctets};

/// The fields of a SEQUENCE follow each other, and a number that isn't permitted is never written.
pub fn fields_follow_each_other()
    ensures { FieldsFollowEachOther }
{}

/// Bits that end inside a field are Short at the field, and no value stands at their front.
pub fn an_end_of_bits_is_short()
    ensures { AnEndOfBitsIsShort }
{}

/// The size of a string stands in the field that determines it, and one that isn't permitted is never written.
pub fn a_size_stands_in_its_field()
    ensures { ASizeStandsInItsField }
{}

/// Two sizes that one field determines are the same, or the value is refused and never written.
pub fn sizes_in_one_field_agree()
    ensures { SizesInOneFieldAgree }
{}

/// A determinant that nothing asks about is written as its least number and read as any.
pub fn what_nothing_asks_about_is_least()
    ensures { WhatNothingAsksAboutIsLeast }
{}

/// Decimal digits in 4 bits each are below ten.
pub fn each_digit_is_below_ten()
    ensures { EachDigitIsBelowTen }
{}

/// A terminator stands behind a text, and never inside it.
pub fn a_terminator_ends_the_text()
    ensures { ATerminatorEndsTheText }
{}

/// A component that is absent asks for a number that doesn't meet its condition, or the value is refused.
pub fn conditions_that_are_missed_are_avoided()
    ensures { ConditionsThatAreMissedAreAvoided }
{}

/// Padding up to an alignment is written as zeros and read in any way, and never left out.
pub fn padding_is_read_in_any_way()
    ensures { PaddingIsReadInAnyWay }
{}

/// A number behind a count of octets has as few of them as hold it.
pub fn a_count_is_the_least()
    ensures { ACountIsTheLeast }
{}

/// A BOOLEAN with one pattern has its complement for the other value, and is read as that from anything else.
pub fn a_pattern_has_a_complement()
    ensures { APatternHasAComplement }
{}

/// Zero in characters has no minus sign.
pub fn zero_has_no_minus()
    ensures { ZeroHasNoMinus }
{}

/// Decimal digits with an end have no zero in front.
pub fn digits_with_an_end_are_least()
    ensures { DigitsWithAnEndAreLeast }
{}

/// Characters of a small alphabet stand by their places in it.
pub fn characters_stand_by_their_places()
    ensures { CharactersStandByTheirPlaces }
{}

/// The presence bits of a SEQUENCE stand in front of its fields, one for each optional component.
pub fn presence_bits_stand_in_front()
    ensures { PresenceBitsStandInFront }
{}

/// The size of a list stands in front of its elements, and one that isn't permitted is refused.
pub fn a_size_stands_in_front()
    ensures { ASizeStandsInFront }
{}

/// Contained octets are as many as their contents fill: with more of them, or fewer, the packet is refused.
pub fn contents_fill_their_octets()
    ensures { ContentsFillTheirOctets }
{}

/// A pattern stands directly behind the last element of a list, and a list that it ends has as many elements as may be there.
pub fn a_pattern_ends_the_list()
    ensures { APatternEndsTheList }
{}

/// A component that is a determinant is written as its value, which has to meet what is asked of it.
pub fn a_component_determines()
    ensures { AComponentDetermines }
{}

/// A node that a reader can't follow isn't sound.
pub fn unsound_nodes_are_told()
    ensures { UnsoundNodesAreTold }
{}

/// The index of an alternative stands in front of it, and one that no alternative has is refused.
pub fn an_index_chooses()
    ensures { AnIndexChooses }
{}

/// An alternative stands behind a number that meets its conditions, and a number that meets none is refused.
pub fn conditions_choose()
    ensures { ConditionsChoose }
{}

/// An alternative stands behind the item of its name, and an item whose name no alternative has is refused.
pub fn an_item_chooses()
    ensures { AnItemChooses }
{}

/// A header says how many octets its contents fill, and the bits behind the contents are written as zeros and read in any way.
pub fn a_header_and_its_contents()
    ensures { AHeaderAndItsContents }
{}

/// Contents that end inside a field are refused at that field, and a header of another version at its first bits.
pub fn contents_end_inside_a_field()
    ensures { ContentsEndInsideAField }
{}

/// A number whose octets are in the other order has its least octet in front.
pub fn little_turns_the_octets()
    ensures { LittleTurnsTheOctets }
{}

/// A number in two's complement has its sign in its first bit, and one outside its range is refused.
pub fn twos_complement_has_a_sign()
    ensures { TwosComplementHasASign }
{}

/// Behind a count of octets stands the difference from the lowest number, in as few octets as hold it.
pub fn a_count_begins_at_the_lowest()
    ensures { ACountBeginsAtTheLowest }
{}

/// A number in characters with an end has a sign where it may be negative, no zero in front, and no minus before zero.
pub fn characters_with_an_end_are_least()
    ensures { CharactersWithAnEndAreLeast }
{}

/// An item is written as its place in the order of the numbers, or as its own number where values are encoded.
pub fn items_have_places_and_numbers()
    ensures { ItemsHavePlacesAndNumbers }
{}

/// Bits that end inside presence bits are Short at their SEQUENCE, and no value stands at their front.
pub fn presence_bits_may_be_short()
    ensures { PresenceBitsMayBeShort }
{}

/// Bits that end inside padding are Short at the node behind it, where the padding begins.
pub fn padding_may_be_short()
    ensures { PaddingMayBeShort }
{}

/// An element that can't be read is named by its place in the list and by its first bit.
pub fn an_element_is_named_by_its_place()
    ensures { AnElementIsNamedByItsPlace }
{}

/// An element of a list that a pattern ends is named by its place, also where its bits and those of the pattern are wanting.
pub fn an_ended_list_names_its_elements()
    ensures { AnEndedListNamesItsElements }
{}

/// Each element of a list has the determinants that are at home in it.
pub fn each_element_has_its_size()
    ensures { EachElementHasItsSize }
{}

/// The size of a string of bits or octets stands in front of it, and one that isn't permitted is refused.
pub fn sizes_stand_in_front_of_strings()
    ensures { SizesStandInFrontOfStrings }
{}

/// A size may stand in a field of an inner SEQUENCE, in front of what it determines.
pub fn a_size_stands_in_an_inner_sequence()
    ensures { ASizeStandsInAnInnerSequence }
{}

/// A size that is no permitted number of its field is refused and never written.
pub fn a_size_needs_its_number()
    ensures { ASizeNeedsItsNumber }
{}

/// Decimal digits with an end have one, have a digit in front of it, and no more digits than the greatest number.
pub fn digits_have_an_end()
    ensures { DigitsHaveAnEnd }
{}

/// A number under a table is written as its image, and one that is no image is refused as it stands.
pub fn a_table_maps_the_numbers()
    ensures { ATableMapsTheNumbers }
{}

/// Positions inside contents begin at zero, and a failure in them is named by its bit in the packet.
pub fn contents_begin_at_zero()
    ensures { ContentsBeginAtZero }
{}

/// A number that conditions avoid is written as the least that they leave, and read as any of these.
pub fn the_least_that_is_missed()
    ensures { TheLeastThatIsMissed }
{}

/// A size that would meet the condition of a component that is absent is refused and never written.
pub fn a_size_meets_a_condition()
    ensures { ASizeMeetsACondition }
{}

/// A text ends where all octets of its terminator first stand together.
pub fn an_end_of_two_octets()
    ensures { AnEndOfTwoOctets }
{}

/// A packet that is cut is Short at the field that it ends in, and no value stands at its front.
pub fn a_cut_is_named_by_its_field()
    ensures { ACutIsNamedByItsField }
{}
