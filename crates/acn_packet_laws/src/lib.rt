//! Laws about spellings, failures and bounds: each is the contract of a function that does nothing.
#![tactic(auto)]

mod laws;
mod row_laws;

pub use laws::{
    accepted_is_scoped, accepted_is_sound, bounds_hold, breaches_are_at_nodes,
    each_input_is_a_number_or_fails, each_input_is_read_or_fails, each_length_is_told,
    each_node_has_its_path, each_node_is_prefix_free, each_node_is_sound, each_number_has_a_code,
    each_occurrence_asks, each_path_has_its_number, each_value_is_written_or_refused,
    failures_are_at_nodes, failures_rest_on_bits, few_are_open, fields_tell_their_slots,
    fronts_exclude_failures, fronts_rest_on_bits, known_behind, known_stays,
    later_starts_end_later, lengths_are_told, no_fault_without_a_first, nodes_are_prefix_free,
    numbers_are_prefix_free, one_failure, one_first_fault, one_front, one_refusal, one_writing,
    packets_are_prefix_free, parts_are_of_nodes, reaches_lie_inside, refusals_are_at_nodes,
    refused_is_not_spelled, short_is_near, slot_fields_are_prefix_free,
    slots_permit_what_their_fields_say, sound_is_scoped, spelled_values_meet,
    spellings_have_no_breach, uses_fit_their_slots, values_are_of_nodes, values_lie_within_bounds,
    widths_are_lengths, written_is_read,
};
pub use row_laws::{
    a_component_determines, a_count_begins_at_the_lowest, a_count_is_the_least,
    a_cut_is_named_by_its_field, a_header_and_its_contents, a_pattern_ends_the_list,
    a_pattern_has_a_complement, a_size_meets_a_condition, a_size_needs_its_number,
    a_size_stands_in_an_inner_sequence, a_size_stands_in_front, a_size_stands_in_its_field,
    a_table_maps_the_numbers, a_terminator_ends_the_text, an_element_is_named_by_its_place,
    an_end_of_bits_is_short, an_end_of_two_octets, an_ended_list_names_its_elements,
    an_index_chooses, an_item_chooses, characters_stand_by_their_places,
    characters_with_an_end_are_least, conditions_choose, conditions_that_are_missed_are_avoided,
    contents_begin_at_zero, contents_end_inside_a_field, contents_fill_their_octets,
    digits_have_an_end, digits_with_an_end_are_least, each_digit_is_below_ten,
    each_element_has_its_size, fields_follow_each_other, items_have_places_and_numbers,
    little_turns_the_octets, padding_is_read_in_any_way, padding_may_be_short,
    presence_bits_may_be_short, presence_bits_stand_in_front, sizes_in_one_field_agree,
    sizes_stand_in_front_of_strings, the_least_that_is_missed, twos_complement_has_a_sign,
    unsound_nodes_are_told, what_nothing_asks_about_is_least, zero_has_no_minus,
};
