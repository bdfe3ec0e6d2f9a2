//! That what lists, sets and tables are folded into is what it is called: the least, the greatest, the first.
#![tactic(auto)]

mod laws;

pub use laws::{
    ascending_is_in_order, bad_path_is_the_first, fault_of_a_table_is_the_first,
    free_numbers_are_unwritten, greatest_of_a_set_is_the_greatest,
    greatest_of_items_is_the_greatest, keys_to_lead_between, least_of_a_set_is_the_least,
    least_of_items_is_the_least, least_width_is_the_least, lost_item_is_the_least,
    lost_number_is_the_least, places_stand_as_words, tables_without_fault_are_one_to_one,
    twins_are_the_first,
};
