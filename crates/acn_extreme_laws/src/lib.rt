//! What is known of the shortest and the longest packets of a grammar.
#![tactic(auto)]

mod laws;
mod side;
mod why;

pub use laws::{
    best_is_extreme, best_is_written, best_reaches, ends_are_members, first_unsingle_is_found,
    meetable_is_written, no_best_is_refused, one_number_is_best, one_use_is_meetable,
    repeated_texts_have_no_end, single_is_one_use, spellings_lie_within_reach, tests_can_be_met,
};
pub use side::Side;
pub use why::Why;
