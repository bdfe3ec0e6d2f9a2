//! An older tree against a newer one: whether the newer one reads all that packets of the older one say, or the first node at which
//! something stands in the way.
#![tactic(auto)]

mod answer;
mod codings;
mod comparing;
mod determinants;
mod fields;
mod judge;
mod kinds;
mod laws;
mod names;
mod places;
mod slots;
mod text;

pub use answer::{Answer, Reason};
pub use comparing::compare;
pub use laws::{
    a_greater_size_is_accepted, a_smaller_size_is_not, differences_exclude, lines_are_alike,
    old_packets_are_read, one_first_difference,
};
pub use text::put_answer;
