//! What a value asks of the number of a slot: the asks as they come, whether a permitted number meets them all, and the
//! least that does. Conditions, sizes and determinants are ACN's; that the least number is written is this profile's own.
#![tactic(auto)]

mod asked;
mod heard;
mod moments;

pub use asked::{Asked, Unmet};
pub use heard::Heard;
pub use moments::{Halt, Moment, hear_all};
