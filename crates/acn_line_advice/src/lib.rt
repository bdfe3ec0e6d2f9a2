//! What a page says of a line of JSON that is refused: what was wanted and what was found, the
//! nearest name, what is permitted, and the two demands that contradict each other.
#![tactic(auto)]

mod found;
mod json;
mod values;
mod wanted;

pub use json::put_bad_line;
pub use values::put_unfit;
