//! Where steps end, for places from each of which at most one step leads on.
#![tactic(auto)]

mod ends;
mod laws;
mod spot;
mod walk;

pub use ends::Ends;
pub use laws::{endless_ways_have_no_end, ends_are_unique};
pub use spot::{End, Spot, Steps};
pub use walk::ends_of;
