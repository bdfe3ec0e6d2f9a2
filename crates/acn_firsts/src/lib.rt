//! Names in the order in which they first appear, each with the place where it does.
#![tactic(auto)]

mod firsts;

pub use firsts::Firsts;
