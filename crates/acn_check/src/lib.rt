//! Which grammars can be decoded.
#![tactic(auto)]

mod checked;
mod checking;
mod choices;
mod clashes;
mod dets;
mod ends;
mod lines;
mod named;
mod overlaps;
mod places;
mod slots;
mod tallies;
mod uses;

pub use checked::Checked;
pub use checking::check;
