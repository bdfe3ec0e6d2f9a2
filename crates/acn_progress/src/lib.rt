//! How far a run is, shown while it goes on: one line on an output for errors, once a second, which
//! is gone at the end. The devices of the run hand on what they are given, and count it.
#![tactic(auto)]

mod devices;
mod done;
mod progress;
mod way;

pub use devices::{Cleared, Watched};
pub use done::{Done, put_done};
pub use progress::Progress;
pub use way::{Way, way_of};
