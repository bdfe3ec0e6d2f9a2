//! Values of a tree that are made, written and read again, and what came of them.
#![tactic(auto)]

mod line;
mod summary;
mod trying;
mod watch;
mod working;

pub use line::put_summary;
pub use summary::{Summary, one_summary};
pub use watch::{Unwatched, Watch};
pub use working::work;
