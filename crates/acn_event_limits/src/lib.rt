//! That the largest table of open slots has room for all that writing a value in place asks of it.
#![tactic(auto)]

mod laws;

pub use laws::largest_tables_have_room;
