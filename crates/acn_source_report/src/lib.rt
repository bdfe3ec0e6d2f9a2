//! The lines that are printed on sources: files that can't be read or are refused, names that lead nowhere, and types that can't be made.
//! No call takes memory.
#![tactic(auto)]

mod files;
mod names;
mod types;

pub use files::{put_file_fault, put_file_too_long, put_unreadable};
pub use names::{put_name_fault, put_unknown_type};
pub use types::put_refused;
