//! The lines that are printed on lines of JSON that give no value. No call takes memory.
#![tactic(auto)]

mod json_lines;

pub use json_lines::put_json_fault;
