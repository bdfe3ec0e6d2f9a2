//! The top call: what the words of a command ask for is done with the files, the input and the outputs.
#![tactic(auto)]

mod laws;
mod top_call;

pub use laws::{each_grammar_keeps_its_promise, one_answer};
pub use top_call::{run, run_watched};
