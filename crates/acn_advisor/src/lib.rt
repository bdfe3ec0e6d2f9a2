//! What helps on a refusal, and what accepted types are to be warned of: lines that are printed
//! behind what a run prints. What they say is judged anew, over the words, the files and the input,
//! so a run knows nothing of it.
#![tactic(auto)]

mod advice;
mod files;
mod input;
mod places;
mod sources;
mod warnings;
mod words;

pub use advice::advise;
