//! What lies outside the program: files by name, an input and outputs, each with a count of its faults.
#![tactic(auto)]

mod copies;
mod entry;
mod failing;
mod feed;
mod laws;
mod mem_files;
mod memory;
mod room;
mod standard;
mod traits;
mod whole;

pub use laws::sure_counts_stay_zero;
pub use mem_files::{MemFiles, SureFiles};
pub use memory::{MemSink, MemSource, SureSink, SureSource};
pub use standard::{StdError, StdFiles, StdInput, StdOutput};
pub use traits::{Failed, Files, Sink, Source};
pub use whole::{WholeFault, read_whole, write_all};
