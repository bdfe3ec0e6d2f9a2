//! The commands: what a request asks for is done with the files, the input and the outputs.
#![tactic(auto)]

mod answers;
mod comparing;
mod extremes;
mod grammars;
mod reports;
mod roots;
mod routing;
mod service;
mod sources;
mod status;
mod streams;
mod texts;

pub use reports::usage;
pub use service::serve;
pub use status::Status;
pub use streams::MOST_INPUT_BYTES;
