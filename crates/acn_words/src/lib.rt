//! The words of a command, and what they ask for.
#![tactic(auto)]

mod faults;
mod files;
mod names;
mod questions;
mod requests;
mod route_words;
mod routes;

pub use faults::{WordsFault, words_fault};
pub use files::MOST_FILES;
pub use names::TypeName;
pub use questions::{Question, question_in};
pub use requests::{MOST_MADE, Request, read_words};
pub use route_words::RouteWords;
pub use routes::{MOST_APID, Route, route_at};
