//! The line of a packet is put while its bits are read: no value is made between them.
#![tactic(auto)]

mod draft;
mod front;
mod leaves;
mod members;
mod paddings;
mod short;
mod slots;
mod stretch;
mod walk;

pub use draft::{Draft, Part, Span};
pub use front::put_front;
