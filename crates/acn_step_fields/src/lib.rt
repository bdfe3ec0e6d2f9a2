//! Where the field of a slot is that is asked at a path, over the steps of a plan, without memory.
#![tactic(auto)]

mod inner;
mod locate;
mod seek;

pub use locate::field_of;
