//! The values behind DEFAULT: whether the type of their component permits them.
#![tactic(auto)]

mod default;
mod given;
mod text;

pub use default::bad_default;
