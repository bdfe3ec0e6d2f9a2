//! A tree that can be decoded as a flat list of steps, one for each node in preorder: what packets are read and written by.
#![tactic(auto)]

mod compiling;
mod copies;
mod items;
mod laws;
mod plan;
mod put;
mod runs;
mod step;
mod steps;

pub use compiling::compile;
pub use laws::{
    steps_are_itemed, steps_are_nested, steps_list_their_cases, steps_say_their_root,
    steps_tell_their_root,
};
pub use plan::Plan;
pub use step::{Act, Cases, Place, Step};
pub use steps::Steps;
