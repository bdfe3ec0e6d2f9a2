//! Lines of the values of one tree: what they need beside the tree is made once.
#![tactic(auto)]

mod flags;
mod keys;
mod leaves;
mod lines;
mod order;
mod places;
mod printed;
mod put;
mod read;
mod room;
mod spare;
mod take;
mod tokens;
mod turns;

pub use keys::{KEY_ROOM, MOST_KEY, ShortKey};
pub use lines::Lines;
pub use order::Order;
pub use room::Room;
pub use turns::Turn;
