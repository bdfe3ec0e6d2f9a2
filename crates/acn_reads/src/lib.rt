//! What the readers of packets share: leaves, sizes, choices, numbers of slots, and what a walk over nodes answers.
#![tactic(auto)]

mod answers;
mod choices;
mod ends;
mod leaves;
mod numbers;
mod presence;
mod sizes;
mod steps;
mod stop;
mod strings;
mod texts;

pub use answers::{MOST_BYTES, refusal};
pub use choices::pick;
pub use ends::{most_of, no_end, pass_end, pattern_of, stands};
pub use leaves::{named, read_code, read_leaf, read_number};
pub use numbers::{forget, note, number_at};
pub use presence::{all_hold, count_of, is_there};
pub use sizes::{given_size, is_ended, kept_number, read_size};
pub use steps::{number_value, pad};
pub use stop::Stop;
pub use strings::{read_bits, read_octets};
pub use texts::read_text;
