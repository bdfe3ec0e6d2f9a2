//! Packets by the definitions alone, slowly: what the fast way is compared with.
#![tactic(auto)]

mod decode;
mod encode;
mod refusal;

pub use acn_reads::MOST_BYTES;
pub use decode::plain_decode;
pub use encode::{PlainFault, plain_encode};
