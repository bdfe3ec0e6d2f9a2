//! Streams: the packets of an input become lines of JSON, or another text, and lines become packets.
#![tactic(auto)]

mod decode;
mod encode;
mod json_lines;
mod lines;
mod packets;
mod shower;
mod showing;
mod stream_fault;

pub use decode::decode_all;
pub use encode::encode_all;
pub use shower::Show;
pub use showing::show_all;
pub use stream_fault::StreamFault;
