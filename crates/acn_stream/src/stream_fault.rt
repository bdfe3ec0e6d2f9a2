use acn_grammar::{Fault, Unfit};
use acn_json::JsonFault;

/// Why a stream wasn't converted to its end. Packets and lines are numbered from 1. (This profile's own.)
#[derive(Drop)]
pub enum StreamFault {
    /// The line has more bytes than a line may have.
    LineTooLong { line: u64 },
    /// The bytes up to the limit end inside a packet or line, or at its end, and one byte more came.
    InputTooLong,
    /// The least bound of the type is 0, so that nothing says how many packets follow each other.
    EmptyPacket,
    /// The packet can't be read.
    Packet { number: u64, fault: Fault },
    /// The line gives no value.
    BadLine { number: u64, fault: JsonFault },
    /// The value of the line isn't written.
    Unfit { number: u64, fault: Unfit },
    /// A read failed.
    InputFault,
    /// A write failed.
    OutputFault,
    /// Memory ran out.
    NoMemory,
}
