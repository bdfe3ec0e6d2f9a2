/// Why an input wasn't routed to its end. Packets are numbered from 1. (This program's own.)
#[derive(Clone, Copy)]
pub enum RouteFault {
    /// The input ended inside the packet of this number, of which so many octets came, at least one.
    Cut { number: u64, left: u64 },
    /// The bytes up to the limit are whole packets, and perhaps the beginning of one, and one byte more came.
    InputTooLong,
    /// A read failed.
    InputFault,
    /// A write failed.
    OutputFault,
    /// Memory ran out.
    NoMemory,
}
