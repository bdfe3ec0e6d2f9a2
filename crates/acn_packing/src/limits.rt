//! How long a packet is at most.

/// The octets of the longest packet, which has `MOST_PACKET_BITS` bits: a buffer of so many has room for each packet.
pub const PACKET_OCTETS: usize = 65_542;
