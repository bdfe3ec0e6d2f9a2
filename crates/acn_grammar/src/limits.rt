//! The limits of grammars and packets, which code and clauses cite by name. Each is this profile's own. How many steps a
//! path has and how great a size is, `acn_num` says (`MOST_STEPS`, `MOST_SIZE`).

/// The greatest number of nodes of a tree.
pub const MOST_NODES: u32 = 65_536;

/// The greatest length of a packet in bits, that of 65,542 octets, the longest packet of CCSDS 133.0-B-2.
pub const MOST_PACKET_BITS: u64 = 524_336;

/// The greatest number of slots at home in the SEQUENCEs on the path to a node, the node itself included.
pub const MOST_OPEN_SLOTS: usize = 256;

/// The greatest number of conditions `==` that compare one slot.
pub const MOST_CONDITIONS: u32 = 64;

/// The greatest number of values in a packet.
pub const MOST_VALUES: u64 = 1_048_576;

/// The greatest number of bits of a pattern.
pub const MOST_PATTERN_BITS: usize = 64;

/// The greatest number of bits of the code of an inserted determinant.
pub const MOST_DETERMINANT_BITS: u32 = 64;

/// The greatest width in bits of an INTEGER or ENUMERATED in a fixed binary width (`pos-int`, `twos-complement`).
pub const MOST_INTEGER_BITS: u32 = 64;
