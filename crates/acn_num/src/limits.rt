//! Limits that several crates know. A limit that one crate alone knows stands in that crate.

/// The least number of this profile, `-2^63`.
pub const LEAST_NUMBER: i128 = -9223372036854775808;

/// The greatest number of this profile, `2^64 - 1`.
pub const GREATEST_NUMBER: i128 = 18446744073709551615;

/// The lower end of sets, one below the least number. It stands for "without bound below".
pub const BOTTOM: i128 = -9223372036854775809;

/// The upper end of sets, one above the greatest number. It stands for "without bound above".
pub const TOP: i128 = 18446744073709551616;

/// The greatest number of steps of a path in a tree.
pub const MOST_STEPS: usize = 64;

/// The greatest size of a string or a list, in octets, bits, characters or elements.
pub const MOST_SIZE: u32 = 65_536;

/// The greatest length of a file in bytes, 16 MiB.
pub const MOST_FILE_BYTES: usize = 16_777_216;
