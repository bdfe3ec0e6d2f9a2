/// Why a leaf can't be read: the first reason that holds in the order of the leaf's coding. (This profile's own,
/// `specs/LeafFails`.)
#[derive(Clone, Copy, PartialEq, Eq)]
pub enum ReadFault {
    /// The window has fewer bits left than the code needs.
    Short,
    /// The code is whole, and its number isn't permitted. `wire` is the number as it stands in the bits.
    OutOfRange { wire: i128 },
    /// A shorter code says the same number, or a minus stands before zero.
    NotMinimal,
    /// A digit isn't one from 0 to 9, or a sign is missing.
    BadDigit,
    /// A character isn't in the alphabet.
    BadCharacter,
    /// The bits are none of the patterns.
    BadPattern,
    /// There are more octets or digits than any code has.
    TooLong,
    /// The size of a text in characters isn't permitted.
    SizeOutOfRange { n: u64 },
}
