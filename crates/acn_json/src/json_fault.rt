use acn_num::Path;

/// Why a line gives no value. Which of these it is, and where, `specs/Reads` says. (This profile's own.)
#[derive(Drop)]
pub enum JsonFault {
    /// The line isn't UTF-8, or not one JSON value, or it nests more than 127 levels deep.
    NotJson,
    /// The JSON at this path hasn't the form of the node: another kind of JSON, a number that isn't whole or not from
    /// `-2^63` to `2^64 - 1`, an unknown item or alternative, no text of digits, or a character over 127.
    Shape { path: Path },
    /// The object of the SEQUENCE at this path has a member that is no component: the first one in byte order of the
    /// names, by its place among all members, from 0.
    UnknownMember { path: Path, member: u32 },
    /// A component that has to be there isn't: the first one, at its path.
    MissingMember { path: Path },
    /// Memory ran out.
    NoMemory,
}
