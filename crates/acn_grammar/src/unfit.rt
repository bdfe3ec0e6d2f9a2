use acn_num::Path;

/// What a node of a value asks of the number of a slot, by the conditions, sizes and determinants of ACN.
#[derive(Clone, Copy, PartialEq, Eq)]
pub enum Ask {
    /// It is this number.
    Equal(i128),
    /// It isn't this number.
    Avoid(i128),
}

/// Why a value isn't one of a node's. The first four are breaches of constraints (X.680), the others are this profile's own.
#[derive(Drop)]
pub enum UnfitReason {
    /// The number isn't permitted.
    OutOfRange {
        value: i128,
    },
    /// The size of the string or list isn't permitted. `n` counts octets, bits, characters or elements.
    SizeOutOfRange {
        n: u64,
    },
    /// The character at this place, from 0, isn't in the alphabet.
    BadCharacter {
        index: u64,
    },
    /// The terminator occurs first at this place of the text, from 0, and not at its end.
    TerminatorInside {
        index: u64,
    },
    /// No permitted number of the field at the path `slot` meets what is wanted and what was asked before it.
    /// `earlier` is the `Equal` before it that contradicts it, else the `Avoid` that does.
    Conflict {
        slot: Path,
        earlier: Option<Ask>,
        wanted: Ask,
    },
    /// So many octets aren't a permitted size of the contained octets.
    ContentSize {
        octets: u64,
    },
}

/// The place of a value that isn't one of its node's, and why.
#[derive(Drop)]
pub struct Unfit {
    /// Child numbers from the root, in a list the number of the element.
    pub path: Path,
    pub reason: UnfitReason,
}
