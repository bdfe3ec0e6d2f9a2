//! The parts of a packet.

ghost use Rattle.std.specs.Prelude.{◌≡◌};
ghost use Rattle.acn_pieces.specs.Kinds.{kind_text};

use acn_num::Path;

/// What a part of a packet is, in the terms of the grammar of spellings. (This profile's own.)
#[derive(Clone, Copy, PartialEq, Eq)]
pub enum PieceKind {
    /// The padding before a node.
    Pad,
    /// The presence bits of a SEQUENCE.
    Presence,
    /// The size in front of a string, a list or contents.
    Size,
    /// The index of a CHOICE.
    Index,
    /// The code of a number, or all octets, bits or characters of a string, with its terminator.
    Leaf,
    /// The pattern that ends a list.
    Mark,
    /// The bits that fill up contained octets, or behind a packet of a recording its last octet.
    Fill,
}

impl PieceKind {
    /// The kind in words.
    pub fn word(self) -> &'static str
        ensures { result.now ≡ kind_text self }
    {
        match self {
            PieceKind::Pad => "pad",
            PieceKind::Presence => "presence",
            PieceKind::Size => "size",
            PieceKind::Index => "index",
            PieceKind::Leaf => "leaf",
            PieceKind::Mark => "mark",
            PieceKind::Fill => "fill",
        }
    }
}

/// A part of a packet, which has at least one bit.
#[derive(Drop)]
pub struct Piece {
    /// The node that the part belongs to: child numbers from the root, in a list the number of the element.
    pub path: Path,
    /// The bit of the packet, from 0, at which the part begins.
    pub at: u64,
    /// How many bits it has.
    pub count: u64,
    pub kind: PieceKind,
}
