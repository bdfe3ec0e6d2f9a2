//! Laws: each is the contract of a function that does nothing.

ghost use Rattle.acn_pieces.specs.CanWalk.{SoundValuesCanBeWalked};
ghost use Rattle.acn_pieces.specs.Laws.{JoinedPiecesAreTheBits, PiecesAreJoined};

/// The pieces of a value, joined, are as many bits as the value has.
pub fn pieces_are_joined()
    ensures { PiecesAreJoined }
{}

/// The bits of pieces that are joined are those of the input up to their end.
pub fn joined_pieces_are_the_bits()
    ensures { JoinedPiecesAreTheBits }
{}

/// A value of a sound node that meets its constraints can be walked over.
pub fn sound_values_can_be_walked()
    ensures { SoundValuesCanBeWalked }
{}
