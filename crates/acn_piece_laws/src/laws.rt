//! Laws: each is the contract of a function that does nothing.

ghost use Rattle.acn_piece_laws.specs.Laws.{PiecesTellTheirParts};

use acn_packet_laws::{accepted_is_sound, each_number_has_a_code};

/// The bits of each piece of a packet are those of its part by the grammar: a code of its number,
/// the size, the index, which components there are, the octets, bits or characters, the pattern
/// that ends a list. Padding and what fills up contents are zeros where they are written. What is
/// read may have other bits there, and the other code of a BOOLEAN with one pattern.
pub fn pieces_tell_their_parts()
    ensures { PiecesTellTheirParts }
{
    accepted_is_sound();
    each_number_has_a_code();
}
