//! One packet explained.

ghost use Rattle.std.specs.Prelude.{◌≤◌, length, IfOk, IfErr};
ghost use Rattle.acn_num.specs.Bits.{bits};
ghost use Rattle.acn_grammar.specs.ItemsNamed.{ItemsNamed};
ghost use Rattle.acn_grammar.specs.View.{grammar_of};
ghost use Rattle.acn_reads.specs.Answers.{OnlyFault, Refuses};
ghost use Rattle.acn_reads.specs.declared.answers.TheConstants.{MOST_BYTES};
ghost use Rattle.acn_explain.specs.Explaining.{ArePieces};

use acn_check::Checked;
use acn_grammar::Refuse;
use acn_packet_laws::{accepted_is_sound, lengths_are_told, spelled_values_meet};
use acn_piece_laws::pieces_tell_their_parts;
use acn_pieces::{
    Piece, joined_pieces_are_the_bits, list_pieces, pieces_are_joined, sound_values_can_be_walked,
};
use acn_plan::compile;
use acn_unpack::unpack;
use std::alloc::Global;

/// The parts of the packet at the front of the bytes, in order: padding, presence bits, sizes,
/// indices, codes of leaves, marks that end lists, and the bits that fill up contents; none of no
/// bits. What stands behind the packet isn't looked at.
///
/// The first begins at bit 0, each begins where the one before it ends, and the last ends with the
/// packet, so that their bits joined are the packet's. The bits of each are those of its part by
/// the grammar: `acn_piece_laws` says what each part stands for. The items of the tree's
/// enumerations have numbers of 32 bits, as `items_named` of `acn_tree` tells.
///
/// `Bad` comes exactly where no value is at the front, with the one failure that there is, as
/// `unpack` of `acn_unpack` answers it. `NoMemory` comes where memory runs out. (This profile's
/// own.)
pub fn explain(alloc: Global, checked: &Checked, bytes: &[u8]) -> Result<Vec<Piece>, Refuse>
    requires named { ItemsNamed (grammar_of checked.now.tree.root) }
    requires few { length bytes.now ≤ MOST_BYTES }
    ensures pieces { IfOk result (λ found. ArePieces (grammar_of checked.now.tree.root) (bits bytes.now) found.items) }
    ensures fault { IfErr result (Refuses (grammar_of checked.now.tree.root) (bits bytes.now)) }
    ensures only { IfErr result (OnlyFault (grammar_of checked.now.tree.root) (bits bytes.now)) }
{
    accepted_is_sound();
    lengths_are_told();
    spelled_values_meet();
    sound_values_can_be_walked();
    pieces_are_joined();
    joined_pieces_are_the_bits();
    pieces_tell_their_parts();
    let root = checked.tree().root();
    let plan = compile(alloc, checked)?;
    let (value, _size) = unpack(alloc, &plan, bytes)?;
    let (found, _size) = list_pieces(alloc, root, &value)?;
    Ok(found.into_vec())
}
