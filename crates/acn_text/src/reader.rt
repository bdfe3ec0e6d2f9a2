ghost use Rattle.std.specs.Prelude.{◌≡◌, IsTrue, IfOk, IfErr, OnErr, List, ℕ};
ghost use Rattle.std.specs.List.{FoldsTo};
ghost use Rattle.acn_bits.specs.Reading.{Stays};
ghost use Rattle.acn_grammar.specs.Leaves.{text_fine};
ghost use Rattle.acn_grammar.specs.ReadFaults.{reason_of};
ghost use Rattle.acn_text.specs.Texts.{IsGiven, PassedText, NoTextAt};

use crate::ended::read_ended;
use crate::sized::{read_characters, read_size};
use acn_bits::ReadCursor;
use acn_grammar::{ReadFault, TextLeaf};

/// Reads a text, gives each of its characters in order, and answers their number. The cursor moves over exactly its code.
///
/// `count` is the size of the text where a slot says it, and `None` for all other leaves.
///
/// The fault is the first that holds. For a text with a size these come in order: `SizeOutOfRange` (or `Short` where
/// the size in front isn't whole), `Short` where fewer bits are left than its characters have, and `BadCharacter`. For
/// an ended one: `Short` and `TooLong` where its end isn't found, `SizeOutOfRange`, and `BadCharacter`. Some characters
/// may have been given before a fault, and the cursor then stands anywhere in its window. The call takes no memory.
pub fn read_text<F: FnMut(u8)>(
    cur: &mut ReadCursor<'_>,
    leaf: &TextLeaf,
    count: Option<u64>,
    each: &mut F,
) -> Result<u64, ReadFault>
    requires fine { IsTrue (text_fine leaf.now) }
    requires given { IsGiven leaf.now.sized.rule count }
    requires callable { F.IsAlwaysCallable each.old }
    ensures read { IfOk result (PassedText leaf.now count (λ cs. FoldsTo (λ p c q. F.step p c tt q) each.old cs each.new) cur.old cur.new) }
    ensures fails { IfErr result (λ e. NoTextAt leaf.now count cur.old.rest (reason_of e)) }
    ensures stays { OnErr result (Stays cur.old cur.new) }
    ensures some { OnErr result ((cs : List ℕ) × FoldsTo (λ p c q. F.step p c tt q) each.old cs each.new) }
{
    match &leaf.ended {
        None => match read_size(cur, &leaf.sized, count) {
            Ok(n) => match read_characters(cur, leaf, n, each) {
                Ok(()) => Ok(n),
                Err(fault) => Err(fault),
            },
            Err(fault) => Err(fault),
        },
        Some(end) => read_ended(cur, leaf, end, each),
    }
}
