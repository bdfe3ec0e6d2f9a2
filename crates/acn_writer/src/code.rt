//! Room for codes of numbers.

ghost use Rattle.std.specs.Prelude.{◌≡◌, ◌+◌, ◌*◌, ◌<◌, ◌≤◌, IsTrue, true, false, length};
ghost use Rattle.acn_num.specs.Bits.{bits};
ghost use Rattle.acn_num.specs.Ranges.{In};
ghost use Rattle.acn_bits.specs.Writing.{place_of};
ghost use Rattle.acn_grammar.specs.Leaves.{num_fine};
ghost use Rattle.acn_grammar.specs.Length.{num_length};

use crate::cursor::has_room;
use acn_bits::WriteCursor;
use acn_grammar::NumLeaf;
use acn_ints::code_length;
use acn_leaf::fixed_width;

/// Whether the code of a permitted number has room. Its length is counted only where the coding has
/// none of its own.
pub fn has_room_for_code<const N: usize>(
    cursor: &WriteCursor<'_, N>,
    leaf: &NumLeaf,
    x: i128,
) -> bool
    requires long { length (bits cursor.now.buf.now) ≡ 8 * N }
    requires fine { IsTrue (num_fine leaf.now) }
    requires permitted { In leaf.now.set x }
    ensures room { result ≡ true → place_of cursor.now + num_length leaf.now x ≤ 8 * N }
    ensures none { result ≡ false → 8 * N < place_of cursor.now + num_length leaf.now x }
    ensures long { length (bits cursor.now.buf.now) ≡ 8 * N }
{
    match fixed_width(&leaf.coding) {
        Some(width) => has_room(cursor, u64::from(width)),
        None => {
            let length = code_length(leaf, x);
            has_room(cursor, length)
        }
    }
}
