//! Whole octets.

ghost use Rattle.std.specs.Prelude.{◌≡◌, ◌-◌, ◌*◌, false, replicate, true};
ghost use Rattle.acn_num.specs.Bits.{octets};
ghost use Rattle.acn_bits.specs.Writing.{Writes, place_of};
ghost use Rattle.acn_grammar.specs.Shaped.{are_octets};

use acn_bits::WriteCursor;

/// That the items of a buffer are octets.
pub fn check_octets(bytes: &[u8])
    ensures { are_octets bytes.now ≡ true }
{}

/// Zeros fill the last octet. The answer is how many bits there were before.
pub fn fill_octet<const N: usize>(cursor: &mut WriteCursor<'_, N>) -> u64
    ensures count { result ≡ place_of cursor.old }
    ensures zeros { Writes cursor.old cursor.new (place_of cursor.old) (replicate (8 * octets (place_of cursor.old) - place_of cursor.old) false) (8 * octets (place_of cursor.old)) }
    ensures same_buffer { cursor.new.buf.ghost_name ≡ cursor.old.buf.ghost_name }
{
    let count = cursor.at();
    let fill = (8 - count % 8) % 8;
    cursor.put(fill as u32, 0);
    count
}
