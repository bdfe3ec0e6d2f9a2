//! Words of bits.

ghost use Rattle.std.specs.Prelude.{◌≡◌, ◌≤◌, length, take};
ghost use Rattle.acn_num.specs.Bits.{number};
ghost use Rattle.acn_bits.specs.Reading.{passed};
ghost use Rattle.acn_bits.specs.declared.word.TheConstants.{WORD_BITS};

use acn_bits::ReadCursor;

/// The number of the next bits, which are there.
pub fn take_word(cur: &mut ReadCursor<'_>, width: u32) -> u64
    requires few { width ≤ WORD_BITS }
    requires there { width ≤ length cur.old.rest }
    ensures value { result ≡ number (take width cur.old.rest) }
    ensures moved { cur.new ≡ passed width cur.old }
{
    match cur.take(width) {
        Ok(v) => v,
        Err(_) => unreachable!(),
    }
}
