ghost use Rattle.std.specs.Prelude.{◌≡◌, IsTrue, IfOk, IfErr, OnErr};
ghost use Rattle.acn_grammar.specs.Leaves.{num_fine};
ghost use Rattle.acn_grammar.specs.Code.{Code, Any};
ghost use Rattle.acn_grammar.specs.ReadFaults.{reason_of};
ghost use Rattle.acn_ints.specs.Limits.{LeafFits, IsNear};
ghost use Rattle.acn_bits.specs.Reading.{Reads, Stays};
ghost use Rattle.acn_ints.specs.Reads.{IsSaid, Refuses, Refused};

use crate::counted::{read_counted_from, read_counted_signed};
use crate::digits::read_bcd;
use crate::ended_codings::{read_bcd_ended, read_characters, read_characters_ended};
use crate::fixed::{read_flag, read_pattern, read_range, read_twos, read_unsigned};
use crate::known::{item_count, number_of};
use crate::most::most_digits;
use crate::said::Said;
use acn_bits::ReadCursor;
use acn_grammar::{NumCoding, NumLeaf, ReadFault};

/// What the next bits say by the leaf's coding.
fn read_coding(cur: &mut ReadCursor<'_>, leaf: &NumLeaf) -> Result<Said, ReadFault>
    requires { LeafFits leaf.now }
    ensures said { IfOk result (λ s. IsSaid leaf.now.coding leaf.now cur.old cur.new s.wire s.image) }
    ensures near { IfOk result (λ s. IsNear s.image) }
    ensures wrong { IfErr result (λ e. Refuses leaf.now.coding leaf.now cur.old.rest (reason_of e)) }
    ensures stays { OnErr result (Stays cur.old cur.new) }
{
    let little = leaf.little;
    match &leaf.coding {
        NumCoding::Range { low, width } => read_range(cur, low, *width, little),
        NumCoding::CountedFrom { low } => read_counted_from(cur, low),
        NumCoding::CountedSigned => read_counted_signed(cur),
        NumCoding::PosInt(n) => read_unsigned(cur, *n, little),
        NumCoding::Twos(n) => read_twos(cur, *n, little),
        NumCoding::Bcd(n) => read_bcd(cur, *n, little),
        NumCoding::BcdEnded => read_bcd_ended(cur, most_digits(leaf)),
        NumCoding::Ascii { bits, signed } => read_characters(cur, *bits, *signed, little),
        NumCoding::AsciiEnded { end, signed } => {
            read_characters_ended(cur, end, *signed, most_digits(leaf))
        }
        NumCoding::Flag { yes, no } => read_flag(cur, yes, no, little),
        NumCoding::Fixed(pattern) => read_pattern(cur, pattern, little),
    }
}

/// Reads the number of a leaf, and moves the cursor over exactly its code.
///
/// The fault is the first that holds in the order of the leaf's coding; the cursor then stands anywhere in its window.
/// The call takes no memory.
pub fn read_num(cur: &mut ReadCursor<'_>, leaf: &NumLeaf) -> Result<i128, ReadFault>
    requires { IsTrue (num_fine leaf.now) }
    ensures read { IfOk result (λ x. Reads (Code Any leaf.now x) cur.old cur.new) }
    ensures fails { IfErr result (λ e. Refused leaf.now cur.old.rest (reason_of e)) }
    ensures stays { OnErr result (Stays cur.old cur.new) }
{
    let _items = item_count(leaf.items.items.items());
    match read_coding(cur, leaf) {
        Ok(said) => {
            let Said { wire, image } = said;
            match number_of(leaf, &image) {
                Some(x) => Ok(x),
                None => Err(ReadFault::OutOfRange { wire }),
            }
        }
        Err(fault) => Err(fault),
    }
}
