ghost use Rattle.std.specs.Prelude.{◌≡◌, ◌&&◌, ◌∷◌, [], ◌<◌, ◌≤◌, IsTrue, IfOk, IfErr, OnOk, OnErr, true, false, pos, List, ℕ, Some, None, ◌⊎◌};
ghost use Rattle.std.specs.List.{FoldsTo};
ghost use Rattle.acn_num.specs.Ranges.{In, has, greatest};
ghost use Rattle.acn_bits.specs.Reading.{Stays};
ghost use Rattle.acn_grammar.specs.Interval.{size_of};
ghost use Rattle.acn_grammar.specs.LeafFails.{size_out_of_range, bad_character};
ghost use Rattle.acn_grammar.specs.Leaves.{text_fine};
ghost use Rattle.acn_grammar.specs.ReadFaults.{reason_of};
ghost use Rattle.acn_text.specs.Texts.{PassedText, NoTextAt};
ghost use Rattle.acn_num.specs.declared.limits.TheConstants.{MOST_SIZE};

use crate::alphabet::is_in;
use crate::mark::{first_octet, next_seen};
use acn_bits::ReadCursor;
use acn_grammar::{Pattern, ReadFault, TextLeaf};
use acn_ints::pattern_number;
use acn_num::MOST_SIZE;

/// The greatest permitted size.
fn most_characters(leaf: &TextLeaf) -> u64
    ensures value { result ≡ size_of (greatest leaf.now.sized.sizes) }
    ensures few { result ≤ MOST_SIZE }
{
    match leaf.sized.sizes.greatest() {
        None => 0,
        Some(n) => {
            if n < 0 {
                0
            } else if n > i128::from(MOST_SIZE) {
                u64::from(MOST_SIZE)
            } else {
                n as u64
            }
        }
    }
}

/// What is left to test of a text whose end was found.
fn finished(leaf: &TextLeaf, n: u64, fine: bool) -> Result<u64, ReadFault>
    ensures size { IfOk result (λ k. k ≡ n) }
    ensures permitted { OnOk result (In leaf.now.sized.sizes (pos n)) }
    ensures fine { OnOk result (fine ≡ true) }
    ensures wrong { IfErr result (λ e. ((In leaf.now.sized.sizes (pos n) → ⊥) × (reason_of e ≡ size_out_of_range n)) ⊎ (In leaf.now.sized.sizes (pos n) × (fine ≡ false) × (reason_of e ≡ bad_character))) }
{
    if !is_in(&leaf.sized.sizes, n) {
        return Err(ReadFault::SizeOutOfRange { n });
    }
    if fine {
        Ok(n)
    } else {
        Err(ReadFault::BadCharacter)
    }
}

/// Gives an octet where it is a character and all before it were, and answers whether.
fn give<F: FnMut(u8)>(leaf: &TextLeaf, octet: u64, fine: bool, each: &mut F) -> bool
    requires small { octet < 256 }
    requires callable { F.IsAlwaysCallable each.old }
    ensures callable { F.IsAlwaysCallable each.new }
    ensures fine { result ≡ (fine && has leaf.now.alphabet (pos octet)) }
    ensures given { (cs : List ℕ) × FoldsTo (λ p c q. F.step p c tt q) each.old cs each.new × (result ≡ true → cs ≡ octet ∷ []) }
{
    if fine && is_in(&leaf.alphabet, octet) {
        each(octet as u8);
        true
    } else {
        false
    }
}

/// Gives the characters up to the end, and passes over it.
pub fn read_ended<F: FnMut(u8)>(
    cur: &mut ReadCursor<'_>,
    leaf: &TextLeaf,
    end: &Pattern,
    each: &mut F,
) -> Result<u64, ReadFault>
    requires fine { IsTrue (text_fine leaf.now) }
    requires ended { leaf.now.ended ≡ Some end.now }
    requires callable { F.IsAlwaysCallable each.old }
    ensures read { IfOk result (PassedText leaf.now None (λ cs. FoldsTo (λ p c q. F.step p c tt q) each.old cs each.new) cur.old cur.new) }
    ensures wrong { IfErr result (λ e. NoTextAt leaf.now None cur.old.rest (reason_of e)) }
    ensures stays { OnErr result (Stays cur.old cur.new) }
    ensures given { OnErr result ((cs : List ℕ) × FoldsTo (λ p c q. F.step p c tt q) each.old cs each.new) }
{
    let width = end.bits().len() as u32;
    let mark = pattern_number(end.bits());
    let most = most_characters(leaf);
    let mut seen = match cur.take(width) {
        Ok(v) => v,
        Err(_) => return Err(ReadFault::Short),
    };
    let mut fine = true;
    for n in 0..most {
        if seen == mark {
            return finished(leaf, n, fine);
        }
        fine = give(leaf, first_octet(width, seen), fine, each);
        match next_seen(cur, width, seen) {
            Ok(next) => seen = next,
            Err(fault) => return Err(fault),
        }
    }
    if seen != mark {
        return Err(ReadFault::TooLong);
    }
    finished(leaf, most, fine)
}
