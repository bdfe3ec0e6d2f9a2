//! Reading several numbers out of one word.

ghost use Rattle.std.specs.Prelude.{◌≡◌, ◌<◌, ◌≤◌, ◌-◌, IfSome};
ghost use Rattle.acn_bits.specs.Reading.{Reading, Reads, passed};
ghost use Rattle.acn_bits.specs.declared.word.TheConstants.{WORD_BITS};
ghost use Rattle.acn_grammar.specs.Code.{Any, Code};
ghost use Rattle.acn_grammar.specs.declared.node.NumLeaf.{NumLeaf};
ghost use Rattle.acn_cut.specs.Cuts.{IsCut};
ghost use Rattle.acn_cut.specs.Stretches.{IsStrip};

use crate::cut::Cut;

/// Bits that were taken at once: the next `left` bits spell `word`. (This profile's own.)
#[derive(Clone, Copy)]
pub struct Strip {
    pub word: u64,
    pub left: u32,
}

/// The number whose code stands next in a strip, which is passed. None where the next bits are no
/// code.
#[inline(always)]
pub fn read_piece(strip: &mut Strip, cut: &Cut) -> Option<i128>
    requires some { 0 < cut.now.width }
    requires within { cut.now.width ≤ strip.old.left }
    requires few { strip.old.left ≤ WORD_BITS }
    requires cut { (leaf : NumLeaf) × IsCut cut.now leaf }
    ensures left { strip.new.left ≡ strip.old.left - cut.now.width }
    ensures read { IfSome result (λ x. (leaf : NumLeaf) → IsCut cut.now leaf → (at : Reading) → IsStrip strip.old at → Reads (Code Any leaf x) at (passed cut.now.width at)) }
    ensures rest { (at : Reading) → IsStrip strip.old at → IsStrip strip.new (passed cut.now.width at) }
{
    strip.left -= cut.width;
    let unit = 1u64 << strip.left;
    let code = strip.word / unit;
    strip.word %= unit;
    let ahead = code.wrapping_sub(cut.first);
    if ahead <= cut.span {
        Some(cut.low + i128::from(ahead))
    } else {
        None
    }
}
