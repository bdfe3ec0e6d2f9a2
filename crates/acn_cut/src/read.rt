//! Reading by a cut.

ghost use Rattle.std.specs.Prelude.{IfSome};
ghost use Rattle.acn_bits.specs.Reading.{Reads};
ghost use Rattle.acn_grammar.specs.Code.{Any, Code};
ghost use Rattle.acn_grammar.specs.declared.node.NumLeaf.{NumLeaf};
ghost use Rattle.acn_cut.specs.Cuts.{IsCut};

use crate::cut::Cut;
use acn_bits::ReadCursor;

/// The number whose code stands next, which is passed. None where the next bits are no code, or too
/// few; the cursor then stands anywhere in its window.
#[inline(always)]
pub fn read_cut(cur: &mut ReadCursor<'_>, cut: &Cut) -> Option<i128>
    requires cut { (leaf : NumLeaf) × IsCut cut.now leaf }
    ensures read { IfSome result (λ x. (leaf : NumLeaf) → IsCut cut.now leaf → Reads (Code Any leaf x) cur.old cur.new) }
{
    match cur.take(cut.width) {
        Ok(code) => {
            let ahead = code.wrapping_sub(cut.first);
            if ahead <= cut.span {
                Some(cut.low + i128::from(ahead))
            } else {
                None
            }
        }
        Err(_) => None,
    }
}
