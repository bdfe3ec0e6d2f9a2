//! Sizes of strings and lists.

ghost use Rattle.std.specs.Prelude.{◌≡◌, ◌≤◌, IsTrue, IfSome};
ghost use Rattle.acn_num.specs.declared.limits.TheConstants.{MOST_SIZE};
ghost use Rattle.acn_grammar.specs.Leaves.{sizing_fine};
ghost use Rattle.acn_grammar.specs.Spell.{SizePart};
ghost use Rattle.acn_bits.specs.Reading.{Reading};
ghost use Rattle.acn_grammar.specs.declared.node.SizeRule.TheVariants.{Slot};
ghost use Rattle.acn_reads.specs.Decoded.{Passes};
ghost use Rattle.acn_reads.specs.Steps.{RuleRead};

use crate::letters::natural;
use acn_bits::ReadCursor;
use acn_grammar::{SizeRule, Sizing};
use acn_reads::number_at;

// The size that a slot says.
fn slot_size(sizing: &Sizing, slot: u32, slots: &[(u32, i128)]) -> Option<u64>
    requires fine { IsTrue (sizing_fine sizing.now) }
    requires rule { sizing.now.rule ≡ Slot slot }
    ensures few { IfSome result (λ n. n ≤ MOST_SIZE) }
    ensures read { IfSome result (λ n. (cur : Reading) → Passes (λ env. SizePart sizing.now env n) slots.now cur cur) }
{
    match number_at(slots, slot) {
        Some(x) => match natural(&x) {
            Some(n) => {
                if sizing.sizes.holds_natural(n) {
                    Some(n)
                } else {
                    None
                }
            }
            None => None,
        },
        None => None,
    }
}

/// The size of a string or list, which is passed where it stands in front. No size is said where a
/// pattern ends it.
#[inline(always)]
pub fn size(cur: &mut ReadCursor<'_>, sizing: &Sizing, slots: &[(u32, i128)]) -> Option<u64>
    requires fine { IsTrue (sizing_fine sizing.now) }
    requires read { RuleRead sizing.now.rule slots.now }
    ensures few { IfSome result (λ n. n ≤ MOST_SIZE) }
    ensures read { IfSome result (λ n. Passes (λ env. SizePart sizing.now env n) slots.now cur.old cur.new) }
{
    match &sizing.rule {
        SizeRule::Prefix { low, width } => match cur.take(*width) {
            Ok(ahead) => {
                let n = *low + ahead;
                if sizing.sizes.holds_natural(n) {
                    Some(n)
                } else {
                    None
                }
            }
            Err(_) => None,
        },
        SizeRule::Slot(slot) => slot_size(sizing, *slot, slots),
        SizeRule::Ended(_) => None,
    }
}
