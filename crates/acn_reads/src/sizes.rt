//! Sizes of strings and lists.

ghost use Rattle.std.specs.Prelude.{◌≡◌, ◌≤◌, ◌^◌, ◌<ℤ◌, ℕ, ℤ, pos, None, Some, true, false, List, Bool, IsTrue, IfOk, IfErr};
ghost use Rattle.acn_num.specs.Ranges.{In};
ghost use Rattle.acn_num.specs.declared.limits.TheConstants.{MOST_SIZE};
ghost use Rattle.acn_grammar.specs.Fails.{kept};
ghost use Rattle.acn_grammar.specs.LeafFails.{size_out_of_range};
ghost use Rattle.acn_grammar.specs.Length.{ending};
ghost use Rattle.acn_grammar.specs.Leaves.{sizes_fine, sizing_fine};
ghost use Rattle.acn_grammar.specs.declared.node.SizeRule.TheVariants.{Ended};
ghost use Rattle.acn_grammar.specs.ReadFaults.{reason_of};
ghost use Rattle.acn_grammar.specs.Spell.{SizePart};
ghost use Rattle.acn_text.specs.Texts.{IsGiven, SlotSays};
ghost use Rattle.acn_reads.specs.Decoded.{IsFault, Passes, Tells};
ghost use Rattle.acn_reads.specs.Steps.{Named, NoSize, NotGiven, RuleRead};

use crate::leaves::named;
use crate::numbers::number_at;
use crate::stop::Stop;
use acn_bits::ReadCursor;
use acn_grammar::{ReadFault, SizeRule, Sizing};
use acn_num::RangeSet;
use acn_text::read_sizing;

// The size that a number is, 0 where it lies below.
pub fn kept_number(x: &i128) -> u64
    requires { x.now <ℤ pos (2 ^ 64) }
    ensures { result ≡ kept x.now }
{
    let number = *x;
    if number < 0 { 0 } else { number as u64 }
}

fn permitted_size(sizes: &RangeSet, number: Option<i128>) -> Result<Option<u64>, ReadFault>
    requires fine { IsTrue (sizes_fine sizes.now) }
    requires read { (x : ℤ) × (number ≡ Some x) × (x <ℤ pos (2 ^ 64)) }
    ensures given { IfOk result (λ given. (n : ℕ) × (given ≡ Some n) × (number ≡ Some (pos n))) }
    ensures fails { IfErr result (λ e. (x : ℤ) × (number ≡ Some x) × (In sizes.now x → ⊥) × (reason_of e ≡ size_out_of_range (kept x))) }
{
    match number {
        Some(x) => {
            if sizes.holds(x) {
                Ok(Some(kept_number(&x)))
            } else {
                Err(ReadFault::SizeOutOfRange { n: kept_number(&x) })
            }
        }
        None => unreachable!(),
    }
}

/// The size that a slot says, None where it stands in front.
pub fn given_size(sizing: &Sizing, slots: &[(u32, i128)]) -> Result<Option<u64>, ReadFault>
    requires fine { IsTrue (sizes_fine sizing.now.sizes) }
    requires read { RuleRead sizing.now.rule slots.now }
    ensures given { IfOk result (λ given. IsGiven sizing.now.rule given) }
    ensures says { IfOk result (λ given. SlotSays sizing.now.rule given slots.now) }
    ensures fails { IfErr result (λ e. NotGiven sizing.now slots.now (reason_of e)) }
{
    match &sizing.rule {
        SizeRule::Prefix { .. } => Ok(None),
        SizeRule::Slot(slot) => match permitted_size(&sizing.sizes, number_at(slots, *slot)) {
            Ok(given) => Ok(given),
            Err(fault) => Err(fault),
        },
        SizeRule::Ended(_) => Ok(None),
    }
}

/// The size of a string or list.
pub fn read_size(
    cur: &mut ReadCursor<'_>,
    sizing: &Sizing,
    slots: &[(u32, i128)],
    inside: bool,
    from: u64,
) -> Result<u64, Stop>
    requires fine { IsTrue (sizing_fine sizing.now) }
    requires read { RuleRead sizing.now.rule slots.now }
    ensures few { IfOk result (λ n. n ≤ MOST_SIZE) }
    ensures read { IfOk result (λ n. Passes (λ env. SizePart sizing.now env n) slots.now cur.old cur.new) }
    ensures fails { IfErr result (λ e. Tells e (Named inside from (NoSize sizing.now slots.now cur.old))) }
    ensures fault { IfErr result IsFault }
{
    match given_size(sizing, slots) {
        Ok(given) => match read_sizing(cur, sizing, given) {
            Ok(n) => Ok(n),
            Err(fault) => Err(Stop::Fails {
                reason: named(inside, fault),
                at: from,
            }),
        },
        Err(fault) => Err(Stop::Fails {
            reason: named(inside, fault),
            at: from,
        }),
    }
}

/// Whether a pattern ends the list.
pub fn is_ended(rule: &SizeRule) -> bool
    ensures sized { result ≡ false → ending rule.now ≡ None }
    ensures ended { result ≡ true → (p : List Bool) × (rule.now ≡ Ended p) }
{
    match rule {
        SizeRule::Prefix { .. } => false,
        SizeRule::Slot(_) => false,
        SizeRule::Ended(_) => true,
    }
}
