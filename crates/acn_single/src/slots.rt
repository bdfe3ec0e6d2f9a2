//! The leaves of slots, and which sizes they cover.

ghost use Rattle.std.specs.Prelude.{◌≡◌, ◌&&◌, int_le, option_map};
ghost use Rattle.std.specs.List.{list_any};
ghost use Rattle.acn_grammar.specs.Slots as spec;
ghost use Rattle.acn_grammar.specs.View.{grammar_of};
ghost use Rattle.acn_extreme_laws.specs.Facts as facts;

use acn_determinants::slot_leaf;
use acn_num::RangeSet;
use acn_tree::{Node, NumLeaf, SizeRule};

/// The slots of a tree, by its root.
#[derive(Clone, Copy, Drop)]
pub struct Slots<'t> {
    pub root: &'t Node,
}

impl<'t> Slots<'t> {
    /// The leaf of a slot, where it has a field.
    pub fn leaf(&self, slot: u32) -> Option<&'t NumLeaf>
        ensures { option_map (λ leaf. leaf.now) result ≡ spec.slot_leaf (grammar_of self.now.root.now) slot }
    {
        slot_leaf(self.root, slot)
    }
}

fn is_part(range: &(i128, i128), low: &i128, high: &i128) -> bool
    ensures { result ≡ (int_le range.now.0 low.now && int_le high.now range.now.1) }
{
    range.0 <= *low && *high <= range.1
}

fn covers_between(ranges: &[(i128, i128)], low: &i128, high: &i128) -> bool
    ensures { result ≡ list_any (λ r. int_le r.0 low.now && int_le high.now r.1) ranges.now }
{
    for range in ranges {
        if is_part(range, low, high) {
            return true;
        }
    }
    false
}

/// Whether one range of a set has all of these numbers.
pub fn covers(set: &RangeSet, low: u64, high: u64) -> bool
    ensures { result ≡ facts.covers set.now low high }
{
    covers_between(set.ranges(), &i128::from(low), &i128::from(high))
}

/// Whether the slot that says a size, where one does, permits all of these numbers.
pub fn slot_covers(slots: &Slots<'_>, rule: &SizeRule, low: u64, high: u64) -> bool
    ensures { result ≡ facts.slot_covers (grammar_of slots.now.root.now) rule.now low high }
{
    match rule {
        SizeRule::Slot(slot) => match slots.leaf(*slot) {
            Some(leaf) => covers(&leaf.set, low, high),
            None => false,
        },
        SizeRule::Prefix { .. } => true,
        SizeRule::Ended(_) => true,
    }
}
