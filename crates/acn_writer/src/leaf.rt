//! The leaves of slots that have a hole.

ghost use Rattle.std.specs.Prelude.{◌≡◌, ◌<◌, true, length};
ghost use Rattle.acn_writer.specs.Leaves.{has_leaf, leaf_place};

use acn_grammar::NumLeaf;

/// A slot, the leaf of its hole, and the place where the hole ends.
#[derive(Clone, Copy, Default)]
pub struct SlotLeaf<'p> {
    pub slot: u32,
    pub leaf: Option<&'p NumLeaf>,
    pub end: u64,
}

/// The place of the newest leaf of a slot.
pub fn place_of(leaves: &[SlotLeaf<'_>], slot: u32) -> usize
    requires { has_leaf slot leaves.now ≡ true }
    ensures found { result ≡ leaf_place slot leaves.now }
    ensures within { result < length leaves.now }
{
    for (i, entry) in leaves.iter().enumerate() {
        if entry.slot == slot {
            return i;
        }
    }
    unreachable!()
}
