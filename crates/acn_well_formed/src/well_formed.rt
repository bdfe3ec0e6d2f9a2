//! Whether a grammar is that of a well-formed tree, decided by walks that take no memory.
//!
//! The definition (specs/Tree) takes the nodes in preorder as a list. The walks don't make that list:
//!
//! 1. One walk counts nodes and slots. It stops where a node is more than `MOST_STEPS` steps away, a node too many comes or a slot
//!    doesn't have the next number. Behind it the slots of the tree are the numbers from 0 up to a count.
//! 2. One walk tests what concerns each node by itself, and that each slot that a use or a home names is below the count
//!    and each home rises. So nothing names a slot that step 4 doesn't look at, and a home that rises is the list of the
//!    slots at home exactly where, slot by slot, it holds those and no others.
//! 3. One walk with the homes that are open (`open_homes`). It tests that each field's slot and each use is at home in a SEQUENCE
//!    round it, and looks inside each home for the slots whose fields don't stand in it directly. What it accepts is a tree.
//! 4. Where step 3 refuses, two walks a slot. The first counts the nodes that are the slot's field or use it. The second compares
//!    with that count what each SEQUENCE has inside it: the slot is at home where all of them are inside and no SEQUENCE further
//!    inside has them all. It tests that each home holds the slot exactly there, that nothing that may be absent stands
//!    between the home and the field, that every use stands inside the home, and that a component that says the slot has a use.
//!
//! The definition asks of each node about each slot, step 4 of each slot about each node: both ask all pairs. The counts of
//! step 4 end at the greatest number of 32 bits, which step 1 keeps out of reach. Step 3 takes the time of the nodes and of the
//! open slots of all nodes together, step 4 that of slots times nodes.

ghost use Rattle.std.specs.Prelude.{◌≡◌, ◌≤◌, ◌<◌, ◌^◌};
ghost use Rattle.std.specs.List.{list_all, range_with_len};
ghost use Rattle.acn_well_formed.specs.Seen.{slot_kept as slot_is_kept};
ghost use Rattle.acn_grammar.specs.Tree.{is_tree};
ghost use Rattle.acn_grammar.specs.View.{grammar_of};

use crate::homes::{Sought, look};
use crate::node_rules::node_kept;
use crate::open_homes::node_held;
use crate::tallies::{Tally, count_node};
use acn_grammar::{MOST_NODES, Node};

// Whether the home of the slot and all its uses are right.
fn slot_kept(root: &Node, slot: u32) -> bool
    ensures { result ≡ slot_is_kept (grammar_of root.now) slot }
{
    let all = look(root, &Sought { slot, total: 0 }, false, false, false, true);
    let sought = Sought {
        slot,
        total: all.about,
    };
    let seen = look(root, &sought, false, false, false, true);
    seen.fine
}

// Whether the homes of all slots and all their uses are right.
fn slots_kept(root: &Node, slots: u64) -> bool
    requires { slots ≤ 2 ^ 32 }
    ensures { result ≡ list_all (slot_is_kept (grammar_of root.now)) (range_with_len 0 slots) }
{
    for slot in 0..slots {
        if !slot_kept(root, slot as u32) {
            return false;
        }
    }
    true
}

/// Whether the node is the root of a well-formed tree.
pub fn is_well_formed(root: &Node) -> bool
    ensures { result ≡ is_tree (grammar_of root.now) }
{
    let start = Tally {
        left: MOST_NODES,
        next: 0,
    };
    match count_node(root, 0, start) {
        None => false,
        Some(end) => {
            if !node_kept(root, end.next) {
                return false;
            }
            node_held(root, &[]) || slots_kept(root, end.next)
        }
    }
}
