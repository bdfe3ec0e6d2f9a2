//! Inserted fields.

ghost use Rattle.std.specs.Prelude.{◌≡◌, ℕ, ℤ, OnOk};
ghost use Rattle.acn_grammar.specs.Env.{at_slot};
ghost use Rattle.acn_grammar.specs.Grammar.{Grammar, node as a_node, num};
ghost use Rattle.acn_grammar.specs.declared.node.NumLeaf.{NumLeaf as Leaf};
ghost use Rattle.acn_grammar.specs.View.{grammar_of};
ghost use Rattle.acn_plain_write.specs.Adds.{Adds, InsertedPart};
ghost use Rattle.acn_plain_write.specs.Ready.{InsertedReady, SaysNumber};

use crate::leaves::write_number;
use crate::parts::put_padding;
use acn_grammar::{Body, Node, NumLeaf};
use acn_num::{BitList, NoMemory};
use std::alloc::Global;

// The number of a slot, None where it has none.
fn number_at(numbers: &[(u32, i128)], slot: u32) -> Option<i128>
    ensures { result ≡ at_slot numbers.now slot }
{
    for number in numbers {
        if number.0 == slot {
            return Some(number.1);
        }
    }
    None
}

// The number of an inserted field.
fn number_said(numbers: &[(u32, i128)], slot: Option<u32>) -> i128
    requires { (x : ℤ) × SaysNumber slot numbers.now x }
    ensures { SaysNumber slot numbers.now result }
{
    match slot {
        Some(slot) => match number_at(numbers, slot) {
            Some(x) => x,
            None => unreachable!(),
        },
        None => 0,
    }
}

// The leaf of an inserted field.
fn leaf_of(node: &Node) -> &NumLeaf
    requires { (align : ℕ) × (leaf : Leaf) × (grammar_of node.now ≡ a_node align (num leaf)) }
    ensures { grammar_of node.now ≡ a_node node.now.align (num result.now) }
{
    match &node.body {
        Body::Num(leaf) => leaf,
        Body::Octets(_) => unreachable!(),
        Body::Bits(_) => unreachable!(),
        Body::Text(_) => unreachable!(),
        Body::Seq(_) => unreachable!(),
        Body::List(_, _) => unreachable!(),
        Body::Choice(_) => unreachable!(),
        Body::Contained(_, _) => unreachable!(),
    }
}

/// Adds an inserted field: its slot's number, or a NULL's pattern where it has no slot.
pub fn write_inserted(
    alloc: Global,
    node: &Node,
    slot: Option<u32>,
    slots: &[(u32, i128)],
    bits: &mut BitList,
    base: usize,
) -> Result<(), NoMemory>
    requires { InsertedReady slot (grammar_of node.now) slots.now }
    ensures { OnOk result ((root : Grammar) → Adds (InsertedPart root slot (grammar_of node.now) slots.now) base bits.old bits.new) }
{
    put_padding(bits, base, node.align)?;
    write_number(alloc, leaf_of(node), number_said(slots, slot), bits)
}
