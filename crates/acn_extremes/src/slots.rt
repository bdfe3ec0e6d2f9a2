//! The leaves of slots: which numbers they permit, and whether conditions on them can be met.

ghost use Rattle.std.specs.Prelude.{◌≡◌, ◌∷◌, ◌&&◌, ◌||◌, ℤ, List, pos, IfOk};
ghost use Rattle.std.specs.List.{list_any};
ghost use Rattle.std.specs.Ordering.{int_eq};
ghost use Rattle.acn_num.specs.Ranges.{has, meet, IsMeet};
ghost use Rattle.acn_grammar.specs.Asks.{same_name};
ghost use Rattle.acn_grammar.specs.Slots.{domain_of, items_of};
ghost use Rattle.acn_grammar.specs.View.{grammar_of};
ghost use Rattle.acn_grammar.specs.declared.node.Test.{Test as TestData};
ghost use Rattle.acn_extreme_laws.specs.Reach as reach;

use acn_num::{Name, NoMemory, RangeSet};
use acn_single::Slots;
use acn_tree::{ChoiceRule, Presence, Test};
use std::alloc::Global;

/// The numbers of a set that the slot permits too.
pub fn met_with(
    alloc: Global,
    slots: &Slots<'_>,
    slot: u32,
    set: &RangeSet,
) -> Result<RangeSet, NoMemory>
    ensures ranges { IfOk result (λ both. both ≡ meet set.now (domain_of (grammar_of slots.now.root.now) slot)) }
    ensures numbers { IfOk result (IsMeet set.now (domain_of (grammar_of slots.now.root.now) slot)) }
{
    match slots.leaf(slot) {
        Some(leaf) => set.meet(alloc, &leaf.set),
        None => set.meet(alloc, &RangeSet::empty(alloc)),
    }
}

fn is_number(a: &i128, b: &i128) -> bool
    ensures { result ≡ int_eq a.now b.now }
{
    *a == *b
}

// Whether the set holds the number.
fn holds(set: &RangeSet, x: &i128) -> bool
    ensures { result ≡ has set.now x.now }
{
    set.holds(*x)
}

// Whether the slot permits the number.
fn permits(slots: &Slots<'_>, slot: u32, x: &i128) -> bool
    ensures { result ≡ has (domain_of (grammar_of slots.now.root.now) slot) x.now }
{
    match slots.leaf(slot) {
        Some(leaf) => holds(&leaf.set, x),
        None => false,
    }
}

// Whether the range has another number.
fn is_more_than(range: &(i128, i128), x: &i128) -> bool
    ensures { (rs : List (ℤ × ℤ)) → reach.has_other (range.now ∷ rs) x.now ≡ (result || reach.has_other rs x.now) }
{
    !(is_number(&range.0, x) && is_number(&range.1, x))
}

// Whether ranges have another number.
fn has_other(ranges: &[(i128, i128)], x: &i128) -> bool
    ensures { result ≡ reach.has_other ranges.now x.now }
{
    for range in ranges {
        if is_more_than(range, x) {
            return true;
        }
    }
    false
}

// Whether the slot permits another number.
fn permits_other(slots: &Slots<'_>, slot: u32, x: &i128) -> bool
    ensures { result ≡ reach.has_other (domain_of (grammar_of slots.now.root.now) slot) x.now }
{
    match slots.leaf(slot) {
        Some(leaf) => has_other(leaf.set.ranges(), x),
        None => false,
    }
}

// The slot of a condition.
fn tested_slot(test: &Test) -> u32
    ensures { result ≡ reach.tested_slot test.now }
{
    match test {
        Test::Flag(slot) => *slot,
        Test::Equals(slot, _) => *slot,
    }
}

// The number that a condition wants.
fn tested_number(test: &Test) -> i128
    ensures { result ≡ reach.tested_number test.now }
{
    match test {
        Test::Flag(_) => 1,
        Test::Equals(_, x) => *x,
    }
}

fn same_wish(a: &Test, b: &Test) -> bool
    ensures { (us : List TestData) → reach.agrees a.now (b.now ∷ us) ≡ (result && reach.agrees a.now us) }
{
    tested_slot(a) != tested_slot(b) || is_number(&tested_number(a), &tested_number(b))
}

// Whether no other condition wants another number of the same slot.
fn agrees(test: &Test, others: &[Test]) -> bool
    ensures { result ≡ reach.agrees test.now others.now }
{
    for other in others {
        if !same_wish(test, other) {
            return false;
        }
    }
    true
}

fn can_hold(slots: &Slots<'_>, test: &Test, others: &[Test]) -> bool
    ensures { reach.tests_can (grammar_of slots.now.root.now) (test.now ∷ others.now) ≡ (result && reach.tests_can (grammar_of slots.now.root.now) others.now) }
{
    permits(slots, tested_slot(test), &tested_number(test)) && agrees(test, others)
}

/// Whether some permitted numbers meet all of these conditions.
pub fn tests_can(slots: &Slots<'_>, tests: &[Test]) -> bool
    ensures { result ≡ reach.tests_can (grammar_of slots.now.root.now) tests.now }
{
    for k in 0..tests.len() {
        if !can_hold(slots, &tests[k], &tests[k + 1..]) {
            return false;
        }
    }
    true
}

fn can_fail(slots: &Slots<'_>, test: &Test) -> bool
    ensures { result ≡ reach.has_other (domain_of (grammar_of slots.now.root.now) (reach.tested_slot test.now)) (reach.tested_number test.now) }
{
    permits_other(slots, tested_slot(test), &tested_number(test))
}

fn tests_can_fail(slots: &Slots<'_>, tests: &[Test]) -> bool
    ensures { result ≡ reach.tests_can_fail (grammar_of slots.now.root.now) tests.now }
{
    for test in tests {
        if can_fail(slots, test) {
            return true;
        }
    }
    false
}

/// Whether a component can be there.
pub fn can_be_there(slots: &Slots<'_>, presence: &Presence) -> bool
    ensures { result ≡ reach.can_be_there (grammar_of slots.now.root.now) presence.now }
{
    match presence {
        Presence::Always => true,
        Presence::Bit => true,
        Presence::When(tests) => tests_can(slots, tests.items()),
    }
}

/// Whether a component can be absent.
pub fn can_be_away(slots: &Slots<'_>, presence: &Presence) -> bool
    ensures { result ≡ reach.can_be_away (grammar_of slots.now.root.now) presence.now }
{
    match presence {
        Presence::Always => false,
        Presence::Bit => true,
        Presence::When(tests) => tests_can_fail(slots, tests.items()),
    }
}

fn same_bytes(a: &[u8], b: &[u8]) -> bool
    ensures { result ≡ same_name a.now b.now }
{
    a == b
}

fn is_item(item: &(Name, i128), place: usize, set: &RangeSet, name: &[u8]) -> bool
    ensures { result ≡ (same_name item.now.0 name.now && has set.now (pos place)) }
{
    same_bytes(item.0.bytes(), name) && set.holds_natural(place as u64)
}

// Whether the name is that of an item whose place is in the set.
fn item_can(set: &RangeSet, items: &[(Name, i128)], name: &[u8]) -> bool
    ensures { result ≡ reach.item_can set.now 0 items.now name.now }
{
    for (place, item) in items.iter().enumerate() {
        if is_item(item, place, set, name) {
            return true;
        }
    }
    false
}

// Whether the slot permits an item of this name.
fn permits_item(slots: &Slots<'_>, slot: u32, name: &[u8]) -> bool
    ensures { result ≡ reach.item_can (domain_of (grammar_of slots.now.root.now) slot) 0 (items_of (grammar_of slots.now.root.now) slot) name.now }
{
    match slots.leaf(slot) {
        Some(leaf) => item_can(&leaf.set, leaf.items.items.items(), name),
        None => false,
    }
}

/// Whether an alternative can be chosen.
pub fn can_be_chosen(slots: &Slots<'_>, rule: ChoiceRule, name: &[u8], tests: &[Test]) -> bool
    ensures { result ≡ reach.can_be_chosen (grammar_of slots.now.root.now) rule name.now tests.now }
{
    match rule {
        ChoiceRule::Index(_) => true,
        ChoiceRule::Tests => tests_can(slots, tests),
        ChoiceRule::Item(slot) => permits_item(slots, slot, name),
    }
}
