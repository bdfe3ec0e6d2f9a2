//! How often a slot is used, up to twice: all conditions of one CHOICE on a slot count once.

ghost use Rattle.std.specs.Prelude.{◌≡◌, ◌≤◌, ◌+◌, map, nat_eq, nat_lt};
ghost use Rattle.std.specs.List.{list_any};
ghost use Rattle.acn_grammar.specs.View.{form_of, alternatives_view};
ghost use Rattle.acn_grammar.specs.Walk.{slot_of, form_uses, rule_uses, choice_uses, condition, conditions_of};
ghost use Rattle.acn_extreme_laws.specs.Single as single;
ghost use Rattle.acn_extreme_laws.specs.Single.{tested, count_of_slot};
ghost use Rattle.acn_single.specs.Lines.{few, line_of, all_seen_uses, seen_uses, uses_by, is_used};

use crate::lines::Line;
use acn_tree::{Alternative, Body, ChoiceRule, SizeRule, Test};

// The slot of a condition.
fn slot_of_test(test: &Test) -> u32
    ensures { result ≡ slot_of (condition test.now) }
{
    match test {
        Test::Flag(slot) => *slot,
        Test::Equals(slot, _) => *slot,
    }
}

fn once_if(holds: bool) -> u32
    ensures { result ≡ single.once_if holds }
{
    if holds { 1 } else { 0 }
}

// Two counts together, up to two.
fn both(a: u32, b: u32) -> u32
    ensures value { result ≡ few (a + b) }
    ensures small { result ≤ 2 }
{
    a.saturating_add(b).min(2)
}

// How many of these conditions are on the slot.
fn tests_on(slot: u32, tests: &[Test]) -> u32
    ensures { result ≡ few (count_of_slot slot (tested tests.now)) }
{
    let mut count = 0;
    for test in tests {
        count = both(count, once_if(slot_of_test(test) == slot));
    }
    count
}

// Whether one of these conditions is on the slot.
fn is_among(slot: u32, tests: &[Test]) -> bool
    ensures { result ≡ list_any (λ t. nat_eq t slot) (tested tests.now) }
{
    for test in tests {
        if slot_of_test(test) == slot {
            return true;
        }
    }
    false
}

// Whether one of the conditions of a CHOICE is on the slot.
fn is_tested(slot: u32, alternatives: &[Alternative]) -> bool
    ensures { result ≡ single.is_tested slot (conditions_of (alternatives_view alternatives.now)) }
{
    for alternative in alternatives {
        if is_among(slot, alternative.tests.items()) {
            return true;
        }
    }
    false
}

fn choice_use(slot: u32, body: &Body) -> u32
    ensures { result ≡ single.choice_use slot (form_of body.now) }
{
    match body {
        Body::Choice(choice) => once_if(is_tested(slot, choice.alternatives.items())),
        Body::Num(_) => 0,
        Body::Octets(_) => 0,
        Body::Bits(_) => 0,
        Body::Text(_) => 0,
        Body::Seq(_) => 0,
        Body::List(_, _) => 0,
        Body::Contained(_, _) => 0,
    }
}

fn rule_use(slot: u32, rule: &SizeRule) -> u32
    ensures { result ≡ count_of_slot slot (map slot_of (rule_uses rule.now)) }
{
    match rule {
        SizeRule::Slot(named) => once_if(*named == slot),
        SizeRule::Prefix { .. } => 0,
        SizeRule::Ended(_) => 0,
    }
}

fn determinant_use(slot: u32, rule: ChoiceRule) -> u32
    ensures { result ≡ count_of_slot slot (map slot_of (choice_uses rule)) }
{
    match rule {
        ChoiceRule::Item(named) => once_if(named == slot),
        ChoiceRule::Index(_) => 0,
        ChoiceRule::Tests => 0,
    }
}

fn body_use(slot: u32, body: &Body) -> u32
    ensures { result ≡ count_of_slot slot (map slot_of (form_uses (form_of body.now))) }
{
    match body {
        Body::Octets(sizing) => rule_use(slot, &sizing.rule),
        Body::Bits(sizing) => rule_use(slot, &sizing.rule),
        Body::Text(leaf) => rule_use(slot, &leaf.sized.rule),
        Body::List(sizing, _) => rule_use(slot, &sizing.rule),
        Body::Contained(sizing, _) => rule_use(slot, &sizing.rule),
        Body::Choice(choice) => determinant_use(slot, choice.rule),
        Body::Num(_) => 0,
        Body::Seq(_) => 0,
    }
}

/// How often a node with these conditions of its own uses the slot, up to twice.
pub fn uses_at(slot: u32, tests: &[Test], body: &Body) -> u32
    ensures { result ≡ few (uses_by tests.now (form_of body.now) slot) }
{
    both(
        both(tests_on(slot, tests), choice_use(slot, body)),
        body_use(slot, body),
    )
}

/// Whether a node with these conditions of its own uses one of these slots.
pub fn uses_one(slots: &[u32], tests: &[Test], body: &Body) -> bool
    ensures { result ≡ list_any (is_used tests.now (form_of body.now)) slots.now }
{
    for slot in slots {
        if uses_at(*slot, tests, body) > 0 {
            return true;
        }
    }
    false
}

fn line_uses(slot: u32, line: &Line<'_>) -> u32
    ensures { result ≡ few (seen_uses slot (line_of line.now)) }
{
    uses_at(slot, line.tag.tests, line.body)
}

/// Whether nodes use the slot more than once.
pub fn is_used_twice(slot: u32, lines: &[Line<'_>]) -> bool
    ensures { result ≡ nat_lt 1 (all_seen_uses slot (map line_of lines.now)) }
{
    let mut count = 0;
    for line in lines {
        count = both(count, line_uses(slot, line));
        if count > 1 {
            return true;
        }
    }
    false
}
