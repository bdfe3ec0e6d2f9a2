ghost use Rattle.std.specs.Prelude.{◌≡◌, ◌&&◌, ◌-◌, nat_lt, length, map};
ghost use Rattle.std.specs.List.{list_all, list_any};
ghost use Rattle.acn_grammar.specs.Check.{test_slot as test_slot_of};
ghost use Rattle.acn_well_formed.specs.Kept as kept;
ghost use Rattle.acn_grammar.specs.Tree as tree;
ghost use Rattle.acn_grammar.specs.View.{grammar_of, form_of, field_of, alternative_of, fields_view, alternatives_view};
ghost use Rattle.acn_grammar.specs.Walk.{presence_tests, slot_of, rule_uses, choice_uses, conditions_of};

use crate::names::{alternative_names_differ, field_names_differ};
use acn_grammar::{Alternative, Body, ChoiceRule, Field, Node, NumKind, Presence, SizeRule, Test};
use acn_leaf::{is_least, list_fine, num_fine, sizing_fine, text_fine};

fn is_align(align: u32) -> bool
    ensures { result ≡ tree.is_align align }
{
    align == 1 || align == 8 || align == 16 || align == 32
}

// Whether an alternative has conditions.
fn has_tests(alternatives: &[Alternative]) -> bool
    ensures { result ≡ list_any tree.has_tests (conditions_of (alternatives_view alternatives.now)) }
{
    for alternative in alternatives {
        if !alternative.tests.items().is_empty() {
            return true;
        }
    }
    false
}

// How many alternatives there are.
fn count(alternatives: &[Alternative]) -> usize
    ensures { result ≡ length (conditions_of (alternatives_view alternatives.now)) }
{
    alternatives.len()
}

fn choice_rule_fine(alternatives: &[Alternative], rule: ChoiceRule) -> bool
    ensures { result ≡ tree.choice_rule_fine (conditions_of (alternatives_view alternatives.now)) rule }
{
    match rule {
        ChoiceRule::Index(width) => {
            is_least(count(alternatives).saturating_sub(1) as u128, width)
                && !has_tests(alternatives)
        }
        ChoiceRule::Tests => has_tests(alternatives),
        ChoiceRule::Item(_) => true,
    }
}

fn choice_fine(alternatives: &[Alternative], rule: ChoiceRule) -> bool
    ensures { result ≡ tree.choice_fine (conditions_of (alternatives_view alternatives.now)) rule }
{
    count(alternatives) > 0
        && alternative_names_differ(alternatives)
        && choice_rule_fine(alternatives, rule)
}

// Whether the form of a node keeps its own rules.
fn body_fine(body: &Body) -> bool
    ensures { result ≡ tree.form_fine (form_of body.now) }
{
    match body {
        Body::Num(leaf) => num_fine(leaf),
        Body::Octets(sizing) => sizing_fine(sizing),
        Body::Bits(sizing) => sizing_fine(sizing),
        Body::Text(leaf) => text_fine(leaf),
        Body::Seq(seq) => field_names_differ(seq.fields.items()),
        Body::List(sizing, _) => list_fine(sizing),
        Body::Choice(choice) => choice_fine(choice.alternatives.items(), choice.rule),
        Body::Contained(sizing, _) => sizing_fine(sizing),
    }
}

fn presence_fine(presence: &Presence) -> bool
    ensures { result ≡ tree.presence_fine presence.now }
{
    match presence {
        Presence::When(tests) => !tests.items().is_empty(),
        _ => true,
    }
}

fn kind_inserted(kind: NumKind, slot: &Option<u32>) -> bool
    ensures { result ≡ tree.kind_inserted kind slot.now }
{
    match (kind, slot) {
        (NumKind::Null, None) => true,
        (NumKind::Null, Some(_)) => false,
        (_, None) => false,
        (_, Some(_)) => true,
    }
}

// Whether an inserted field has a slot exactly where it is no NULL.
fn inserted_fine(slot: &Option<u32>, body: &Body) -> bool
    ensures { result ≡ tree.inserted_fine slot.now (form_of body.now) }
{
    match body {
        Body::Num(leaf) => kind_inserted(leaf.kind, slot),
        _ => false,
    }
}

// Whether a component with a slot is always there, and is a number that isn't NULL.
fn own_fine(slot: &Option<u32>, presence: &Presence, body: &Body) -> bool
    ensures { result ≡ tree.own_fine slot.now presence.now (form_of body.now) }
{
    match slot {
        None => true,
        Some(_) => match presence {
            Presence::Always => inserted_fine(slot, body),
            Presence::Bit => false,
            Presence::When(_) => false,
        },
    }
}

pub fn test_slot(test: &Test) -> u32
    ensures { result ≡ test_slot_of test.now }
{
    match test {
        Test::Flag(slot) => *slot,
        Test::Equals(slot, _) => *slot,
    }
}

fn tests_below(tests: &[Test], slots: u64) -> bool
    ensures { result ≡ kept.tests_below slots tests.now }
{
    for test in tests {
        if test_slot(test) as u64 >= slots {
            return false;
        }
    }
    true
}

/// The conditions of a presence.
pub fn conditions(presence: &Presence) -> &[Test]
    ensures { result.now ≡ presence_tests presence.now }
{
    match presence {
        Presence::When(tests) => tests.items(),
        _ => &[],
    }
}

fn rule_below(rule: &SizeRule, slots: u64) -> bool
    ensures { result ≡ list_all (λ u. nat_lt (slot_of u) slots) (rule_uses rule.now) }
{
    match rule {
        SizeRule::Slot(slot) => (*slot as u64) < slots,
        SizeRule::Prefix { .. } => true,
        SizeRule::Ended(_) => true,
    }
}

fn choice_below(rule: ChoiceRule, slots: u64) -> bool
    ensures { result ≡ list_all (λ u. nat_lt (slot_of u) slots) (choice_uses rule) }
{
    match rule {
        ChoiceRule::Item(slot) => (slot as u64) < slots,
        _ => true,
    }
}

// Whether the slots that the form of a node uses are there.
fn uses_below(body: &Body, slots: u64) -> bool
    ensures { result ≡ kept.uses_below slots (form_of body.now) }
{
    match body {
        Body::Octets(sizing) => rule_below(&sizing.rule, slots),
        Body::Bits(sizing) => rule_below(&sizing.rule, slots),
        Body::Text(leaf) => rule_below(&leaf.sized.rule, slots),
        Body::List(sizing, _) => rule_below(&sizing.rule, slots),
        Body::Contained(sizing, _) => rule_below(&sizing.rule, slots),
        Body::Choice(choice) => choice_below(choice.rule, slots),
        Body::Num(_) | Body::Seq(_) => true,
    }
}

fn all_below(home: &[u32], slots: u64) -> bool
    ensures { result ≡ kept.all_below slots home.now }
{
    for slot in home {
        if *slot as u64 >= slots {
            return false;
        }
    }
    true
}

// Whether each slot is greater than the one before it.
fn rises(home: &[u32]) -> bool
    ensures { result ≡ kept.rises_from 0 home.now }
{
    let mut least = 0u64;
    for slot in home {
        if (*slot as u64) < least {
            return false;
        }
        least = *slot as u64 + 1;
    }
    true
}

/// Whether each node of a tree keeps the rules that speak of it alone.
#[cycle(kept)]
pub fn node_kept(node: &Node, slots: u64) -> bool
    ensures { result ≡ kept.kept slots (grammar_of node.now) }
{
    is_align(node.align)
        && body_fine(&node.body)
        && uses_below(&node.body, slots)
        && body_kept(&node.body, slots)
}

#[cycle(kept)]
fn body_kept(body: &Body, slots: u64) -> bool
    ensures { result ≡ kept.form_kept slots (form_of body.now) }
{
    match body {
        Body::Seq(seq) => {
            rises(seq.home.items())
                && all_below(seq.home.items(), slots)
                && fields_kept(seq.fields.items(), slots)
        }
        Body::List(_, inside) => node_kept(inside.get(), slots),
        Body::Choice(choice) => alternatives_kept(choice.alternatives.items(), slots),
        Body::Contained(_, inside) => node_kept(inside.get(), slots),
        Body::Num(_) | Body::Octets(_) | Body::Bits(_) | Body::Text(_) => true,
    }
}

#[cycle(kept)]
fn field_kept(field: &Field, slots: u64) -> bool
    ensures { result ≡ kept.field_kept slots (field_of field.now) }
{
    match field {
        Field::Component {
            node,
            presence,
            slot,
            ..
        } => {
            presence_fine(presence)
                && own_fine(slot, presence, &node.body)
                && tests_below(conditions(presence), slots)
                && node_kept(node, slots)
        }
        Field::Inserted { node, slot, .. } => {
            inserted_fine(slot, &node.body) && node_kept(node, slots)
        }
    }
}

#[cycle(kept)]
fn fields_kept(fields: &[Field], slots: u64) -> bool
    ensures { result ≡ kept.fields_kept slots (fields_view fields.now) }
{
    for field in fields {
        if !field_kept(field, slots) {
            return false;
        }
    }
    true
}

#[cycle(kept)]
fn alternative_kept(alternative: &Alternative, slots: u64) -> bool
    ensures { result ≡ kept.alternative_kept slots (alternative_of alternative.now) }
{
    tests_below(alternative.tests.items(), slots) && node_kept(&alternative.node, slots)
}

#[cycle(kept)]
fn alternatives_kept(alternatives: &[Alternative], slots: u64) -> bool
    ensures { result ≡ kept.alternatives_kept slots (alternatives_view alternatives.now) }
{
    for alternative in alternatives {
        if !alternative_kept(alternative, slots) {
            return false;
        }
    }
    true
}
