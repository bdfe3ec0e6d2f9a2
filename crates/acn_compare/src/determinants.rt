//! The fields on which sizes, conditions and choices rest.

ghost use Rattle.std.specs.Prelude.{◌≡◌};
ghost use Rattle.std.specs.Cmp.Lexicographic.{pointwise};
ghost use Rattle.acn_compare.specs.Accepts.{heads};
ghost use Rattle.acn_compare.specs.Tests as spec;
ghost use Rattle.acn_compare.specs.Tests.{together};
ghost use Rattle.acn_grammar.specs.View.{form_of, field_of, fields_view, alternatives_view};
ghost use Rattle.acn_grammar.specs.Walk.{conditions_of};

use crate::codings::same_number;
use crate::slots::answers;
use acn_tree::{Alternative, Body, ChoiceRule, Field, Presence, SizeRule, Test};

fn same_test(old: &Test, new: &Test, slots: &[Option<u32>]) -> bool
    ensures { result ≡ spec.same_test slots.now old.now new.now }
{
    match old {
        Test::Flag(a) => match new {
            Test::Flag(b) => answers(slots, *a, *b),
            Test::Equals(_, _) => false,
        },
        Test::Equals(a, x) => match new {
            Test::Equals(b, y) => answers(slots, *a, *b) && same_number(x, y),
            Test::Flag(_) => false,
        },
    }
}

fn same_tests(old: &[Test], new: &[Test], slots: &[Option<u32>]) -> bool
    ensures { result ≡ pointwise (spec.same_test slots.now) old.now new.now }
{
    if old.len() != new.len() {
        return false;
    }
    for k in 0..old.len() {
        if !same_test(&old[k], &new[k], slots) {
            return false;
        }
    }
    true
}

fn same_homes(old: &[u32], new: &[u32], slots: &[Option<u32>]) -> bool
    ensures { result ≡ pointwise (spec.answer slots.now) old.now new.now }
{
    if old.len() != new.len() {
        return false;
    }
    for k in 0..old.len() {
        if !answers(slots, old[k], new[k]) {
            return false;
        }
    }
    true
}

fn same_conditions(old: &Presence, new: &Presence, slots: &[Option<u32>]) -> bool
    ensures { result ≡ spec.same_conditions slots.now old.now new.now }
{
    match old {
        Presence::When(a) => match new {
            Presence::When(b) => same_tests(a.items(), b.items(), slots),
            _ => true,
        },
        _ => true,
    }
}

fn both_say(old: Option<u32>, new: Option<u32>) -> bool
    ensures { result ≡ spec.both_say old new }
{
    old.is_some() == new.is_some()
}

// Whether both fields say the number of a slot, or neither, and the conditions of both are the same.
fn same_field(old: &Field, new: &Field, slots: &[Option<u32>]) -> bool
    ensures { result ≡ spec.same_field slots.now (spec.head_of (field_of old.now)) (spec.head_of (field_of new.now)) }
{
    match old {
        Field::Component { slot, presence, .. } => match new {
            Field::Component {
                slot: answer,
                presence: other,
                ..
            } => both_say(*slot, *answer) && same_conditions(presence, other, slots),
            Field::Inserted { slot: answer, .. } => both_say(*slot, *answer),
        },
        Field::Inserted { slot, .. } => match new {
            Field::Component { slot: answer, .. } => both_say(*slot, *answer),
            Field::Inserted { slot: answer, .. } => both_say(*slot, *answer),
        },
    }
}

#[tactic(auto, using(crate::proofs::Counting::fields_ended))]
fn same_row(old: &[Field], new: &[Field], slots: &[Option<u32>]) -> bool
    ensures { result ≡ together (spec.same_field slots.now) (heads (fields_view old.now)) (heads (fields_view new.now)) }
{
    for k in 0..old.len() {
        if k >= new.len() {
            return true;
        }
        if !same_field(&old[k], &new[k], slots) {
            return false;
        }
    }
    true
}

fn same_case(old: &Alternative, new: &Alternative, slots: &[Option<u32>]) -> bool
    ensures { result ≡ spec.same_case slots.now (spec.condition_of old.now) (spec.condition_of new.now) }
{
    same_tests(old.tests.items(), new.tests.items(), slots)
}

#[tactic(auto, using(crate::proofs::Counting::cases_ended, crate::proofs::Counting::cases_turn))]
fn same_cases(old: &[Alternative], new: &[Alternative], slots: &[Option<u32>]) -> bool
    ensures { result ≡ together (spec.same_case slots.now) (conditions_of (alternatives_view old.now)) (conditions_of (alternatives_view new.now)) }
{
    for k in 0..old.len() {
        if k >= new.len() {
            return true;
        }
        if !same_case(&old[k], &new[k], slots) {
            return false;
        }
    }
    true
}

fn same_slot(old: &SizeRule, new: &SizeRule, slots: &[Option<u32>]) -> bool
    ensures { result ≡ spec.same_slot slots.now old.now new.now }
{
    match old {
        SizeRule::Slot(a) => match new {
            SizeRule::Slot(b) => answers(slots, *a, *b),
            _ => true,
        },
        _ => true,
    }
}

// What tells the alternative: conditions of their own, or an item.
fn same_chooser(
    old: &[Alternative],
    rule: ChoiceRule,
    new: &[Alternative],
    other: ChoiceRule,
    slots: &[Option<u32>],
) -> bool
    ensures { result ≡ spec.same_chooser slots.now (alternatives_view old.now) rule (alternatives_view new.now) other }
{
    match rule {
        ChoiceRule::Tests => match other {
            ChoiceRule::Tests => same_cases(old, new, slots),
            _ => true,
        },
        ChoiceRule::Item(a) => match other {
            ChoiceRule::Item(b) => answers(slots, a, b),
            _ => true,
        },
        ChoiceRule::Index(_) => true,
    }
}

/// Whether two nodes of one kind rest on fields at the same places, by the same conditions.
pub fn same_determinants(old: &Body, new: &Body, slots: &[Option<u32>]) -> bool
    ensures { result ≡ spec.same_determinants slots.now (form_of old.now) (form_of new.now) }
{
    match old {
        Body::Num(_) => true,
        Body::Octets(a) => match new {
            Body::Octets(b) => same_slot(&a.rule, &b.rule, slots),
            _ => true,
        },
        Body::Bits(a) => match new {
            Body::Bits(b) => same_slot(&a.rule, &b.rule, slots),
            _ => true,
        },
        Body::Text(a) => match new {
            Body::Text(b) => same_slot(&a.sized.rule, &b.sized.rule, slots),
            _ => true,
        },
        Body::Seq(a) => match new {
            Body::Seq(b) => {
                same_homes(a.home.items(), b.home.items(), slots)
                    && same_row(a.fields.items(), b.fields.items(), slots)
            }
            _ => true,
        },
        Body::List(a, _) => match new {
            Body::List(b, _) => same_slot(&a.rule, &b.rule, slots),
            _ => true,
        },
        Body::Choice(a) => match new {
            Body::Choice(b) => same_chooser(
                a.alternatives.items(),
                a.rule,
                b.alternatives.items(),
                b.rule,
                slots,
            ),
            _ => true,
        },
        Body::Contained(a, _) => match new {
            Body::Contained(b, _) => same_slot(&a.rule, &b.rule, slots),
            _ => true,
        },
    }
}
