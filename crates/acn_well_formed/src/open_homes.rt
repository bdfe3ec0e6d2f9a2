//! One walk with the homes that are open, which looks inside each home alone.
//!
//! Where each field's slot and each use is at home in a SEQUENCE round it, nothing outside a home is about its slots, and so
//! what is seen inside the home is all. Where a slot's inserted field stands in the home itself, no SEQUENCE further inside
//! has it, and one needn't look at all. The time grows as the nodes, and as the slots whose fields stand in SEQUENCEs
//! inside their homes times the nodes of these homes.
ghost use Rattle.std.specs.Prelude.{◌≡◌, ◌<◌, ◌++◌, [], ◌∷◌, length, map};
ghost use Rattle.std.specs.List.{list_all};
ghost use Rattle.acn_grammar.specs.View.{grammar_of, form_of, field_of, alternative_of, fields_view, alternatives_view};
ghost use Rattle.acn_grammar.specs.Walk.{rule_uses, choice_uses, slot_of};
ghost use Rattle.acn_well_formed.specs.Held as spec;

use crate::homes::{Sought, holds, is_slot, look_inside};
use crate::node_rules::{conditions, test_slot};
use acn_grammar::{Alternative, Body, ChoiceRule, Field, Node, SizeRule, Test};
use arrayvec::ArrayVec;

/// The greatest number of SEQUENCEs on a path of `MOST_STEPS` steps.
const LEVELS: usize = 65;

// Whether the slot is at home in one of the SEQUENCEs.
fn is_held(homes: &[&[u32]], slot: u32) -> bool
    ensures { result ≡ spec.is_held (map (λ home. home.now) homes.now) slot }
{
    for home in homes {
        if holds(home, slot) {
            return true;
        }
    }
    false
}

fn slot_held(homes: &[&[u32]], slot: &Option<u32>) -> bool
    ensures { result ≡ spec.slot_held (map (λ home. home.now) homes.now) slot.now }
{
    match slot {
        None => true,
        Some(slot) => is_held(homes, *slot),
    }
}

fn tests_held(homes: &[&[u32]], tests: &[Test]) -> bool
    ensures { result ≡ spec.tests_held (map (λ home. home.now) homes.now) tests.now }
{
    for test in tests {
        if !is_held(homes, test_slot(test)) {
            return false;
        }
    }
    true
}

fn rule_held(homes: &[&[u32]], rule: &SizeRule) -> bool
    ensures { result ≡ list_all (λ u. spec.is_held (map (λ home. home.now) homes.now) (slot_of u)) (rule_uses rule.now) }
{
    match rule {
        SizeRule::Slot(slot) => is_held(homes, *slot),
        SizeRule::Prefix { .. } => true,
        SizeRule::Ended(_) => true,
    }
}

fn choice_held(homes: &[&[u32]], rule: ChoiceRule) -> bool
    ensures { result ≡ list_all (λ u. spec.is_held (map (λ home. home.now) homes.now) (slot_of u)) (choice_uses rule) }
{
    match rule {
        ChoiceRule::Item(slot) => is_held(homes, slot),
        _ => true,
    }
}

// Whether the slots that the form of a node uses are at home round it.
fn uses_held(body: &Body, homes: &[&[u32]]) -> bool
    ensures { result ≡ spec.uses_held (map (λ home. home.now) homes.now) (form_of body.now) }
{
    match body {
        Body::Octets(sizing) => rule_held(homes, &sizing.rule),
        Body::Bits(sizing) => rule_held(homes, &sizing.rule),
        Body::Text(leaf) => rule_held(homes, &leaf.sized.rule),
        Body::List(sizing, _) => rule_held(homes, &sizing.rule),
        Body::Contained(sizing, _) => rule_held(homes, &sizing.rule),
        Body::Choice(choice) => choice_held(homes, choice.rule),
        Body::Num(_) | Body::Seq(_) => true,
    }
}

// Whether the slot is right as far as one sees inside this SEQUENCE.
fn right_inside(body: &Body, slot: u32) -> bool
    ensures { result ≡ spec.right_inside (form_of body.now) slot }
{
    let all = look_inside(body, &Sought { slot, total: 0 }, false);
    let sought = Sought {
        slot,
        total: all.about,
    };
    let seen = look_inside(body, &sought, false);
    seen.fine
}

fn not_below(found: &Option<u32>, slot: u32) -> bool
    ensures { result ≡ spec.not_below slot found.now }
{
    match found {
        None => false,
        Some(found) => slot <= *found,
    }
}

fn is_from(field: &Field, slot: u32) -> bool
    ensures { result ≡ spec.is_from slot (field_of field.now) }
{
    match field {
        Field::Component { .. } => false,
        Field::Inserted { slot: found, .. } => not_below(found, slot),
    }
}

// The fields from the first inserted one on whose slot isn't below this one.
fn from_slot(fields: &[Field], slot: u32) -> &[Field]
    ensures { fields_view result.now ≡ spec.from_slot slot (fields_view fields.now) }
{
    for at in 0..fields.len() {
        if is_from(&fields[at], slot) {
            return &fields[at..];
        }
    }
    &[]
}

fn is_inserted(field: &Field, slot: u32) -> bool
    ensures { result ≡ spec.is_inserted slot (field_of field.now) }
{
    match field {
        Field::Component { .. } => false,
        Field::Inserted { slot: found, .. } => is_slot(found, slot),
    }
}

// Whether the first of the fields is inserted and says the slot.
fn stands_first(fields: &[Field], slot: u32) -> bool
    ensures { result ≡ spec.stands_first slot (fields_view fields.now) }
{
    match fields.first() {
        None => false,
        Some(field) => is_inserted(field, slot),
    }
}

// Whether each slot at home in this SEQUENCE is that of an inserted field in it, or right inside it.
fn all_right(body: &Body, fields: &[Field], home: &[u32]) -> bool
    ensures { result ≡ spec.all_right (form_of body.now) (fields_view fields.now) home.now }
{
    let mut rest = fields;
    for slot in home {
        rest = from_slot(rest, *slot);
        if !stands_first(rest, *slot) && !right_inside(body, *slot) {
            return false;
        }
    }
    true
}

// The homes with one more, the innermost.
fn with_home<'a>(homes: &[&'a [u32]], home: &'a [u32]) -> ArrayVec<&'a [u32], LEVELS>
    requires { length homes.now < LEVELS }
    ensures { map (λ home. home.now) result.items ≡ map (λ home. home.now) homes.now ++ (home.now ∷ []) }
{
    let mut all: ArrayVec<&[u32], LEVELS> = ArrayVec::new();
    for outer in homes {
        all.push(*outer);
    }
    all.push(home);
    all
}

/// Whether the slot of each field and each use is at home in a SEQUENCE round it, and right inside its home.
#[cycle(held)]
pub fn node_held<'a>(node: &'a Node, homes: &[&'a [u32]]) -> bool
    ensures { result ≡ spec.held (map (λ home. home.now) homes.now) (grammar_of node.now) }
{
    uses_held(&node.body, homes) && body_held(&node.body, homes)
}

#[cycle(held)]
fn body_held<'a>(body: &'a Body, homes: &[&'a [u32]]) -> bool
    ensures { result ≡ spec.form_held (map (λ home. home.now) homes.now) (form_of body.now) }
{
    match body {
        Body::Seq(seq) => {
            if homes.len() >= LEVELS {
                return false;
            }
            let inner = with_home(homes, seq.home.items());
            all_right(body, seq.fields.items(), seq.home.items())
                && fields_held(seq.fields.items(), inner.as_slice())
        }
        Body::List(_, inside) => node_held(inside.get(), homes),
        Body::Choice(choice) => alternatives_held(choice.alternatives.items(), homes),
        Body::Contained(_, inside) => node_held(inside.get(), homes),
        Body::Num(_) | Body::Octets(_) | Body::Bits(_) | Body::Text(_) => true,
    }
}

#[cycle(held)]
fn field_held<'a>(field: &'a Field, homes: &[&'a [u32]]) -> bool
    ensures { result ≡ spec.field_held (map (λ home. home.now) homes.now) (field_of field.now) }
{
    match field {
        Field::Component {
            node,
            presence,
            slot,
            ..
        } => {
            slot_held(homes, slot)
                && tests_held(homes, conditions(presence))
                && node_held(node, homes)
        }
        Field::Inserted { node, slot, .. } => slot_held(homes, slot) && node_held(node, homes),
    }
}

#[cycle(held)]
fn fields_held<'a>(fields: &'a [Field], homes: &[&'a [u32]]) -> bool
    ensures { result ≡ spec.fields_held (map (λ home. home.now) homes.now) (fields_view fields.now) }
{
    for field in fields {
        if !field_held(field, homes) {
            return false;
        }
    }
    true
}

#[cycle(held)]
fn alternative_held<'a>(alternative: &'a Alternative, homes: &[&'a [u32]]) -> bool
    ensures { result ≡ spec.alternative_held (map (λ home. home.now) homes.now) (alternative_of alternative.now) }
{
    tests_held(homes, alternative.tests.items()) && node_held(&alternative.node, homes)
}

#[cycle(held)]
fn alternatives_held<'a>(alternatives: &'a [Alternative], homes: &[&'a [u32]]) -> bool
    ensures { result ≡ spec.alternatives_held (map (λ home. home.now) homes.now) (alternatives_view alternatives.now) }
{
    for alternative in alternatives {
        if !alternative_held(alternative, homes) {
            return false;
        }
    }
    true
}
