ghost use Rattle.std.specs.Prelude.{◌≡◌, ◌&&◌, nat_eq, not};
ghost use Rattle.std.specs.List.{list_any};
ghost use Rattle.acn_grammar.specs.Check.{test_slot};
ghost use Rattle.acn_grammar.specs.Leaves.{implies, same_truth};
ghost use Rattle.acn_well_formed.specs.Seen as spec;
ghost use Rattle.acn_grammar.specs.Tree as tree;
ghost use Rattle.acn_grammar.specs.View.{grammar_of, form_of, field_of, alternative_of, fields_view, alternatives_view};
ghost use Rattle.acn_grammar.specs.Walk.{slot_of, rule_uses, choice_uses};

use crate::node_rules::conditions;
use acn_grammar::{Alternative, Body, ChoiceRule, Field, Node, Presence, SizeRule, Test};

/// What is seen of one slot inside a node.
#[derive(Clone, Copy, PartialEq, Eq)]
pub struct Seen {
    /// How many nodes are the slot's field or use it.
    pub about: u32,
    /// Whether a SEQUENCE has all of them inside it.
    pub encloses: bool,
    /// Whether the slot's field stands here or in SEQUENCEs that are always there.
    pub near: bool,
    /// Whether homes and uses are right.
    pub fine: bool,
}

/// A slot, and how many nodes of the whole tree are its field or use it.
#[derive(Clone, Copy, PartialEq, Eq)]
pub struct Sought {
    pub slot: u32,
    pub total: u32,
}

fn nothing() -> Seen
    ensures { result ≡ spec.nothing }
{
    Seen {
        about: 0,
        encloses: false,
        near: false,
        fine: true,
    }
}

fn joined(a: &Seen, b: &Seen) -> Seen
    ensures { result ≡ spec.joined a.now b.now }
{
    Seen {
        about: a.about.saturating_add(b.about),
        encloses: a.encloses || b.encloses,
        near: a.near || b.near,
        fine: a.fine && b.fine,
    }
}

fn far(seen: &Seen) -> Seen
    ensures { result ≡ spec.far seen.now }
{
    Seen {
        about: seen.about,
        encloses: seen.encloses,
        near: false,
        fine: seen.fine,
    }
}

// Whether the slot is one of these.
pub fn holds(home: &[u32], slot: u32) -> bool
    ensures { result ≡ tree.holds home.now slot }
{
    for other in home {
        if *other == slot {
            return true;
        }
    }
    false
}

fn test_names(test: &Test, slot: u32) -> bool
    ensures { result ≡ nat_eq slot (test_slot test.now) }
{
    match test {
        Test::Flag(other) => slot == *other,
        Test::Equals(other, _) => slot == *other,
    }
}

fn tests_name(tests: &[Test], slot: u32) -> bool
    ensures { result ≡ spec.tests_name slot tests.now }
{
    for test in tests {
        if test_names(test, slot) {
            return true;
        }
    }
    false
}

fn rule_names(rule: &SizeRule, slot: u32) -> bool
    ensures { result ≡ list_any (λ u. nat_eq slot (slot_of u)) (rule_uses rule.now) }
{
    match rule {
        SizeRule::Slot(other) => slot == *other,
        SizeRule::Prefix { .. } => false,
        SizeRule::Ended(_) => false,
    }
}

fn choice_names(rule: ChoiceRule, slot: u32) -> bool
    ensures { result ≡ list_any (λ u. nat_eq slot (slot_of u)) (choice_uses rule) }
{
    match rule {
        ChoiceRule::Item(other) => slot == other,
        _ => false,
    }
}

// Whether the form of a node uses the slot.
fn body_names(body: &Body, slot: u32) -> bool
    ensures { result ≡ spec.form_names slot (form_of body.now) }
{
    match body {
        Body::Octets(sizing) => rule_names(&sizing.rule, slot),
        Body::Bits(sizing) => rule_names(&sizing.rule, slot),
        Body::Text(leaf) => rule_names(&leaf.sized.rule, slot),
        Body::List(sizing, _) => rule_names(&sizing.rule, slot),
        Body::Contained(sizing, _) => rule_names(&sizing.rule, slot),
        Body::Choice(choice) => choice_names(choice.rule, slot),
        Body::Num(_) | Body::Seq(_) => false,
    }
}

fn is_seq(body: &Body) -> bool
    ensures { result ≡ tree.is_seq (form_of body.now) }
{
    matches!(body, Body::Seq(_))
}

pub fn is_slot(found: &Option<u32>, slot: u32) -> bool
    ensures { result ≡ tree.is_slot slot found.now }
{
    match found {
        None => false,
        Some(found) => *found == slot,
    }
}

fn with_node(
    sought: &Sought,
    in_home: bool,
    is_field: bool,
    uses_it: bool,
    is_right: bool,
    body: &Body,
    inner: &Seen,
) -> Seen
    ensures { result ≡ spec.with_node sought.now.slot sought.now.total in_home is_field uses_it is_right (form_of body.now) inner.now }
{
    let names = uses_it || body_names(body, sought.slot);
    let counts = is_field || names;
    Seen {
        about: inner.about.saturating_add(worth(counts)),
        encloses: inner.encloses || (is_seq(body) && inner.about == sought.total),
        near: inner.near,
        fine: inner.fine && ((!names || in_home) && is_right),
    }
}

fn worth(counts: bool) -> u32
    ensures { result ≡ spec.weight counts }
{
    if counts { 1 } else { 0 }
}

fn home_fine(sought: &Sought, home: &[u32], inner: &Seen) -> bool
    ensures { result ≡ (same_truth (tree.holds home.now sought.now.slot) (nat_eq inner.now.about sought.now.total && not inner.now.encloses) && implies (tree.holds home.now sought.now.slot) inner.now.near) }
{
    let is_home = inner.about == sought.total && !inner.encloses;
    if holds(home, sought.slot) {
        is_home && inner.near
    } else {
        !is_home
    }
}

fn with_home(sought: &Sought, home: &[u32], inner: &Seen) -> Seen
    ensures { result ≡ spec.with_home sought.now.slot sought.now.total home.now inner.now }
{
    Seen {
        about: inner.about,
        encloses: inner.encloses,
        near: inner.near,
        fine: inner.fine && home_fine(sought, home, inner),
    }
}

fn through(presence: &Presence, inner: &Seen) -> Seen
    ensures { result ≡ spec.through 0 0 presence.now inner.now }
{
    match presence {
        Presence::Always => *inner,
        _ => far(inner),
    }
}

fn inserted_near(sought: &Sought, slot: &Option<u32>, inner: &Seen) -> Seen
    ensures { result ≡ spec.inserted_near sought.now.slot sought.now.total slot.now inner.now }
{
    Seen {
        about: inner.about,
        encloses: inner.encloses,
        near: is_slot(slot, sought.slot),
        fine: inner.fine,
    }
}

// A component that says the slot is right where something else is about it.
fn own_right(sought: &Sought, own: &Option<u32>) -> bool
    ensures { result ≡ spec.own_right sought.now.slot sought.now.total own.now }
{
    !is_slot(own, sought.slot) || sought.total > 1
}

fn own_near(sought: &Sought, own: &Option<u32>, inner: &Seen) -> Seen
    ensures { result ≡ spec.own_near sought.now.slot sought.now.total own.now inner.now }
{
    Seen {
        about: inner.about,
        encloses: inner.encloses,
        near: is_slot(own, sought.slot) || inner.near,
        fine: inner.fine,
    }
}

/// What is seen of a slot inside a node, itself included.
#[cycle(seen)]
pub fn look(
    node: &Node,
    sought: &Sought,
    in_home: bool,
    is_field: bool,
    uses_it: bool,
    is_right: bool,
) -> Seen
    ensures { result ≡ spec.seen sought.now.slot sought.now.total in_home is_field uses_it is_right (grammar_of node.now) }
{
    let inner = look_inside(&node.body, sought, in_home);
    with_node(
        sought, in_home, is_field, uses_it, is_right, &node.body, &inner,
    )
}

#[cycle(seen)]
pub fn look_inside(body: &Body, sought: &Sought, in_home: bool) -> Seen
    ensures { result ≡ spec.form_seen sought.now.slot sought.now.total in_home (form_of body.now) }
{
    match body {
        Body::Seq(seq) => {
            let here = in_home || holds(seq.home.items(), sought.slot);
            let inner = look_at_fields(seq.fields.items(), sought, here);
            with_home(sought, seq.home.items(), &inner)
        }
        Body::List(_, inside) => far(&look(inside.get(), sought, in_home, false, false, true)),
        Body::Choice(choice) => far(&look_at_alternatives(
            choice.alternatives.items(),
            sought,
            in_home,
        )),
        Body::Contained(_, inside) => far(&look(inside.get(), sought, in_home, false, false, true)),
        Body::Num(_) | Body::Octets(_) | Body::Bits(_) | Body::Text(_) => nothing(),
    }
}

#[cycle(seen)]
fn look_at_field(field: &Field, sought: &Sought, in_home: bool) -> Seen
    ensures { result ≡ spec.field_seen sought.now.slot sought.now.total in_home (field_of field.now) }
{
    match field {
        Field::Component {
            node,
            presence,
            slot,
            ..
        } => {
            let found = is_slot(slot, sought.slot);
            let named = tests_name(conditions(presence), sought.slot);
            let right = own_right(sought, slot);
            let inner = look(node, sought, in_home, found, named, right);
            own_near(sought, slot, &through(presence, &inner))
        }
        Field::Inserted { node, slot, .. } => {
            let found = is_slot(slot, sought.slot);
            inserted_near(
                sought,
                slot,
                &look(node, sought, in_home, found, false, true),
            )
        }
    }
}

#[cycle(seen)]
fn look_at_fields(fields: &[Field], sought: &Sought, in_home: bool) -> Seen
    ensures { result ≡ spec.fields_seen sought.now.slot sought.now.total in_home spec.nothing (fields_view fields.now) }
{
    let mut seen = nothing();
    for field in fields {
        seen = joined(&seen, &look_at_field(field, sought, in_home));
    }
    seen
}

#[cycle(seen)]
fn look_at_alternative(alternative: &Alternative, sought: &Sought, in_home: bool) -> Seen
    ensures { result ≡ spec.alternative_seen sought.now.slot sought.now.total in_home (alternative_of alternative.now) }
{
    let named = tests_name(alternative.tests.items(), sought.slot);
    look(&alternative.node, sought, in_home, false, named, true)
}

#[cycle(seen)]
fn look_at_alternatives(alternatives: &[Alternative], sought: &Sought, in_home: bool) -> Seen
    ensures { result ≡ spec.alternatives_seen sought.now.slot sought.now.total in_home spec.nothing (alternatives_view alternatives.now) }
{
    let mut seen = nothing();
    for alternative in alternatives {
        seen = joined(&seen, &look_at_alternative(alternative, sought, in_home));
    }
    seen
}
