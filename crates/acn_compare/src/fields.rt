//! Fields of SEQUENCEs and the form of CHOICEs: which fields are inserted, when components are there, and how an alternative is told.

ghost use Rattle.std.specs.Prelude.{◌≡◌, nat_le};
ghost use Rattle.std.specs.Cmp.Lexicographic.{pointwise};
ghost use Rattle.acn_compare.specs.Accepts.{heads, Head};
ghost use Rattle.acn_compare.specs.Tests as spec;
ghost use Rattle.acn_compare.specs.Tests.{together};
ghost use Rattle.acn_grammar.specs.Fails.{count_of};
ghost use Rattle.acn_grammar.specs.View.{form_of, field_of, fields_view, alternatives_view};

use acn_tree::{Alternative, Body, ChoiceRule, Field, Presence};

// Whether both are components, or both are inserted.
fn same_place(old: &Field, new: &Field) -> bool
    ensures { result ≡ spec.same_place (spec.head_of (field_of old.now)) (spec.head_of (field_of new.now)) }
{
    match old {
        Field::Component { .. } => match new {
            Field::Component { .. } => true,
            Field::Inserted { .. } => false,
        },
        Field::Inserted { .. } => match new {
            Field::Component { .. } => false,
            Field::Inserted { .. } => true,
        },
    }
}

#[tactic(auto, using(crate::proofs::Counting::rows_unequal))]
fn same_row(old: &[Field], new: &[Field]) -> bool
    ensures { result ≡ pointwise spec.same_place (heads (fields_view old.now)) (heads (fields_view new.now)) }
{
    if old.len() != new.len() {
        return false;
    }
    for k in 0..old.len() {
        if !same_place(&old[k], &new[k]) {
            return false;
        }
    }
    true
}

/// Whether two SEQUENCEs have as many fields, and the same of them are inserted.
pub fn same_fields(old: &Body, new: &Body) -> bool
    ensures { result ≡ spec.same_fields (form_of old.now) (form_of new.now) }
{
    match old {
        Body::Seq(a) => match new {
            Body::Seq(b) => same_row(a.fields.items(), b.fields.items()),
            _ => true,
        },
        _ => true,
    }
}

fn both_by(old: &Presence, new: &Presence) -> bool
    ensures { result ≡ spec.both_by old.now new.now }
{
    match old {
        Presence::Always => match new {
            Presence::Always => true,
            _ => false,
        },
        Presence::Bit => match new {
            Presence::Bit => true,
            _ => false,
        },
        Presence::When(_) => match new {
            Presence::When(_) => true,
            _ => false,
        },
    }
}

fn always(presence: &Presence) -> bool
    ensures left { result ≡ spec.both_by presence.now Presence.Always }
    ensures right { result ≡ spec.both_by Presence.Always presence.now }
{
    match presence {
        Presence::Always => true,
        Presence::Bit => false,
        Presence::When(_) => false,
    }
}

// Whether both are there in the same way. An inserted field is always there.
fn there_alike(old: &Field, new: &Field) -> bool
    ensures { result ≡ spec.both_by (spec.head_of (field_of old.now)).presence (spec.head_of (field_of new.now)).presence }
{
    match old {
        Field::Component { presence, .. } => match new {
            Field::Component {
                presence: other,
                ..
            } => both_by(presence, other),
            Field::Inserted { .. } => always(presence),
        },
        Field::Inserted { .. } => match new {
            Field::Component {
                presence: other,
                ..
            } => always(other),
            Field::Inserted { .. } => true,
        },
    }
}

#[tactic(auto, using(crate::proofs::Counting::fields_ended))]
fn all_there_alike(old: &[Field], new: &[Field]) -> bool
    ensures { result ≡ together (λ (h k : Head). spec.both_by h.presence k.presence) (heads (fields_view old.now)) (heads (fields_view new.now)) }
{
    for k in 0..old.len() {
        if k >= new.len() {
            return true;
        }
        if !there_alike(&old[k], &new[k]) {
            return false;
        }
    }
    true
}

/// Whether fields at the same places are always there, there by a bit or there by conditions, both of them.
pub fn same_presence(old: &Body, new: &Body) -> bool
    ensures { result ≡ spec.same_presence (form_of old.now) (form_of new.now) }
{
    match old {
        Body::Seq(a) => match new {
            Body::Seq(b) => all_there_alike(a.fields.items(), b.fields.items()),
            _ => true,
        },
        _ => true,
    }
}

fn both_choose(old: ChoiceRule, new: ChoiceRule) -> bool
    ensures { result ≡ spec.both_choose old new }
{
    match old {
        ChoiceRule::Index(_) => match new {
            ChoiceRule::Index(_) => true,
            _ => false,
        },
        ChoiceRule::Tests => match new {
            ChoiceRule::Tests => true,
            _ => false,
        },
        ChoiceRule::Item(_) => match new {
            ChoiceRule::Item(_) => true,
            _ => false,
        },
    }
}

#[tactic(auto, using(crate::proofs::Counting::cases_long))]
fn no_fewer(old: &[Alternative], new: &[Alternative]) -> bool
    ensures { result ≡ nat_le (count_of (alternatives_view old.now)) (count_of (alternatives_view new.now)) }
{
    old.len() <= new.len()
}

/// Whether two CHOICEs tell their alternatives in the same way, and the newer one has no fewer.
pub fn same_alternatives(old: &Body, new: &Body) -> bool
    ensures { result ≡ spec.same_alternatives (form_of old.now) (form_of new.now) }
{
    match old {
        Body::Choice(a) => match new {
            Body::Choice(b) => {
                both_choose(a.rule, b.rule)
                    && no_fewer(a.alternatives.items(), b.alternatives.items())
            }
            _ => true,
        },
        _ => true,
    }
}
