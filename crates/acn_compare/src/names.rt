//! Names of components, alternatives and items.

ghost use Rattle.std.specs.Prelude.{◌≡◌};
ghost use Rattle.std.specs.Cmp.Lexicographic.{pointwise};
ghost use Rattle.acn_compare.specs.Accepts.{heads};
ghost use Rattle.acn_compare.specs.Tests as spec;
ghost use Rattle.acn_compare.specs.Tests.{together};
ghost use Rattle.acn_grammar.specs.View.{form_of, field_of, fields_view, alternatives_view};
ghost use Rattle.acn_grammar.specs.Walk.{conditions_of};

use crate::codings::same_number;
use acn_num::Name;
use acn_tree::{Alternative, Body, Field};

fn same_word(old: &Name, new: &Name) -> bool
    ensures { result ≡ spec.same_word old.now new.now }
{
    old.bytes() == new.bytes()
}

fn same_item(old: &(Name, i128), new: &(Name, i128)) -> bool
    ensures { result ≡ spec.same_item old.now new.now }
{
    same_word(&old.0, &new.0) && same_number(&old.1, &new.1)
}

fn same_items(old: &[(Name, i128)], new: &[(Name, i128)]) -> bool
    ensures { result ≡ pointwise spec.same_item old.now new.now }
{
    if old.len() != new.len() {
        return false;
    }
    for k in 0..old.len() {
        if !same_item(&old[k], &new[k]) {
            return false;
        }
    }
    true
}

fn same_component(old: &Field, new: &Field) -> bool
    ensures { result ≡ spec.same_component (spec.head_of (field_of old.now)) (spec.head_of (field_of new.now)) }
{
    match old {
        Field::Component { name, .. } => match new {
            Field::Component { name: other, .. } => same_word(name, other),
            Field::Inserted { .. } => true,
        },
        Field::Inserted { .. } => true,
    }
}

#[tactic(auto, using(crate::proofs::Counting::fields_ended))]
fn same_components(old: &[Field], new: &[Field]) -> bool
    ensures { result ≡ together spec.same_component (heads (fields_view old.now)) (heads (fields_view new.now)) }
{
    for k in 0..old.len() {
        if k >= new.len() {
            return true;
        }
        if !same_component(&old[k], &new[k]) {
            return false;
        }
    }
    true
}

fn same_alternative(old: &Alternative, new: &Alternative) -> bool
    ensures { result ≡ spec.same_alternative (spec.condition_of old.now) (spec.condition_of new.now) }
{
    same_word(&old.name, &new.name)
}

#[tactic(auto, using(crate::proofs::Counting::cases_ended, crate::proofs::Counting::cases_turn))]
fn same_cases(old: &[Alternative], new: &[Alternative]) -> bool
    ensures { result ≡ together spec.same_alternative (conditions_of (alternatives_view old.now)) (conditions_of (alternatives_view new.now)) }
{
    for k in 0..old.len() {
        if k >= new.len() {
            return true;
        }
        if !same_alternative(&old[k], &new[k]) {
            return false;
        }
    }
    true
}

/// Whether components, alternatives and items at the same places have the same names, and items the same numbers.
pub fn same_names(old: &Body, new: &Body) -> bool
    ensures { result ≡ spec.same_names (form_of old.now) (form_of new.now) }
{
    match old {
        Body::Num(a) => match new {
            Body::Num(b) => same_items(a.items.items.items(), b.items.items.items()),
            _ => true,
        },
        Body::Seq(a) => match new {
            Body::Seq(b) => same_components(a.fields.items(), b.fields.items()),
            _ => true,
        },
        Body::Choice(a) => match new {
            Body::Choice(b) => same_cases(a.alternatives.items(), b.alternatives.items()),
            _ => true,
        },
        Body::Octets(_) => true,
        Body::Bits(_) => true,
        Body::Text(_) => true,
        Body::List(_, _) => true,
        Body::Contained(_, _) => true,
    }
}
