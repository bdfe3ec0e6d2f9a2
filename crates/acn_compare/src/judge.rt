//! What differs at one place: the nine reasons in their order.

ghost use Rattle.std.specs.Prelude.{◌≡◌, [], ◌∷◌, None, IfOk};
ghost use Rattle.acn_compare.specs.Accepts.{Answering, sets_of};
ghost use Rattle.acn_compare.specs.Judging.{IsJudged, AreLeastLost, sets_seen};
ghost use Rattle.acn_compare.specs.Tests as spec;
ghost use Rattle.acn_compare.specs.Tests.{Tells};
ghost use Rattle.acn_grammar.specs.View.{grammar_of, form_of};

use crate::answer::Reason;
use crate::codings::same_coding;
use crate::determinants::same_determinants;
use crate::fields::{same_alternatives, same_fields, same_presence};
use crate::kinds::same_kind;
use crate::names::same_names;
use acn_num::{NoMemory, RangeSet};
use acn_tree::{Body, Node};
use std::alloc::Global;

/// The first reason that holds of two nodes, and the number that is lost.
#[derive(Clone, Copy)]
pub struct Difference {
    pub reason: Reason,
    pub number: Option<i128>,
}

/// The numbers that a leaf permits, the sizes of a string, a list or contents, or the sizes and the characters of a text.
#[derive(Clone, Copy)]
pub enum Sets<'t> {
    Nothing,
    One(&'t RangeSet),
    Both(&'t RangeSet, &'t RangeSet),
}

fn permitted(body: &Body) -> Sets<'_>
    ensures { sets_seen result ≡ sets_of (form_of body.now) }
{
    match body {
        Body::Num(leaf) => Sets::One(&leaf.set),
        Body::Octets(sizing) => Sets::One(&sizing.sizes),
        Body::Bits(sizing) => Sets::One(&sizing.sizes),
        Body::Text(leaf) => Sets::Both(&leaf.sized.sizes, &leaf.alphabet),
        Body::Seq(_) => Sets::Nothing,
        Body::List(sizing, _) => Sets::One(&sizing.sizes),
        Body::Choice(_) => Sets::Nothing,
        Body::Contained(sizing, _) => Sets::One(&sizing.sizes),
    }
}

// The least number of a set that isn't in another one.
#[tactic(auto, using(crate::proofs::Losing::least_lost))]
fn least_lost(alloc: Global, old: &RangeSet, new: &RangeSet) -> Result<Option<i128>, NoMemory>
    ensures { IfOk result (AreLeastLost (old.now ∷ []) (new.now ∷ [])) }
{
    let lost = old.except(alloc, new)?;
    let _ordered = lost.ranges();
    Ok(lost.least())
}

// The same of sets of sizes, then of sets of characters.
fn first_lost(
    alloc: Global,
    old: (&RangeSet, &RangeSet),
    new: (&RangeSet, &RangeSet),
) -> Result<Option<i128>, NoMemory>
    ensures { IfOk result (AreLeastLost (old.entry.0.now ∷ old.entry.1.now ∷ []) (new.entry.0.now ∷ new.entry.1.now ∷ [])) }
{
    match least_lost(alloc, old.0, new.0)? {
        Some(number) => Ok(Some(number)),
        None => least_lost(alloc, old.1, new.1),
    }
}

// The same as far as both have sets.
fn lost_sets(alloc: Global, old: Sets<'_>, new: Sets<'_>) -> Result<Option<i128>, NoMemory>
    ensures { IfOk result (AreLeastLost (sets_seen old.entry) (sets_seen new.entry)) }
{
    match old {
        Sets::Nothing => Ok(None),
        Sets::One(a) => match new {
            Sets::Nothing => Ok(None),
            Sets::One(b) => least_lost(alloc, a, b),
            Sets::Both(b, _) => least_lost(alloc, a, b),
        },
        Sets::Both(a, c) => match new {
            Sets::Nothing => Ok(None),
            Sets::One(b) => least_lost(alloc, a, b),
            Sets::Both(b, d) => first_lost(alloc, (a, c), (b, d)),
        },
    }
}

// The first number, size or character that is lost.
fn lost(alloc: Global, old: &Body, new: &Body) -> Result<Option<i128>, NoMemory>
    ensures { IfOk result (AreLeastLost (sets_of (form_of old.now)) (sets_of (form_of new.now))) }
{
    lost_sets(alloc, permitted(old), permitted(new))
}

// The first of the reasons that concern how a node is written.
fn written(old: &Node, new: &Node) -> Option<Reason>
    ensures { result ≡ spec.written (grammar_of old.now) (grammar_of new.now) }
{
    if !same_kind(&old.body, &new.body) {
        return Some(Reason::Kind);
    }
    if old.align != new.align {
        return Some(Reason::Align);
    }
    if !same_coding(&old.body, &new.body) {
        return Some(Reason::Coding);
    }
    None
}

// The first of the reasons that concern what a node is made of.
fn made(old: &Body, new: &Body, slots: &[Option<u32>]) -> Option<Reason>
    ensures { result ≡ spec.made slots.now (form_of old.now) (form_of new.now) }
{
    if !same_names(old, new) {
        return Some(Reason::Names);
    }
    if !same_fields(old, new) {
        return Some(Reason::Fields);
    }
    if !same_presence(old, new) {
        return Some(Reason::Presence);
    }
    if !same_determinants(old, new, slots) {
        return Some(Reason::Determinant);
    }
    if !same_alternatives(old, new) {
        return Some(Reason::Alternatives);
    }
    None
}

// The first reason that holds of two nodes which are written in the same way and permit the same.
fn behind_values(old: &Node, new: &Node, slots: &[Option<u32>]) -> Option<Difference>
    requires written { None ≡ spec.written (grammar_of old.now) (grammar_of new.now) }
    requires values { AreLeastLost (sets_of (form_of old.now.body)) (sets_of (form_of new.now.body)) None }
    ensures { (by : Answering) → Tells by slots.now → IsJudged by (grammar_of old.now) (grammar_of new.now) result }
{
    match made(&old.body, &new.body, slots) {
        Some(reason) => Some(Difference {
            reason,
            number: None,
        }),
        None => None,
    }
}

// The first reason that holds of two nodes which are written in the same way.
fn behind_written(
    alloc: Global,
    old: &Node,
    new: &Node,
    slots: &[Option<u32>],
) -> Result<Option<Difference>, NoMemory>
    requires { None ≡ spec.written (grammar_of old.now) (grammar_of new.now) }
    ensures { (by : Answering) → Tells by slots.now → IfOk result (IsJudged by (grammar_of old.now) (grammar_of new.now)) }
{
    match lost(alloc, &old.body, &new.body)? {
        Some(number) => Ok(Some(Difference {
            reason: Reason::Values,
            number: Some(number),
        })),
        None => Ok(behind_values(old, new, slots)),
    }
}

/// The first reason that holds of two nodes at one place.
pub fn first_reason(
    alloc: Global,
    old: &Node,
    new: &Node,
    slots: &[Option<u32>],
) -> Result<Option<Difference>, NoMemory>
    ensures { (by : Answering) → Tells by slots.now → IfOk result (IsJudged by (grammar_of old.now) (grammar_of new.now)) }
{
    match written(old, new) {
        Some(reason) => Ok(Some(Difference {
            reason,
            number: None,
        })),
        None => behind_written(alloc, old, new, slots),
    }
}
