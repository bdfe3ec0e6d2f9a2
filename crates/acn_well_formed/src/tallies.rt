ghost use Rattle.std.specs.Prelude.{◌≡◌};
ghost use Rattle.acn_well_formed.specs.Tallies as tallies;
ghost use Rattle.acn_grammar.specs.View.{grammar_of, form_of, field_of, fields_view, alternatives_view};

use acn_grammar::{Alternative, Body, Field, Node};
use acn_num::MOST_STEPS;

/// How many nodes may still come, and the number of the next slot.
#[derive(Clone, Copy, PartialEq, Eq)]
pub struct Tally {
    pub left: u32,
    pub next: u64,
}

// One node more, where one may still come.
fn spent(before: Tally) -> Option<Tally>
    ensures { result ≡ tallies.spent before }
{
    if before.left > 0 {
        Some(Tally {
            left: before.left - 1,
            next: before.next,
        })
    } else {
        None
    }
}

// The slot, where there is one, has the next number.
fn numbered(slot: &Option<u32>, before: Tally) -> Option<Tally>
    ensures { result ≡ tallies.numbered slot.now before }
{
    match slot {
        None => Some(before),
        Some(slot) => {
            if *slot as u64 == before.next {
                Some(Tally {
                    left: before.left,
                    next: *slot as u64 + 1,
                })
            } else {
                None
            }
        }
    }
}

/// Counts the nodes and slots of a tree. None comes exactly where a node is more than `MOST_STEPS` steps away,
/// too many nodes come or a slot doesn't have the next number.
#[cycle(counted)]
pub fn count_node(node: &Node, steps: u32, before: Tally) -> Option<Tally>
    ensures { result ≡ tallies.tally steps (grammar_of node.now) before }
{
    if steps > MOST_STEPS as u32 {
        return None;
    }
    match spent(before) {
        None => None,
        Some(now) => count_body(&node.body, steps + 1, now),
    }
}

#[cycle(counted)]
fn count_body(body: &Body, steps: u32, before: Tally) -> Option<Tally>
    ensures { result ≡ tallies.form_tally steps (form_of body.now) before }
{
    match body {
        Body::Seq(seq) => count_fields(seq.fields.items(), steps, before),
        Body::List(_, inside) => count_node(inside.get(), steps, before),
        Body::Choice(choice) => count_alternatives(choice.alternatives.items(), steps, before),
        Body::Contained(_, inside) => count_node(inside.get(), steps, before),
        Body::Num(_) | Body::Octets(_) | Body::Bits(_) | Body::Text(_) => Some(before),
    }
}

#[cycle(counted)]
fn count_field(field: &Field, steps: u32, before: Tally) -> Option<Tally>
    ensures { result ≡ tallies.field_tally steps (field_of field.now) before }
{
    match field {
        Field::Component { node, slot, .. } => match numbered(slot, before) {
            None => None,
            Some(now) => count_node(node, steps, now),
        },
        Field::Inserted { node, slot, .. } => match numbered(slot, before) {
            None => None,
            Some(now) => count_node(node, steps, now),
        },
    }
}

#[cycle(counted)]
fn count_fields(fields: &[Field], steps: u32, before: Tally) -> Option<Tally>
    ensures { result ≡ tallies.fields_tally steps (fields_view fields.now) before }
{
    let mut now = before;
    for field in fields {
        match count_field(field, steps, now) {
            None => return None,
            Some(behind) => now = behind,
        }
    }
    Some(now)
}

#[cycle(counted)]
fn count_alternatives(alternatives: &[Alternative], steps: u32, before: Tally) -> Option<Tally>
    ensures { result ≡ tallies.alternatives_tally steps (alternatives_view alternatives.now) before }
{
    let mut now = before;
    for alternative in alternatives {
        match count_node(&alternative.node, steps, now) {
            None => return None,
            Some(behind) => now = behind,
        }
    }
    Some(now)
}
