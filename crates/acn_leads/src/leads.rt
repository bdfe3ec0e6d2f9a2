//! The number with which each spelling of a node begins.
ghost use Rattle.std.specs.Prelude.{◌≡◌, ◌≤◌, length, true, nat_eq, option_map};
ghost use Rattle.acn_grammar.specs.Check.{is_lead, is_wide, has_no_table as no_table, lead, form_lead, fields_lead};
ghost use Rattle.acn_grammar.specs.Fails.{presence_count};
ghost use Rattle.acn_grammar.specs.Length.{flag_width as width_of_flag};
ghost use Rattle.acn_grammar.specs.View.{grammar_of, form_of, field_of, fields_view};
ghost use Rattle.acn_grammar.specs.declared.limits.TheConstants.{MOST_PATTERN_BITS};
ghost use Rattle.acn_leads.specs.Begins as spec;
ghost use Rattle.acn_leads.specs.Leads.{field_lead as lead_of_field, is_bit as has_bit};

use crate::begins::can_begin;
use acn_grammar::{Body, Field, Node, NumCoding, NumLeaf, Pattern, Presence};

fn flag_width(yes: &Option<Pattern>, no: &Option<Pattern>) -> usize
    ensures { result ≡ width_of_flag yes.now no.now }
{
    match (yes, no) {
        (Some(one), _) => one.bits().len(),
        (None, Some(zero)) => zero.bits().len(),
        (None, None) => 1,
    }
}

// Whether the codes are plain and have at least so many bits.
fn is_wide(bits: usize, coding: &NumCoding) -> bool
    ensures { result ≡ is_wide bits coding.now }
{
    match coding {
        NumCoding::Range { width, .. } => bits <= *width as usize,
        NumCoding::PosInt(width) => bits <= *width as usize,
        NumCoding::Twos(width) => bits <= *width as usize,
        NumCoding::Flag { yes, no } => bits <= flag_width(yes, no),
        NumCoding::Fixed(pattern) => bits <= pattern.bits().len(),
        _ => false,
    }
}

fn has_no_table(leaf: &NumLeaf) -> bool
    ensures { result ≡ no_table leaf.now.table }
{
    match &leaf.table {
        None => true,
        Some(_) => false,
    }
}

fn is_lead(bits: usize, leaf: &NumLeaf) -> bool
    ensures { result ≡ is_lead bits leaf.now }
{
    is_wide(bits, &leaf.coding) && !leaf.little && has_no_table(leaf)
}

// Whether the field has a presence bit.
fn is_bit(field: &Field) -> bool
    ensures { result ≡ has_bit (field_of field.now) }
{
    match field {
        Field::Component { presence, .. } => match presence {
            Presence::Bit => true,
            Presence::Always => false,
            Presence::When(_) => false,
        },
        Field::Inserted { .. } => false,
    }
}

fn no_bits(fields: &[Field]) -> bool
    ensures { result ≡ nat_eq (presence_count (fields_view fields.now)) 0 }
{
    for field in fields {
        if is_bit(field) {
            return false;
        }
    }
    true
}

// The number with which each spelling of the node begins, with at least so many bits.
#[cycle(lead)]
fn lead_of<'t>(node: &'t Node, bits: usize) -> Option<&'t NumLeaf>
    ensures { option_map (λ leaf. leaf.now) result ≡ lead bits (grammar_of node.now) }
{
    if node.align == 1 {
        body_lead(&node.body, bits)
    } else {
        None
    }
}

#[cycle(lead)]
fn body_lead<'t>(body: &'t Body, bits: usize) -> Option<&'t NumLeaf>
    ensures { option_map (λ leaf. leaf.now) result ≡ form_lead bits (form_of body.now) }
{
    match body {
        Body::Num(leaf) => {
            if is_lead(bits, leaf) {
                Some(leaf)
            } else {
                None
            }
        }
        Body::Seq(seq) => {
            if no_bits(seq.fields.items()) {
                first_lead(seq.fields.items(), bits)
            } else {
                None
            }
        }
        Body::Octets(_)
        | Body::Bits(_)
        | Body::Text(_)
        | Body::List(_, _)
        | Body::Choice(_)
        | Body::Contained(_, _) => None,
    }
}

#[cycle(lead)]
fn first_lead<'t>(fields: &'t [Field], bits: usize) -> Option<&'t NumLeaf>
    ensures { option_map (λ leaf. leaf.now) result ≡ fields_lead bits (fields_view fields.now) }
{
    match fields.get(0) {
        None => None,
        Some(field) => field_lead(field, bits),
    }
}

#[cycle(lead)]
fn field_lead<'t>(field: &'t Field, bits: usize) -> Option<&'t NumLeaf>
    ensures { option_map (λ leaf. leaf.now) result ≡ lead_of_field bits (field_of field.now) }
{
    match field {
        Field::Component { node, presence, .. } => match presence {
            Presence::Always => lead_of(node, bits),
            Presence::Bit => None,
            Presence::When(_) => None,
        },
        Field::Inserted { node, .. } => lead_of(node, bits),
    }
}

/// Whether a pattern can't be told from the first bits of an element: the element has no number of at least as many bits with which
/// each of its spellings begins, or some code of that number begins with the pattern. It takes no memory. The rule is this profile's own.
pub fn is_ambiguous(pattern: &[bool], element: &Node) -> bool
    requires few { length pattern.now ≤ MOST_PATTERN_BITS }
    requires fine { spec.lead_fine (lead (length pattern.now) (grammar_of element.now)) ≡ true }
    ensures { result ≡ spec.not_told pattern.now (lead (length pattern.now) (grammar_of element.now)) }
{
    match lead_of(element, pattern.len()) {
        None => true,
        Some(leaf) => can_begin(pattern, leaf),
    }
}
