//! The walk that makes a value of a node with a shortest packet, or with a longest, part by part.

ghost use Rattle.std.specs.Prelude.{◌≡◌, ◌<◌, ◌^◌, ◌&&◌, nat_eq, [], ℕ, IfOk, IsTrue, Option, List, Some, None, option_map, map, length};
ghost use Rattle.acn_grammar.specs.Grammar.{Fields, Data};
ghost use Rattle.acn_grammar.specs.Images.{ends};
ghost use Rattle.acn_grammar.specs.Leaves.{sizes_fine};
ghost use Rattle.acn_grammar.specs.Length.{rule_width, ending};
ghost use Rattle.acn_grammar.specs.View.{grammar_of, form_of, data_of, field_of, alternative_of, fields_view, with_field, alternatives_view};
ghost use Rattle.acn_extreme_laws.specs.Best as best;
ghost use Rattle.acn_extreme_laws.specs.Reach as reach;
ghost use Rattle.acn_extremes.specs.Ways.{value_way, chosen_way, place_way, places_way, elements_way, component_way, places_left, added, left_behind, CanMake, FormCanMake, FieldCanMake, FieldsCanMake, AlternativesCanMake, case_way};

use crate::parts::{
    best_bits, best_number, best_octets, best_text, elements_start, end_of, index_bits, listed,
    presence_count, set_ends, size_bits, sizes_can,
};
use crate::slots::{can_be_away, can_be_chosen, can_be_there};
use crate::ways::{Chosen, Way, behind, behind_octets, better_case, better_place, padded};
use acn_extreme_laws::Side;
use acn_num::{Boxed, NoMemory, RangeSet, Row};
use acn_single::Slots;
use acn_tree::{Alternative, Body, ChoiceRule, Field, Node, Presence, Sizing, Value};
use std::alloc::Global;

/// A best value of a node that begins, with its padding, at a place. None where it has none.
#[cycle(best)]
pub fn best_node(
    alloc: Global,
    node: &Node,
    slots: &Slots<'_>,
    side: Side,
    at: u64,
) -> Result<Option<Way<Value>>, NoMemory>
    requires { CanMake (grammar_of node.now) }
    ensures { IfOk result (λ w. option_map value_way w ≡ best.best (grammar_of slots.now.root.now) side (grammar_of node.now) at) }
{
    best_body(alloc, &node.body, slots, side, padded(node.align, at))
}

#[cycle(best)]
fn best_body(
    alloc: Global,
    body: &Body,
    slots: &Slots<'_>,
    side: Side,
    at: u64,
) -> Result<Option<Way<Value>>, NoMemory>
    requires { FormCanMake (form_of body.now) }
    ensures { IfOk result (λ w. option_map value_way w ≡ best.form_best (grammar_of slots.now.root.now) side (form_of body.now) at) }
{
    match body {
        Body::Num(leaf) => Ok(Some(best_number(leaf, slots, side, at)?)),
        Body::Octets(sizing) => best_octets(alloc, sizing, slots, side, at),
        Body::Bits(sizing) => best_bits(alloc, sizing, slots, side, at),
        Body::Text(leaf) => best_text(alloc, leaf, slots, side, at),
        Body::Seq(seq) => best_sequence(alloc, seq.fields.items(), slots, side, at),
        Body::List(sizing, element) => best_list(alloc, element.get(), sizing, slots, side, at),
        Body::Choice(choice) => best_case(
            alloc,
            choice.alternatives.items(),
            choice.rule,
            slots,
            side,
            behind(at, index_bits(choice.rule)),
        ),
        Body::Contained(sizing, content) => {
            best_contained(alloc, content.get(), sizing, slots, side, at)
        }
    }
}

#[cycle(best)]
fn best_sequence(
    alloc: Global,
    fields: &[Field],
    slots: &Slots<'_>,
    side: Side,
    at: u64,
) -> Result<Option<Way<Value>>, NoMemory>
    requires { FieldsCanMake (fields_view fields.now) }
    ensures { IfOk result (λ w. option_map value_way w ≡ best.record_way (best.fields_best (grammar_of slots.now.root.now) side (fields_view fields.now) (best.behind at (reach.presence_count (fields_view fields.now))))) }
{
    match best_fields(
        alloc,
        fields,
        slots,
        side,
        behind(at, presence_count(fields)),
    )? {
        None => Ok(None),
        Some(places) => Ok(Some(Way {
            end: places.end,
            made: Value::Seq(places.made),
        })),
    }
}

#[cycle(best)]
fn best_fields(
    alloc: Global,
    fields: &[Field],
    slots: &Slots<'_>,
    side: Side,
    at: u64,
) -> Result<Option<Way<Row<Option<Value>>>>, NoMemory>
    requires { FieldsCanMake (fields_view fields.now) }
    ensures { IfOk result (λ w. option_map places_way w ≡ best.fields_best (grammar_of slots.now.root.now) side (fields_view fields.now) at) }
{
    let mut places = Row::new(alloc);
    let mut end = at;
    for field in fields {
        let next = best_field(alloc, field, slots, side, end, &mut places)?;
        match next {
            Some(place) => end = place,
            None => return Ok(None),
        }
    }
    Ok(Some(Way { end, made: places }))
}

// Adds the place of a component, and answers the place behind the field.
#[cycle(best)]
fn best_field(
    alloc: Global,
    field: &Field,
    slots: &Slots<'_>,
    side: Side,
    at: u64,
    places: &mut Row<Option<Value>>,
) -> Result<Option<u64>, NoMemory>
    requires { FieldCanMake (field_of field.now) }
    ensures { IfOk result (λ next. (fs : Fields) → left_behind (grammar_of slots.now.root.now) side next (map (option_map data_of) places.new) fs ≡ added (map (option_map data_of) places.old) (places_left (grammar_of slots.now.root.now) side (with_field (field_of field.now) fs) at)) }
{
    match field {
        Field::Component { node, presence, .. } => {
            match best_component(alloc, node, presence, slots, side, at)? {
                None => Ok(None),
                Some(way) => {
                    places.push(way.made)?;
                    Ok(Some(way.end))
                }
            }
        }
        Field::Inserted { node, .. } => match best_node(alloc, node, slots, side, at)? {
            None => Ok(None),
            Some(way) => Ok(Some(way.end)),
        },
    }
}

// An absent component, where it can be absent.
fn absent(can: bool, at: u64) -> Option<Way<Option<Value>>>
    ensures { option_map place_way result ≡ best.where_way can (Some (at, None)) }
{
    if can {
        Some(Way {
            end: at,
            made: None,
        })
    } else {
        None
    }
}

// A component that is there.
fn present(value: Option<Way<Value>>) -> Option<Way<Option<Value>>>
    ensures { option_map place_way result ≡ best.there_way (option_map value_way value) }
{
    match value {
        None => None,
        Some(way) => Some(Way {
            end: way.end,
            made: Some(way.made),
        }),
    }
}

#[cycle(best)]
fn best_component(
    alloc: Global,
    node: &Node,
    presence: &Presence,
    slots: &Slots<'_>,
    side: Side,
    at: u64,
) -> Result<Option<Way<Option<Value>>>, NoMemory>
    requires { CanMake (grammar_of node.now) }
    ensures { IfOk result (λ w. option_map place_way w ≡ component_way (grammar_of slots.now.root.now) side (grammar_of node.now) presence.now at) }
{
    let away = can_be_away(slots, presence);
    if can_be_there(slots, presence) {
        let there = present(best_node(alloc, node, slots, side, at)?);
        Ok(better_place(side, absent(away, at), there))
    } else {
        Ok(absent(away, at))
    }
}

#[cycle(best)]
fn best_list(
    alloc: Global,
    element: &Node,
    sizing: &Sizing,
    slots: &Slots<'_>,
    side: Side,
    at: u64,
) -> Result<Option<Way<Value>>, NoMemory>
    requires sizes { IsTrue (sizes_fine sizing.now.sizes) }
    requires element { CanMake (grammar_of element.now) }
    ensures { IfOk result (λ w. option_map value_way w ≡ best.elements_way side (ending sizing.now.rule) sizing.now.rule (best.best (grammar_of slots.now.root.now) side (grammar_of element.now)) (reach.sizes_can (grammar_of slots.now.root.now) sizing.now) at) }
{
    let start = elements_start(&sizing.rule, at);
    match best_run(alloc, element, sizing, slots, side, start)? {
        None => Ok(None),
        Some(elements) => Ok(Some(listed(&sizing.rule, elements))),
    }
}

// No elements, where there can be none.
fn no_elements(alloc: Global, fewest: u64, at: u64) -> Option<Way<Row<Value>>>
    ensures { option_map elements_way result ≡ best.or_none None fewest at }
{
    if fewest == 0 {
        Some(Way {
            end: at,
            made: Row::new(alloc),
        })
    } else {
        None
    }
}

// As many elements as the sizes permit on this side.
#[cycle(best)]
fn best_run(
    alloc: Global,
    element: &Node,
    sizing: &Sizing,
    slots: &Slots<'_>,
    side: Side,
    at: u64,
) -> Result<Option<Way<Row<Value>>>, NoMemory>
    requires sizes { IsTrue (sizes_fine sizing.now.sizes) }
    requires element { CanMake (grammar_of element.now) }
    ensures { IfOk result (λ w. option_map elements_way w ≡ best.run_by_ends side (reach.sizes_can (grammar_of slots.now.root.now) sizing.now) (best.best (grammar_of slots.now.root.now) side (grammar_of element.now)) at (ends (reach.sizes_can (grammar_of slots.now.root.now) sizing.now))) }
{
    let sizes = sizes_can(alloc, sizing, slots)?;
    match set_ends(&sizes) {
        None => Ok(None),
        Some(ends) => {
            let n = end_of(side, ends);
            match best_elements(alloc, element, n, &sizes, slots, side, at)? {
                Some(elements) => Ok(Some(elements)),
                None => Ok(no_elements(alloc, ends.low, at)),
            }
        }
    }
}

// Whether a list of so many elements is as long as any, where no element behind them has bits.
fn is_enough(side: Side, sizes: &RangeSet, k: u64) -> bool
    ensures { result ≡ best.is_enough side sizes.now k }
{
    match side {
        Side::Shortest => false,
        Side::Longest => sizes.holds_natural(k),
    }
}

// Whether a list of so many elements serves: it is enough, and the next element ends where it begins.
fn is_last(side: Side, sizes: &RangeSet, k: u64, end: u64, next: u64) -> bool
    ensures { result ≡ (nat_eq next end && best.is_enough side sizes.now k) }
{
    next == end && is_enough(side, sizes, k)
}

// So many elements, or fewer: where the next one has no bits, those before it serve if they are enough.
#[cycle(best)]
fn best_elements(
    alloc: Global,
    element: &Node,
    n: u64,
    sizes: &RangeSet,
    slots: &Slots<'_>,
    side: Side,
    at: u64,
) -> Result<Option<Way<Row<Value>>>, NoMemory>
    requires { CanMake (grammar_of element.now) }
    ensures { IfOk result (λ w. option_map elements_way w ≡ best.run_way (best.is_enough side sizes.now) (best.best (grammar_of slots.now.root.now) side (grammar_of element.now)) n 0 at) }
{
    let mut elements = Row::new(alloc);
    let mut end = at;
    for k in 0..n {
        let next = best_node(alloc, element, slots, side, end)?;
        match next {
            None => return Ok(None),
            Some(way) => {
                if is_last(side, sizes, k, end, way.end) {
                    return Ok(Some(Way {
                        end,
                        made: elements,
                    }));
                }
                end = way.end;
                elements.push(way.made)?;
            }
        }
    }
    Ok(Some(Way {
        end,
        made: elements,
    }))
}

// The value of the alternative that is chosen.
fn chosen_value(alloc: Global, chosen: Option<Chosen>) -> Result<Option<Way<Value>>, NoMemory>
    ensures { IfOk result (λ w. option_map value_way w ≡ option_map chosen_way chosen) }
{
    match chosen {
        None => Ok(None),
        Some(one) => Ok(Some(Way {
            end: one.end,
            made: Value::Alt(one.index, Boxed::new(alloc, one.value)?),
        })),
    }
}

#[cycle(best)]
fn best_case(
    alloc: Global,
    alternatives: &[Alternative],
    rule: ChoiceRule,
    slots: &Slots<'_>,
    side: Side,
    at: u64,
) -> Result<Option<Way<Value>>, NoMemory>
    requires few { length alternatives.now < 2 ^ 32 }
    requires can { AlternativesCanMake (alternatives_view alternatives.now) }
    ensures { IfOk result (λ w. option_map value_way w ≡ best.cases_best (grammar_of slots.now.root.now) side rule (alternatives_view alternatives.now) 0 at None) }
{
    let mut best = None;
    let mut index = 0u32;
    for alternative in alternatives {
        let next = best_alternative(alloc, alternative, rule, slots, side, at, index)?;
        best = better_case(side, best, next);
        index += 1;
    }
    chosen_value(alloc, best)
}

#[cycle(best)]
fn best_alternative(
    alloc: Global,
    alternative: &Alternative,
    rule: ChoiceRule,
    slots: &Slots<'_>,
    side: Side,
    at: u64,
    index: u32,
) -> Result<Option<Chosen>, NoMemory>
    requires { CanMake (alternative_of alternative.now).grammar }
    ensures { IfOk result (λ w. option_map chosen_way w ≡ case_way (grammar_of slots.now.root.now) side rule (alternative_of alternative.now) index at) }
{
    if !can_be_chosen(
        slots,
        rule,
        alternative.name.bytes(),
        alternative.tests.items(),
    ) {
        return Ok(None);
    }
    match best_node(alloc, &alternative.node, slots, side, at)? {
        None => Ok(None),
        Some(way) => Ok(Some(Chosen {
            index,
            end: way.end,
            value: way.made,
        })),
    }
}

#[cycle(best)]
fn best_contained(
    alloc: Global,
    content: &Node,
    sizing: &Sizing,
    slots: &Slots<'_>,
    side: Side,
    at: u64,
) -> Result<Option<Way<Value>>, NoMemory>
    requires { CanMake (grammar_of content.now) }
    ensures { IfOk result (λ w. option_map value_way w ≡ best.octets_way at (rule_width sizing.now.rule) (best.best (grammar_of slots.now.root.now) side (grammar_of content.now) 0)) }
{
    match best_node(alloc, content, slots, side, 0)? {
        None => Ok(None),
        Some(way) => Ok(Some(Way {
            end: behind_octets(at, size_bits(&sizing.rule), way.end),
            made: way.made,
        })),
    }
}
