//! The walk over a value. What a part of it asks is added behind what was gathered before.

ghost use Rattle.std.specs.Prelude.{◌≡◌, ◌≤◌, ◌∷◌, ◌++◌, [], Some, length, drop, suc, option_map, OnOk, IfOk};
ghost use Rattle.acn_num.specs.declared.limits.TheConstants.{MOST_SIZE};
ghost use Rattle.acn_grammar.specs.Asks as asks;
ghost use Rattle.acn_grammar.specs.Grammar.{Fields, seq, list, contained, record_of, list_of};
ghost use Rattle.acn_grammar.specs.Tree.{holds};
ghost use Rattle.acn_grammar.specs.View.{alternatives_view, data_of, elements_view, field_of, fields_view, form_of, grammar_of, places_view, with_field};
ghost use Rattle.acn_grammar.specs.declared.limits.TheConstants.{MOST_NODES};
ghost use Rattle.acn_asking.specs.Gathered.{paths_of, slots_of, LeavesIn, Gathers};
ghost use Rattle.acn_asking.specs.Uses.{CaseIn};
ghost use Rattle.acn_gather_laws.specs.CanGather.{CanGather, CanGatherCase, CanGatherEach, CanGatherFields, CanGatherForm, CanGatherPlace};
ghost use Rattle.acn_moments.specs.PlaceMoments.{place_moments};
ghost use Rattle.acn_moments.specs.Walk.{Onward};

use crate::contents::ask_contents;
use crate::home::with_home;
use crate::places::{ask_absent, ask_there};
use acn_asking::{Open, ask_rule, ask_size};
use acn_asks::Moment;
use acn_grammar::{Alternative, Body, ChoiceRule, Field, Node, Presence, Sizing, Value};
use acn_num::{NoMemory, Path, Row};
use std::alloc::Global;

/// What a value of the node at the path asks.
#[cycle(gather)]
pub fn gather<'t>(
    alloc: Global,
    node: &'t Node,
    v: &Value,
    root: &Node,
    slots: &[Open<'t>],
    path: &mut Path,
    gathered: &mut Row<Moment<'t>>,
) -> Result<(), NoMemory>
    requires leaves { LeavesIn (grammar_of root.now) slots.now }
    requires can { CanGather (grammar_of root.now) (length path.old) (slots_of slots.now) (grammar_of node.now) (data_of v.now) }
    ensures said { OnOk result (Gathers (grammar_of root.now) (asks.moments (grammar_of root.now) (grammar_of node.now) (paths_of slots.now) path.old (data_of v.now)) gathered.old gathered.new) }
    ensures path { OnOk result (path.new ≡ path.old) }
{
    gather_form(alloc, &node.body, v, root, slots, path, gathered)
}

// A value of another form than the body's asks nothing.
#[cycle(gather)]
fn gather_form<'t>(
    alloc: Global,
    body: &'t Body,
    v: &Value,
    root: &Node,
    slots: &[Open<'t>],
    path: &mut Path,
    gathered: &mut Row<Moment<'t>>,
) -> Result<(), NoMemory>
    requires leaves { LeavesIn (grammar_of root.now) slots.now }
    requires can { CanGatherForm (grammar_of root.now) (length path.old) (slots_of slots.now) (form_of body.now) (data_of v.now) }
    ensures said { OnOk result (Gathers (grammar_of root.now) (asks.form_moments (grammar_of root.now) (form_of body.now) (paths_of slots.now) path.old (data_of v.now)) gathered.old gathered.new) }
    ensures path { OnOk result (path.new ≡ path.old) }
{
    match body {
        Body::Num(_) => Ok(()),
        Body::Octets(sizing) => match v {
            Value::Octets(octets) => ask_size(
                alloc,
                path,
                slots,
                octets.items().len() as u64,
                &sizing.rule,
                gathered,
            ),
            _ => Ok(()),
        },
        Body::Bits(sizing) => match v {
            Value::Bits(string) => ask_size(
                alloc,
                path,
                slots,
                string.items().len() as u64,
                &sizing.rule,
                gathered,
            ),
            _ => Ok(()),
        },
        Body::Text(leaf) => match v {
            Value::Text(text) => ask_size(
                alloc,
                path,
                slots,
                text.items().len() as u64,
                &leaf.sized.rule,
                gathered,
            ),
            _ => Ok(()),
        },
        Body::Seq(seq) => match v {
            Value::Seq(places) => gather_sequence(
                alloc,
                seq.fields.items(),
                seq.home.items(),
                places.items(),
                root,
                slots,
                path,
                gathered,
            ),
            _ => Ok(()),
        },
        Body::List(sizing, element) => match v {
            Value::List(elements) => gather_list(
                alloc,
                sizing,
                element.get(),
                elements.items(),
                root,
                slots,
                path,
                gathered,
            ),
            _ => Ok(()),
        },
        Body::Choice(choice) => match v {
            Value::Alt(i, inside) => gather_choice(
                alloc,
                choice.alternatives.items(),
                &choice.rule,
                *i,
                inside.get(),
                root,
                slots,
                path,
                gathered,
            ),
            _ => Ok(()),
        },
        Body::Contained(sizing, content) => gather_contents(
            alloc,
            sizing,
            content.get(),
            v,
            root,
            slots,
            path,
            gathered,
        ),
    }
}

// A node inside another, at a step from it.
#[cycle(gather)]
fn gather_inside<'t>(
    alloc: Global,
    node: &'t Node,
    step: u32,
    v: &Value,
    root: &Node,
    slots: &[Open<'t>],
    path: &mut Path,
    gathered: &mut Row<Moment<'t>>,
) -> Result<(), NoMemory>
    requires leaves { LeavesIn (grammar_of root.now) slots.now }
    requires can { CanGather (grammar_of root.now) (suc (length path.old)) (slots_of slots.now) (grammar_of node.now) (data_of v.now) }
    ensures said { OnOk result (Gathers (grammar_of root.now) (asks.moments (grammar_of root.now) (grammar_of node.now) (paths_of slots.now) (path.old ++ step ∷ []) (data_of v.now)) gathered.old gathered.new) }
    ensures path { OnOk result (path.new ≡ path.old) }
{
    path.push(step);
    gather(alloc, node, v, root, slots, path, gathered)?;
    path.pop();
    Ok(())
}

#[cycle(gather)]
fn gather_sequence<'t>(
    alloc: Global,
    fields: &'t [Field],
    home: &[u32],
    places: &[Option<Value>],
    root: &Node,
    slots: &[Open<'t>],
    path: &mut Path,
    gathered: &mut Row<Moment<'t>>,
) -> Result<(), NoMemory>
    requires leaves { LeavesIn (grammar_of root.now) slots.now }
    requires can { CanGatherForm (grammar_of root.now) (length path.old) (slots_of slots.now) (seq (fields_view fields.now) home.now) (record_of (places_view places.now)) }
    ensures said { OnOk result (Gathers (grammar_of root.now) (asks.form_moments (grammar_of root.now) (seq (fields_view fields.now) home.now) (paths_of slots.now) path.old (record_of (places_view places.now))) gathered.old gathered.new) }
    ensures path { OnOk result (path.new ≡ path.old) }
{
    let slots = with_home(alloc, fields, home, path, slots)?;
    gather_fields(alloc, fields, places, root, slots.items(), path, gathered)
}

#[cycle(gather)]
fn gather_fields<'t>(
    alloc: Global,
    fields: &'t [Field],
    places: &[Option<Value>],
    root: &Node,
    slots: &[Open<'t>],
    path: &mut Path,
    gathered: &mut Row<Moment<'t>>,
) -> Result<(), NoMemory>
    requires few { length fields.now ≤ MOST_NODES }
    requires leaves { LeavesIn (grammar_of root.now) slots.now }
    requires can { CanGatherFields (grammar_of root.now) (suc (length path.old)) (slots_of slots.now) (fields_view fields.now) (places_view places.now) }
    ensures said { OnOk result (Gathers (grammar_of root.now) (asks.fields_moments (grammar_of root.now) (fields_view fields.now) (paths_of slots.now) path.old 0 (places_view places.now)) gathered.old gathered.new) }
    ensures path { OnOk result (path.new ≡ path.old) }
{
    let mut step = 0u32;
    let mut at = 0;
    for field in fields {
        at = gather_field(alloc, field, step, places, at, root, slots, path, gathered)?;
        step += 1;
    }
    Ok(())
}

// A field, where the place of the next component is this one. The answer is that of the component behind it.
#[cycle(gather)]
fn gather_field<'t>(
    alloc: Global,
    field: &'t Field,
    step: u32,
    places: &[Option<Value>],
    at: usize,
    root: &Node,
    slots: &[Open<'t>],
    path: &mut Path,
    gathered: &mut Row<Moment<'t>>,
) -> Result<usize, NoMemory>
    requires within { at ≤ length places.now }
    requires leaves { LeavesIn (grammar_of root.now) slots.now }
    requires can { (fs : Fields) × CanGatherFields (grammar_of root.now) (suc (length path.old)) (slots_of slots.now) (with_field (field_of field.now) fs) (places_view (drop at places.now)) }
    ensures said { IfOk result (λ next. (fs : Fields) → CanGatherFields (grammar_of root.now) (suc (length path.old)) (slots_of slots.now) (with_field (field_of field.now) fs) (places_view (drop at places.now)) → Onward (grammar_of root.now) (with_field (field_of field.now) fs) fs (slots_of slots.now) (paths_of slots.now) path.old step places.now at next gathered.old gathered.new) }
    ensures path { OnOk result (path.new ≡ path.old) }
{
    match field {
        Field::Component {
            node,
            presence,
            slot,
            ..
        } => match places.get(at) {
            Some(place) => {
                gather_place(
                    alloc, node, presence, *slot, step, place, root, slots, path, gathered,
                )?;
                Ok(at + 1)
            }
            None => Ok(at),
        },
        Field::Inserted { .. } => Ok(at),
    }
}

// A component, which may be absent.
#[cycle(gather)]
fn gather_place<'t>(
    alloc: Global,
    node: &'t Node,
    presence: &Presence,
    own: Option<u32>,
    step: u32,
    place: &Option<Value>,
    root: &Node,
    slots: &[Open<'t>],
    path: &mut Path,
    gathered: &mut Row<Moment<'t>>,
) -> Result<(), NoMemory>
    requires leaves { LeavesIn (grammar_of root.now) slots.now }
    requires can { CanGatherPlace (grammar_of root.now) (suc (length path.old)) (slots_of slots.now) (grammar_of node.now) presence.now own (option_map data_of place.now) }
    ensures said { OnOk result (Gathers (grammar_of root.now) (place_moments (grammar_of root.now) (grammar_of node.now) presence.now own (paths_of slots.now) (path.old ++ step ∷ []) (option_map data_of place.now)) gathered.old gathered.new) }
    ensures path { OnOk result (path.new ≡ path.old) }
{
    match place {
        Some(v) => gather_component(
            alloc, node, presence, own, step, v, root, slots, path, gathered,
        ),
        None => ask_absent(alloc, presence, step, path, slots, gathered),
    }
}

// A component that is there.
#[cycle(gather)]
fn gather_component<'t>(
    alloc: Global,
    node: &'t Node,
    presence: &Presence,
    own: Option<u32>,
    step: u32,
    v: &Value,
    root: &Node,
    slots: &[Open<'t>],
    path: &mut Path,
    gathered: &mut Row<Moment<'t>>,
) -> Result<(), NoMemory>
    requires leaves { LeavesIn (grammar_of root.now) slots.now }
    requires can { CanGatherPlace (grammar_of root.now) (suc (length path.old)) (slots_of slots.now) (grammar_of node.now) presence.now own (Some (data_of v.now)) }
    ensures said { OnOk result (Gathers (grammar_of root.now) (place_moments (grammar_of root.now) (grammar_of node.now) presence.now own (paths_of slots.now) (path.old ++ step ∷ []) (Some (data_of v.now))) gathered.old gathered.new) }
    ensures path { OnOk result (path.new ≡ path.old) }
{
    path.push(step);
    ask_there(alloc, presence, own, v, path, slots, gathered)?;
    gather(alloc, node, v, root, slots, path, gathered)?;
    path.pop();
    Ok(())
}

#[cycle(gather)]
fn gather_list<'t>(
    alloc: Global,
    sizing: &Sizing,
    element: &'t Node,
    elements: &[Value],
    root: &Node,
    slots: &[Open<'t>],
    path: &mut Path,
    gathered: &mut Row<Moment<'t>>,
) -> Result<(), NoMemory>
    requires leaves { LeavesIn (grammar_of root.now) slots.now }
    requires can { CanGatherForm (grammar_of root.now) (length path.old) (slots_of slots.now) (list sizing.now (grammar_of element.now)) (list_of (elements_view elements.now)) }
    ensures said { OnOk result (Gathers (grammar_of root.now) (asks.form_moments (grammar_of root.now) (list sizing.now (grammar_of element.now)) (paths_of slots.now) path.old (list_of (elements_view elements.now))) gathered.old gathered.new) }
    ensures path { OnOk result (path.new ≡ path.old) }
{
    ask_size(
        alloc,
        path,
        slots,
        elements.len() as u64,
        &sizing.rule,
        gathered,
    )?;
    gather_elements(alloc, element, elements, root, slots, path, gathered)
}

#[cycle(gather)]
fn gather_elements<'t>(
    alloc: Global,
    element: &'t Node,
    elements: &[Value],
    root: &Node,
    slots: &[Open<'t>],
    path: &mut Path,
    gathered: &mut Row<Moment<'t>>,
) -> Result<(), NoMemory>
    requires few { length elements.now ≤ MOST_SIZE }
    requires leaves { LeavesIn (grammar_of root.now) slots.now }
    requires can { CanGatherEach (CanGather (grammar_of root.now) (suc (length path.old)) (slots_of slots.now) (grammar_of element.now)) (elements_view elements.now) }
    ensures said { OnOk result (Gathers (grammar_of root.now) (asks.run_moments (λ k d. asks.moments (grammar_of root.now) (grammar_of element.now) (paths_of slots.now) (path.old ++ k ∷ []) d) 0 (elements_view elements.now)) gathered.old gathered.new) }
    ensures path { OnOk result (path.new ≡ path.old) }
{
    let mut step = 0u32;
    for v in elements {
        gather_inside(alloc, element, step, v, root, slots, path, gathered)?;
        step += 1;
    }
    Ok(())
}

// The alternative of a number. A number of none asks nothing.
#[cycle(gather)]
fn gather_choice<'t>(
    alloc: Global,
    alternatives: &'t [Alternative],
    rule: &ChoiceRule,
    i: u32,
    v: &Value,
    root: &Node,
    slots: &[Open<'t>],
    path: &mut Path,
    gathered: &mut Row<Moment<'t>>,
) -> Result<(), NoMemory>
    requires leaves { LeavesIn (grammar_of root.now) slots.now }
    requires can { CanGatherCase (grammar_of root.now) (suc (length path.old)) (slots_of slots.now) rule.now (alternatives_view alternatives.now) i (data_of v.now) }
    ensures said { OnOk result (Gathers (grammar_of root.now) (asks.alternative_moments (grammar_of root.now) (alternatives_view alternatives.now) rule.now (paths_of slots.now) path.old i i (data_of v.now)) gathered.old gathered.new) }
    ensures path { OnOk result (path.new ≡ path.old) }
{
    match alternatives.get(i as usize) {
        Some(alternative) => gather_alternative(
            alloc,
            alternative,
            rule,
            i,
            v,
            root,
            slots,
            path,
            gathered,
        ),
        None => Ok(()),
    }
}

#[cycle(gather)]
fn gather_alternative<'t>(
    alloc: Global,
    alternative: &'t Alternative,
    rule: &ChoiceRule,
    i: u32,
    v: &Value,
    root: &Node,
    slots: &[Open<'t>],
    path: &mut Path,
    gathered: &mut Row<Moment<'t>>,
) -> Result<(), NoMemory>
    requires leaves { LeavesIn (grammar_of root.now) slots.now }
    requires known { CaseIn (holds (slots_of slots.now)) rule.now alternative.now.tests }
    requires can { CanGather (grammar_of root.now) (suc (length path.old)) (slots_of slots.now) (grammar_of alternative.now.node) (data_of v.now) }
    ensures said { OnOk result (Gathers (grammar_of root.now) (asks.rule_asks (grammar_of root.now) (paths_of slots.now) path.old i rule.now alternative.now.name alternative.now.tests ++ asks.moments (grammar_of root.now) (grammar_of alternative.now.node) (paths_of slots.now) (path.old ++ i ∷ []) (data_of v.now)) gathered.old gathered.new) }
    ensures path { OnOk result (path.new ≡ path.old) }
{
    ask_rule(
        alloc,
        path,
        slots,
        rule,
        i,
        alternative.name.bytes(),
        alternative.tests.items(),
        gathered,
    )?;
    gather_inside(alloc, &alternative.node, i, v, root, slots, path, gathered)
}

// What the content asks goes before its size.
#[cycle(gather)]
fn gather_contents<'t>(
    alloc: Global,
    sizing: &'t Sizing,
    content: &'t Node,
    v: &Value,
    root: &Node,
    slots: &[Open<'t>],
    path: &mut Path,
    gathered: &mut Row<Moment<'t>>,
) -> Result<(), NoMemory>
    requires leaves { LeavesIn (grammar_of root.now) slots.now }
    requires can { CanGatherForm (grammar_of root.now) (length path.old) (slots_of slots.now) (contained sizing.now (grammar_of content.now)) (data_of v.now) }
    ensures said { OnOk result (Gathers (grammar_of root.now) (asks.form_moments (grammar_of root.now) (contained sizing.now (grammar_of content.now)) (paths_of slots.now) path.old (data_of v.now)) gathered.old gathered.new) }
    ensures path { OnOk result (path.new ≡ path.old) }
{
    gather_inside(alloc, content, 0, v, root, slots, path, gathered)?;
    ask_contents(alloc, sizing, content, v, path, slots, gathered)
}
