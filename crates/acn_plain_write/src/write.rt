//! The walk.

ghost use Rattle.std.specs.Prelude.{◌≡◌, ◌≤◌, ◌∷◌, [], ◌++◌, IfOk, OnOk, drop, length, option_map};
ghost use Rattle.acn_grammar.specs.Code.{Written};
ghost use Rattle.acn_grammar.specs.Grammar.{Fields, seq, record_of, list, list_of, contained, choice, alt};
ghost use Rattle.acn_grammar.specs.Spell.{FieldsPart, FormPart, RunPart, Spell};
ghost use Rattle.acn_grammar.specs.View.{alternatives_view, data_of, elements_view, field_of, fields_view, form_of, grammar_of, places_view, with_field};
ghost use Rattle.acn_num.specs.declared.limits.TheConstants.{MOST_SIZE};
ghost use Rattle.acn_grammar.specs.declared.limits.TheConstants.{MOST_NODES};
ghost use Rattle.acn_plain_write.specs.Adds.{Adds, PlacePart};
ghost use Rattle.acn_plain_write.specs.Ready.{Ready, FormReady, FieldsReady, RunReady, PlaceReady, Onward};

use crate::contents::put_content_size;
use crate::home::numbers_at_home;
use crate::inserted::write_inserted;
use crate::leaves::{write_bits, write_leaf, write_octets, write_text};
use crate::parts::{put_end, put_fill, put_index, put_padding, put_presence_bits, put_size};
use acn_asks::Heard;
use acn_grammar::{Alternative, Body, ChoiceRule, Field, Node, Sizing, Value};
use acn_num::{BitList, NoMemory, Path};
use std::alloc::Global;

/// A value of the node at a path.
#[cycle(write)]
pub fn write_node(
    alloc: Global,
    node: &Node,
    v: &Value,
    root: &Node,
    heard: &Heard,
    slots: &[(u32, i128)],
    path: &mut Path,
    bits: &mut BitList,
    base: usize,
) -> Result<(), NoMemory>
    requires { Ready (grammar_of root.now) heard.now (grammar_of node.now) slots.now path.old (data_of v.now) }
    ensures added { OnOk result (Adds (Spell (grammar_of root.now) Written (grammar_of node.now) slots.now (data_of v.now)) base bits.old bits.new) }
    ensures path { OnOk result (path.new ≡ path.old) }
{
    put_padding(bits, base, node.align)?;
    write_body(alloc, &node.body, v, root, heard, slots, path, bits, base)
}

// What stands behind the padding. No value of another form than the body's comes here, since none is ready.
#[cycle(write)]
fn write_body(
    alloc: Global,
    body: &Body,
    v: &Value,
    root: &Node,
    heard: &Heard,
    slots: &[(u32, i128)],
    path: &mut Path,
    bits: &mut BitList,
    base: usize,
) -> Result<(), NoMemory>
    requires { FormReady (grammar_of root.now) heard.now (form_of body.now) slots.now path.old (data_of v.now) }
    ensures added { OnOk result (Adds (FormPart (grammar_of root.now) Written (form_of body.now) slots.now (data_of v.now)) base bits.old bits.new) }
    ensures path { OnOk result (path.new ≡ path.old) }
{
    match body {
        Body::Num(leaf) => write_leaf(alloc, leaf, v, bits),
        Body::Octets(sizing) => match v {
            Value::Octets(octets) => write_octets(sizing, octets.items(), bits),
            _ => Ok(()),
        },
        Body::Bits(sizing) => match v {
            Value::Bits(string) => write_bits(sizing, string.items(), bits),
            _ => Ok(()),
        },
        Body::Text(leaf) => match v {
            Value::Text(text) => write_text(alloc, leaf, text.items(), bits),
            _ => Ok(()),
        },
        Body::Seq(seq) => match v {
            Value::Seq(places) => write_seq(
                alloc,
                seq.fields.items(),
                seq.home.items(),
                places.items(),
                root,
                heard,
                slots,
                path,
                bits,
                base,
            ),
            _ => Ok(()),
        },
        Body::List(sizing, element) => match v {
            Value::List(elements) => write_list(
                alloc,
                sizing,
                element.get(),
                elements.items(),
                root,
                heard,
                slots,
                path,
                bits,
                base,
            ),
            _ => Ok(()),
        },
        Body::Choice(choice) => match v {
            Value::Alt(i, inside) => write_choice(
                alloc,
                choice.alternatives.items(),
                choice.rule,
                *i,
                inside.get(),
                root,
                heard,
                slots,
                path,
                bits,
                base,
            ),
            _ => Ok(()),
        },
        Body::Contained(sizing, content) => write_contained(
            alloc,
            sizing,
            content.get(),
            v,
            root,
            heard,
            slots,
            path,
            bits,
            base,
        ),
    }
}

// A node inside another, at a step from it.
#[cycle(write)]
fn write_child(
    alloc: Global,
    node: &Node,
    step: u32,
    v: &Value,
    root: &Node,
    heard: &Heard,
    slots: &[(u32, i128)],
    path: &mut Path,
    bits: &mut BitList,
    base: usize,
) -> Result<(), NoMemory>
    requires { Ready (grammar_of root.now) heard.now (grammar_of node.now) slots.now (path.old ++ step ∷ []) (data_of v.now) }
    ensures added { OnOk result (Adds (Spell (grammar_of root.now) Written (grammar_of node.now) slots.now (data_of v.now)) base bits.old bits.new) }
    ensures path { OnOk result (path.new ≡ path.old) }
{
    path.push(step);
    write_node(alloc, node, v, root, heard, slots, path, bits, base)?;
    path.pop();
    Ok(())
}

// The presence bits and the fields, with the numbers of the slots at home here.
#[cycle(write)]
fn write_seq(
    alloc: Global,
    fields: &[Field],
    home: &[u32],
    places: &[Option<Value>],
    root: &Node,
    heard: &Heard,
    slots: &[(u32, i128)],
    path: &mut Path,
    bits: &mut BitList,
    base: usize,
) -> Result<(), NoMemory>
    requires { FormReady (grammar_of root.now) heard.now (seq (fields_view fields.now) home.now) slots.now path.old (record_of (places_view places.now)) }
    ensures added { OnOk result (Adds (FormPart (grammar_of root.now) Written (seq (fields_view fields.now) home.now) slots.now (record_of (places_view places.now))) base bits.old bits.new) }
    ensures path { OnOk result (path.new ≡ path.old) }
{
    let numbers = numbers_at_home(alloc, heard, fields, home, path, slots)?;
    put_presence_bits(bits, fields, places)?;
    write_fields(
        alloc,
        fields,
        places,
        root,
        heard,
        numbers.items(),
        path,
        bits,
        base,
    )
}

#[cycle(write)]
fn write_fields(
    alloc: Global,
    fields: &[Field],
    places: &[Option<Value>],
    root: &Node,
    heard: &Heard,
    slots: &[(u32, i128)],
    path: &mut Path,
    bits: &mut BitList,
    base: usize,
) -> Result<(), NoMemory>
    requires few { length fields.now ≤ MOST_NODES }
    requires ready { FieldsReady (grammar_of root.now) heard.now (fields_view fields.now) slots.now path.old 0 (places_view places.now) }
    ensures added { OnOk result (Adds (FieldsPart (grammar_of root.now) Written (fields_view fields.now) slots.now (places_view places.now)) base bits.old bits.new) }
    ensures path { OnOk result (path.new ≡ path.old) }
{
    let mut step = 0u32;
    let mut at = 0;
    for field in fields {
        at = write_field(
            alloc, field, step, places, at, root, heard, slots, path, bits, base,
        )?;
        step += 1;
    }
    Ok(())
}

// A field, where the place of the next component is this one. The answer is that of the component behind it. There is a
// place for each component.
#[cycle(write)]
fn write_field(
    alloc: Global,
    field: &Field,
    step: u32,
    places: &[Option<Value>],
    at: usize,
    root: &Node,
    heard: &Heard,
    slots: &[(u32, i128)],
    path: &mut Path,
    bits: &mut BitList,
    base: usize,
) -> Result<usize, NoMemory>
    requires within { at ≤ length places.now }
    requires ready { (fs : Fields) × FieldsReady (grammar_of root.now) heard.now (with_field (field_of field.now) fs) slots.now path.old step (places_view (drop at places.now)) }
    ensures added { IfOk result (λ next. (fs : Fields) → FieldsReady (grammar_of root.now) heard.now (with_field (field_of field.now) fs) slots.now path.old step (places_view (drop at places.now)) → Onward (grammar_of root.now) heard.now (with_field (field_of field.now) fs) fs slots.now path.old step places.now at next base bits.old bits.new) }
    ensures path { OnOk result (path.new ≡ path.old) }
{
    match field {
        Field::Component { node, .. } => match places.get(at) {
            Some(place) => {
                write_place(
                    alloc, node, step, place, root, heard, slots, path, bits, base,
                )?;
                Ok(at + 1)
            }
            None => Ok(at),
        },
        Field::Inserted { node, slot, .. } => {
            write_inserted(alloc, node, *slot, slots, bits, base)?;
            Ok(at)
        }
    }
}

// A component, which may be absent.
#[cycle(write)]
fn write_place(
    alloc: Global,
    node: &Node,
    step: u32,
    place: &Option<Value>,
    root: &Node,
    heard: &Heard,
    slots: &[(u32, i128)],
    path: &mut Path,
    bits: &mut BitList,
    base: usize,
) -> Result<(), NoMemory>
    requires { PlaceReady (λ d. Ready (grammar_of root.now) heard.now (grammar_of node.now) slots.now (path.old ++ step ∷ []) d) (option_map data_of place.now) }
    ensures added { OnOk result (Adds (PlacePart (λ d. Spell (grammar_of root.now) Written (grammar_of node.now) slots.now d) (option_map data_of place.now)) base bits.old bits.new) }
    ensures path { OnOk result (path.new ≡ path.old) }
{
    match place {
        Some(v) => write_child(alloc, node, step, v, root, heard, slots, path, bits, base),
        None => Ok(()),
    }
}

// A size in front of the elements, or a pattern behind them.
#[cycle(write)]
fn write_list(
    alloc: Global,
    sizing: &Sizing,
    element: &Node,
    elements: &[Value],
    root: &Node,
    heard: &Heard,
    slots: &[(u32, i128)],
    path: &mut Path,
    bits: &mut BitList,
    base: usize,
) -> Result<(), NoMemory>
    requires { FormReady (grammar_of root.now) heard.now (list sizing.now (grammar_of element.now)) slots.now path.old (list_of (elements_view elements.now)) }
    ensures added { OnOk result (Adds (FormPart (grammar_of root.now) Written (list sizing.now (grammar_of element.now)) slots.now (list_of (elements_view elements.now))) base bits.old bits.new) }
    ensures path { OnOk result (path.new ≡ path.old) }
{
    put_size(bits, &sizing.rule, elements.len())?;
    write_run(
        alloc, element, elements, root, heard, slots, path, bits, base,
    )?;
    put_end(bits, &sizing.rule)
}

#[cycle(write)]
fn write_run(
    alloc: Global,
    element: &Node,
    elements: &[Value],
    root: &Node,
    heard: &Heard,
    slots: &[(u32, i128)],
    path: &mut Path,
    bits: &mut BitList,
    base: usize,
) -> Result<(), NoMemory>
    requires few { length elements.now ≤ MOST_SIZE }
    requires ready { RunReady (λ k d. Ready (grammar_of root.now) heard.now (grammar_of element.now) slots.now (path.old ++ k ∷ []) d) 0 (elements_view elements.now) }
    ensures added { OnOk result (Adds (RunPart (Spell (grammar_of root.now) Written (grammar_of element.now) slots.now) (elements_view elements.now)) base bits.old bits.new) }
    ensures path { OnOk result (path.new ≡ path.old) }
{
    let mut step = 0u32;
    for v in elements {
        write_child(
            alloc, element, step, v, root, heard, slots, path, bits, base,
        )?;
        step += 1;
    }
    Ok(())
}

// An index, where one stands in front, and the alternative, which is there.
#[cycle(write)]
fn write_choice(
    alloc: Global,
    alternatives: &[Alternative],
    rule: ChoiceRule,
    i: u32,
    v: &Value,
    root: &Node,
    heard: &Heard,
    slots: &[(u32, i128)],
    path: &mut Path,
    bits: &mut BitList,
    base: usize,
) -> Result<(), NoMemory>
    requires { FormReady (grammar_of root.now) heard.now (choice (alternatives_view alternatives.now) rule) slots.now path.old (alt i (data_of v.now)) }
    ensures added { OnOk result (Adds (FormPart (grammar_of root.now) Written (choice (alternatives_view alternatives.now) rule) slots.now (alt i (data_of v.now))) base bits.old bits.new) }
    ensures path { OnOk result (path.new ≡ path.old) }
{
    put_index(bits, &rule, i)?;
    match alternatives.get(i as usize) {
        Some(alternative) => write_child(
            alloc,
            &alternative.node,
            i,
            v,
            root,
            heard,
            slots,
            path,
            bits,
            base,
        ),
        None => Ok(()),
    }
}

// A size, where it stands in front, and contents that begin at a base of their own, up to a whole octet.
#[cycle(write)]
fn write_contained(
    alloc: Global,
    sizing: &Sizing,
    content: &Node,
    v: &Value,
    root: &Node,
    heard: &Heard,
    slots: &[(u32, i128)],
    path: &mut Path,
    bits: &mut BitList,
    base: usize,
) -> Result<(), NoMemory>
    requires { FormReady (grammar_of root.now) heard.now (contained sizing.now (grammar_of content.now)) slots.now path.old (data_of v.now) }
    ensures added { OnOk result (Adds (FormPart (grammar_of root.now) Written (contained sizing.now (grammar_of content.now)) slots.now (data_of v.now)) base bits.old bits.new) }
    ensures path { OnOk result (path.new ≡ path.old) }
{
    put_content_size(content, v, &sizing.rule, bits)?;
    let start = bits.len();
    write_child(alloc, content, 0, v, root, heard, slots, path, bits, start)?;
    put_fill(bits, start)
}
