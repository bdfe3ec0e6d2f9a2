//! The value of a line, read along the tree as the line of a value is printed, where the line is one: the texts are those of src/put.rt.

ghost use Rattle.std.specs.Prelude.{◌≡◌, ◌<◌, ◌≤◌, ◌++◌, ◌∷◌, List, ℕ, ℤ, IfSome, IsTrue, length, take, false, option_map};
ghost use Rattle.json.specs.Print.{quoted};
ghost use Rattle.serde_json.specs.Written.{members_text};
ghost use Rattle.acn_grammar.specs.Grammar as grammar;
ghost use Rattle.acn_grammar.specs.Grammar.{Data};
ghost use Rattle.acn_grammar.specs.View.{grammar_of, data_of, field_of, fields_view, elements_view, places_view, alternatives_view};
ghost use Rattle.acn_grammar.specs.declared.node.ChoiceRule.{ChoiceRule};
ghost use Rattle.acn_grammar.specs.declared.node.NumKind.TheVariants as kind;
ghost use Rattle.acn_grammar.specs.declared.node.Sizing.{Sizing};
ghost use Rattle.acn_grammar.specs.declared.node.TextLeaf.{TextLeaf};
ghost use Rattle.acn_lines.specs.Filled as filled;
ghost use Rattle.acn_lines.specs.Order as spec;
ghost use Rattle.acn_lines.specs.Taken as taken;
ghost use Rattle.acn_lines.specs.declared.order.Order.{out-Order};
ghost use Rattle.acn_printed.specs.Read.{IsRead, IsNumberRead};

use crate::order::Order;
use crate::places::{alternative_called, may_lack};
use crate::spare::Spare;
use crate::take::alternative_of;
use crate::turns::Turn;
use acn_grammar::{Alternative, Body, Field, Node, NumKind, NumLeaf, Presence, Value};
use acn_num::Row;
use acn_printed::{Rest, read_bits, read_characters, read_integer, read_number, read_octets};

// Reads an octet string over an old value.
fn read_octet_string(value: &mut Value, spare: &mut Spare, rest: &mut Rest<'_>) -> bool
    ensures { (align : ℕ) (sizing : Sizing) → IsTrue result → IsRead (grammar.node align (grammar.octets sizing)) (data_of value.new) rest.old.text.now rest.new.text.now }
{
    if !matches!(value, Value::Octets(_)) {
        spare.make_octets(value);
    }
    match value {
        Value::Octets(octets) => read_octets(spare.alloc, octets, rest),
        _ => false,
    }
}

// Reads a text over an old value.
fn read_text(value: &mut Value, spare: &mut Spare, rest: &mut Rest<'_>) -> bool
    ensures { (align : ℕ) (leaf : TextLeaf) → IsTrue result → IsRead (grammar.node align (grammar.text leaf)) (data_of value.new) rest.old.text.now rest.new.text.now }
{
    if !matches!(value, Value::Text(_)) {
        spare.make_text(value);
    }
    match value {
        Value::Text(characters) => read_characters(spare.alloc, characters, rest),
        _ => false,
    }
}

// Reads a bit string over an old value.
fn read_bit_string(value: &mut Value, spare: &mut Spare, rest: &mut Rest<'_>) -> bool
    ensures { (align : ℕ) (sizing : Sizing) → IsTrue result → IsRead (grammar.node align (grammar.bits sizing)) (data_of value.new) rest.old.text.now rest.new.text.now }
{
    match read_bits(spare.alloc, rest) {
        Some(bits) => {
            *value = Value::Bits(bits);
            true
        }
        None => false,
    }
}

/// Reads the value of a node over an old value, if its text comes next.
#[cycle(read)]
pub fn read_node(
    node: &Node,
    order: &Order,
    value: &mut Value,
    spare: &mut Spare,
    rest: &mut Rest<'_>,
) -> bool
    requires { spec.IsNodeOrder (grammar_of node.now) order.now }
    ensures { IsTrue result → IsRead (grammar_of node.now) (data_of value.new) rest.old.text.now rest.new.text.now }
{
    match &node.body {
        Body::Num(leaf) => read_number(leaf, order.names.items(), value, rest),
        Body::Octets(_) => read_octet_string(value, spare, rest),
        Body::Bits(_) => read_bit_string(value, spare, rest),
        Body::Text(_) => read_text(value, spare, rest),
        Body::Seq(seq) => read_record(seq.fields.items(), order, value, spare, rest),
        Body::List(_, element) => read_list(element.get(), order, value, spare, rest),
        Body::Choice(choice) => read_alternative(
            choice.alternatives.items(),
            order.inside.items(),
            order.names.items(),
            value,
            spare,
            rest,
        ),
        Body::Contained(_, content) => read_node(content.get(), order, value, spare, rest),
    }
}

#[cycle(read)]
fn read_record(
    fields: &[Field],
    order: &Order,
    value: &mut Value,
    spare: &mut Spare,
    rest: &mut Rest<'_>,
) -> bool
    requires turns { spec.AreTurns (fields_view fields.now) (out-Order order.now).turns }
    requires inside { spec.AreFieldOrders (fields_view fields.now) (out-Order order.now).inside }
    ensures { IsTrue result → (align : ℕ) (home : List ℕ) → IsRead (grammar.node align (grammar.seq (fields_view fields.now) home)) (data_of value.new) rest.old.text.now rest.new.text.now }
{
    if !rest.pass(b'{') {
        return false;
    }
    let turns = order.turns.items();
    let Some(mut places) = spare.record(value, fields, turns) else {
        return false;
    };
    let inside = order.inside.items();
    let read = read_members(fields, inside, turns, &mut places, spare, rest);
    *value = Value::Seq(Row::from_vec(places));
    read
}

// Reads members, turn by turn, and the brace behind them, into places in which old values stand.
#[cycle(read)]
fn read_members(
    fields: &[Field],
    inside: &[Order],
    turns: &[Turn],
    places: &mut Vec<Option<Value>>,
    spare: &mut Spare,
    rest: &mut Rest<'_>,
) -> bool
    requires turns { spec.AreTurns (fields_view fields.now) turns.now }
    requires inside { spec.AreFieldOrders (fields_view fields.now) inside.now }
    requires count { length places.old.items ≡ taken.component_count (fields_view fields.now) }
    ensures text { IsTrue result → rest.old.text.now ≡ members_text false (spec.in_order (fields_view fields.now) turns.now (places_view places.new.items)) ++ rest.new.text.now }
    ensures filled { IsTrue result → filled.AreFilled (fields_view fields.now) (places_view places.new.items) }
    ensures whole { IsTrue result → IsTrue (taken.is_whole (fields_view fields.now) (places_view places.new.items)) }
{
    let mut later = false;
    for turn in turns {
        match read_turn(fields, inside, turn, later, places, spare, rest) {
            Some(more) => later = more,
            None => return false,
        }
    }
    rest.pass(b'}')
}

// Reads the member of a turn, if it comes next, and answers whether a comma is wanted behind it.
#[cycle(read)]
fn read_turn(
    fields: &[Field],
    inside: &[Order],
    turn: &Turn,
    later: bool,
    places: &mut Vec<Option<Value>>,
    spare: &mut Spare,
    rest: &mut Rest<'_>,
) -> Option<bool>
    requires keyed { spec.HasKey (spec.field_at (fields_view fields.now) turn.now.field) turn.now.key }
    requires placed { turn.now.place ≡ spec.place_of (fields_view fields.now) turn.now.field }
    requires inside { spec.AreFieldOrders (fields_view fields.now) inside.now }
    requires count { length places.old.items ≡ taken.component_count (fields_view fields.now) }
    ensures read { IfSome result (λ more. filled.IsTurnRead (fields_view fields.now) turn.now later more (places_view places.old.items) (places_view places.new.items) rest.old.text.now rest.new.text.now) }
    ensures count { IfSome result (λ more. length places.new.items ≡ length places.old.items) }
{
    let field = &fields[turn.field];
    let place = &mut places[turn.place];
    if !rest.pass_key(later, turn.key.items()) {
        if !may_lack(field) {
            return None;
        }
        spare.empty(place);
        return Some(later);
    }
    let order = &inside[turn.field];
    if read_place(field, order, place, spare, rest) {
        Some(true)
    } else {
        None
    }
}

// Reads the value of a component into its place.
#[cycle(read)]
fn read_place(
    field: &Field,
    order: &Order,
    place: &mut Option<Value>,
    spare: &mut Spare,
    rest: &mut Rest<'_>,
) -> bool
    requires { spec.IsFieldOrder (field_of field.now) order.now }
    ensures { IsTrue result → filled.IsPlaceRead (field_of field.now) (option_map data_of place.new) rest.old.text.now rest.new.text.now }
{
    if place.is_none() {
        *place = Some(Value::Null);
    }
    match place {
        Some(value) => read_field(field, order, value, spare, rest),
        None => false,
    }
}

// The leaf of a node that is a number.
#[inline]
fn leaf_of(node: &Node) -> Option<&NumLeaf>
    ensures { IfSome result (λ leaf. (d : Data) (old new : List ℕ) → IsNumberRead leaf.now.kind leaf.now.items.items d old new → IsRead (grammar_of node.now) d old new) }
{
    match &node.body {
        Body::Num(leaf) => Some(leaf),
        Body::Octets(_) => None,
        Body::Bits(_) => None,
        Body::Text(_) => None,
        Body::Seq(_) => None,
        Body::List(_, _) => None,
        Body::Choice(_) => None,
        Body::Contained(_, _) => None,
    }
}

// Whether a component is an INTEGER.
#[inline]
fn is_integer(field: &Field) -> bool
    ensures { IsTrue result → (d : Data) (old new : List ℕ) → ((items : List (List ℕ × ℤ)) → IsNumberRead kind.Integer items d old new) → filled.IsFieldRead (field_of field.now) d old new }
{
    match field {
        Field::Component { node, .. } => match leaf_of(node) {
            Some(leaf) => match leaf.kind {
                NumKind::Integer => true,
                NumKind::Boolean => false,
                NumKind::Enumerated => false,
                NumKind::Null => false,
            },
            None => false,
        },
        Field::Inserted { .. } => false,
    }
}

// Reads the value of a component. A number or a string is read here, without a turn of the cycle.
#[cycle(read)]
fn read_field(
    field: &Field,
    order: &Order,
    value: &mut Value,
    spare: &mut Spare,
    rest: &mut Rest<'_>,
) -> bool
    requires { spec.IsFieldOrder (field_of field.now) order.now }
    ensures { IsTrue result → filled.IsFieldRead (field_of field.now) (data_of value.new) rest.old.text.now rest.new.text.now }
{
    if is_integer(field) {
        return read_integer(value, rest);
    }
    match field {
        Field::Component { node, .. } => match &node.body {
            Body::Num(leaf) => read_number(leaf, order.names.items(), value, rest),
            Body::Octets(_) => read_octet_string(value, spare, rest),
            Body::Text(_) => read_text(value, spare, rest),
            _ => read_node(node, order, value, spare, rest),
        },
        Field::Inserted { .. } => false,
    }
}

#[cycle(read)]
#[inline(never)]
fn read_list(
    element: &Node,
    order: &Order,
    value: &mut Value,
    spare: &mut Spare,
    rest: &mut Rest<'_>,
) -> bool
    requires { spec.IsNodeOrder (grammar_of element.now) order.now }
    ensures { IsTrue result → (align : ℕ) (sizing : Sizing) → IsRead (grammar.node align (grammar.list sizing (grammar_of element.now))) (data_of value.new) rest.old.text.now rest.new.text.now }
{
    if !rest.pass(b'[') {
        return false;
    }
    let mut elements = spare.elements(value);
    let read = if rest.pass(b']') {
        spare.cut(&mut elements, 0);
        true
    } else {
        read_elements(element, order, &mut elements, spare, rest)
    };
    *value = Value::List(Row::from_vec(elements));
    read
}

// Makes a place for the element of a number, if there is none yet.
#[inline(always)]
fn make_place(elements: &mut Vec<Value>, at: usize) -> bool
    requires { at ≤ length elements.old.items }
    ensures within { IsTrue result → at < length elements.new.items }
    ensures same { take at elements.new.items ≡ take at elements.old.items }
{
    if at < elements.len() {
        return true;
    }
    elements.push(Value::Null).is_ok()
}

// Reads elements, of which there is one at least, and the bracket behind them, over old ones.
#[cycle(read)]
fn read_elements(
    element: &Node,
    order: &Order,
    elements: &mut Vec<Value>,
    spare: &mut Spare,
    rest: &mut Rest<'_>,
) -> bool
    requires { spec.IsNodeOrder (grammar_of element.now) order.now }
    ensures { IsTrue result → filled.AreRead (grammar_of element.now) (elements_view elements.new.items) rest.old.text.now rest.new.text.now }
{
    // each element has an octet
    for at in 0..rest.text.len() {
        if !make_place(elements, at) {
            return false;
        }
        if !read_node(element, order, &mut elements[at], spare, rest) {
            return false;
        }
        if rest.pass(b']') {
            spare.cut(elements, at + 1);
            return true;
        }
        if !rest.pass(b',') {
            return false;
        }
    }
    false
}

#[cycle(read)]
#[inline(never)]
fn read_alternative(
    alternatives: &[Alternative],
    inside: &[Order],
    names: &[u32],
    value: &mut Value,
    spare: &mut Spare,
    rest: &mut Rest<'_>,
) -> bool
    requires { spec.AreAlternativeOrders (alternatives_view alternatives.now) inside.now }
    ensures { IsTrue result → (align : ℕ) (rule : ChoiceRule) → IsRead (grammar.node align (grammar.choice (alternatives_view alternatives.now) rule)) (data_of value.new) rest.old.text.now rest.new.text.now }
{
    let Some(at) = pass_alternative(alternatives, names, rest) else {
        return false;
    };
    let mut within = spare.inside(value);
    if !read_node(
        &alternatives[at].node,
        &inside[at],
        &mut within,
        spare,
        rest,
    ) {
        return false;
    }
    if !rest.pass(b'}') {
        return false;
    }
    match alternative_of(spare.alloc, at, within) {
        Some(read) => {
            *value = read;
            true
        }
        None => false,
    }
}

// Passes over the brace and the key of an alternative, and answers its number.
fn pass_alternative(
    alternatives: &[Alternative],
    names: &[u32],
    rest: &mut Rest<'_>,
) -> Option<usize>
    ensures within { IfSome result (λ at. at < length alternatives.now) }
    ensures text { IfSome result (λ at. rest.old.text.now ≡ 123 ∷ (quoted (filled.alternative_name (alternatives_view alternatives.now) at) ++ 58 ∷ rest.new.text.now)) }
{
    if !rest.pass(b'{') {
        return None;
    }
    let name = rest.plain_string()?;
    let at = alternative_called(alternatives, names, name)?;
    if rest.pass(b':') { Some(at) } else { None }
}

fn has_to_come(field: Option<&Field>) -> bool {
    matches!(
        field,
        Some(Field::Component {
            presence: Presence::Always,
            ..
        })
    )
}

// Whether a line may be one that was printed, by the colon of its first key and what stands behind it. It takes no memory.
fn may_begin(fields: &[Field], turns: &[Turn], line: &[u8]) -> bool {
    let Some(turn) = turns.first() else {
        return true;
    };
    // the brace stands in front of the key, whose last octet is the colon
    let colon = turn.key.items().len();
    if colon >= line.len() || line[colon] != b':' {
        return !has_to_come(fields.get(turn.field));
    }
    colon + 1 == line.len() || line[colon + 1] != b' '
}

/// Whether a line may be one that was printed. It takes no memory: most lines that weren't printed show it at their first key.
pub fn may_be_printed(node: &Node, order: &Order, line: &[u8]) -> bool {
    match &node.body {
        Body::Seq(seq) => may_begin(seq.fields.items(), order.turns.items(), line),
        _ => true,
    }
}
