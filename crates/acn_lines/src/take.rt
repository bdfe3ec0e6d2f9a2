//! The value of the tokens of a line, taken one after another.
//!
//! A walk answers a value only where the tokens give it, and none wherever there is a doubt: another form, a member that is no component, a
//! component that is missing, or want of memory. Of a member that is given twice the last one goes into the place.

ghost use Rattle.std.specs.Prelude.{◌≡◌, ◌∷◌, ◌<◌, IfSome, OnSome, List, ℕ, length, Ok};
ghost use Rattle.acn_grammar.specs.Grammar as grammar;
ghost use Rattle.acn_grammar.specs.Grammar.{Places};
ghost use Rattle.acn_grammar.specs.View.{grammar_of, data_of, fields_view, places_view, elements_view, alternatives_view};
ghost use Rattle.acn_json.specs.Reads.{line_gives};
ghost use Rattle.acn_lines.specs.Names as names;
ghost use Rattle.acn_lines.specs.Order as spec;
ghost use Rattle.acn_lines.specs.Taken as taken;
ghost use Rattle.acn_lines.specs.declared.order.Order.{out-Order};
ghost use Rattle.acn_grammar.specs.declared.node.ChoiceRule.{ChoiceRule};
ghost use Rattle.acn_grammar.specs.declared.node.Sizing.{Sizing};
ghost use Rattle.json.specs.Token as word;

use crate::leaves::{take_bits, take_characters, take_number, take_octets};
use crate::order::Order;
use crate::places::{alternative_named, is_whole, no_values, turn_named};
use crate::room::Room;
use crate::tokens::{close_array, open_array, open_object, take_key};
use crate::turns::Turn;
use acn_grammar::{Alternative, Body, Field, Node, Value};
use acn_json::is_same;
use acn_num::{Boxed, Row};
use acn_tree::Tree;
use json::Reader;
use std::alloc::Global;

// Takes the value of a node.
#[cycle(take)]
fn take_node(alloc: Global, node: &Node, order: &Order, reader: &mut Reader<'_>) -> Option<Value>
    requires order { spec.IsNodeOrder (grammar_of node.now) order.now }
    requires names { names.NamesDiffer (grammar_of node.now) }
    ensures { IfSome result (λ v. taken.IsTaken (grammar_of node.now) (data_of v) reader.old reader.new) }
{
    match &node.body {
        Body::Num(leaf) => take_number(leaf, reader),
        Body::Octets(_) => take_octets(alloc, reader),
        Body::Bits(_) => take_bits(alloc, reader),
        Body::Text(_) => take_characters(alloc, reader),
        Body::Seq(seq) => take_record(alloc, seq.fields.items(), order, reader),
        Body::List(_, element) => take_list(alloc, element.get(), order, reader),
        Body::Choice(choice) => take_alternative(
            alloc,
            choice.alternatives.items(),
            order.inside.items(),
            reader,
        ),
        Body::Contained(_, content) => take_node(alloc, content.get(), order, reader),
    }
}

#[cycle(take)]
fn take_record(
    alloc: Global,
    fields: &[Field],
    order: &Order,
    reader: &mut Reader<'_>,
) -> Option<Value>
    requires turns { spec.AreTurns (fields_view fields.now) (out-Order order.now).turns }
    requires inside { spec.AreFieldOrders (fields_view fields.now) (out-Order order.now).inside }
    requires differ { names.Differ (fields_view fields.now) }
    requires names { names.FieldsNamesDiffer (fields_view fields.now) }
    ensures { IfSome result (λ v. (align : ℕ) (home : List ℕ) → taken.IsTaken (grammar.node align (grammar.seq (fields_view fields.now) home)) (data_of v) reader.old reader.new) }
{
    open_object(reader)?;
    let Ok(mut places) = no_values(Vec::new(alloc), fields) else {
        return None;
    };
    take_members(
        alloc,
        fields,
        order.inside.items(),
        order.turns.items(),
        &mut places,
        reader,
    )?;
    if is_whole(fields, &places) {
        Some(Value::Seq(Row::from_vec(places)))
    } else {
        None
    }
}

// Takes members and the brace behind them.
#[cycle(take)]
fn take_members(
    alloc: Global,
    fields: &[Field],
    inside: &[Order],
    turns: &[Turn],
    places: &mut Vec<Option<Value>>,
    reader: &mut Reader<'_>,
) -> Option<()>
    requires keyed { spec.AreKeyed (fields_view fields.now) turns.now }
    requires placed { spec.ArePlaced (fields_view fields.now) turns.now }
    requires inside { spec.AreFieldOrders (fields_view fields.now) inside.now }
    requires differ { names.Differ (fields_view fields.now) }
    requires names { names.FieldsNamesDiffer (fields_view fields.now) }
    requires count { length places.old.items ≡ taken.component_count (fields_view fields.now) }
    ensures { OnSome result (taken.MembersTaken (fields_view fields.now) (places_view places.old.items) reader.old (places_view places.new.items) reader.new) }
{
    let mut next = 0;
    'members: while let Some(name) = take_key(reader)? {
        let at = turn_named(fields, turns, next, name.as_bytes())?;
        take_member(alloc, fields, inside, &turns[at], name, places, reader)?;
        next = at + 1;
    }
    Some(())
}

// Takes the value of a member behind its key.
#[cycle(take)]
fn take_member(
    alloc: Global,
    fields: &[Field],
    inside: &[Order],
    turn: &Turn,
    name: &str,
    places: &mut Vec<Option<Value>>,
    reader: &mut Reader<'_>,
) -> Option<()>
    requires keyed { spec.HasKey (spec.field_at (fields_view fields.now) turn.now.field) turn.now.key }
    requires placed { turn.now.place ≡ spec.place_of (fields_view fields.now) turn.now.field }
    requires inside { spec.AreFieldOrders (fields_view fields.now) inside.now }
    requires differ { names.Differ (fields_view fields.now) }
    requires names { names.FieldsNamesDiffer (fields_view fields.now) }
    requires count { length places.old.items ≡ taken.component_count (fields_view fields.now) }
    ensures count { OnSome result (length places.new.items ≡ length places.old.items) }
    ensures shorter { OnSome result (length reader.new < length reader.old) }
    ensures member { OnSome result ((qs : Places) (new : List word.Token) → taken.MembersTaken (fields_view fields.now) (places_view places.new.items) reader.new qs new → taken.MembersTaken (fields_view fields.now) (places_view places.old.items) (word.key name.now ∷ reader.old) qs new) }
{
    match &fields[turn.field] {
        Field::Component {
            name: own,
            node,
            ..
        } => {
            if !is_same(own.bytes(), name.as_bytes()) {
                return None;
            }
            let value = take_node(alloc, node, &inside[turn.field], reader)?;
            places[turn.place] = Some(value);
            Some(())
        }
        Field::Inserted { .. } => None,
    }
}

#[cycle(take)]
fn take_list(alloc: Global, element: &Node, order: &Order, reader: &mut Reader<'_>) -> Option<Value>
    requires order { spec.IsNodeOrder (grammar_of element.now) order.now }
    requires names { names.NamesDiffer (grammar_of element.now) }
    ensures { IfSome result (λ v. (align : ℕ) (sizing : Sizing) → taken.IsTaken (grammar.node align (grammar.list sizing (grammar_of element.now))) (data_of v) reader.old reader.new) }
{
    open_array(reader)?;
    let elements = take_elements(alloc, element, order, reader)?;
    Some(Value::List(elements))
}

// Takes elements and the bracket behind them.
#[cycle(take)]
fn take_elements(
    alloc: Global,
    element: &Node,
    order: &Order,
    reader: &mut Reader<'_>,
) -> Option<Row<Value>>
    requires order { spec.IsNodeOrder (grammar_of element.now) order.now }
    requires names { names.NamesDiffer (grammar_of element.now) }
    ensures { IfSome result (λ vs. taken.AreTaken (grammar_of element.now) (elements_view vs) reader.old reader.new) }
{
    let mut elements = Row::new(alloc);
    'elements: while !close_array(reader) {
        let value = take_node(alloc, element, order, reader)?;
        if elements.push(value).is_err() {
            return None;
        }
    }
    Some(elements)
}

#[cycle(take)]
fn take_alternative(
    alloc: Global,
    alternatives: &[Alternative],
    inside: &[Order],
    reader: &mut Reader<'_>,
) -> Option<Value>
    requires inside { spec.AreAlternativeOrders (alternatives_view alternatives.now) inside.now }
    requires names { names.AlternativesNamesDiffer (alternatives_view alternatives.now) }
    ensures { IfSome result (λ v. (align : ℕ) (rule : ChoiceRule) → taken.IsTaken (grammar.node align (grammar.choice (alternatives_view alternatives.now) rule)) (data_of v) reader.old reader.new) }
{
    open_object(reader)?;
    let key = take_key(reader)?;
    let name = key?;
    let at = alternative_named(alternatives, name.as_bytes())?;
    let value = take_node(alloc, &alternatives[at].node, &inside[at], reader)?;
    let end = take_key(reader)?;
    match end {
        Some(_) => None,
        None => alternative_of(alloc, at, value),
    }
}

/// The value of an alternative. A number beyond 32 bits names none: so many alternatives would take more than 500 GB.
pub fn alternative_of(alloc: Global, at: usize, inside: Value) -> Option<Value>
    ensures { IfSome result (λ v. data_of v ≡ grammar.alt at (data_of inside)) }
{
    let Ok(at) = u32::try_from(at) else {
        return None;
    };
    match Boxed::new(alloc, inside) {
        Ok(inside) => Some(Value::Alt(at, inside)),
        Err(_) => None,
    }
}

/// The value of a line, if its tokens give it without a doubt.
pub fn take_line(
    alloc: Global,
    tree: &Tree,
    order: &Order,
    room: &mut Room,
    line: &[u8],
) -> Option<Value>
    requires { spec.IsNodeOrder (grammar_of tree.now.root) order.now }
    ensures { IfSome result (λ v. Ok (data_of v) ≡ line_gives (grammar_of tree.now.root) line.now) }
{
    let Ok(text) = std::str::from_utf8(line) else {
        return None;
    };
    let Ok(mut reader) = Reader::new(text, &mut room.scratch) else {
        return None;
    };
    let value = take_node(alloc, tree.root(), order, &mut reader)?;
    match reader.next() {
        Some(_more) => None,
        None => Some(value),
    }
}
