//! The value of a line.

ghost use Rattle.std.specs.Prelude.{◌≡◌, ◌<◌, ◌≤◌, ◌+◌, ◌^◌, ◌++◌, ◌∷◌, [], length, OnOk, IfOk, IfSome, IsTrue, option_map, Result, Err, is_ok, ℕ, List};
ghost use Rattle.serde_json.specs.View.{view, items_view, members_view};
ghost use Rattle.acn_grammar.specs.Grammar.{Data, Elements, Places};
ghost use Rattle.acn_grammar.specs.Grammar as value;
ghost use Rattle.acn_grammar.specs.Shaped.{fits};
ghost use Rattle.acn_grammar.specs.View.{grammar_of, data_of, fields_view, places_view, elements_view, alternatives_view};
ghost use Rattle.acn_json.specs.declared.read.TheConstants.{MOST_JSON_BYTES};
ghost use Rattle.acn_json.specs.Answers.{Answers, Gives, IsFault};
ghost use Rattle.acn_json.specs.Few.{size, items_size, members_size, CanRead, FieldsCanRead, AlternativesCanRead};
ghost use Rattle.acn_json.specs.Reads as reads;
ghost use Rattle.acn_json.specs.Reads.{LineFault};

use crate::json_fault::JsonFault;
use crate::members::{first_missing, first_unknown, member, only_member};
use crate::strings::{bits_from, characters_from, is_same, number_from, octets_from};
use crate::trouble::Trouble;
use acn_grammar::{Alternative, Body, Field, Node, Value};
use acn_num::{Boxed, Path, Row};
use acn_tree::Tree;
use serde_json::{Map, Value as Json};
use std::alloc::Global;

/// The greatest length of a line that is read: its members and elements are numbered by 32 bits.
pub const MOST_JSON_BYTES: usize = 4_294_967_295;

fn list_of(elements: Result<Row<Value>, Trouble>) -> Result<Value, Trouble>
    ensures kept { is_ok result ≡ is_ok elements }
    ensures gives { (path : List ℕ) (r : Result Elements LineFault) → Answers elements_view path elements r → Answers data_of path result (reads.made value.list_of r) }
{
    match elements {
        Ok(elements) => Ok(Value::List(elements)),
        Err(trouble) => Err(trouble),
    }
}

fn record_of(places: Result<Row<Option<Value>>, Trouble>) -> Result<Value, Trouble>
    ensures kept { is_ok result ≡ is_ok places }
    ensures gives { (path : List ℕ) (r : Result Places LineFault) → Answers places_view path places r → Answers data_of path result (reads.made value.record_of r) }
{
    match places {
        Ok(places) => Ok(Value::Seq(places)),
        Err(trouble) => Err(trouble),
    }
}

#[cycle(read)]
fn node_from(alloc: Global, node: &Node, json: &Json, path: &mut Path) -> Result<Value, Trouble>
    requires can { CanRead (length path.old) (grammar_of node.now) }
    requires few { size (view json.now) < 2 ^ 32 }
    ensures answer { Answers data_of path.new result (reads.value_from path.old (grammar_of node.now) (view json.now)) }
    ensures back { OnOk result (path.new ≡ path.old) }
{
    match &node.body {
        Body::Num(leaf) => number_from(leaf, json),
        Body::Octets(_) => octets_from(alloc, json),
        Body::Bits(_) => bits_from(alloc, json),
        Body::Text(_) => characters_from(alloc, json),
        Body::Seq(seq) => match json.as_object() {
            Some(members) => record_from(alloc, seq.fields.items(), members, path),
            None => Err(Trouble::Shape),
        },
        Body::List(_, element) => match json.as_array() {
            Some(items) => list_of(elements_from(alloc, element.get(), items.as_slice(), path)),
            None => Err(Trouble::Shape),
        },
        Body::Choice(choice) => match only_member(json) {
            Some((name, inside)) => alternative_from(
                alloc,
                choice.alternatives.items(),
                name.as_bytes(),
                inside,
                path,
            ),
            None => Err(Trouble::Shape),
        },
        Body::Contained(_, content) => inside_from(alloc, content.get(), 0, json, path),
    }
}

// One step inside.
#[cycle(read)]
fn inside_from(
    alloc: Global,
    node: &Node,
    step: u32,
    json: &Json,
    path: &mut Path,
) -> Result<Value, Trouble>
    requires can { CanRead (length path.old + 1) (grammar_of node.now) }
    requires few { size (view json.now) < 2 ^ 32 }
    ensures answer { Answers data_of path.new result (reads.value_from (path.old ++ step ∷ []) (grammar_of node.now) (view json.now)) }
    ensures back { OnOk result (path.new ≡ path.old) }
{
    path.push(step);
    let value = node_from(alloc, node, json, path)?;
    path.pop();
    Ok(value)
}

#[cycle(read)]
fn record_from(
    alloc: Global,
    fields: &[Field],
    members: &Map<String, Json>,
    path: &mut Path,
) -> Result<Value, Trouble>
    requires fields { length fields.now < 2 ^ 32 }
    requires can { FieldsCanRead (length path.old + 1) (fields_view fields.now) }
    requires few { members_size (members_view members.now.entries) < 2 ^ 32 }
    ensures answer { Answers data_of path.new result (reads.record_from path.old (fields_view fields.now) (members_view members.now.entries) (reads.places_from path.old 0 (fields_view fields.now) (members_view members.now.entries))) }
    ensures back { OnOk result (path.new ≡ path.old) }
{
    let unknown = first_unknown(alloc, fields, members)?;
    match unknown {
        Some(at) => Err(Trouble::Unknown(at)),
        None => match first_missing(members, fields) {
            Some(step) => {
                path.push(step);
                Err(Trouble::Missing)
            }
            None => record_of(places_from(alloc, fields, members, path)),
        },
    }
}

#[cycle(read)]
fn places_from(
    alloc: Global,
    fields: &[Field],
    members: &Map<String, Json>,
    path: &mut Path,
) -> Result<Row<Option<Value>>, Trouble>
    requires fields { length fields.now < 2 ^ 32 }
    requires can { FieldsCanRead (length path.old + 1) (fields_view fields.now) }
    requires few { members_size (members_view members.now.entries) < 2 ^ 32 }
    ensures answer { Answers places_view path.new result (reads.places_from path.old 0 (fields_view fields.now) (members_view members.now.entries)) }
    ensures back { OnOk result (path.new ≡ path.old) }
{
    let mut places = Row::new(alloc);
    let mut step = 0u32;
    for field in fields {
        match field {
            Field::Component { name, node, .. } => {
                places.push(place_from(alloc, node, step, member(members, name.bytes()), path)?)?;
            }
            Field::Inserted { .. } => {}
        }
        step += 1;
    }
    Ok(places)
}

// The place of a component.
#[cycle(read)]
fn place_from(
    alloc: Global,
    node: &Node,
    step: u32,
    json: Option<&Json>,
    path: &mut Path,
) -> Result<Option<Value>, Trouble>
    requires can { CanRead (length path.old + 1) (grammar_of node.now) }
    requires few { IfSome json (λ j. size (view j.now) < 2 ^ 32) }
    ensures answer { Answers (option_map data_of) path.new result (reads.component_from (reads.value_from (path.old ++ step ∷ []) (grammar_of node.now)) (option_map (λ j. view j.now) json.entry)) }
    ensures back { OnOk result (path.new ≡ path.old) }
{
    match json {
        Some(json) => Ok(Some(inside_from(alloc, node, step, json, path)?)),
        None => Ok(None),
    }
}

#[cycle(read)]
fn elements_from(
    alloc: Global,
    element: &Node,
    items: &[Json],
    path: &mut Path,
) -> Result<Row<Value>, Trouble>
    requires can { CanRead (length path.old + 1) (grammar_of element.now) }
    requires few { items_size (items_view items.now) < 2 ^ 32 }
    ensures answer { Answers elements_view path.new result (reads.each_from (λ k j. reads.value_from (path.old ++ k ∷ []) (grammar_of element.now) j) 0 (items_view items.now)) }
    ensures back { OnOk result (path.new ≡ path.old) }
{
    let mut elements = Row::new(alloc);
    let mut step = 0u32;
    for item in items {
        elements.push(inside_from(alloc, element, step, item, path)?)?;
        step += 1;
    }
    Ok(elements)
}

#[cycle(read)]
fn alternative_from(
    alloc: Global,
    alternatives: &[Alternative],
    name: &[u8],
    json: &Json,
    path: &mut Path,
) -> Result<Value, Trouble>
    requires alternatives { length alternatives.now < 2 ^ 32 }
    requires can { AlternativesCanRead (length path.old + 1) (alternatives_view alternatives.now) }
    requires few { size (view json.now) < 2 ^ 32 }
    ensures answer { Answers data_of path.new result (reads.alternative_from path.old 0 (alternatives_view alternatives.now) name.now (view json.now)) }
    ensures back { OnOk result (path.new ≡ path.old) }
{
    let mut step = 0u32;
    for alternative in alternatives {
        if is_same(alternative.name.bytes(), name) {
            let inside = inside_from(alloc, &alternative.node, step, json, path)?;
            return Ok(Value::Alt(step, Boxed::new(alloc, inside)?));
        }
        step += 1;
    }
    Err(Trouble::Shape)
}

fn fault_at(trouble: Trouble, path: Path) -> JsonFault
    ensures { (r : Result Data LineFault) → Answers data_of path (Err trouble) r → IsFault result r }
{
    match trouble {
        Trouble::Shape => JsonFault::Shape { path },
        Trouble::Unknown(member) => JsonFault::UnknownMember { path, member },
        Trouble::Missing => JsonFault::MissingMember { path },
        Trouble::NoMemory => JsonFault::NoMemory,
    }
}

// The value of the JSON of a line.
fn value_from(alloc: Global, tree: &Tree, json: &Json) -> Result<Value, JsonFault>
    requires few { size (view json.now) < 2 ^ 32 }
    ensures { Gives data_of result (reads.value_from [] (grammar_of tree.now.root) (view json.now)) }
{
    let mut path = Path::new();
    match node_from(alloc, tree.root(), json, &mut path) {
        Ok(value) => Ok(value),
        Err(trouble) => Err(fault_at(trouble, path)),
    }
}

/// The value that a line of JSON gives to the tree, where the line is JSON as `serde_json` reads it; else the first
/// fault: the line isn't JSON, or in preorder the JSON at a path has another form, or an object has a member that is no
/// component, or it lacks one that has to be there. (This profile's own.)
pub fn from_line(alloc: Global, tree: &Tree, line: &[u8]) -> Result<Value, JsonFault>
    requires { length line.now ≤ MOST_JSON_BYTES }
    ensures gives { Gives data_of result (reads.line_gives (grammar_of tree.now.root) line.now) }
    ensures shaped { IfOk result (λ v. IsTrue (fits (grammar_of tree.now.root) (data_of v))) }
{
    match Json::from_slice(alloc, line) {
        Ok(json) => value_from(alloc, tree, &json),
        Err(error) => {
            if error.is_memory() {
                Err(JsonFault::NoMemory)
            } else {
                Err(JsonFault::NotJson)
            }
        }
    }
}
