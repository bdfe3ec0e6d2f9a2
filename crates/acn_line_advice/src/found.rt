//! What a line of JSON has at a path.

use acn_advice::put_shown;
use acn_num::Path;
use acn_outside::{Failed, Sink};
use acn_print::{Piece, put_all, put_piece};
use acn_tree::{Body, Field, Node, Tree};
use serde_json::{Map, Number, Value as Json};

// The most bytes of a text that are shown.
const MOST_TEXT: usize = 40;

// The member of a name.
fn member<'m>(members: &'m Map<String, Json>, name: &[u8]) -> Option<&'m Json> {
    for (key, json) in members.iter() {
        if key.as_bytes() == name {
            return Some(json);
        }
    }
    None
}

// The member of a field.
fn of_field<'a>(field: &'a Field, json: &'a Json) -> Option<(&'a Node, &'a Json)> {
    match field {
        Field::Component { name, node, .. } => {
            let inside = member(json.as_object()?, name.bytes())?;
            Some((node, inside))
        }
        Field::Inserted { .. } => None,
    }
}

// The node and the JSON to which a step leads.
fn step_to<'a>(node: &'a Node, json: &'a Json, step: u32) -> Option<(&'a Node, &'a Json)> {
    match &node.body {
        Body::Seq(seq) => of_field(seq.fields.items().get(step as usize)?, json),
        Body::List(_, element) => {
            let inside = json.as_array()?.get(step as usize)?;
            Some((element.get(), inside))
        }
        Body::Choice(choice) => {
            let alternative = choice.alternatives.items().get(step as usize)?;
            let inside = member(json.as_object()?, alternative.name.bytes())?;
            Some((&alternative.node, inside))
        }
        Body::Contained(_, content) => Some((content.get(), json)),
        _ => None,
    }
}

/// The node at a path, and what the JSON of a line has there.
pub fn found_at<'a>(tree: &'a Tree, json: &'a Json, path: &Path) -> Option<(&'a Node, &'a Json)> {
    let mut node = tree.root();
    let mut found = json;
    for step in path.steps() {
        match step_to(node, found, *step) {
            Some((next, inside)) => {
                node = next;
                found = inside;
            }
            None => return None,
        }
    }
    Some((node, found))
}

fn put_number<O: Sink>(number: &Number, out: &mut O) -> Result<(), Failed> {
    if let Some(whole) = number.as_i128() {
        return put_all(out, &[Piece::Text("the number "), Piece::Number(whole)]);
    }
    put_piece(
        out,
        &Piece::Text("a number that isn't whole, or has more than 64 bits"),
    )
}

fn put_quoted<O: Sink>(text: &str, out: &mut O) -> Result<(), Failed> {
    put_piece(out, &Piece::Text("the text \""))?;
    put_shown(text.as_bytes(), MOST_TEXT, out)?;
    put_piece(out, &Piece::Text("\""))
}

fn put_members<O: Sink>(members: &Map<String, Json>, out: &mut O) -> Result<(), Failed> {
    if members.len() == 1 {
        if let Some((name, _)) = members.first_key_value() {
            put_piece(out, &Piece::Text("an object with the member \""))?;
            put_shown(name.as_bytes(), MOST_TEXT, out)?;
            return put_piece(out, &Piece::Text("\""));
        }
    }
    put_all(
        out,
        &[
            Piece::Text("an object with "),
            Piece::Count(members.len() as u64),
            Piece::Text(" members"),
        ],
    )
}

/// Prints what a JSON value is.
pub fn put_found<O: Sink>(json: &Json, out: &mut O) -> Result<(), Failed> {
    match json {
        Json::Null => put_piece(out, &Piece::Text("null")),
        Json::Bool(true) => put_piece(out, &Piece::Text("true")),
        Json::Bool(false) => put_piece(out, &Piece::Text("false")),
        Json::Number(number) => put_number(number, out),
        Json::String(text) => put_quoted(text.as_str(), out),
        Json::Array(items) => put_all(
            out,
            &[
                Piece::Text("an array of "),
                Piece::Count(items.len() as u64),
            ],
        ),
        Json::Object(members) => put_members(members, out),
    }
}
