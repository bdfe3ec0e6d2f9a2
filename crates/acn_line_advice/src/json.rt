//! Lines that give no value.

use crate::found::{found_at, put_found};
use crate::wanted::put_wanted;
use acn_advice::{nearest, put_line_and_mark, put_names, put_shown};
use acn_json::JsonFault;
use acn_num::Path;
use acn_outside::{Failed, Sink};
use acn_permits::{child_names, node_on};
use acn_print::{Piece, put_all, put_piece};
use acn_tree::{Node, Tree};
use serde_json::Value as Json;
use std::alloc::Global;

// The most bytes of a name that are shown.
const MOST_NAME: usize = 64;

// The name of a member of a number, from 0.
fn member_name(json: &Json, number: u32) -> Option<&str> {
    let members = json.as_object()?;
    for (at, (name, _)) in members.iter().enumerate() {
        if at == number as usize {
            return Some(name.as_str());
        }
    }
    None
}

// Prints which name is near to one that a node doesn't have, and the names that it has.
fn put_near<O: Sink>(alloc: Global, node: &Node, name: &[u8], out: &mut O) -> Result<(), Failed> {
    let Ok(names) = child_names(alloc, node) else {
        return Ok(());
    };
    if let Some(near) = nearest(name, &names) {
        put_piece(out, &Piece::Text("  the nearest name is '"))?;
        put_shown(near, MOST_NAME, out)?;
        put_piece(out, &Piece::Text("'\n"))?;
    }
    put_piece(out, &Piece::Text("  components: "))?;
    put_names(&names, out)?;
    put_piece(out, &Piece::Text("\n"))
}

// Prints what helps where an object has a member that is no component.
fn put_unknown<O: Sink>(
    alloc: Global,
    node: &Node,
    json: &Json,
    number: u32,
    out: &mut O,
) -> Result<(), Failed> {
    let Some(name) = member_name(json, number) else {
        return Ok(());
    };
    put_piece(out, &Piece::Text("  '"))?;
    put_shown(name.as_bytes(), MOST_NAME, out)?;
    put_piece(out, &Piece::Text("' is no component\n"))?;
    put_near(alloc, node, name.as_bytes(), out)
}

// Prints what helps where JSON has another form.
fn put_shape<O: Sink>(alloc: Global, node: &Node, json: &Json, out: &mut O) -> Result<(), Failed> {
    put_piece(out, &Piece::Text("  wanted: "))?;
    put_wanted(alloc, node, out)?;
    put_piece(out, &Piece::Text("\n  found: "))?;
    put_found(json, out)?;
    put_piece(out, &Piece::Text("\n"))
}

// Prints what helps where a member is missing: that the component of this path can't be left out.
fn put_missing<O: Sink>(
    alloc: Global,
    tree: &Tree,
    path: &Path,
    out: &mut O,
) -> Result<(), Failed> {
    put_piece(
        out,
        &Piece::Text("  it is neither OPTIONAL nor has it a DEFAULT; wanted: "),
    )?;
    if let Some(node) = node_on(tree, path) {
        put_wanted(alloc, node, out)?;
    }
    put_piece(out, &Piece::Text("\n"))
}

// Prints where a line isn't JSON.
fn put_not_json<O: Sink>(alloc: Global, line: &[u8], out: &mut O) -> Result<(), Failed> {
    match Json::from_slice(alloc, line) {
        Ok(_) => Ok(()),
        Err(error) => {
            let at = error.column().saturating_sub(1).min(line.len());
            put_all(
                out,
                &[
                    Piece::Text("  column "),
                    Piece::Count((at as u64).saturating_add(1)),
                    Piece::Text(": this can't stand here\n"),
                ],
            )?;
            put_line_and_mark(line, at, out)
        }
    }
}

/// Prints what helps on a line that gives no value: at most four lines.
pub fn put_bad_line<O: Sink>(
    alloc: Global,
    tree: &Tree,
    line: &[u8],
    fault: &JsonFault,
    out: &mut O,
) -> Result<(), Failed> {
    let Ok(json) = Json::from_slice(alloc, line) else {
        return put_not_json(alloc, line, out);
    };
    match fault {
        JsonFault::Shape { path } => match found_at(tree, &json, path) {
            Some((node, found)) => put_shape(alloc, node, found, out),
            None => Ok(()),
        },
        JsonFault::UnknownMember { path, member } => match found_at(tree, &json, path) {
            Some((node, found)) => put_unknown(alloc, node, found, *member, out),
            None => Ok(()),
        },
        JsonFault::MissingMember { path } => put_missing(alloc, tree, path, out),
        JsonFault::NotJson => Ok(()),
        JsonFault::NoMemory => Ok(()),
    }
}
