//! What the JSON of a node has to be.

use acn_advice::put_names;
use acn_outside::{Failed, Sink};
use acn_permits::child_names;
use acn_print::{Piece, put_piece};
use acn_tree::{Body, Node, NumKind};
use std::alloc::Global;

// The form of a number.
fn number_form(kind: NumKind) -> &'static str {
    match kind {
        NumKind::Integer => "a whole number, not in quotes",
        NumKind::Boolean => "true or false",
        NumKind::Enumerated => "in quotes, one of ",
        NumKind::Null => "null",
    }
}

// The form of a node.
fn form(node: &Node) -> &'static str {
    match &node.body {
        Body::Num(leaf) => number_form(leaf.kind),
        Body::Octets(_) => "in quotes, two hexadecimal digits an octet",
        Body::Bits(_) => "in quotes, a 0 or a 1 for each bit",
        Body::Text(_) => "in quotes, characters of ASCII",
        Body::Seq(_) => "an object with a member for each component",
        Body::List(_, _) => "an array",
        Body::Choice(_) => "an object with one member, whose name is one of ",
        Body::Contained(_, _) => "what the contained type has",
    }
}

// Whether names stand behind the form.
fn has_names(node: &Node) -> bool {
    match &node.body {
        Body::Num(leaf) => leaf.kind == NumKind::Enumerated,
        Body::Choice(_) => true,
        _ => false,
    }
}

/// Prints what the JSON of a node has to be.
pub fn put_wanted<O: Sink>(alloc: Global, node: &Node, out: &mut O) -> Result<(), Failed> {
    put_piece(out, &Piece::Text(form(node)))?;
    if !has_names(node) {
        return Ok(());
    }
    match child_names(alloc, node) {
        Ok(names) => put_names(&names, out),
        Err(_) => Ok(()),
    }
}
