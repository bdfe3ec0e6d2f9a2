//! The names of items, components and alternatives.

use acn_advice::put_shown;
use acn_num::NoMemory;
use acn_outside::{Failed, Sink};
use acn_print::{Piece, put_all, put_piece};
use acn_tree::{Alternative, Body, Field, Items, Node};
use std::alloc::Global;

// The most items of an enumeration that are shown, and the most bytes of a name.
const MOST_ITEMS: usize = 12;

const MOST_NAME: usize = 64;

fn component_names<'t>(alloc: Global, fields: &'t [Field]) -> Result<Vec<&'t [u8]>, NoMemory> {
    let mut names = Vec::new(alloc);
    for field in fields {
        match field {
            Field::Component { name, .. } => names.push(name.bytes())?,
            Field::Inserted { .. } => {}
        }
    }
    Ok(names)
}

fn alternative_names<'t>(
    alloc: Global,
    alternatives: &'t [Alternative],
) -> Result<Vec<&'t [u8]>, NoMemory> {
    let mut names = Vec::new(alloc);
    for alternative in alternatives {
        names.push(alternative.name.bytes())?;
    }
    Ok(names)
}

fn item_names<'t>(alloc: Global, items: &'t Items) -> Result<Vec<&'t [u8]>, NoMemory> {
    let mut names = Vec::new(alloc);
    for item in items.items.items() {
        names.push(item.0.bytes())?;
    }
    Ok(names)
}

/// The names that a value of a node may have: those of components, alternatives or items. It fails
/// only where memory runs out.
pub fn child_names<'t>(alloc: Global, node: &'t Node) -> Result<Vec<&'t [u8]>, NoMemory> {
    match &node.body {
        Body::Seq(seq) => component_names(alloc, seq.fields.items()),
        Body::Choice(choice) => alternative_names(alloc, choice.alternatives.items()),
        Body::Num(leaf) => item_names(alloc, &leaf.items),
        _ => Ok(Vec::new(alloc)),
    }
}

/// Prints the items of an enumeration, each with the number that is written for it, as far as they
/// are few.
pub fn put_item_names<O: Sink>(items: &Items, out: &mut O) -> Result<(), Failed> {
    for (number, item) in items.items.items().iter().enumerate() {
        if number > 0 {
            put_piece(out, &Piece::Text(", "))?;
        }
        if number >= MOST_ITEMS {
            return put_piece(out, &Piece::Text(".."));
        }
        let written = if items.values { item.1 } else { number as i128 };
        put_shown(item.0.bytes(), MOST_NAME, out)?;
        put_all(
            out,
            &[Piece::Text(" ("), Piece::Number(written), Piece::Text(")")],
        )?;
    }
    Ok(())
}
