//! Lines on what a node permits.

use crate::names::put_item_names;
use crate::sets::{put_character_ranges, put_ranges};
use acn_num::RangeSet;
use acn_outside::{Failed, Sink};
use acn_print::{Piece, put_all, put_piece};
use acn_tree::{Body, Node, NumCoding, NumLeaf, Pattern};

// Prints that a table is applied to the numbers before they are written.
fn put_table<O: Sink>(leaf: &NumLeaf, out: &mut O) -> Result<(), Failed> {
    match &leaf.table {
        Some(table) => put_all(
            out,
            &[
                Piece::Text(", before the table '"),
                Piece::Name(table.name.bytes()),
                Piece::Text("'"),
            ],
        ),
        None => Ok(()),
    }
}

fn put_leaf<O: Sink>(leaf: &NumLeaf, out: &mut O) -> Result<(), Failed> {
    put_piece(out, &Piece::Text("  permitted: "))?;
    if leaf.items.items.items().is_empty() {
        put_ranges(&leaf.set, out)?;
        put_table(leaf, out)?;
    } else {
        put_item_names(&leaf.items, out)?;
    }
    put_piece(out, &Piece::Text("\n"))
}

/// Prints the line of the numbers that a node permits, if it is a number.
pub fn put_numbers<O: Sink>(node: &Node, out: &mut O) -> Result<(), Failed> {
    match &node.body {
        Body::Num(leaf) => put_leaf(leaf, out),
        _ => Ok(()),
    }
}

// The sizes of a node, and what they count.
fn sizes_of(body: &Body) -> Option<(&RangeSet, &'static str)> {
    match body {
        Body::Octets(sizing) => Some((&sizing.sizes, " octets\n")),
        Body::Contained(sizing, _) => Some((&sizing.sizes, " octets\n")),
        Body::Bits(sizing) => Some((&sizing.sizes, " bits\n")),
        Body::List(sizing, _) => Some((&sizing.sizes, " elements\n")),
        Body::Text(leaf) => Some((&leaf.sized.sizes, " characters\n")),
        Body::Num(_) => None,
        Body::Seq(_) => None,
        Body::Choice(_) => None,
    }
}

/// Prints the line of the sizes that a node permits, if it has sizes.
pub fn put_sizes<O: Sink>(node: &Node, out: &mut O) -> Result<(), Failed> {
    match sizes_of(&node.body) {
        Some((sizes, unit)) => {
            put_piece(out, &Piece::Text("  permitted: "))?;
            put_ranges(sizes, out)?;
            put_piece(out, &Piece::Text(unit))
        }
        None => Ok(()),
    }
}

/// Prints the line of the characters that a node permits, if it is a text.
pub fn put_characters<O: Sink>(node: &Node, out: &mut O) -> Result<(), Failed> {
    match &node.body {
        Body::Text(leaf) => {
            put_piece(out, &Piece::Text("  permitted: the characters "))?;
            put_character_ranges(&leaf.alphabet, out)?;
            put_piece(out, &Piece::Text("\n"))
        }
        _ => Ok(()),
    }
}

fn put_bits<O: Sink>(pattern: &Pattern, out: &mut O) -> Result<(), Failed> {
    put_piece(out, &Piece::Text("'"))?;
    for bit in pattern.bits() {
        put_piece(out, &Piece::Text(if *bit { "1" } else { "0" }))?;
    }
    put_piece(out, &Piece::Text("'B"))
}

// Prints the patterns of true and false, where both have one.
fn put_flags<O: Sink>(
    yes: &Option<Pattern>,
    no: &Option<Pattern>,
    out: &mut O,
) -> Result<(), Failed> {
    if let Some(yes) = yes {
        put_bits(yes, out)?;
        put_piece(out, &Piece::Text(" for true"))?;
    }
    if let Some(no) = no {
        put_piece(out, &Piece::Text(", "))?;
        put_bits(no, out)?;
        put_piece(out, &Piece::Text(" for false"))?;
    }
    put_piece(out, &Piece::Text("\n"))
}

/// Prints the line of the bits that a node permits, if it has a pattern.
pub fn put_pattern<O: Sink>(node: &Node, out: &mut O) -> Result<(), Failed> {
    let Body::Num(leaf) = &node.body else {
        return Ok(());
    };
    match &leaf.coding {
        NumCoding::Fixed(pattern) => {
            put_piece(out, &Piece::Text("  permitted: "))?;
            put_bits(pattern, out)?;
            put_piece(out, &Piece::Text("\n"))
        }
        NumCoding::Flag { yes, no } => {
            put_piece(out, &Piece::Text("  permitted: "))?;
            put_flags(yes, no, out)
        }
        _ => Ok(()),
    }
}
