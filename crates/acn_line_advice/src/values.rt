//! Values that are refused.

use acn_num::Path;
use acn_outside::{Failed, Sink};
use acn_permits::{node_on, put_characters, put_numbers, put_sizes};
use acn_print::{Piece, put_all, put_piece};
use acn_report::put_path;
use acn_tree::{Ask, Node, Tree, Unfit, UnfitReason};

// Prints what a number has to be.
fn put_demand<O: Sink>(ask: &Ask, out: &mut O) -> Result<(), Failed> {
    match ask {
        Ask::Equal(number) => put_all(out, &[Piece::Text("has to be "), Piece::Number(*number)]),
        Ask::Avoid(number) => put_all(out, &[Piece::Text("can't be "), Piece::Number(*number)]),
    }
}

// Prints the two demands that contradict each other, or the one that can't be met.
fn put_conflict<O: Sink>(
    tree: &Tree,
    slot: &Path,
    earlier: &Option<Ask>,
    wanted: &Ask,
    out: &mut O,
) -> Result<(), Failed> {
    put_piece(out, &Piece::Text("  by this part of the value "))?;
    put_path(tree, slot, out)?;
    put_piece(out, &Piece::Text(" "))?;
    put_demand(wanted, out)?;
    if let Some(earlier) = earlier {
        put_piece(out, &Piece::Text(", and by an earlier part it "))?;
        put_demand(earlier, out)?;
    }
    put_piece(out, &Piece::Text("\n"))?;
    match node_on(tree, slot) {
        Some(node) => put_numbers(node, out),
        None => Ok(()),
    }
}

// Prints how many octets a content takes, and which sizes are permitted.
fn put_content_size<O: Sink>(node: &Node, octets: u64, out: &mut O) -> Result<(), Failed> {
    put_all(
        out,
        &[
            Piece::Text("  octets that the content takes: "),
            Piece::Count(octets),
            Piece::Text("\n"),
        ],
    )?;
    put_sizes(node, out)
}

/// Prints what helps on a value that is refused: at most two lines.
pub fn put_unfit<O: Sink>(tree: &Tree, fault: &Unfit, out: &mut O) -> Result<(), Failed> {
    let Some(node) = node_on(tree, &fault.path) else {
        return Ok(());
    };
    match &fault.reason {
        UnfitReason::OutOfRange { .. } => put_numbers(node, out),
        UnfitReason::SizeOutOfRange { .. } => put_sizes(node, out),
        UnfitReason::BadCharacter { .. } => put_characters(node, out),
        UnfitReason::TerminatorInside { .. } => put_piece(
            out,
            &Piece::Text("  the terminator of the text may stand at its end alone\n"),
        ),
        UnfitReason::Conflict {
            slot,
            earlier,
            wanted,
        } => put_conflict(tree, slot, earlier, wanted, out),
        UnfitReason::ContentSize { octets } => put_content_size(node, *octets, out),
    }
}
