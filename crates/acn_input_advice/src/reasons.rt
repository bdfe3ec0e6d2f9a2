//! Why a packet can't be read, in words.

use acn_outside::{Failed, Sink};
use acn_permits::{put_characters, put_numbers, put_pattern, put_sizes};
use acn_print::{Piece, put_all};
use acn_tree::{Node, Reason};

// Prints that the recording ends too early.
fn put_short<O: Sink>(octets: usize, out: &mut O) -> Result<(), Failed> {
    put_all(
        out,
        &[
            Piece::Text("  the recording ends before octet "),
            Piece::Count(octets as u64),
            Piece::Text("\n"),
        ],
    )
}

// Prints how much a content uses of its octets.
fn put_content<O: Sink>(octets: u64, used: u64, out: &mut O) -> Result<(), Failed> {
    put_all(
        out,
        &[
            Piece::Text("  bits that the content takes: "),
            Piece::Count(used),
            Piece::Text("; octets that there are: "),
            Piece::Count(octets),
            Piece::Text(", bits: "),
            Piece::Count(octets.saturating_mul(8)),
            Piece::Text("\n"),
        ],
    )
}

/// Prints what is permitted at a node, or what else helps, where a recording of so many octets
/// fails for this reason: at most one line.
pub fn put_reason<O: Sink>(
    node: &Node,
    reason: Reason,
    octets: usize,
    out: &mut O,
) -> Result<(), Failed> {
    match reason {
        Reason::Short => put_short(octets, out),
        Reason::OutOfRange { .. } => put_numbers(node, out),
        Reason::SizeOutOfRange { .. } => put_sizes(node, out),
        Reason::BadCharacter => put_characters(node, out),
        Reason::BadPattern => put_pattern(node, out),
        Reason::ContentSize { octets, used } => put_content(octets, used, out),
        Reason::NotMinimal => Ok(()),
        Reason::BadDigit => Ok(()),
        Reason::TooLong => Ok(()),
        Reason::NoAlternative => Ok(()),
        Reason::PastContent => Ok(()),
    }
}
