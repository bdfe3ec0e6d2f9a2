//! Where a packet begins.

use crate::octets::put_round;
use crate::reasons::put_reason;
use acn_outside::{Failed, Sink};
use acn_permits::node_on;
use acn_plan::Plan;
use acn_print::{Piece, put_all};
use acn_reads::MOST_BYTES;
use acn_tree::{Fault, Tree};
use acn_unpack::skim;

// A packet that can't be read, and the octet of the recording at which it begins.
#[derive(Drop)]
struct BadPacket {
    begins: usize,
    fault: Fault,
}

// The first packet that can't be read, where packets stand one behind another from the front on.
fn first_bad(plan: &Plan, bytes: &[u8]) -> Option<BadPacket> {
    let mut begins = 0usize;
    for _ in 0..bytes.len() {
        let rest = bytes.get(begins..)?;
        if rest.len() > MOST_BYTES {
            return None;
        }
        match skim(plan, rest) {
            Ok(bits) => {
                begins = begins.saturating_add(bits.div_ceil(8) as usize);
            }
            Err(fault) => return Some(BadPacket { begins, fault }),
        }
        if begins >= bytes.len() {
            return None;
        }
    }
    None
}

// Prints where the packet begins, and where the bit stands at which its fault is.
fn put_places<O: Sink>(bad: &BadPacket, at: usize, out: &mut O) -> Result<(), Failed> {
    put_all(
        out,
        &[
            Piece::Text("  the packet begins at octet "),
            Piece::Count(bad.begins as u64),
            Piece::Text(" of the recording, and its bit "),
            Piece::Count(bad.fault.at),
            Piece::Text(" stands in octet "),
            Piece::Count(at as u64),
            Piece::Text("\n"),
        ],
    )
}

/// Prints what helps on a recording in which a packet of the tree can't be read: at most four
/// lines. The plan is that of the tree.
pub fn put_bad_packet<O: Sink>(
    tree: &Tree,
    plan: &Plan,
    bytes: &[u8],
    out: &mut O,
) -> Result<(), Failed> {
    let Some(bad) = first_bad(plan, bytes) else {
        return Ok(());
    };
    let at = bad.begins.saturating_add((bad.fault.at / 8) as usize);
    put_places(&bad, at, out)?;
    put_round(bytes, at, out)?;
    match node_on(tree, &bad.fault.path) {
        Some(node) => put_reason(node, bad.fault.reason, bytes.len(), out),
        None => Ok(()),
    }
}
