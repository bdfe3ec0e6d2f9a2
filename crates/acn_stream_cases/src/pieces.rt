//! The pieces of one packet, in words.

use crate::outcome::packet_fault;
use acn_case_trees::path_in_words;
use acn_check::Checked;
use acn_explain::{Piece, explain};
use acn_grammar::Refuse;
use acn_num::NoMemory;
use acn_reads::MOST_BYTES;
use acn_tree::items_named;
use std::alloc::Global;

fn in_words(alloc: Global, pieces: &[Piece]) -> Result<String, NoMemory> {
    let mut words = String::new(alloc);
    for piece in pieces {
        let path = path_in_words(alloc, &piece.path)?;
        let stop = if words.is_empty() { "" } else { " | " };
        write!(
            words,
            "{stop}{} {} {path} {}",
            piece.at,
            piece.count,
            piece.kind.word()
        )?;
    }
    Ok(words)
}

/// The pieces of the packet at the front of the bytes, or why there is none.
pub fn pieces_in_words(alloc: Global, checked: &Checked, bytes: &[u8]) -> Result<String, NoMemory> {
    if !items_named(checked.tree()) {
        return Err(NoMemory);
    }
    if bytes.len() > MOST_BYTES {
        return Ok("too many octets".to_string(alloc)?);
    }
    match explain(alloc, checked, bytes) {
        Ok(pieces) => in_words(alloc, &pieces),
        Err(Refuse::Bad(fault)) => packet_fault(alloc, &fault),
        Err(Refuse::NoMemory) => Err(NoMemory),
    }
}
