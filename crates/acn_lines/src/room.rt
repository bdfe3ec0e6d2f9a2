//! What reading lines takes beside the lines.

use crate::spare::Spare;
use acn_grammar::Value;
use json::Scratch;
use std::alloc::Global;

/// Room for the tokens of a line, and for its value. One is kept from line to line: making it costs more than reading a short line.
#[derive(Drop)]
pub struct Room {
    pub(crate) scratch: Scratch,
    pub(crate) spare: Spare,
}

impl Room {
    /// Room for lines. It takes no memory yet; it grows to the longest line.
    pub fn new(alloc: Global) -> Room {
        Room {
            scratch: Scratch::new(alloc),
            spare: Spare::new(alloc),
        }
    }

    /// Takes the memory of a value that isn't needed any more, for values of later lines.
    pub fn keep(&mut self, value: Value) {
        self.spare.keep_whole(value);
    }
}
