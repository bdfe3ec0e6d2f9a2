//! How a case is run.

use acn_case_lines::{has, word};

/// What stands behind the input.
#[derive(Clone, Copy)]
pub struct Setting {
    /// The most bytes that a read gives.
    pub piece: Option<usize>,
    /// The most bytes that a write takes.
    pub room: Option<usize>,
    /// The read of a file that fails.
    pub file: Option<u64>,
    /// The read of the input that fails.
    pub input: Option<u64>,
    /// The write to the output that fails.
    pub output: Option<u64>,
    /// The write to the output for errors that fails.
    pub errors: Option<u64>,
    /// How many seconds later it is each time that the clock is looked at.
    pub seconds: Option<u64>,
    /// The octets of `encode` are written in groups of so many.
    pub group: Option<usize>,
    /// Whether the input comes in pieces of every size.
    pub each: bool,
    /// Whether the output is long.
    pub long: bool,
}

fn number(words: &[&str], name: &str) -> Option<u64> {
    match words.iter().position(|it| *it == name) {
        Some(at) => word(words, at.saturating_add(1)).parse::<u64>().ok(),
        None => None,
    }
}

fn size(words: &[&str], name: &str) -> Option<usize> {
    match number(words, name) {
        Some(n) => Some(n.min(1_000_000).max(1) as usize),
        None => None,
    }
}

/// The setting of these words.
pub fn setting_of(words: &[&str]) -> Setting {
    Setting {
        piece: size(words, "piece"),
        room: size(words, "room"),
        file: number(words, "file"),
        input: number(words, "input"),
        output: number(words, "output"),
        errors: number(words, "errors"),
        seconds: number(words, "seconds"),
        group: size(words, "group"),
        each: has(words, "each"),
        long: has(words, "long"),
    }
}

impl Setting {
    /// The same, where a read gives and a write takes so many bytes at most.
    pub fn in_pieces(&self, piece: usize, room: usize) -> Setting {
        let mut setting = *self;
        setting.piece = Some(piece);
        setting.room = Some(room);
        setting
    }

    /// Whether the answer is told by this setting alone.
    pub fn is_single(&self) -> bool {
        let in_pieces = self.piece.is_some() || self.room.is_some() || self.seconds.is_some();
        let inside = self.file.is_some() || self.input.is_some();
        in_pieces || inside || self.output.is_some() || self.errors.is_some()
    }
}
