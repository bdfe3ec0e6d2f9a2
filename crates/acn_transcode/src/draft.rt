//! What a line is put together with.

ghost use Rattle.std.specs.Prelude.{◌≡◌, []};

use std::alloc::Global;

/// Where the text of a component stands among those that wait: from one place up to another.
#[derive(Clone, Copy)]
pub struct Span {
    pub from: usize,
    pub to: usize,
}

/// What is kept of a component until its turn: that it is away, where its text stands, or its
/// number, whose text is put in its turn.
#[derive(Clone, Copy)]
pub enum Part {
    Away,
    Text(Span),
    Number(i128),
}

/// A line in the making: its text, texts that wait for their turn, what is kept of each component,
/// and the numbers of slots that were read. One is kept from packet to packet, so that its room
/// is.
#[derive(Drop)]
pub struct Draft {
    pub text: Vec<u8>,
    pub aside: Vec<u8>,
    pub parts: Vec<Part>,
    pub slots: Vec<(u32, i128)>,
}

impl Draft {
    /// An empty one. It takes no memory yet.
    pub fn new(alloc: Global) -> Draft {
        Draft {
            text: Vec::new(alloc),
            aside: Vec::new(alloc),
            parts: Vec::new(alloc),
            slots: Vec::new(alloc),
        }
    }

    /// Begins a new line.
    pub fn clear(&mut self)
        ensures text { self.new.text.items ≡ [] }
        ensures aside { self.new.aside.items ≡ [] }
        ensures parts { self.new.parts.items ≡ [] }
        ensures slots { self.new.slots.items ≡ [] }
    {
        self.text.clear();
        self.aside.clear();
        self.parts.clear();
        self.slots.clear();
    }
}
