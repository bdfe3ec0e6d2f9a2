//! An output that is a buffer.

ghost use Rattle.std.specs.Prelude.{◌≡◌, Some};

use acn_outside::{Failed, Sink};

/// An output that keeps all that it takes. A write fails where memory runs out.
#[derive(Drop)]
pub struct Buffer {
    text: Vec<u8>,
    faults: u64,
}

impl Buffer {
    /// An output that took this text.
    pub fn behind(text: Vec<u8>) -> Buffer
        ensures { result.text ≡ text }
    {
        Buffer { text, faults: 0 }
    }

    /// What it took.
    pub fn into_text(self) -> Vec<u8>
        ensures { result ≡ self.text }
    {
        let Buffer { text, .. } = self;
        text
    }
}

impl Sink for Buffer {
    ghost taken = { λ s. Some s.text.items };

    ghost faults = { λ s. s.faults };

    fn write(&mut self, from: &[u8]) -> Result<usize, Failed> {
        match self.text.extend_from_slice(from) {
            Ok(()) => Ok(from.len()),
            Err(_) => {
                self.faults = self.faults.saturating_add(1);
                Err(Failed)
            }
        }
    }
}
