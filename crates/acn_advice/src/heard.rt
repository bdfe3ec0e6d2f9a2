//! An output that keeps what it takes.

ghost use Rattle.std.specs.Prelude.{◌≡◌};

use acn_outside::{Failed, Sink};
use std::alloc::Global;

// The most bytes that are kept.
const MOST_KEPT: usize = 65_536;

/// An output that hands on what it takes, and keeps the first of it, as far as memory is there: of
/// a run the line on its refusal.
#[derive(Drop)]
pub struct Heard<O: Sink + Drop> {
    to: O,
    kept: Vec<u8>,
}

impl<O: Sink + Drop> Heard<O> {
    /// An output that hands on to `to`, and has kept nothing.
    pub fn new(alloc: Global, to: O) -> Heard<O>
        ensures { result.to ≡ to }
    {
        Heard {
            to,
            kept: Vec::new(alloc),
        }
    }

    /// The output to which it handed on, and what was kept.
    pub fn into_parts(self) -> (O, Vec<u8>)
        ensures { result.0 ≡ self.to }
    {
        (self.to, self.kept)
    }
}

impl<O: Sink + Drop> Sink for Heard<O> {
    ghost taken = { λ s. O.taken s.to };

    ghost faults = { λ s. O.faults s.to };

    fn write(&mut self, from: &[u8]) -> Result<usize, Failed> {
        let n = self.to.write(from)?;
        if self.kept.len() < MOST_KEPT {
            let _ = self.kept.extend_from_slice(&from[..n]);
        }
        Ok(n)
    }
}
