//! An input that keeps what it gives.

ghost use Rattle.std.specs.Prelude.{◌≡◌};

use acn_outside::{Failed, Source};
use std::alloc::Global;

/// The most bytes that are kept of an input: 64 MiB.
const MOST_KEPT: usize = 67_108_864;

/// An input that hands on what it is given, and keeps it, where that is wanted and memory is there:
/// the packets and lines of a run.
#[derive(Drop)]
pub struct Recalled<S: Source + Drop> {
    from: S,
    kept: Vec<u8>,
    whole: bool,
}

impl<S: Source + Drop> Recalled<S> {
    /// An input that hands on what `from` gives, and keeps that where it is wanted.
    pub fn new(alloc: Global, from: S, wanted: bool) -> Recalled<S>
        ensures { result.from ≡ from }
    {
        Recalled {
            from,
            kept: Vec::new(alloc),
            whole: wanted,
        }
    }

    /// All bytes that it gave. None comes where they aren't kept.
    pub fn kept(&self) -> Option<&[u8]> {
        if self.whole { Some(&self.kept) } else { None }
    }

    // Keeps more bytes, or lets all of them go.
    fn keep(&mut self, bytes: &[u8])
        ensures { self.new.from ≡ self.old.from }
    {
        let fits = bytes.len() <= MOST_KEPT.saturating_sub(self.kept.len());
        if !self.whole || !fits || self.kept.extend_from_slice(bytes).is_err() {
            self.whole = false;
            self.kept.clear();
        }
    }
}

impl<S: Source + Drop> Source for Recalled<S> {
    ghost rest = { λ s. S.rest s.from };

    ghost faults = { λ s. S.faults s.from };

    fn read(&mut self, into: &mut [u8]) -> Result<usize, Failed> {
        let n = self.from.read(into)?;
        self.keep(&into[..n]);
        Ok(n)
    }
}
