//! The devices of a run that is watched.

ghost use Rattle.std.specs.Prelude.{◌≡◌};

use crate::progress::Progress;
use acn_outside::{Failed, Sink, Source};
use std::time::Clock;

/// An input or an output that hands on what it is given, and tells how much that was.
#[derive(Drop)]
pub struct Watched<'a, D: Drop, R: Clock, P: Print> {
    device: D,
    progress: &'a Progress<'a, R, P>,
}

impl<'a, D: Drop, R: Clock, P: Print> Watched<'a, D, R, P> {
    /// The device, watched.
    pub fn new(device: D, progress: &'a Progress<'a, R, P>) -> Watched<'a, D, R, P>
        ensures { result.device ≡ device }
    {
        Watched { device, progress }
    }

    /// The device.
    pub fn into_device(self) -> D
        ensures { result ≡ self.entry.device }
    {
        self.device
    }
}

impl<'a, S: Source + Drop, R: Clock, P: Print> Source for Watched<'a, S, R, P> {
    ghost rest = { λ s. S.rest s.device };

    ghost faults = { λ s. S.faults s.device };

    fn read(&mut self, into: &mut [u8]) -> Result<usize, Failed> {
        let n = self.device.read(into)?;
        self.progress.read(&into[..n]);
        Ok(n)
    }
}

impl<'a, O: Sink + Drop, R: Clock, P: Print> Sink for Watched<'a, O, R, P> {
    ghost taken = { λ s. O.taken s.device };

    ghost faults = { λ s. O.faults s.device };

    fn write(&mut self, from: &[u8]) -> Result<usize, Failed> {
        let n = self.device.write(from)?;
        self.progress.wrote(&from[..n]);
        Ok(n)
    }
}

/// An output for errors that hands on what it takes, behind the line that is shown, which is taken
/// away first.
#[derive(Drop)]
pub struct Cleared<'a, O: Sink + Drop, R: Clock, P: Print> {
    to: O,
    progress: &'a Progress<'a, R, P>,
}

impl<'a, O: Sink + Drop, R: Clock, P: Print> Cleared<'a, O, R, P> {
    /// An output that hands on to `to`.
    pub fn new(to: O, progress: &'a Progress<'a, R, P>) -> Cleared<'a, O, R, P>
        ensures { result.to ≡ to }
    {
        Cleared { to, progress }
    }

    /// The output to which it handed on.
    pub fn into_device(self) -> O
        ensures { result ≡ self.entry.to }
    {
        self.to
    }
}

impl<'a, O: Sink + Drop, R: Clock, P: Print> Sink for Cleared<'a, O, R, P> {
    ghost taken = { λ s. O.taken s.to };

    ghost faults = { λ s. O.faults s.to };

    fn write(&mut self, from: &[u8]) -> Result<usize, Failed> {
        self.progress.clear();
        self.to.write(from)
    }
}
