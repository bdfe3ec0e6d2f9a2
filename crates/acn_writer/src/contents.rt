ghost use Rattle.std.specs.Prelude.{◌≡◌, ◌<◌, [], ◌∷◌, length, Some, None, option_map};
ghost use Rattle.acn_bits.specs.Overwrite.{Gap};
ghost use Rattle.acn_events.specs.Event.{base_of};
ghost use Rattle.acn_events.specs.Steps.{gap_of, tail_of};
ghost use Rattle.acn_writer.specs.Contents.{gap_shown};

use crate::frame::Opening;
use acn_bits::{Hole, Holes};
use arrayvec::ArrayVec;
use std::marker::Model;

/// Contents that aren't ended: where each begins, and the hole for its size where that stands in
/// front. There is room for `S` of them.
pub struct Contents<const S: usize> {
    openings: ArrayVec<Opening, S>,
    holes: Holes<S>,
}

impl<const S: usize> Model for Contents<S> {
    ghost use Rattle.std.specs.Prelude.{◌≡◌, List};
    ghost use Rattle.acn_events.specs.Event.{Frame};
    ghost use Rattle.acn_fill.specs.Table.{have_holes};
    ghost use Rattle.acn_writer.specs.Contents.{are_sized, frames_of};

    ghost Value = { List Frame };

    ghost view = { λ c. frames_of c.openings.items c.holes };

    ghost invariant = { λ c. have_holes c.holes ≡ are_sized c.openings.items };
}

impl<const S: usize> Contents<S> {
    /// None are begun.
    pub fn new() -> Contents<S>
        ensures { result ≡ [] }
    {
        Contents {
            openings: ArrayVec::new(),
            holes: Holes::new(),
        }
    }

    /// How many are begun.
    pub fn depth(&self) -> usize
        ensures { result ≡ length self.now }
    {
        self.openings.len()
    }

    /// Where the innermost begin.
    pub fn base(&self) -> u64
        ensures { result ≡ base_of self.now }
    {
        let openings = self.openings.as_slice();
        let count = openings.len();
        if count == 0 {
            return 0;
        }
        openings[count - 1].base
    }

    /// The hole for the size of the innermost, which stays kept.
    pub fn hole(&self) -> Option<(u64, u32)>
        ensures { gap_of self.now ≡ option_map gap_shown result }
    {
        let openings = self.openings.as_slice();
        let count = openings.len();
        if count == 0 {
            return None;
        }
        if openings[count - 1].sized {
            return Some(self.holes.shown(count - 1));
        }
        None
    }

    /// Begins contents behind the hole for their size.
    pub fn enter(&mut self, base: u64, hole: Hole)
        requires { length self.old < S }
        ensures { self.new ≡ record { base = base; gap = Some hole } ∷ self.old }
    {
        self.openings.push(Opening { base, sized: true });
        self.holes.keep(hole);
    }

    /// Begins contents whose size doesn't stand in front.
    pub fn enter_bare(&mut self, base: u64)
        requires { length self.old < S }
        ensures { self.new ≡ record { base = base; gap = None } ∷ self.old }
    {
        self.openings.push(Opening { base, sized: false });
        self.holes.skip();
    }

    /// Ends the innermost contents, and gives the hole for their size.
    pub fn leave(&mut self) -> Hole
        requires { (gap : Gap) × (gap_of self.old ≡ Some gap) }
        ensures hole { gap_of self.old ≡ Some result }
        ensures rest { self.new ≡ tail_of self.old }
    {
        let at = self.openings.len() - 1;
        let _innermost = self.openings.pop();
        self.holes.release(at)
    }

    /// Ends the innermost contents, which have no hole.
    pub fn leave_bare(&mut self)
        requires some { 0 < length self.old }
        requires bare { gap_of self.old ≡ None }
        ensures { self.new ≡ tail_of self.old }
    {
        let at = self.openings.len() - 1;
        let _innermost = self.openings.pop();
        self.holes.unskip(at);
    }

    /// Ends it, where none are begun.
    pub fn close(self)
        requires { self ≡ [] }
    {
        let Contents { openings: _, holes } = self;
        holes.close();
    }
}
