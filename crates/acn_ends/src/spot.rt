ghost use Rattle.std.specs.Prelude.{◌≡◌, Option};

/// A place: an item of a group. Both are counted from 0.
#[derive(Clone, Copy, PartialEq, Eq, Hash)]
pub struct Spot {
    /// The number of the group.
    pub group: u32,
    /// The number of the item in the group.
    pub item: u32,
}

/// Places from each of which at most one step leads on.
pub trait Steps {
    ghost use Rattle.acn_ends.specs.declared.spot.Spot.{Spot};

    /// Where the step from a place leads.
    ghost onward: { Self → Spot → Option Spot };

    /// Where the step from this place leads. None comes exactly where there is none.
    fn step(&self, from: Spot) -> Option<Spot>
        ensures { result ≡ onward self.now from };
}

/// How the steps from a place end.
#[derive(Clone, Copy)]
pub enum End {
    /// At this place, after so many steps.
    At {
        /// The place.
        spot: Spot,
        /// How many steps lead to it.
        steps: usize,
    },
    /// Never: they come back.
    Never,
}
