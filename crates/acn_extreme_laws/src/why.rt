ghost use Rattle.std.specs.Prelude.{◌≡◌};
ghost use Rattle.acn_extreme_laws.specs.Single as single;

/// What keeps a grammar from being single, so that a shortest and a longest packet could be put together part by part. (This
/// profile's own.)
#[derive(Clone, Copy)]
pub enum Why {
    /// The slot of a field has two uses; all conditions of one CHOICE count as one.
    TwoUses,
    /// A list stands between the home of a slot and a node that uses it.
    ThroughAList,
    /// A count of octets between the bounds of contained octets isn't permitted by their sizes or their slot.
    CountNotPermitted,
    /// The alphabet of a text is its terminator's first octet alone.
    TerminatorAlone,
    /// A slot is a component's.
    OfAComponent,
}

impl Why {
    /// The place of the reason in their order, from 1.
    pub fn rank(self) -> u32
        ensures { result ≡ single.rank self }
    {
        match self {
            Why::TwoUses => 1,
            Why::ThroughAList => 2,
            Why::CountNotPermitted => 3,
            Why::TerminatorAlone => 4,
            Why::OfAComponent => 5,
        }
    }
}
