use acn_num::NoMemory;

/// Why the constraints of a type leave no set. The causes are tried in the order `NotHere`, `TooWide`, `Empty`,
/// `Unbounded`, `SizeLimit`.
#[derive(Clone, Copy, PartialEq, Eq)]
pub enum ConstraintFault {
    /// No number, size or character is left.
    Empty,
    /// The sizes have no greatest one.
    Unbounded,
    /// This written number is below `-2^63`.
    TooWide { number: i128 },
    /// The greatest size is this one, over 65,536.
    SizeLimit { size: i128 },
    /// An element that doesn't stand on this type.
    NotHere,
    /// Memory ran out.
    NoMemory,
}

impl From<NoMemory> for ConstraintFault {
    ghost use Rattle.std.specs.Prelude.{◌≡◌};
    ghost use Rattle.acn_constraint.specs.declared.fault.ConstraintFault.TheVariants as fault;

    ghost from_gives = { λ _ e. e ≡ fault.NoMemory };

    fn from(_: NoMemory) -> ConstraintFault {
        ConstraintFault::NoMemory
    }
}
