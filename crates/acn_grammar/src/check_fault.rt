use acn_num::{NoMemory, Path, Row};
use std::alloc::{AllocError, AllocFailed};

/// What keeps a grammar from being decoded, in the order in which faults are answered, want of memory apart. A path has child
/// numbers from the root, in a list 0. `det` is the field of a slot, `user` the node that uses it. The rules are this
/// profile's own, and so are the limits (`acn_grammar/src/limits.rt`).
#[derive(Drop)]
pub enum CheckFault {
    /// The determinant stands behind its use.
    Forward {
        user: Path,
        det: Path,
    },
    /// The use asks for a determinant of another kind.
    DetKind {
        user: Path,
        det: Path,
    },
    /// The codes of an inserted determinant don't all have one width, or it is over `MOST_DETERMINANT_BITS`.
    DetWidth {
        det: Path,
    },
    /// These numbers of slots, ascending, meet the conditions of both alternatives.
    Overlap {
        choice: Path,
        first: u32,
        second: u32,
        values: Row<(u32, i128)>,
    },
    /// An optional component has more than one condition.
    AbsentUnclear {
        at: Path,
    },
    /// An inserted field other than NULL has no use.
    Unused {
        det: Path,
    },
    /// No item of the determinant has the name of the alternative.
    NoItem {
        choice: Path,
        alternative: u32,
    },
    /// Some alternatives have conditions and some none, or conditions stand beside a determinant.
    MixedChoice {
        choice: Path,
    },
    /// The greatest bound in bits is over `MOST_PACKET_BITS`.
    TooLong {
        bits: u64,
    },
    /// The homes on the path to the node, itself included, have more than `MOST_OPEN_SLOTS` slots.
    TooManyOpen {
        at: Path,
        count: u32,
    },
    /// More than `MOST_CONDITIONS` conditions compare the determinant with a number.
    TooManyConditions {
        det: Path,
        count: u32,
    },
    /// The greatest number of values of a packet is over `MOST_VALUES`.
    TooManyValues {
        count: u64,
    },
    /// The first bits of an element can be the pattern that ends the list, or can't be told from it.
    TerminatorAmbiguous {
        list: Path,
    },
    /// Memory ran out.
    NoMemory,
}

impl From<AllocError> for CheckFault {
    ghost use Rattle.std.specs.Prelude.{◌≡◌};
    ghost use Rattle.acn_grammar.specs.declared.check_fault.CheckFault.TheVariants.{NoMemory};

    ghost from_gives = { λ _ e. e ≡ NoMemory };

    fn from(_: AllocError) -> CheckFault {
        CheckFault::NoMemory
    }
}

impl<T: Drop> From<AllocFailed<T>> for CheckFault {
    ghost use Rattle.std.specs.Prelude.{◌≡◌};
    ghost use Rattle.acn_grammar.specs.declared.check_fault.CheckFault.TheVariants.{NoMemory};

    ghost from_gives = { λ _ e. e ≡ NoMemory };

    fn from(_: AllocFailed<T>) -> CheckFault {
        CheckFault::NoMemory
    }
}

impl From<NoMemory> for CheckFault {
    ghost use Rattle.std.specs.Prelude.{◌≡◌};
    ghost use Rattle.acn_grammar.specs.declared.check_fault.CheckFault.TheVariants as fault;

    ghost from_gives = { λ _ e. e ≡ fault.NoMemory };

    fn from(_: NoMemory) -> CheckFault {
        CheckFault::NoMemory
    }
}
