use crate::read_fault::ReadFault;
use acn_num::{NoMemory, Path};
use std::alloc::{AllocError, AllocFailed};

/// Why a node can't be read. The reasons and their order inside a node are this profile's own (`specs/Fails`).
#[derive(Clone, Copy, PartialEq, Eq)]
pub enum Reason {
    /// The input has fewer bits left than the node needs.
    Short,
    /// The number isn't permitted. `wire` is the number as it stands in the bits.
    OutOfRange { wire: i128 },
    /// A shorter code says the same number, or a minus stands before zero.
    NotMinimal,
    /// A digit isn't one from 0 to 9, or a sign is missing.
    BadDigit,
    /// A character isn't in the alphabet.
    BadCharacter,
    /// The bits are none of the patterns.
    BadPattern,
    /// There are more octets or digits than any code has.
    TooLong,
    /// The size isn't permitted. `n` counts octets, bits, characters or elements.
    SizeOutOfRange { n: u64 },
    /// No alternative is chosen.
    NoAlternative,
    /// Eight or more bits are left behind the content: the octets that there are, and the bits that the content used.
    ContentSize { octets: u64, used: u64 },
    /// The window of the contained octets has fewer bits left than the node needs.
    PastContent,
}

impl From<ReadFault> for Reason {
    ghost use Rattle.std.specs.Prelude.{◌≡◌};
    ghost use Rattle.acn_grammar.specs.Faults.{reason_of};
    ghost use Rattle.acn_grammar.specs.ReadFaults.{reason_of as reason_of_leaf};

    ghost from_gives = { λ fault reason. reason_of reason ≡ reason_of_leaf fault };

    fn from(fault: ReadFault) -> Reason {
        match fault {
            ReadFault::Short => Reason::Short,
            ReadFault::OutOfRange { wire } => Reason::OutOfRange { wire },
            ReadFault::NotMinimal => Reason::NotMinimal,
            ReadFault::BadDigit => Reason::BadDigit,
            ReadFault::BadCharacter => Reason::BadCharacter,
            ReadFault::BadPattern => Reason::BadPattern,
            ReadFault::TooLong => Reason::TooLong,
            ReadFault::SizeOutOfRange { n } => Reason::SizeOutOfRange { n },
        }
    }
}

/// The first node of a packet that can't be read.
#[derive(Drop)]
pub struct Fault {
    /// Child numbers from the root, in a list the number of the element.
    pub path: Path,
    pub reason: Reason,
    /// The bit of the packet, from 0, at which the node begins, before its padding.
    pub at: u64,
}

/// Why a packet isn't taken apart.
#[derive(Drop)]
pub enum Refuse {
    /// The packet has no value: its first fault.
    Bad(Fault),
    /// Memory ran out.
    NoMemory,
}

impl From<Fault> for Refuse {
    ghost use Rattle.std.specs.Prelude.{◌≡◌};
    ghost use Rattle.acn_grammar.specs.declared.fault.Refuse.TheVariants.{Bad};

    ghost from_gives = { λ fault e. e ≡ Bad fault };

    fn from(fault: Fault) -> Refuse {
        Refuse::Bad(fault)
    }
}

impl From<AllocError> for Refuse {
    ghost use Rattle.std.specs.Prelude.{◌≡◌};
    ghost use Rattle.acn_grammar.specs.declared.fault.Refuse.TheVariants.{NoMemory};

    ghost from_gives = { λ _ e. e ≡ NoMemory };

    fn from(_: AllocError) -> Refuse {
        Refuse::NoMemory
    }
}

impl<T: Drop> From<AllocFailed<T>> for Refuse {
    ghost use Rattle.std.specs.Prelude.{◌≡◌};
    ghost use Rattle.acn_grammar.specs.declared.fault.Refuse.TheVariants.{NoMemory};

    ghost from_gives = { λ _ e. e ≡ NoMemory };

    fn from(_: AllocFailed<T>) -> Refuse {
        Refuse::NoMemory
    }
}

impl From<NoMemory> for Refuse {
    ghost use Rattle.std.specs.Prelude.{◌≡◌};
    ghost use Rattle.acn_grammar.specs.declared.fault.Refuse.TheVariants as refuse;

    ghost from_gives = { λ _ e. e ≡ refuse.NoMemory };

    fn from(_: NoMemory) -> Refuse {
        Refuse::NoMemory
    }
}
