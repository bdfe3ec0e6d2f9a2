use acn_num::{Name, NoMemory, Row};
use std::alloc::{AllocError, AllocFailed};

/// Why the names of the sources can't be resolved. `name` is the name that is refused, and `module` the module
/// in whose text it stands. The kinds are tried in the order Repeated, NoModule, Unknown, Cycle, WrongKind; of
/// one kind the first in the text is answered: ASN.1 files, then ACN files, then mapping files.
#[derive(Drop)]
pub enum NameFault {
    /// A reference that names nothing. Of a reference `B.Y` the name is `Y`.
    Unknown {
        module: Name,
        name: Name,
    },
    /// A name that is given twice in one place, where it stands for the second time. A module or a table that
    /// is given twice is its own `module`.
    Repeated {
        module: Name,
        name: Name,
    },
    /// An ACN module, or the module of an import, that isn't there. `name` is the name of that module.
    NoModule {
        module: Name,
        name: Name,
    },
    /// A type or a value that reaches itself. `names` are those on a way from it to itself, itself first.
    Cycle {
        module: Name,
        name: Name,
        names: Row<Name>,
    },
    /// A value that is used as a number and leads to none, or the type of an inserted field or a parameter
    /// that leads to none of INTEGER, BOOLEAN and ENUMERATED; an inserted field may also lead to NULL.
    WrongKind {
        module: Name,
        name: Name,
    },
    /// Memory ran out.
    NoMemory,
}

impl From<AllocError> for NameFault {
    ghost use Rattle.std.specs.Prelude.{◌≡◌};
    ghost use Rattle.acn_world.specs.declared.fault.NameFault.TheVariants as fault;

    ghost from_gives = { λ _ e. e ≡ fault.NoMemory };

    fn from(_: AllocError) -> NameFault {
        NameFault::NoMemory
    }
}

impl<T: Drop> From<AllocFailed<T>> for NameFault {
    ghost use Rattle.std.specs.Prelude.{◌≡◌};
    ghost use Rattle.acn_world.specs.declared.fault.NameFault.TheVariants as fault;

    ghost from_gives = { λ _ e. e ≡ fault.NoMemory };

    fn from(_: AllocFailed<T>) -> NameFault {
        NameFault::NoMemory
    }
}

impl From<NoMemory> for NameFault {
    ghost use Rattle.std.specs.Prelude.{◌≡◌};
    ghost use Rattle.acn_world.specs.declared.fault.NameFault.TheVariants as fault;

    ghost from_gives = { λ _ e. e ≡ fault.NoMemory };

    fn from(_: NoMemory) -> NameFault {
        NameFault::NoMemory
    }
}
