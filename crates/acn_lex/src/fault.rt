use acn_num::NoMemory;
use std::alloc::{AllocError, AllocFailed};

/// Why a file has no tokens. Each place is the number of bytes before it.
#[derive(Clone, Copy, PartialEq, Eq)]
pub enum LexFault {
    /// No token begins here.
    BadByte { at: u32 },
    /// The comment or literal that begins here has no end.
    Unclosed { at: u32 },
    /// A token begins here that `MOST_TOKENS` stand before.
    TooManyTokens { at: u32 },
    /// The number that begins here is 2^64 or more.
    TooWide { at: u32 },
    /// Memory ran out.
    NoMemory,
}

impl From<AllocError> for LexFault {
    ghost use Rattle.std.specs.Prelude.{◌≡◌};
    ghost use Rattle.acn_lex.specs.declared.fault.LexFault.TheVariants.{NoMemory};

    ghost from_gives = { λ _ e. e ≡ NoMemory };

    fn from(_: AllocError) -> LexFault {
        LexFault::NoMemory
    }
}

impl<T: Drop> From<AllocFailed<T>> for LexFault {
    ghost use Rattle.std.specs.Prelude.{◌≡◌};
    ghost use Rattle.acn_lex.specs.declared.fault.LexFault.TheVariants.{NoMemory};

    ghost from_gives = { λ _ e. e ≡ NoMemory };

    fn from(_: AllocFailed<T>) -> LexFault {
        LexFault::NoMemory
    }
}

impl From<NoMemory> for LexFault {
    ghost use Rattle.std.specs.Prelude.{◌≡◌};
    ghost use Rattle.acn_lex.specs.declared.fault.LexFault.TheVariants as fault;

    ghost from_gives = { λ _ e. e ≡ fault.NoMemory };

    fn from(_: NoMemory) -> LexFault {
        LexFault::NoMemory
    }
}
