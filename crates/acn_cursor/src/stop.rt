//! Why a parser stopped, and what that is in a file.

ghost use Rattle.std.specs.Prelude.{◌≡◌, ◌^◌, ◌<◌};
ghost use Rattle.acn_cursor.specs.Exact as exact;

use crate::ParseFault;
use acn_num::NoMemory;
use std::alloc::{AllocError, AllocFailed};

/// Why a parser stopped.
#[derive(Clone, Copy)]
pub enum Stop {
    /// No rule reads the tokens that were left, of which there are so many.
    Refused { left: usize },
    /// Memory ran out.
    NoMemory,
}

impl From<AllocError> for Stop {
    ghost use Rattle.std.specs.Prelude.{◌≡◌};
    ghost use Rattle.acn_cursor.specs.declared.stop.Stop.TheVariants as stop;

    ghost from_gives = { λ _ e. e ≡ stop.NoMemory };

    fn from(_: AllocError) -> Stop {
        Stop::NoMemory
    }
}

impl<T: Drop> From<AllocFailed<T>> for Stop {
    ghost use Rattle.std.specs.Prelude.{◌≡◌};
    ghost use Rattle.acn_cursor.specs.declared.stop.Stop.TheVariants as stop;

    ghost from_gives = { λ _ e. e ≡ stop.NoMemory };

    fn from(_: AllocFailed<T>) -> Stop {
        Stop::NoMemory
    }
}

impl From<NoMemory> for Stop {
    ghost use Rattle.std.specs.Prelude.{◌≡◌};
    ghost use Rattle.acn_cursor.specs.declared.stop.Stop.TheVariants as stop;

    ghost from_gives = { λ _ e. e ≡ stop.NoMemory };

    fn from(_: NoMemory) -> Stop {
        Stop::NoMemory
    }
}

impl Stop {
    // Why a file of so many tokens has no tree. The number of a token is the count of those before it.
    fn in_file(self, count: usize) -> ParseFault
        requires { count < 2 ^ 32 }
        ensures { result ≡ exact.fault_of count self }
    {
        match self {
            Stop::Refused { left } => ParseFault::Syntax {
                at: count.saturating_sub(left) as u32,
            },
            Stop::NoMemory => ParseFault::NoMemory,
        }
    }
}

/// The answer for a whole file of so many tokens, as its parser gave it: a refusal tells the number of the token where reading
/// stopped.
pub fn in_file<T: Drop>(answer: Result<T, Stop>, count: usize) -> Result<T, ParseFault>
    requires { count < 2 ^ 32 }
    ensures { result ≡ exact.in_file count answer }
{
    match answer {
        Ok(tree) => Ok(tree),
        Err(stop) => Err(stop.in_file(count)),
    }
}
