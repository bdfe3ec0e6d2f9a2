use acn_num::NoMemory;

/// Why a file has no tree. `at` is a place in the file: the number of bytes before it.
#[derive(Clone, Copy)]
pub enum FileFault {
    /// No token begins here.
    BadByte { at: u32 },
    /// The comment or literal that begins here has no end.
    Unclosed { at: u32 },
    /// A token begins here that `MOST_TOKENS` of acn_lex stand before.
    TooManyTokens { at: u32 },
    /// The number that begins here is 2^64 or more.
    TooWide { at: u32 },
    /// The token of so many bytes that begins here is the first word or mark that this profile leaves out.
    LeftOut { at: u32, length: usize },
    /// The token that begins here is the first whose level is over `MOST_LEVEL` of acn_cursor.
    TooDeep { at: u32 },
    /// No tree has the tokens of the file. Reading stopped at the token that begins here, or behind the last, at the end of
    /// the file.
    Syntax { at: u32 },
    /// Memory ran out.
    NoMemory,
}

/// The first file that is refused, by its number from 0, and why.
#[derive(Clone, Copy)]
pub struct SourcesFault {
    /// The number of the file.
    pub file: usize,
    /// Why it has no tree.
    pub fault: FileFault,
}

impl From<NoMemory> for FileFault {
    ghost use Rattle.std.specs.Prelude.{◌≡◌};
    ghost use Rattle.acn_sources.specs.declared.fault.FileFault.TheVariants as fault;

    ghost from_gives = { λ _ e. e ≡ fault.NoMemory };

    fn from(_: NoMemory) -> FileFault {
        FileFault::NoMemory
    }
}
