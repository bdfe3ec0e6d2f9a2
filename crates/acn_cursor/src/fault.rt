/// Why there is no tree. `at` is the number of a token, from 0.
#[derive(Clone, Copy, PartialEq, Eq)]
pub enum ParseFault {
    /// No tree has these tokens. Reading stopped at this token, or behind the last.
    Syntax { at: u32 },
    /// This token is the first whose level is over `MOST_LEVEL`.
    TooDeep { at: u32 },
    /// This token is the first of the words that this profile leaves out.
    LeftOut { at: u32 },
    /// Memory ran out.
    NoMemory,
}
