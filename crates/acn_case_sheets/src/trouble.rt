//! Why there is no answer.

use acn_cursor::ParseFault;
use acn_lex::LexFault;
use acn_num::NoMemory;
use acn_world::NameFault;
use std::alloc::{AllocError, AllocFailed, Global};

/// Why there is no answer.
#[derive(Clone, Copy, Drop)]
pub enum Trouble {
    /// A text has no tokens.
    Lex(LexFault),
    /// Tokens have no tree.
    Parse(ParseFault),
    /// A text is longer than is read.
    TooMuch,
    /// A name of a text is at fault.
    Misnamed,
    /// What is asked about isn't there.
    Absent,
    /// There was no memory.
    NoMemory,
}

impl From<LexFault> for Trouble {
    fn from(fault: LexFault) -> Trouble {
        Trouble::Lex(fault)
    }
}

impl From<ParseFault> for Trouble {
    fn from(fault: ParseFault) -> Trouble {
        Trouble::Parse(fault)
    }
}

impl From<NameFault> for Trouble {
    fn from(fault: NameFault) -> Trouble {
        match fault {
            NameFault::NoMemory => Trouble::NoMemory,
            _ => Trouble::Misnamed,
        }
    }
}

impl From<NoMemory> for Trouble {
    fn from(_: NoMemory) -> Trouble {
        Trouble::NoMemory
    }
}

impl From<AllocError> for Trouble {
    fn from(_: AllocError) -> Trouble {
        Trouble::NoMemory
    }
}

impl<T: Drop> From<AllocFailed<T>> for Trouble {
    fn from(_: AllocFailed<T>) -> Trouble {
        Trouble::NoMemory
    }
}

fn lex_fault_in_words(alloc: Global, fault: LexFault) -> Result<String, NoMemory> {
    match fault {
        LexFault::BadByte { at } => Ok(format!(in alloc; "BadByte {at}")?),
        LexFault::Unclosed { at } => Ok(format!(in alloc; "Unclosed {at}")?),
        LexFault::TooManyTokens { at } => Ok(format!(in alloc; "TooManyTokens {at}")?),
        LexFault::TooWide { at } => Ok(format!(in alloc; "TooWide {at}")?),
        LexFault::NoMemory => Err(NoMemory),
    }
}

fn parse_fault_in_words(alloc: Global, fault: ParseFault) -> Result<String, NoMemory> {
    match fault {
        ParseFault::Syntax { at } => Ok(format!(in alloc; "Syntax {at}")?),
        ParseFault::TooDeep { at } => Ok(format!(in alloc; "TooDeep {at}")?),
        ParseFault::LeftOut { at } => Ok(format!(in alloc; "LeftOut {at}")?),
        ParseFault::NoMemory => Err(NoMemory),
    }
}

/// The reason in words.
pub fn trouble_in_words(alloc: Global, trouble: Trouble) -> Result<String, NoMemory> {
    match trouble {
        Trouble::Lex(fault) => lex_fault_in_words(alloc, fault),
        Trouble::Parse(fault) => parse_fault_in_words(alloc, fault),
        Trouble::TooMuch => Ok(format!(in alloc; "TooMuch")?),
        Trouble::Misnamed => Ok(format!(in alloc; "Misnamed")?),
        Trouble::Absent => Ok(format!(in alloc; "none")?),
        Trouble::NoMemory => Err(NoMemory),
    }
}
