//! Faults in words.

use acn_grammar::ReadFault;
use acn_num::NoMemory;
use std::alloc::Global;

// Of the faults that keep nothing.
fn plain_word(fault: ReadFault) -> &'static str {
    match fault {
        ReadFault::Short => "Short",
        ReadFault::NotMinimal => "NotMinimal",
        ReadFault::BadDigit => "BadDigit",
        ReadFault::BadCharacter => "BadCharacter",
        ReadFault::BadPattern => "BadPattern",
        ReadFault::TooLong => "TooLong",
        _ => "another fault",
    }
}

/// Why a leaf can't be read.
pub fn fault_in_words(alloc: Global, fault: ReadFault) -> Result<String, NoMemory> {
    match fault {
        ReadFault::OutOfRange { wire } => Ok(format!(in alloc; "OutOfRange {wire}")?),
        ReadFault::SizeOutOfRange { n } => Ok(format!(in alloc; "SizeOutOfRange {n}")?),
        plain => Ok(plain_word(plain).to_string(alloc)?),
    }
}
