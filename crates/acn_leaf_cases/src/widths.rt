//! How many bits, octets and digits numbers take.

use acn_case_lines::{number, wide};
use acn_num::{NoMemory, bits_for, digits_for, octets_for, signed_octets_for};
use std::alloc::Global;

// The number of a word as one of 64 bits with a sign.
fn signed(words: &[&str]) -> i64 {
    i64::try_from(number(words, 0)).unwrap_or(0)
}

/// The answer to a question about a number; none where it is none of these.
pub fn about_width(
    alloc: Global,
    question: &str,
    words: &[&str],
) -> Result<Option<String>, NoMemory> {
    let count = match question {
        "bits-for" => bits_for(wide(words, 0)),
        "octets-for" => octets_for(wide(words, 0)),
        "signed-octets-for" => signed_octets_for(signed(words)),
        "digits-for" => digits_for(wide(words, 0)),
        _ => return Ok(None),
    };
    Ok(Some(format!(in alloc; "{count}")?))
}
