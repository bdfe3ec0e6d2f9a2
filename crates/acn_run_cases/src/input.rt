//! The bytes of an input.

use acn_case_sheets::{Trouble, bytes_of};
use std::alloc::Global;

// The bytes of hexadecimal digits, two each.
fn octets_of(alloc: Global, digits: &str) -> Result<Vec<u8>, Trouble> {
    let mut octets = Vec::new(alloc);
    let mut rest = digits;
    for _ in 0..digits.len() {
        let Some((pair, behind)) = rest.split_at_checked(2) else {
            break;
        };
        octets.push(u8::from_str_radix(pair, 16).unwrap_or(0))?;
        rest = behind;
    }
    Ok(octets)
}

// The bytes of a word.
fn word_bytes(alloc: Global, word: &str) -> Result<Vec<u8>, Trouble> {
    match word.strip_prefix("'") {
        Some(text) => bytes_of(alloc, text),
        None => octets_of(alloc, word),
    }
}

/// How often a word says that the one behind it is written.
pub fn times_of(word: &str) -> Option<u32> {
    match word.strip_suffix("x") {
        Some(count) => count.parse::<u32>().ok(),
        None => None,
    }
}

fn put_times(bytes: &[u8], times: u32, all: &mut Vec<u8>) -> Result<(), Trouble> {
    for _ in 0..times {
        all.extend_from_slice(bytes)?;
    }
    Ok(())
}

/// The bytes of an input's words.
pub fn input_of(alloc: Global, text: &str) -> Result<Vec<u8>, Trouble> {
    let mut all = Vec::new(alloc);
    let mut times = 1;
    for word in text.split_whitespace() {
        match times_of(word) {
            Some(count) => times = count,
            None => {
                let bytes = word_bytes(alloc, word)?;
                put_times(bytes.as_slice(), times, &mut all)?;
                times = 1;
            }
        }
    }
    Ok(all)
}
