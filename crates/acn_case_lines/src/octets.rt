use acn_grammar::Pattern;
use acn_num::{BitList, NoMemory};
use arrayvec::ArrayVec;
use std::alloc::Global;

/// The pattern of a word of 1 to 64 zeros and ones, and none for any other.
pub fn pattern_of(word: &str) -> Option<Pattern> {
    let mut bits: ArrayVec<bool, 64> = ArrayVec::new();
    for digit in word.bytes() {
        if digit != b'0' && digit != b'1' {
            return None;
        }
        if bits.try_push(digit == b'1').is_err() {
            return None;
        }
    }
    if bits.is_empty() {
        return None;
    }
    Some(Pattern::new(bits.as_slice()))
}

/// The octets of words: two hexadecimal digits, or characters behind a `'`.
pub fn octets_of(alloc: Global, words: &[&str]) -> Result<Vec<u8>, NoMemory> {
    let mut octets = Vec::new(alloc);
    for word in words {
        match word.strip_prefix("'") {
            Some(text) => octets.extend_from_slice(text.as_bytes())?,
            None => octets.push(u8::from_str_radix(*word, 16).unwrap_or(0))?,
        }
    }
    Ok(octets)
}

/// Octets in words, two hexadecimal digits each.
pub fn octets_in_words(alloc: Global, octets: &[u8]) -> Result<String, NoMemory> {
    let mut words = String::new(alloc);
    for octet in octets {
        let space = if words.is_empty() { "" } else { " " };
        write!(words, "{space}{octet:02x}")?;
    }
    Ok(words)
}

/// Bits in words: how many, and their octets, the last one filled with zeros.
pub fn bits_in_words(alloc: Global, list: &BitList) -> Result<String, NoMemory> {
    let mut words = format!(in alloc; "{} bits", list.len())?;
    let mut octet = 0u8;
    for at in 0..list.len() {
        if list.get(at) == Some(true) {
            octet |= 128u8 >> (at % 8) as u32;
        }
        if at % 8 == 7 {
            write!(words, " {octet:02x}")?;
            octet = 0;
        }
    }
    if list.len() % 8 != 0 {
        write!(words, " {octet:02x}")?;
    }
    Ok(words)
}
