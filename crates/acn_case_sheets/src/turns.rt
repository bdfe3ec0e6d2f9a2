//! Texts that are written once for each of some numbers.

use acn_num::NoMemory;

// Adds what stands behind a `$` for one number.
fn put_turn(number: u32, piece: &str, text: &mut String) -> Result<(), NoMemory> {
    if let Some(rest) = piece.strip_prefix("i") {
        write!(text, "{number}{rest}")?;
    } else if let Some(rest) = piece.strip_prefix("h") {
        write!(text, "{}{rest}", number.saturating_sub(1))?;
    } else if let Some(rest) = piece.strip_prefix("e") {
        write!(text, "{}{rest}", u64::from(number) * 2)?;
    } else {
        write!(text, "${piece}")?;
    }
    Ok(())
}

// Adds a text for one number, behind a space.
fn put_turns(number: u32, pattern: &str, text: &mut String) -> Result<(), NoMemory> {
    text.push_str(" ")?;
    for (place, piece) in pattern.split("$").enumerate() {
        if place == 0 {
            text.push_str(piece)?;
        } else {
            put_turn(number, piece, text)?;
        }
    }
    Ok(())
}

// Adds a text for each number from one up to another.
fn put_times(low: u32, high: u32, pattern: &str, text: &mut String) -> Result<(), NoMemory> {
    for number in low..high {
        put_turns(number, pattern, text)?;
    }
    Ok(())
}

// The count that a word says, or 0.
fn count_of(word: &str) -> u32 {
    word.parse::<u32>().unwrap_or(0)
}

/// Adds what the words `LOW HIGH TEXT` say. False comes where they aren't these.
pub fn repeat(words: &str, text: &mut String) -> Result<bool, NoMemory> {
    let Some((low, rest)) = words.split_once(" ") else {
        return Ok(false);
    };
    let Some((high, pattern)) = rest.split_once(" ") else {
        return Ok(false);
    };
    put_times(count_of(low), count_of(high), pattern, text)?;
    Ok(true)
}
