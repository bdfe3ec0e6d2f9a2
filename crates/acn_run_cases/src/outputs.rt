//! What outputs took, in words.

use acn_case_lines::octets_in_words;
use acn_num::NoMemory;
use std::alloc::Global;

// A line, or octets.
fn in_words(alloc: Global, bytes: &[u8], octets: bool) -> Result<String, NoMemory> {
    if octets {
        return octets_in_words(alloc, bytes);
    }
    let text = String::from_utf8_lossy(alloc, bytes)?;
    match text.as_str().strip_suffix("\n") {
        Some(line) => Ok(format!(in alloc; "{line} |")?),
        None => Ok(format!(in alloc; "{}", text.as_str())?),
    }
}

// Adds what stands several times one behind the other.
fn put_run(
    alloc: Global,
    bytes: &[u8],
    times: u64,
    octets: bool,
    all: &mut String,
) -> Result<(), NoMemory> {
    if times == 0 {
        return Ok(());
    }
    let words = in_words(alloc, bytes, octets)?;
    write!(all, " {words}")?;
    if times > 1 {
        write!(all, " x{times}")?;
    }
    Ok(())
}

// How many bytes the first part has: those of a line, or of a group of octets.
fn part_len(bytes: &[u8], group: Option<usize>) -> usize {
    match group {
        Some(octets) => octets,
        None => match bytes.iter().position(|it| *it == b'\n') {
            Some(at) => at.saturating_add(1),
            None => bytes.len(),
        },
    }
}

/// Bytes that were taken: lines, or octets in groups of so many.
pub fn taken_in_words(
    alloc: Global,
    bytes: &[u8],
    group: Option<usize>,
) -> Result<String, NoMemory> {
    let mut all = String::new(alloc);
    let mut rest = bytes;
    let mut last: &[u8] = &[];
    let mut times = 0u64;
    for _ in 0..bytes.len() {
        if rest.is_empty() {
            break;
        }
        let len = part_len(rest, group).max(1).min(rest.len());
        let (part, behind) = rest.split_at(len);
        if part != last {
            put_run(alloc, last, times, group.is_some(), &mut all)?;
            times = 0;
            last = part;
        }
        times = times.saturating_add(1);
        rest = behind;
    }
    put_run(alloc, last, times, group.is_some(), &mut all)?;
    Ok(all)
}
