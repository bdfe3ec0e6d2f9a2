//! What sets of numbers answer.

use acn_case_lines::{number, of_word, set_of, word};
use acn_num::{BOTTOM, NoMemory, RangeSet, TOP};
use std::alloc::Global;

// The numbers from one to another, up to the ends of all sets; none where there is no such range.
fn range_of(alloc: Global, low: i128, high: i128) -> Result<Option<RangeSet>, NoMemory> {
    if BOTTOM <= low && low <= high && high <= TOP {
        return Ok(Some(RangeSet::one(alloc, low, high)?));
    }
    Ok(None)
}

// The set of a word: one range up to the ends of all sets, or several ranges of numbers.
fn set_in(alloc: Global, word: &str) -> Result<Option<RangeSet>, NoMemory> {
    match word.split_once("..") {
        Some((low, high)) if !word.contains(",") => range_of(alloc, of_word(low), of_word(high)),
        _ => set_of(alloc, word),
    }
}

// The ranges of a set, as they are written in cases.
fn set_in_words(alloc: Global, set: &RangeSet) -> Result<String, NoMemory> {
    let mut words = String::new(alloc);
    for (low, high) in set.ranges() {
        let comma = if words.is_empty() { "" } else { "," };
        if low == high {
            write!(words, "{comma}{low}")?;
        } else {
            write!(words, "{comma}{low}..{high}")?;
        }
    }
    if words.is_empty() {
        words.push_str("none")?;
    }
    Ok(words)
}

// This many even numbers from 0 on, each as a set.
fn even_numbers(alloc: Global, count: u16) -> Result<Vec<RangeSet>, NoMemory> {
    let mut all = Vec::new(alloc);
    for i in 0..count {
        let number = i128::from(i) * 2;
        all.push(RangeSet::one(alloc, number, number)?)?;
    }
    Ok(all)
}

// The answer to a question about a set with as many even numbers as the first word says.
fn with_evens(alloc: Global, set: &RangeSet, words: &[&str]) -> Result<String, NoMemory> {
    let count = word(words, 0).parse::<u16>().unwrap_or(0);
    let evens = even_numbers(alloc, count)?;
    let joined = set.union_all(alloc, evens.as_slice())?;
    about(
        alloc,
        &joined,
        word(words, 1),
        words.get(2..).unwrap_or(&[]),
    )
}

// What a set makes with another.
fn joined(
    alloc: Global,
    set: &RangeSet,
    question: &str,
    other: &RangeSet,
) -> Result<String, NoMemory> {
    match question {
        "union" => set_in_words(alloc, &set.union(alloc, other)?),
        "meet" => set_in_words(alloc, &set.meet(alloc, other)?),
        "except" => set_in_words(alloc, &set.except(alloc, other)?),
        _ => Ok("not understood".to_string(alloc)?),
    }
}

// The answer to a question about a set, with the set of the first word behind it.
fn about_both(
    alloc: Global,
    set: &RangeSet,
    question: &str,
    words: &[&str],
) -> Result<String, NoMemory> {
    match set_in(alloc, word(words, 0))? {
        Some(other) => joined(alloc, set, question, &other),
        None => Ok("not understood".to_string(alloc)?),
    }
}

fn number_in_words(alloc: Global, found: Option<i128>) -> Result<String, NoMemory> {
    match found {
        Some(number) => Ok(format!(in alloc; "{number}")?),
        None => Ok("none".to_string(alloc)?),
    }
}

fn ends_in_words(alloc: Global, set: &RangeSet) -> Result<String, NoMemory> {
    match (set.least(), set.greatest()) {
        (Some(least), Some(greatest)) => Ok(format!(in alloc; "{least}..{greatest}")?),
        _ => Ok("none".to_string(alloc)?),
    }
}

fn least_except(alloc: Global, set: &RangeSet, words: &[&str]) -> Result<String, NoMemory> {
    let mut avoided = Vec::new(alloc);
    for word in words {
        avoided.push(of_word(*word))?;
    }
    number_in_words(alloc, set.least_except(avoided.as_slice()))
}

// The place of a word, and a place that no set has where it isn't one.
fn place(words: &[&str]) -> u128 {
    word(words, 0).parse::<u128>().unwrap_or(u128::MAX)
}

fn about(
    alloc: Global,
    set: &RangeSet,
    question: &str,
    words: &[&str],
) -> Result<String, NoMemory> {
    match question {
        "count" => Ok(format!(in alloc; "{}", set.count())?),
        "ends" => ends_in_words(alloc, set),
        "nth" => number_in_words(alloc, set.nth(place(words))),
        "least-except" => least_except(alloc, set, words),
        "holds" => Ok(format!(in alloc; "{}", set.holds(number(words, 0)))?),
        "copy" => set_in_words(alloc, &set.copy(alloc)?),
        _ => about_both(alloc, set, question, words),
    }
}

/// The answer to a question about the set of the first word.
pub fn about_set(alloc: Global, question: &str, words: &[&str]) -> Result<String, NoMemory> {
    let rest = words.get(1..).unwrap_or(&[]);
    match set_in(alloc, word(words, 0))? {
        Some(set) if question == "with-evens" => with_evens(alloc, &set, rest),
        Some(set) => about(alloc, &set, question, rest),
        None => Ok("not understood".to_string(alloc)?),
    }
}
