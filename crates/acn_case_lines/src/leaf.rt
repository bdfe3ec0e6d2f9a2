use crate::octets::pattern_of;
use crate::words::{behind, has, number, of_word, small, word};
use acn_grammar::{Items, NumCoding, NumKind, NumLeaf, Table};
use acn_num::{Name, NoMemory, RangeSet, Row};
use std::alloc::Global;

fn kind_of(word: &str) -> Option<NumKind> {
    match word {
        "boolean" => Some(NumKind::Boolean),
        "enumerated" => Some(NumKind::Enumerated),
        "integer" => Some(NumKind::Integer),
        "null" => Some(NumKind::Null),
        _ => None,
    }
}

// The coding whose words are these.
fn coding_of(words: &[&str]) -> Option<NumCoding> {
    let bits = small(words, 1);
    match word(words, 0) {
        "range" => Some(NumCoding::Range {
            low: number(words, 1),
            width: small(words, 2),
        }),
        "counted-from" => Some(NumCoding::CountedFrom {
            low: number(words, 1),
        }),
        "counted-signed" => Some(NumCoding::CountedSigned),
        "pos-int" => Some(NumCoding::PosInt(bits)),
        "twos-complement" => Some(NumCoding::Twos(bits)),
        "bcd" => Some(NumCoding::Bcd(bits)),
        "bcd-ended" => Some(NumCoding::BcdEnded),
        "ascii" => Some(NumCoding::Ascii {
            bits,
            signed: has(words, "signed"),
        }),
        "flag" => Some(NumCoding::Flag {
            yes: pattern_of(word(words, 1)),
            no: pattern_of(word(words, 2)),
        }),
        _ => patterned_of(words),
    }
}

// A coding that isn't without its pattern.
fn patterned_of(words: &[&str]) -> Option<NumCoding> {
    let pattern = pattern_of(word(words, 1))?;
    match word(words, 0) {
        "ascii-ended" => Some(NumCoding::AsciiEnded {
            end: pattern,
            signed: has(words, "signed"),
        }),
        "fixed" => Some(NumCoding::Fixed(pattern)),
        _ => None,
    }
}

// The items behind the word `items` or `values`: names, each with its number.
fn items_of(alloc: Global, words: &[&str]) -> Result<Items, NoMemory> {
    let mut items = Row::new(alloc);
    let mut begun = false;
    let mut name = "";
    for word in words {
        if *word == "items" || *word == "values" {
            begun = true;
        } else if begun && name.is_empty() {
            name = *word;
        } else if begun {
            items.push((Name::copy(alloc, name.as_bytes())?, of_word(*word)))?;
            name = "";
        }
    }
    Ok(Items {
        items,
        values: has(words, "values"),
    })
}

// The lines of these words, three numbers each, up to a word that is none.
fn lines_of(alloc: Global, words: &[&str]) -> Result<Row<(i128, i128, i128)>, NoMemory> {
    let mut lines = Row::new(alloc);
    for at in 0..words.len() {
        if at % 3 == 0 {
            if word(words, at).parse::<i128>().is_err() {
                return Ok(lines);
            }
            lines.push((
                number(words, at),
                number(words, at.saturating_add(1)),
                number(words, at.saturating_add(2)),
            ))?;
        }
    }
    Ok(lines)
}

// The table of the lines behind the word `table`.
fn table_of(alloc: Global, words: &[&str]) -> Result<Option<Table>, NoMemory> {
    let Some(at) = behind(words, "table") else {
        return Ok(None);
    };
    let lines = lines_of(alloc, words.get(at..).unwrap_or(&[]))?;
    Ok(Some(Table {
        name: Name::copy(alloc, b"table")?,
        lines,
    }))
}

// The numbers from one to another, or none where they aren't in order or go too far.
fn range_of(alloc: Global, low: i128, high: i128) -> Result<Option<RangeSet>, NoMemory> {
    if -9223372036854775808 <= low && low <= high && high <= 18446744073709551615 {
        return Ok(Some(RangeSet::one(alloc, low, high)?));
    }
    Ok(None)
}

// The numbers of a word: `3`, or `1..5`.
fn part_of(alloc: Global, word: &str) -> Result<Option<RangeSet>, NoMemory> {
    match word.split_once("..") {
        Some((low, high)) => range_of(alloc, of_word(low), of_word(high)),
        None => range_of(alloc, of_word(word), of_word(word)),
    }
}

/// The set of a word such as `0..2,5,7..9`; `none` is the empty set.
pub fn set_of(alloc: Global, word: &str) -> Result<Option<RangeSet>, NoMemory> {
    let mut all = RangeSet::empty(alloc);
    if word == "none" {
        return Ok(Some(all));
    }
    for part in word.split(",") {
        match part_of(alloc, part)? {
            Some(set) => all = all.union(alloc, &set)?,
            None => return Ok(None),
        }
    }
    Ok(Some(all))
}

/// The leaf of these words: its kind, its set, its coding, and `little`, `items NAME NUMBER ..` (or `values`, where their
/// numbers are written) and `table FIRST LAST IMAGE ..` where they are there.
pub fn leaf_of(alloc: Global, words: &[&str]) -> Result<Option<NumLeaf>, NoMemory> {
    let items = items_of(alloc, words)?;
    let table = table_of(alloc, words)?;
    let set = set_of(alloc, word(words, 1))?;
    let coding = coding_of(words.get(2..).unwrap_or(&[]));
    match (kind_of(word(words, 0)), set, coding) {
        (Some(kind), Some(set), Some(coding)) => Ok(Some(NumLeaf {
            kind,
            set,
            coding,
            little: has(words, "little"),
            table,
            items,
        })),
        _ => Ok(None),
    }
}
