//! Leaves and sizes in words, as they are read.

use acn_num::{NoMemory, RangeSet};
use acn_tree::{Items, NumCoding, NumKind, NumLeaf, Pattern, SizeRule, Sizing, Table, TextLeaf};
use std::alloc::Global;

fn push_pattern(pattern: &Pattern, words: &mut String) -> Result<(), NoMemory> {
    words.push_str(" ")?;
    for bit in pattern.bits() {
        words.push_str(if *bit { "1" } else { "0" })?;
    }
    Ok(())
}

fn push_flag(pattern: &Option<Pattern>, words: &mut String) -> Result<(), NoMemory> {
    match pattern {
        Some(pattern) => push_pattern(pattern, words),
        None => {
            words.push_str(" -")?;
            Ok(())
        }
    }
}

// Adds a range: one number, or its two ends.
fn push_range(low: i128, high: i128, words: &mut String) -> Result<(), NoMemory> {
    if low == high {
        write!(words, "{low}")?;
    } else {
        write!(words, "{low}..{high}")?;
    }
    Ok(())
}

// Adds the ranges of a set, as `0..2,5`, or `none`.
fn push_set(set: &RangeSet, words: &mut String) -> Result<(), NoMemory> {
    if set.ranges().is_empty() {
        words.push_str(" none")?;
    }
    for (place, range) in set.ranges().iter().enumerate() {
        words.push_str(if place == 0 { " " } else { "," })?;
        push_range(range.0, range.1, words)?;
    }
    Ok(())
}

fn kind_word(kind: NumKind) -> &'static str {
    match kind {
        NumKind::Integer => "integer",
        NumKind::Boolean => "boolean",
        NumKind::Enumerated => "enumerated",
        NumKind::Null => "null",
    }
}

fn push_signed(signed: bool, words: &mut String) -> Result<(), NoMemory> {
    if signed {
        words.push_str(" signed")?;
    }
    Ok(())
}

fn push_coding(coding: &NumCoding, words: &mut String) -> Result<(), NoMemory> {
    match coding {
        NumCoding::Range { low, width } => write!(words, " range {low} {width}")?,
        NumCoding::CountedFrom { low } => write!(words, " counted-from {low}")?,
        NumCoding::CountedSigned => words.push_str(" counted-signed")?,
        NumCoding::PosInt(bits) => write!(words, " pos-int {bits}")?,
        NumCoding::Twos(bits) => write!(words, " twos-complement {bits}")?,
        NumCoding::Bcd(bits) => write!(words, " bcd {bits}")?,
        NumCoding::BcdEnded => words.push_str(" bcd-ended")?,
        NumCoding::Ascii { bits, signed } => {
            write!(words, " ascii {bits}")?;
            push_signed(*signed, words)?;
        }
        NumCoding::AsciiEnded { end, signed } => {
            words.push_str(" ascii-ended")?;
            push_pattern(end, words)?;
            push_signed(*signed, words)?;
        }
        NumCoding::Flag { yes, no } => {
            words.push_str(" flag")?;
            push_flag(yes, words)?;
            push_flag(no, words)?;
        }
        NumCoding::Fixed(pattern) => {
            words.push_str(" fixed")?;
            push_pattern(pattern, words)?;
        }
    }
    Ok(())
}

fn push_items(alloc: Global, items: &Items, words: &mut String) -> Result<(), NoMemory> {
    if !items.items.items().is_empty() {
        words.push_str(if items.values { " values" } else { " items" })?;
    }
    for item in items.items.items() {
        let name = String::from_utf8_lossy(alloc, item.0.bytes())?;
        write!(words, " {name} {}", item.1)?;
    }
    Ok(())
}

fn push_table(alloc: Global, table: &Option<Table>, words: &mut String) -> Result<(), NoMemory> {
    if let Some(table) = table {
        let name = String::from_utf8_lossy(alloc, table.name.bytes())?;
        write!(words, " {name} table")?;
        for (first, last, image) in table.lines.items() {
            write!(words, " {first} {last} {image}")?;
        }
    }
    Ok(())
}

/// Adds a leaf with numbers.
pub fn push_leaf(alloc: Global, leaf: &NumLeaf, words: &mut String) -> Result<(), NoMemory> {
    words.push_str(kind_word(leaf.kind))?;
    push_set(&leaf.set, words)?;
    push_coding(&leaf.coding, words)?;
    if leaf.little {
        words.push_str(" little")?;
    }
    push_items(alloc, &leaf.items, words)?;
    push_table(alloc, &leaf.table, words)
}

// Adds the sizes, and what says them.
fn push_sizing(sizing: &Sizing, words: &mut String) -> Result<(), NoMemory> {
    push_set(&sizing.sizes, words)?;
    match &sizing.rule {
        SizeRule::Prefix { low, width } => write!(words, " prefix {low} {width}")?,
        SizeRule::Slot(slot) => write!(words, " slot {slot}")?,
        SizeRule::Ended(pattern) => {
            words.push_str(" ended")?;
            push_pattern(pattern, words)?;
        }
    }
    Ok(())
}

/// Adds the word of what has sizes, then the sizes and what says them.
pub fn push_sized(word: &str, sizing: &Sizing, words: &mut String) -> Result<(), NoMemory> {
    words.push_str(word)?;
    push_sizing(sizing, words)
}

/// Adds a text.
pub fn push_text(leaf: &TextLeaf, words: &mut String) -> Result<(), NoMemory> {
    push_sized("text", &leaf.sized, words)?;
    if let Some(end) = &leaf.ended {
        words.push_str(" terminated")?;
        push_pattern(end, words)?;
    }
    words.push_str(" alphabet")?;
    push_set(&leaf.alphabet, words)?;
    write!(words, " {}", leaf.width)?;
    if leaf.indexed {
        words.push_str(" indexed")?;
    }
    Ok(())
}
