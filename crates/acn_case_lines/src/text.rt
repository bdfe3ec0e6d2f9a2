use crate::leaf::set_of;
use crate::octets::pattern_of;
use crate::words::{behind, has, small, wide, word};
use acn_grammar::{Pattern, SizeRule, Sizing, TextLeaf};
use acn_num::NoMemory;
use std::alloc::Global;

// What says a size: `prefix LOW WIDTH`, `slot SLOT`, or for a list `ended BITS`.
fn rule_of(words: &[&str]) -> Option<SizeRule> {
    match word(words, 0) {
        "prefix" => Some(SizeRule::Prefix {
            low: wide(words, 1),
            width: small(words, 2),
        }),
        "slot" => Some(SizeRule::Slot(small(words, 1))),
        "ended" => match pattern_of(word(words, 1)) {
            Some(pattern) => Some(SizeRule::Ended(pattern)),
            None => None,
        },
        _ => None,
    }
}

/// The sizes of the first word, and what says them by the words behind it.
pub fn sizing_of(alloc: Global, words: &[&str]) -> Result<Option<Sizing>, NoMemory> {
    let rule = rule_of(words.get(1..).unwrap_or(&[]));
    match (set_of(alloc, word(words, 0))?, rule) {
        (Some(sizes), Some(rule)) => Ok(Some(Sizing { sizes, rule })),
        _ => Ok(None),
    }
}

// The pattern behind the word `terminated`.
fn end_of(words: &[&str]) -> Option<Pattern> {
    match behind(words, "terminated") {
        Some(at) => pattern_of(word(words, at)),
        None => None,
    }
}

/// The text of these words: its sizes and what says them, `alphabet SET WIDTH`, `indexed` where characters stand by their
/// places, and `terminated BITS` where a pattern ends it.
pub fn text_of(alloc: Global, words: &[&str]) -> Result<Option<TextLeaf>, NoMemory> {
    let at = behind(words, "alphabet").unwrap_or(0);
    let alphabet = set_of(alloc, word(words, at))?;
    match (sizing_of(alloc, words)?, alphabet) {
        (Some(sized), Some(alphabet)) => Ok(Some(TextLeaf {
            sized,
            ended: end_of(words),
            alphabet,
            width: small(words, at.saturating_add(1)),
            indexed: has(words, "indexed"),
        })),
        _ => Ok(None),
    }
}
