//! Paths, reasons and asks from words.

use acn_case_lines::{number, of_word, wide, word};
use acn_num::Path;
use acn_tree::{Ask, Fault, Reason, Unfit, UnfitReason};

/// The path of a word: steps joined by full stops, or `root`; at most 64 steps.
pub fn path_of(text: &str) -> Path {
    let mut path = Path::new();
    if text != "root" {
        for step in text.split(".") {
            if path.steps().len() < 64 {
                path.push(step.parse::<u32>().unwrap_or(u32::MAX));
            }
        }
    }
    path
}

// Why a node can't be read.
fn reason_of(words: &[&str]) -> Option<Reason> {
    match word(words, 0) {
        "Short" => Some(Reason::Short),
        "OutOfRange" => Some(Reason::OutOfRange {
            wire: number(words, 1),
        }),
        "NotMinimal" => Some(Reason::NotMinimal),
        "BadDigit" => Some(Reason::BadDigit),
        "BadCharacter" => Some(Reason::BadCharacter),
        "BadPattern" => Some(Reason::BadPattern),
        "TooLong" => Some(Reason::TooLong),
        "SizeOutOfRange" => Some(Reason::SizeOutOfRange { n: wide(words, 1) }),
        "NoAlternative" => Some(Reason::NoAlternative),
        "ContentSize" => Some(Reason::ContentSize {
            octets: wide(words, 1),
            used: wide(words, 2),
        }),
        "PastContent" => Some(Reason::PastContent),
        _ => None,
    }
}

/// The failure of these words: its path, its bit, and its reason.
pub fn failure_of(words: &[&str]) -> Option<Fault> {
    match reason_of(words.get(2..).unwrap_or(&[])) {
        Some(reason) => Some(Fault {
            path: path_of(word(words, 0)),
            reason,
            at: wide(words, 1),
        }),
        None => None,
    }
}

// An ask, as `=1` or `!=1`.
fn ask_of(text: &str) -> Option<Ask> {
    match text.strip_prefix("!=") {
        Some(number) => Some(Ask::Avoid(of_word(number))),
        None => match text.strip_prefix("=") {
            Some(number) => Some(Ask::Equal(of_word(number))),
            None => None,
        },
    }
}

fn conflict_of(words: &[&str]) -> Option<UnfitReason> {
    match ask_of(word(words, 3)) {
        Some(wanted) => Some(UnfitReason::Conflict {
            slot: path_of(word(words, 1)),
            earlier: ask_of(word(words, 2)),
            wanted,
        }),
        None => None,
    }
}

fn unfit_reason_of(words: &[&str]) -> Option<UnfitReason> {
    match word(words, 0) {
        "OutOfRange" => Some(UnfitReason::OutOfRange {
            value: number(words, 1),
        }),
        "SizeOutOfRange" => Some(UnfitReason::SizeOutOfRange { n: wide(words, 1) }),
        "BadCharacter" => Some(UnfitReason::BadCharacter {
            index: wide(words, 1),
        }),
        "TerminatorInside" => Some(UnfitReason::TerminatorInside {
            index: wide(words, 1),
        }),
        "ContentSize" => Some(UnfitReason::ContentSize {
            octets: wide(words, 1),
        }),
        "Conflict" => conflict_of(words),
        _ => None,
    }
}

/// Why a value is refused, by these words: its path and the reason.
pub fn unfit_of(words: &[&str]) -> Option<Unfit> {
    match unfit_reason_of(words.get(1..).unwrap_or(&[])) {
        Some(reason) => Some(Unfit {
            path: path_of(word(words, 0)),
            reason,
        }),
        None => None,
    }
}
