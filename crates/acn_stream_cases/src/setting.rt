//! How a case is run.

use acn_case_lines::word;

/// What is done with the bytes.
#[derive(Clone, Copy)]
pub enum Question {
    Decode,
    Encode,
    Route,
    Explain,
    Pieces,
}

/// What stands between the question and the bytes.
#[derive(Clone, Copy)]
pub struct Setting {
    pub question: Question,
    pub limit: u64,
    pub piece: Option<usize>,
    pub input: Option<u64>,
    pub output: Option<u64>,
    pub room: usize,
}

fn number(words: &[&str], name: &str) -> Option<u64> {
    match words.iter().position(|it| *it == name) {
        Some(at) => word(words, at.saturating_add(1)).parse::<u64>().ok(),
        None => None,
    }
}

fn size(words: &[&str], name: &str) -> Option<usize> {
    match number(words, name) {
        Some(n) => Some(n.min(1_000_000).max(1) as usize),
        None => None,
    }
}

/// The setting of words, and none where they ask nothing.
pub fn setting_of(words: &[&str]) -> Option<Setting> {
    let question = match word(words, 0) {
        "decode" => Question::Decode,
        "encode" => Question::Encode,
        "route" => Question::Route,
        "explain" => Question::Explain,
        "pieces" => Question::Pieces,
        _ => return None,
    };
    Some(Setting {
        question,
        limit: number(words, "limit").unwrap_or(1_000_000),
        piece: size(words, "piece"),
        input: number(words, "input"),
        output: number(words, "output"),
        room: size(words, "room").unwrap_or(1_000_000),
    })
}
