/// The word at this place, or nothing.
pub fn word<'a>(words: &[&'a str], at: usize) -> &'a str {
    match words.get(at) {
        Some(word) => *word,
        None => "",
    }
}

/// The number of a word, or 0.
pub fn of_word(word: &str) -> i128 {
    word.parse::<i128>().unwrap_or(0)
}

/// The number of the word at this place, or 0.
pub fn number(words: &[&str], at: usize) -> i128 {
    of_word(word(words, at))
}

/// The number of the word at this place, or 0 where it isn't one of 32 bits.
pub fn small(words: &[&str], at: usize) -> u32 {
    word(words, at).parse::<u32>().unwrap_or(0)
}

/// The number of the word at this place, or 0 where it isn't one of 64 bits.
pub fn wide(words: &[&str], at: usize) -> u64 {
    word(words, at).parse::<u64>().unwrap_or(0)
}

/// Whether a word stands among others.
pub fn has(words: &[&str], word: &str) -> bool {
    words.iter().any(|it| *it == word)
}

/// The place behind the first such word.
pub fn behind(words: &[&str], word: &str) -> Option<usize> {
    match words.iter().position(|it| *it == word) {
        Some(at) => Some(at.saturating_add(1)),
        None => None,
    }
}
