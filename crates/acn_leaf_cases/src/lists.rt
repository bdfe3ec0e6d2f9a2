//! What rows, names, lists of bits and paths keep.

use acn_case_lines::{bits_in_words, of_word, word};
use acn_num::{BitList, MOST_STEPS, Name, NoMemory, Path, Row};
use std::alloc::Global;

fn push_items(items: &[i128], said: &mut String) -> Result<(), NoMemory> {
    for item in items {
        write!(said, "{item} ")?;
    }
    Ok(())
}

// The items of the row of these numbers, and those of the row that is made of it again.
fn row_in_words(alloc: Global, words: &[&str]) -> Result<String, NoMemory> {
    let mut row = Row::new(alloc);
    for word in words {
        row.push(of_word(*word))?;
    }
    let mut said = String::new(alloc);
    push_items(row.items(), &mut said)?;
    said.push_str("again ")?;
    push_items(Row::from_vec(row.into_vec()).items(), &mut said)?;
    said.push_str("end")?;
    Ok(said)
}

fn name_in_words(alloc: Global, text: &str) -> Result<String, NoMemory> {
    let name = Name::copy(alloc, text.as_bytes())?;
    Ok(String::from_utf8_lossy(alloc, name.bytes())?)
}

// These bits twice, and whether there is one behind the last.
fn bits_twice(alloc: Global, digits: &str) -> Result<String, NoMemory> {
    let mut bits = BitList::new(alloc);
    for digit in digits.bytes() {
        bits.push(digit == b'1')?;
    }
    let mut twice = BitList::new(alloc);
    twice.append(&bits)?;
    twice.append(&bits)?;
    let said = bits_in_words(alloc, &twice)?;
    let behind = twice.get(twice.len()).is_some();
    Ok(format!(in alloc; "{said}, more {behind}")?)
}

// The path of these steps, as far as it has room.
fn path_of(words: &[&str]) -> Path {
    let mut path = Path::new();
    for word in words {
        if path.steps().len() < MOST_STEPS {
            path.push(word.parse::<u32>().unwrap_or(0));
        }
    }
    path
}

// The steps of a copy of a path, and what is taken away from it, once more than it has steps.
fn path_in_words(alloc: Global, words: &[&str]) -> Result<String, NoMemory> {
    let mut path = path_of(words);
    let mut said = String::new(alloc);
    for step in path.copy().steps() {
        write!(said, "{step} ")?;
    }
    said.push_str("back")?;
    for _ in 0..=words.len() {
        match path.pop() {
            Some(step) => write!(said, " {step}")?,
            None => said.push_str(" none")?,
        }
    }
    Ok(said)
}

/// The answer to a question about a list; none where it is none of these.
pub fn about_list(
    alloc: Global,
    question: &str,
    words: &[&str],
) -> Result<Option<String>, NoMemory> {
    match question {
        "row" => Ok(Some(row_in_words(alloc, words)?)),
        "name" => Ok(Some(name_in_words(alloc, word(words, 0))?)),
        "bits-twice" => Ok(Some(bits_twice(alloc, word(words, 0))?)),
        "path" => Ok(Some(path_in_words(alloc, words)?)),
        _ => Ok(None),
    }
}
