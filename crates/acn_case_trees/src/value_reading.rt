//! Values from words: a number, `true`, `false`, `null`, `item:2`, `octets:0aff`, `bits:101`, `text:ab`, `{` .. `}` with `-` for what is
//! absent, `[` .. `]`, and `alternative:1` in front of a value. A text may have `\r` and `\n`.

use acn_case_lines::of_word;
use acn_num::{Boxed, NoMemory, Row};
use acn_tree::Value;
use std::alloc::Global;

#[derive(Drop)]
enum Open {
    Record(Row<Option<Value>>),
    List(Row<Value>),
    Alternative(u32),
}

/// The values that aren't ended, and the last one that was.
#[derive(Drop)]
struct Reading {
    open: Vec<Open>,
    done: Option<Boxed<Value>>,
}

fn octets_of(alloc: Global, digits: &str) -> Result<Value, NoMemory> {
    let mut octets = Row::new(alloc);
    for at in 0..digits.len() / 2 {
        let pair = digits.get(2 * at..2 * at + 2).unwrap_or("");
        octets.push(u8::from_str_radix(pair, 16).unwrap_or(0))?;
    }
    Ok(Value::Octets(octets))
}

fn bits_of(alloc: Global, digits: &str) -> Result<Value, NoMemory> {
    let mut bits = Row::new(alloc);
    for digit in digits.bytes() {
        bits.push(digit == b'1')?;
    }
    Ok(Value::Bits(bits))
}

// Adds the octet of the letter behind a `\`, and what stands behind it.
fn push_escaped(piece: &str, octets: &mut Row<u8>) -> Result<(), NoMemory> {
    let mut letters = piece.bytes();
    match letters.next() {
        Some(b'r') => octets.push(13)?,
        Some(b'n') => octets.push(10)?,
        Some(other) => octets.push(other)?,
        None => {}
    }
    for letter in letters {
        octets.push(letter)?;
    }
    Ok(())
}

fn text_of(alloc: Global, text: &str) -> Result<Value, NoMemory> {
    let mut octets = Row::new(alloc);
    for (place, piece) in text.split("\\").enumerate() {
        if place == 0 {
            for letter in piece.bytes() {
                octets.push(letter)?;
            }
        } else {
            push_escaped(piece, &mut octets)?;
        }
    }
    Ok(Value::Text(octets))
}

// The value of a word with a colon.
fn marked_of(alloc: Global, mark: &str, text: &str) -> Result<Option<Boxed<Value>>, NoMemory> {
    let value = match mark {
        "item" => Value::Item(text.parse::<u32>().unwrap_or(0)),
        "octets" => octets_of(alloc, text)?,
        "bits" => bits_of(alloc, text)?,
        "text" => text_of(alloc, text)?,
        _ => return Ok(None),
    };
    Ok(Some(Boxed::new(alloc, value)?))
}

// The value of a word alone.
fn plain_of(alloc: Global, word: &str) -> Result<Option<Boxed<Value>>, NoMemory> {
    match word.split_once(":") {
        Some((mark, text)) => marked_of(alloc, mark, text),
        None => {
            let value = match word {
                "true" => Value::Bool(true),
                "false" => Value::Bool(false),
                "null" => Value::Null,
                number => Value::Int(of_word(number)),
            };
            Ok(Some(Boxed::new(alloc, value)?))
        }
    }
}

fn alternative_of(
    alloc: Global,
    number: u32,
    value: Boxed<Value>,
) -> Result<Boxed<Value>, NoMemory> {
    Boxed::new(alloc, Value::Alt(number, value))
}

fn ended_value(alloc: Global, open: Open) -> Result<Option<Boxed<Value>>, NoMemory> {
    match open {
        Open::Record(places) => Ok(Some(Boxed::new(alloc, Value::Seq(places))?)),
        Open::List(elements) => Ok(Some(Boxed::new(alloc, Value::List(elements))?)),
        Open::Alternative(_) => Ok(None),
    }
}

impl Reading {
    // Puts a value into the one that isn't ended.
    fn put_into(&mut self, value: Boxed<Value>) -> Result<(), NoMemory> {
        match self.open.last_mut() {
            Some(Open::Record(places)) => places.push(Some(value.into_inner())),
            Some(Open::List(elements)) => elements.push(value.into_inner()),
            Some(Open::Alternative(_)) => Ok(()),
            None => {
                self.done = Some(value);
                Ok(())
            }
        }
    }

    // The number of the alternative whose value comes next.
    fn alternative(&mut self) -> Option<u32> {
        if let Some(Open::Alternative(number)) = self.open.last() {
            let number = *number;
            self.open.pop();
            return Some(number);
        }
        None
    }

    fn put(&mut self, alloc: Global, value: Boxed<Value>) -> Result<(), NoMemory> {
        let mut value = value;
        for _ in 0..self.open.len() {
            match self.alternative() {
                Some(number) => value = alternative_of(alloc, number, value)?,
                None => return self.put_into(value),
            }
        }
        self.put_into(value)
    }

    fn put_some(&mut self, alloc: Global, value: Option<Boxed<Value>>) -> Result<(), NoMemory> {
        match value {
            Some(value) => self.put(alloc, value),
            None => Ok(()),
        }
    }

    fn absent(&mut self) -> Result<(), NoMemory> {
        match self.open.last_mut() {
            Some(Open::Record(places)) => places.push(None),
            _ => Ok(()),
        }
    }

    fn end(&mut self, alloc: Global) -> Result<(), NoMemory> {
        match self.open.pop() {
            Some(open) => {
                let value = ended_value(alloc, open)?;
                self.put_some(alloc, value)
            }
            None => Ok(()),
        }
    }

    fn take(&mut self, alloc: Global, word: &str) -> Result<(), NoMemory> {
        match word {
            "{" => {
                self.open.push(Open::Record(Row::new(alloc)))?;
                Ok(())
            }
            "[" => {
                self.open.push(Open::List(Row::new(alloc)))?;
                Ok(())
            }
            "}" | "]" => self.end(alloc),
            "-" => self.absent(),
            _ => match word.strip_prefix("alternative:") {
                Some(number) => {
                    let number = number.parse::<u32>().unwrap_or(0);
                    self.open.push(Open::Alternative(number))?;
                    Ok(())
                }
                None => self.put_some(alloc, plain_of(alloc, word)?),
            },
        }
    }
}

/// The value of these words, if they are those of one.
pub fn value_of(alloc: Global, words: &[&str]) -> Result<Option<Boxed<Value>>, NoMemory> {
    let mut reading = Reading {
        open: Vec::new(alloc),
        done: None,
    };
    for word in words {
        reading.take(alloc, *word)?;
    }
    Ok(reading.done)
}
