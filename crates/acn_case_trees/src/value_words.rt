//! Values in words.

use acn_num::NoMemory;
use acn_tree::Value;
use std::alloc::Global;

/// What is still to be printed.
#[derive(Clone, Copy)]
enum Job<'v> {
    /// A word.
    Word(&'v str),
    /// A value.
    Value(&'v Value),
}

fn push_octets(octets: &[u8], words: &mut String) -> Result<(), NoMemory> {
    words.push_str(" octets:")?;
    for octet in octets {
        write!(words, "{octet:02x}")?;
    }
    Ok(())
}

fn push_bits(bits: &[bool], words: &mut String) -> Result<(), NoMemory> {
    words.push_str(" bits:")?;
    for bit in bits {
        words.push_str(if *bit { "1" } else { "0" })?;
    }
    Ok(())
}

fn push_text(alloc: Global, text: &[u8], words: &mut String) -> Result<(), NoMemory> {
    let text = String::from_utf8_lossy(alloc, text)?;
    write!(words, " text:{text}")?;
    Ok(())
}

// The places of a record, and its ends.
fn push_places<'v>(places: &'v [Option<Value>], jobs: &mut Vec<Job<'v>>) -> Result<(), NoMemory> {
    jobs.push(Job::Word("}"))?;
    for place in places.iter().rev() {
        match place {
            Some(value) => jobs.push(Job::Value(value))?,
            None => jobs.push(Job::Word("-"))?,
        }
    }
    jobs.push(Job::Word("{"))?;
    Ok(())
}

fn push_elements<'v>(elements: &'v [Value], jobs: &mut Vec<Job<'v>>) -> Result<(), NoMemory> {
    jobs.push(Job::Word("]"))?;
    for element in elements.iter().rev() {
        jobs.push(Job::Value(element))?;
    }
    jobs.push(Job::Word("["))?;
    Ok(())
}

// The words of a value, or what it is made of.
fn print<'v>(
    alloc: Global,
    value: &'v Value,
    words: &mut String,
    jobs: &mut Vec<Job<'v>>,
) -> Result<(), NoMemory> {
    match value {
        Value::Int(number) => {
            write!(words, " {number}")?;
            Ok(())
        }
        Value::Bool(truth) => {
            write!(words, " {truth}")?;
            Ok(())
        }
        Value::Item(index) => {
            write!(words, " item:{index}")?;
            Ok(())
        }
        Value::Null => {
            words.push_str(" null")?;
            Ok(())
        }
        Value::Octets(octets) => push_octets(octets.items(), words),
        Value::Bits(bits) => push_bits(bits.items(), words),
        Value::Text(text) => push_text(alloc, text.items(), words),
        Value::Seq(places) => push_places(places.items(), jobs),
        Value::List(elements) => push_elements(elements.items(), jobs),
        Value::Alt(number, inside) => {
            write!(words, " alternative:{number}")?;
            jobs.push(Job::Value(inside.get()))?;
            Ok(())
        }
    }
}

/// A value in words, up to a million of them.
pub fn value_in_words(alloc: Global, value: &Value) -> Result<String, NoMemory> {
    let mut words = String::new(alloc);
    let mut jobs = Vec::new(alloc);
    jobs.push(Job::Value(value))?;
    for _ in 0..1_000_000 {
        match jobs.pop() {
            Some(Job::Word(word)) => write!(words, " {word}")?,
            Some(Job::Value(value)) => print(alloc, value, &mut words, &mut jobs)?,
            None => return Ok(words),
        }
    }
    Ok(words)
}
