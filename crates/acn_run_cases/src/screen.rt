//! A clock, and what is printed, in memory.

use acn_num::NoMemory;
use std::alloc::Global;
use std::cell::Cell;
use std::fmt::Display;
use std::io;
use std::time::{Clock, Duration};

/// A clock that is so many seconds later each time that it is looked at.
#[derive(Drop)]
pub struct Steps {
    each: u64,
    now: Cell<u64>,
}

impl Steps {
    pub fn new(each: u64) -> Steps {
        Steps {
            each,
            now: Cell::new(0),
        }
    }
}

impl Clock for Steps {
    fn monotonic(&self) -> io::Result<Duration> {
        let now = self.now.get().saturating_add(self.each);
        self.now.set(now);
        Ok(Duration::from_secs(now))
    }

    fn since_1970(&self) -> io::Result<Duration> {
        self.monotonic()
    }
}

/// What is printed.
#[derive(Drop)]
pub struct Screen {
    alloc: Global,
    text: Cell<Vec<u8>>,
}

impl Screen {
    pub fn new(alloc: Global) -> Screen {
        Screen {
            alloc,
            text: Cell::new(Vec::new(alloc)),
        }
    }

    /// What was printed, with `\r` for each carriage return and `\n` for each line feed. It is gone then.
    pub fn in_words(&self) -> Result<String, NoMemory> {
        let text = self.text.replace(Vec::new(self.alloc));
        let mut words = String::new(self.alloc);
        for byte in &text {
            match *byte {
                b'\r' => words.push_str("\\r")?,
                b'\n' => words.push_str("\\n")?,
                byte => words.push(byte as char)?,
            }
        }
        Ok(words)
    }
}

impl Print for Screen {
    fn print<D: Display + Drop>(&self, value: D) -> io::Result<()> {
        let text = format!(in self.alloc; "{value}")?;
        self.write_all(text.as_bytes())
    }

    fn println<D: Display + Drop>(&self, value: D) -> io::Result<()> {
        self.print(value)?;
        self.write_all(b"\n")
    }

    fn write_all(&self, bytes: &[u8]) -> io::Result<()> {
        let mut text = self.text.replace(Vec::new(self.alloc));
        let added = text.extend_from_slice(bytes);
        self.text.set(text);
        added?;
        Ok(())
    }
}
