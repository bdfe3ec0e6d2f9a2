//! What is printed behind the line of a run.

ghost use Rattle.std.specs.Prelude.{◌≡◌, ◌≤◌, ◌++◌, ◌∷◌, [], Some, IsTrue, is_err, OnOk, OnErr};
ghost use Rattle.acn_advice.specs.Page.{AddsLines, feeds};
ghost use Rattle.acn_advice.specs.declared.page.TheConstants.{MOST_LINES};
ghost use Rattle.acn_outside.specs.Counts.{Rose, Stays};

use acn_outside::{Failed, Sink, write_all};
use std::alloc::Global;
use std::marker::Model;

/// The most lines of a page.
pub const MOST_LINES: u64 = 6;

/// A page: an output in memory that takes `MOST_LINES` lines, and fails behind them.
#[derive(Drop)]
pub struct Page {
    text: Vec<u8>,
    lines: u64,
    faults: u64,
}

impl Model for Page {
    ghost use Rattle.std.specs.Prelude.{◌≡◌, ◌≤◌};
    ghost use Rattle.acn_advice.specs.Page.{Written, feeds};
    ghost use Rattle.acn_advice.specs.declared.page.TheConstants.{MOST_LINES};

    ghost Value = { Written };

    ghost view = { λ page. record { text = page.text.items; faults = page.faults } };

    ghost invariant = { λ page. (page.lines ≡ feeds page.text.items) × (page.lines ≤ MOST_LINES) };
}

// How many line feeds a byte is.
fn line_feeds(byte: u8) -> u64
    ensures value { result ≡ feeds (byte ∷ []) }
    ensures most { result ≤ 1 }
{
    if byte == b'\n' { 1 } else { 0 }
}

impl Page {
    /// A page without a line.
    pub fn new(alloc: Global) -> Page
        ensures { result.text ≡ [] }
    {
        Page {
            text: Vec::new(alloc),
            lines: 0,
            faults: 0,
        }
    }

    // Nothing more can be taken.
    fn refuse(&mut self) -> Result<(), Failed>
        ensures err { IsTrue (is_err result) }
        ensures same { self.new.text ≡ self.old.text }
        ensures rose { Rose self.old.faults self.new.faults }
        ensures count { self.old.faults ≤ self.new.faults }
    {
        self.faults = self.faults.saturating_add(1);
        Err(Failed)
    }

    fn take(&mut self, byte: u8) -> Result<(), Failed>
        ensures taken { OnOk result (self.new.text ≡ self.old.text ++ byte ∷ []) }
        ensures same { OnErr result (self.new.text ≡ self.old.text) }
        ensures rose { OnErr result (Rose self.old.faults self.new.faults) }
        ensures count { self.old.faults ≤ self.new.faults }
        ensures uncounted { OnOk result (Stays self.old.faults self.new.faults) }
    {
        if self.lines >= MOST_LINES {
            return self.refuse();
        }
        match self.text.push(byte) {
            Ok(()) => {
                self.lines += line_feeds(byte);
                Ok(())
            }
            Err(_) => self.refuse(),
        }
    }

    /// Prints the page. The output gains at most `MOST_LINES` lines.
    pub fn print<O: Sink>(&self, out: &mut O)
        ensures { AddsLines (O.taken out.old) (O.taken out.new) }
    {
        let _ = write_all(out, &self.text);
    }
}

impl Sink for Page {
    ghost taken = { λ page. Some page.text };

    ghost faults = { λ page. page.faults };

    fn write(&mut self, from: &[u8]) -> Result<usize, Failed> {
        match from.first() {
            None => Ok(0),
            Some(byte) => match self.take(*byte) {
                Ok(()) => Ok(1),
                Err(failed) => Err(failed),
            },
        }
    }
}
