//! What is shown of a run while it goes on.

use crate::done::{Done, put_done};
use crate::way::Way;
use acn_num::NoMemory;
use acn_outside::SureSink;
use acn_work::{Summary, Watch};
use std::alloc::Global;
use std::cell::Cell;
use std::time::{Clock, Instant};

// The most columns of a line.
const MOST_COLUMNS: usize = 80;

const BLANKS: [u8; MOST_COLUMNS] = [b' '; MOST_COLUMNS];

// The clock is looked at once for so many values that are made.
const VALUES_A_LOOK: u64 = 64;

// So many seconds after the line before, and after the run began, a line is shown.
const SECONDS: u64 = 1;

/// What is done of a run, and the line of it that is shown. It is told what is read and written,
/// looks at a clock then, and prints where a second is over. What can't be printed is left.
#[derive(Drop)]
pub struct Progress<'a, R: Clock, P: Print> {
    alloc: Global,
    clock: &'a R,
    to: &'a P,
    way: Option<Way>,
    done: Cell<Done>,
    shown: Cell<Option<Instant>>,
    columns: Cell<usize>,
}

impl<'a, R: Clock, P: Print> Progress<'a, R, P> {
    /// Nothing is done yet of a run that converts in this way. Where there is none, nothing is shown,
    /// and the clock isn't looked at.
    pub fn new(alloc: Global, clock: &'a R, to: &'a P, way: Option<Way>) -> Progress<'a, R, P> {
        let began = match way {
            Some(_) => Instant::now(clock).ok(),
            None => None,
        };
        Progress {
            alloc,
            clock,
            to,
            way,
            done: Cell::new(Done {
                lines: 0,
                octets: 0,
            }),
            shown: Cell::new(began),
            columns: Cell::new(0),
        }
    }

    /// These bytes were read.
    pub fn read(&self, bytes: &[u8]) {
        if let Some(way) = self.way {
            self.done.set(self.done.get().read(way, bytes));
            self.look(way);
        }
    }

    /// These bytes were written.
    pub fn wrote(&self, bytes: &[u8]) {
        if let Some(way) = self.way {
            self.done.set(self.done.get().wrote(way, bytes));
            self.look(way);
        }
    }

    // These values were made.
    fn worked(&self, so_far: &Summary) {
        if let Some(way) = self.way {
            self.done.set(Done::made(so_far.made, so_far.bits));
            if so_far.made % VALUES_A_LOOK == 0 {
                self.look(way);
            }
        }
    }

    // Shows a line where it is time.
    fn look(&self, way: Way) {
        if let Some(shown) = self.shown.get() {
            if let Ok(now) = Instant::now(self.clock) {
                if now.duration_since(shown).as_secs() >= SECONDS {
                    self.shown.set(Some(now));
                    self.show(way);
                }
            }
        }
    }

    fn show(&self, way: Way) {
        if let Ok(line) = self.line(way) {
            if let Some(bytes) = line.bytes() {
                let _ = self.to.write_all(b"\r");
                if self.to.write_all(bytes).is_ok() {
                    self.columns.set(bytes.len());
                }
            }
        }
    }

    // The line, in memory, so that it is printed at once.
    fn line(&self, way: Way) -> Result<SureSink, NoMemory> {
        let room = vec![in self.alloc; 0u8; MOST_COLUMNS]?;
        let mut line = SureSink::new(room, MOST_COLUMNS);
        let _ = put_done(way, &self.done.get(), &mut line);
        Ok(line)
    }

    /// Takes the line away, where one is shown.
    pub fn clear(&self) {
        let columns = self.columns.replace(0);
        if columns > 0 {
            let _ = self.to.write_all(b"\r");
            let _ = self.to.write_all(BLANKS.get(..columns).unwrap_or(&BLANKS));
            let _ = self.to.write_all(b"\r");
        }
    }
}

impl<'a, R: Clock, P: Print> Watch for Progress<'a, R, P> {
    fn made(&self, so_far: &Summary) {
        self.worked(so_far);
    }
}
