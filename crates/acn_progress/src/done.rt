//! What is done of a run, and the line that tells it.

ghost use Rattle.std.specs.Prelude.{◌≡◌, length};
ghost use Rattle.acn_print.specs.Printing.{Prints};
ghost use Rattle.acn_progress.specs.Counting as spec;
ghost use Rattle.acn_progress.specs.Counting.{done_line, line_ends};

use crate::way::Way;
use acn_outside::{Failed, Sink};
use acn_print::{Piece, put_all};
use memchr::memchr_iter;

// An octet has so many bits.
const OCTET_BITS: u64 = 8;

/// What is done of a run.
#[derive(Clone, Copy)]
pub struct Done {
    /// How many lines were read or written, or values were made. A packet that becomes one line is
    /// counted by its line.
    pub lines: u64,
    /// How many octets of packets were read or written; of values that were made, whole ones of
    /// their bits together.
    pub octets: u64,
}

// How many lines end in these bytes.
fn line_ends_of(bytes: &[u8]) -> u64
    ensures { result ≡ line_ends bytes.now }
{
    memchr_iter(b'\n', bytes).count() as u64
}

impl Done {
    // The same, with the lines that end in these bytes.
    fn with_lines(self, bytes: &[u8]) -> Done
        ensures { result ≡ record { lines = spec.more self.lines (line_ends bytes.now); octets = self.octets } }
    {
        Done {
            lines: self.lines.saturating_add(line_ends_of(bytes)),
            octets: self.octets,
        }
    }

    // The same, with these octets.
    fn with_octets(self, bytes: &[u8]) -> Done
        ensures { result ≡ record { lines = self.lines; octets = spec.more self.octets (length bytes.now) } }
    {
        Done {
            lines: self.lines,
            octets: self.octets.saturating_add(bytes.len() as u64),
        }
    }

    /// What is done when these bytes were read as well.
    pub fn read(self, way: Way, bytes: &[u8]) -> Done
        ensures { result ≡ spec.read way self bytes.now }
    {
        match way {
            Way::Encoding => self.with_lines(bytes),
            Way::Decoding => self.with_octets(bytes),
            Way::Explaining => self.with_octets(bytes),
            Way::Working => self,
        }
    }

    /// What is done when these bytes were written as well.
    pub fn wrote(self, way: Way, bytes: &[u8]) -> Done
        ensures { result ≡ spec.wrote way self bytes.now }
    {
        match way {
            Way::Encoding => self.with_octets(bytes),
            Way::Decoding => self.with_lines(bytes),
            Way::Explaining => self.with_lines(bytes),
            Way::Working => self,
        }
    }

    /// What is done when so many values were made, of which so many bits were written.
    pub fn made(values: u64, bits: u64) -> Done
        ensures { result ≡ spec.made values bits }
    {
        Done {
            lines: values,
            octets: bits / OCTET_BITS,
        }
    }
}

fn lines_word(way: Way) -> &'static str
    ensures { result.now ≡ spec.lines_word way }
{
    match way {
        Way::Encoding => " lines read, ",
        Way::Decoding => " packets, ",
        Way::Explaining => " lines written, ",
        Way::Working => " values made, ",
    }
}

fn octets_word(way: Way) -> &'static str
    ensures { result.now ≡ spec.octets_word way }
{
    match way {
        Way::Encoding => " octets written",
        Way::Decoding => " octets read",
        Way::Explaining => " octets read",
        Way::Working => " octets packed",
    }
}

/// Prints the line that tells what is done: `acn: A packets, B octets read`, and the like, without an
/// end. It takes no memory.
///
/// On Ok the output gained exactly this line. `Failed` comes only where the count of the output's faults rose in this call, and then a
/// front of the line was gained.
pub fn put_done<O: Sink>(way: Way, done: &Done, out: &mut O) -> Result<(), Failed>
    ensures { Prints (done_line way done.now) (O.taken out.old, O.faults out.old) (O.taken out.new, O.faults out.new) result }
{
    put_all(
        out,
        &[
            Piece::Text("acn: "),
            Piece::Count(done.lines),
            Piece::Text(lines_word(way)),
            Piece::Count(done.octets),
            Piece::Text(octets_word(way)),
        ],
    )
}
