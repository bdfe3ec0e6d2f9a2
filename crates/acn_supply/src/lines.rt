//! Lines of an input.

ghost use Rattle.std.specs.Prelude.{◌≡◌, ◌+◌, ◌<◌, ◌≤◌, ◌++◌, ◌∷◌, [], length, take, drop, IsErrOf, MatchOption};
ghost use Rattle.acn_outside.specs.Counts.{Rose, Stays};
ghost use Rattle.acn_supply.specs.Cutting as spec;
ghost use Rattle.acn_supply.specs.declared.lines.TheConstants.{MOST_LINE_BYTES};
ghost use Rattle.acn_supply.specs.declared.window.TheConstants.{MOST_IN_HAND};

use crate::supply::{More, Supply};
use acn_outside::Source;
use memchr::memchr;

/// The greatest number of bytes of a line, its end not counted.
pub const MOST_LINE_BYTES: usize = 16_777_215;

/// How a line ended.
#[derive(Clone, Copy)]
pub enum Line {
    /// With a line feed.
    Ended,
    /// With the input. It may be empty.
    Last,
}

/// Why there is no line.
#[derive(Clone, Copy)]
pub enum NoLine {
    /// It has more than `MOST_LINE_BYTES` bytes.
    TooLong,
    /// All bytes up to the limit were taken, and one more came.
    PastLimit,
    /// A read failed.
    Failed,
    /// Memory ran out.
    NoMemory,
}

// The place of the first line feed.
fn feed_in(bytes: &[u8]) -> Option<usize>
    ensures { MatchOption result (spec.IsOneLine bytes.now) (λ at. (at < length bytes.now) × spec.IsOneLine (take at bytes.now) × (bytes.now ≡ take at bytes.now ++ 10 ∷ drop (at + 1) bytes.now)) }
{
    memchr(b'\n', bytes)
}

// Adds bytes of a line.
fn append(line: &mut Vec<u8>, bytes: &[u8]) -> Result<(), NoLine>
    ensures { spec.Appends result line.old.items bytes.now line.new.items }
{
    if line.len() + bytes.len() > MOST_LINE_BYTES {
        return Err(NoLine::TooLong);
    }
    match line.extend_from_slice(bytes) {
        Ok(()) => Ok(()),
        Err(_) => Err(NoLine::NoMemory),
    }
}

// Moves what is in hand to the line, up to its line feed, which is let go. False says that none is in hand.
fn step(supply: &mut Supply, line: &mut Vec<u8>) -> Result<bool, NoLine>
    requires { length line.old.items ≤ MOST_LINE_BYTES }
    ensures moved { spec.StepsOn result supply.old.hand supply.new.hand line.old.items line.new.items }
    ensures left { supply.new.left ≡ supply.old.left }
    ensures near { length supply.old.hand ≤ MOST_IN_HAND }
{
    let hand = supply.hand();
    match feed_in(hand) {
        Some(at) => match append(line, &hand[..at]) {
            Ok(()) => {
                supply.skip(at + 1);
                Ok(true)
            }
            Err(no_line) => Err(no_line),
        },
        None => match append(line, hand) {
            Ok(()) => {
                let all = hand.len();
                supply.skip(all);
                Ok(false)
            }
            Err(no_line) => Err(no_line),
        },
    }
}

/// Reads the next line into `line`, in place of what was there: its bytes up to a line feed, which is taken too, or up to the end of the
/// input. The input is read only where no line feed is in hand. `Failed` comes only where its count of faults
/// rose, and else the count stays.
pub fn read_line<S: Source>(
    supply: &mut Supply,
    input: &mut S,
    line: &mut Vec<u8>,
) -> Result<Line, NoLine>
    ensures read { spec.ReadsLine supply.old supply.new (S.rest input.old) (S.rest input.new) result line.new.items }
    ensures count { S.faults input.old ≤ S.faults input.new }
    ensures failed { IsErrOf result NoLine.Failed → Rose (S.faults input.old) (S.faults input.new) }
    ensures uncounted { (IsErrOf result NoLine.Failed → ⊥) → Stays (S.faults input.old) (S.faults input.new) }
{
    line.clear();
    loop {
        match step(supply, line) {
            Ok(true) => return Ok(Line::Ended),
            Ok(false) => {}
            Err(no_line) => return Err(no_line),
        }
        match supply.more(input) {
            Ok(More::Bytes) => {}
            Ok(More::End) => return Ok(Line::Last),
            Ok(More::PastLimit) => return Err(NoLine::PastLimit),
            Err(_) => return Err(NoLine::Failed),
        }
    }
}
