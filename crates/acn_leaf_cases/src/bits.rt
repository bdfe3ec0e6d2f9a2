//! Bits that are read from octets and written into them.

ghost use Rattle.std.specs.Prelude.{◌+◌, ◌≤◌};
ghost use Rattle.acn_bits.specs.Writing.{place_of};

use crate::bitwise::{reads_bit_by_bit, writes_bit_by_bit};
use acn_bits::{ReadCursor, WriteCursor};
use acn_case_lines::{octets_in_words, small, wide};
use acn_num::NoMemory;
use std::alloc::Global;

fn cursor(octets: &[u8]) -> Option<ReadCursor<'_>> {
    if octets.len() > 1000 {
        return None;
    }
    Some(ReadCursor::new(octets, 8 * octets.len() as u64))
}

// The next bits as a number.
fn take(cur: &mut ReadCursor<'_>, bits: u32) -> Option<u64> {
    if bits > 64 {
        return None;
    }
    cur.take(bits).ok()
}

// The number of so many bits behind others.
fn taken(octets: &[u8], skipped: u64, bits: u32) -> Option<u64> {
    let mut cur = cursor(octets)?;
    cur.skip(skipped).ok()?;
    take(&mut cur, bits)
}

/// What a window answered: where it begins, the number that was read in it, and where the bits that were given end.
#[derive(Clone, Copy, Drop)]
struct Seen {
    origin: u64,
    number: Option<u64>,
    reach: u64,
    behind: u64,
}

// Reads in a window behind bits that are skipped.
fn look(octets: &[u8], skipped: u64, window: u64, bits: u32) -> Option<Seen> {
    let mut cur = cursor(octets)?;
    cur.skip(skipped).ok()?;
    let mut inner = cur.window(window).ok()?;
    let number = take(&mut inner, bits);
    Some(Seen {
        origin: inner.origin(),
        number,
        reach: inner.reach(),
        behind: cur.left(),
    })
}

fn number_in_words(alloc: Global, number: Option<u64>) -> Result<String, NoMemory> {
    match number {
        Some(number) => Ok(format!(in alloc; "{number}")?),
        None => Ok("Short".to_string(alloc)?),
    }
}

fn seen_in_words(alloc: Global, seen: Option<Seen>) -> Result<String, NoMemory> {
    let Some(seen) = seen else {
        return Ok("Short".to_string(alloc)?);
    };
    let number = number_in_words(alloc, seen.number)?;
    Ok(format!(in alloc;
        "{number} from {} to {}, {} behind",
        seen.origin, seen.reach, seen.behind
    )?)
}

// The octets in a buffer of 16.
fn buffer(octets: &[u8]) -> [u8; 16] {
    let mut buf = [0u8; 16];
    for (at, octet) in octets.iter().enumerate() {
        if let Some(place) = buf.get_mut(at) {
            *place = *octet;
        }
    }
    buf
}

/// What was written: the first bit of a hole, the bit behind it, how many bits there are up to the last, and how many are left.
#[derive(Clone, Copy, Drop)]
struct Written {
    hole: Option<(u64, u32)>,
    at: u64,
    room: u64,
}

// Puts as many of the lowest bits of a number.
fn put_lowest(out: &mut WriteCursor<'_, 16>, bits: u32, number: u64) -> Option<(u64, u32)>
    requires width { bits ≤ 64 }
    requires room { place_of out.old + bits ≤ 128 }
{
    if bits == 64 {
        out.put(64, number);
    } else {
        out.put(bits, number % (1 << bits));
    }
    None
}

// Leaves a hole, puts a one behind it, and fills it with as many of the lowest bits of a number.
fn fill_lowest(out: &mut WriteCursor<'_, 16>, bits: u32, number: u64) -> Option<(u64, u32)>
    requires width { bits ≤ 64 }
    requires room { place_of out.old + bits + 1 ≤ 128 }
{
    let hole = out.hole(bits);
    let told = (hole.place(), hole.width());
    out.put(1, 1);
    if bits == 64 {
        out.fill(hole, number);
    } else {
        out.fill(hole, number % (1 << bits));
    }
    Some(told)
}

// Writes zeros, and a number behind them.
fn write(buf: &mut [u8; 16], filled: bool, zeros: u32, bits: u32, number: u64) -> Option<Written> {
    if zeros > 60 || bits > 64 {
        return None;
    }
    let mut out = WriteCursor::new(buf);
    out.put(zeros, 0);
    let hole = if filled {
        fill_lowest(&mut out, bits, number)
    } else {
        put_lowest(&mut out, bits, number)
    };
    Some(Written {
        hole,
        at: out.at(),
        room: out.room(),
    })
}

fn written_in_words(alloc: Global, written: Written, octets: &[u8]) -> Result<String, NoMemory> {
    let octets = octets_in_words(alloc, octets)?;
    let Written { hole, at, room } = written;
    match hole {
        Some((place, width)) => {
            Ok(format!(in alloc; "{octets}, {width} at {place}, {at} written, {room} left")?)
        }
        None => Ok(format!(in alloc; "{octets}, {at} written, {room} left")?),
    }
}

fn write_told(
    alloc: Global,
    octets: &[u8],
    filled: bool,
    words: &[&str],
) -> Result<String, NoMemory> {
    let mut buf = buffer(octets);
    let (zeros, bits) = (small(words, 0), small(words, 1));
    match write(&mut buf, filled, zeros, bits, wide(words, 2)) {
        Some(written) => {
            written_in_words(alloc, written, buf.get(..octets.len()).unwrap_or(&[]))
        }
        None => Ok("too much".to_string(alloc)?),
    }
}

/// The answer to a question about bits of octets.
pub fn about_octets(
    alloc: Global,
    octets: &[u8],
    question: &str,
    words: &[&str],
) -> Result<String, NoMemory> {
    match question {
        "take" => number_in_words(alloc, taken(octets, wide(words, 0), small(words, 1))),
        "window" => {
            let seen = look(octets, wide(words, 0), wide(words, 1), small(words, 2));
            seen_in_words(alloc, seen)
        }
        "put" => write_told(alloc, octets, false, words),
        "fill" => write_told(alloc, octets, true, words),
        "each-width-read" => reads_bit_by_bit(alloc, octets),
        "each-width-written" => writes_bit_by_bit(alloc, octets, wide(words, 0)),
        _ => Ok("not understood".to_string(alloc)?),
    }
}
