//! Each width at each place of an octet, against bits that are read and written one by one.

ghost use Rattle.std.specs.Prelude.{◌+◌, ◌<◌, ◌≤◌, length};
ghost use Rattle.acn_bits.specs.Writing.{place_of};

use acn_bits::{ReadCursor, WriteCursor};
use acn_num::NoMemory;
use std::alloc::Global;

// The number that some bits from a place on spell, one bit after another.
fn taken_bit_by_bit(octets: &[u8], place: u32, bits: u32) -> u64 {
    let mut number = 0u64;
    for i in 0..bits {
        let at = place.wrapping_add(i);
        let octet = octets.get((at / 8) as usize).copied().unwrap_or(0);
        number = number << 1 | u64::from(octet >> (7 - at % 8) & 1);
    }
    number
}

// Whether so many bits at this place are read as one by one.
fn reads_the_same(octets: &[u8], place: u32, bits: u32) -> bool
    requires few { length octets.now ≤ 1000 }
    requires width { bits ≤ 64 }
{
    let mut cur = ReadCursor::new(octets, 8 * octets.len() as u64);
    if cur.skip(u64::from(place)).is_err() {
        return false;
    }
    match cur.take(bits) {
        Ok(number) => number == taken_bit_by_bit(octets, place, bits),
        Err(_) => false,
    }
}

// What differs first.
fn first_difference(alloc: Global, found: Option<(u32, u32)>) -> Result<String, NoMemory> {
    match found {
        Some((place, bits)) => Ok(format!(in alloc; "{bits} bits at {place}")?),
        None => Ok("Ok".to_string(alloc)?),
    }
}

fn first_read(octets: &[u8]) -> Option<(u32, u32)>
    requires { length octets.now ≤ 1000 }
{
    for place in 0..8u32 {
        for bits in 0..65u32 {
            if !reads_the_same(octets, place, bits) {
                return Some((place, bits));
            }
        }
    }
    None
}

/// `Ok` where each width from 0 to 64 bits at each place of the first octet is read as bit by bit.
pub fn reads_bit_by_bit(alloc: Global, octets: &[u8]) -> Result<String, NoMemory> {
    if octets.len() > 1000 {
        return Ok("too many octets".to_string(alloc)?);
    }
    first_difference(alloc, first_read(octets))
}

// Writes the lowest bits of a number from a place on, one bit after another.
fn write_bit_by_bit(buf: &mut [u8; 10], place: u32, bits: u32, number: u64)
    requires { bits ≤ 64 }
{
    for i in 0..bits {
        let at = place.wrapping_add(i);
        let mask = 128u8 >> (at % 8);
        let bit = number >> (bits - 1 - i) & 1 == 1;
        if let Some(octet) = buf.get_mut((at / 8) as usize) {
            *octet = if bit { *octet | mask } else { *octet & !mask };
        }
    }
}

// Puts as many of the lowest bits of a number.
fn put_lowest(out: &mut WriteCursor<'_, 10>, bits: u32, number: u64)
    requires width { bits ≤ 64 }
    requires room { place_of out.old + bits ≤ 80 }
{
    if bits == 64 {
        out.put(64, number);
    } else {
        out.put(bits, number % (1 << bits));
    }
}

// Leaves a hole, and fills it with as many of the lowest bits of a number.
fn fill_lowest(out: &mut WriteCursor<'_, 10>, bits: u32, number: u64)
    requires width { bits ≤ 64 }
    requires room { place_of out.old + bits ≤ 80 }
{
    let hole = out.hole(bits);
    if bits == 64 {
        out.fill(hole, number);
    } else {
        out.fill(hole, number % (1 << bits));
    }
}

// Whether bits that are put, and bits that are filled in, are those that are written one by one.
fn writes_the_same(start: [u8; 10], place: u32, bits: u32, number: u64) -> bool
    requires place { place < 8 }
    requires width { bits ≤ 64 }
{
    let mut wanted = start;
    write_bit_by_bit(&mut wanted, 0, place, 0);
    write_bit_by_bit(&mut wanted, place, bits, number);
    let mut put = start;
    let mut out = WriteCursor::new(&mut put);
    out.put(place, 0);
    put_lowest(&mut out, bits, number);
    drop(out);
    let mut filled = start;
    let mut out = WriteCursor::new(&mut filled);
    out.put(place, 0);
    fill_lowest(&mut out, bits, number);
    drop(out);
    put == wanted && filled == wanted
}

fn first_written(start: [u8; 10], number: u64) -> Option<(u32, u32)> {
    for place in 0..8u32 {
        for bits in 0..65u32 {
            if !writes_the_same(start, place, bits, number) {
                return Some((place, bits));
            }
        }
    }
    None
}

// The first ten octets.
fn ten(octets: &[u8]) -> [u8; 10] {
    let mut buf = [0u8; 10];
    for (at, octet) in octets.iter().enumerate() {
        if let Some(place) = buf.get_mut(at) {
            *place = *octet;
        }
    }
    buf
}

/// `Ok` where each width from 0 to 64 bits of a number at each place of the first octet is written as bit by bit.
pub fn writes_bit_by_bit(alloc: Global, octets: &[u8], number: u64) -> Result<String, NoMemory> {
    first_difference(alloc, first_written(ten(octets), number))
}
