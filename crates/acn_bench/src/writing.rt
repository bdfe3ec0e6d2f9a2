ghost use Rattle.std.specs.Prelude.{◌≤◌, ◌+◌};
ghost use Rattle.acn_bits.specs.Writing.{place_of};

use crate::draw::Draw;
use acn_bits::WriteCursor;

/// Writes 0 to 7 bits, which move the place on, and then 11 bits.
fn put_two(out: &mut WriteCursor<'_, 4096>, drawn: u64)
    requires { place_of out.old + 18 ≤ 32768 }
{
    out.put((drawn % 8) as u32, 0);
    out.put(11, drawn / 8 % 2048);
}

/// Writes over the whole buffer, and answers how many times two puts had room.
fn write_over(octets: &mut [u8; 4096], draw: &mut Draw) -> u32 {
    let mut out = WriteCursor::new(octets);
    for round in 0..2979 {
        if out.room() < 18 {
            return round;
        }
        put_two(&mut out, draw.next());
    }
    2979
}

/// Puts 11 bits at drawn offsets in their octet, and answers how many times.
pub fn puts(octets: &mut [u8; 4096], passes: u32) -> u64 {
    let mut draw = Draw::new();
    let mut count = 0u64;
    for pass in 0..passes {
        let _pass = pass;
        count = count.wrapping_add(u64::from(write_over(octets, &mut draw)));
    }
    count
}

/// The sum of what the octets spell, each turned on by its place.
pub fn sum_of(octets: &[u8]) -> u64 {
    let mut sum = 0u64;
    for octet in octets {
        sum = sum.wrapping_mul(31).wrapping_add(u64::from(*octet));
    }
    sum
}
