ghost use Rattle.std.specs.Prelude.{◌≤◌, ◌^◌, length};

use crate::draw::Draw;
use acn_bits::{ReadCursor, Short};

/// The 11 bits at a place.
fn taken(octets: &[u8], place: u64) -> Result<u64, Short>
    requires { length octets.now ≤ 2 ^ 32 }
{
    let mut cur = ReadCursor::new(octets, 8 * octets.len() as u64);
    cur.skip(place)?;
    cur.take(11)
}

/// Takes 11 bits at drawn places, and answers the sum of what they spell.
pub fn takes(octets: &[u8; 4096], rounds: u32) -> u64 {
    let mut draw = Draw::new();
    let mut sum = 0u64;
    for round in 0..rounds {
        let _round = round;
        if let Ok(v) = taken(octets, draw.next() % 32768) {
            sum = sum.wrapping_add(v);
        }
    }
    sum
}
