ghost use Rattle.std.specs.Prelude.{◌≡◌, ◌≤◌, ◌<◌, ◌^◌, ◌∷◌, [], ◌≤ℤ◌, IfOk, IsTrue, length, pos, false, None};
ghost use Rattle.acn_num.specs.Ranges.{top};
ghost use Rattle.acn_grammar.specs.Leaves.{num_fine};
ghost use Rattle.acn_grammar.specs.declared.node.NumKind.TheVariants.{Integer};
ghost use Rattle.acn_grammar.specs.declared.node.NumCoding.TheVariants.{PosInt};

use crate::draw::Draw;
use acn_bits::ReadCursor;
use acn_grammar::{Items, NumCoding, NumKind, NumLeaf, ReadFault};
use acn_ints::read_num;
use acn_num::{NoMemory, RangeSet, Row};
use std::alloc::Global;

/// A leaf of an INTEGER from 0 on that has some bits.
fn plain(alloc: Global, high: i128, coding: NumCoding) -> Result<NumLeaf, NoMemory>
    requires above { pos 0 ≤ℤ high }
    requires below { high ≤ℤ top }
    ensures { IfOk result (λ leaf. leaf ≡ record { kind = NumKind.Integer; set = (pos 0, high) ∷ []; coding = coding; little = false; table = None; items = record { items = []; values = false } }) }
{
    Ok(NumLeaf {
        kind: NumKind::Integer,
        set: RangeSet::one(alloc, 0, high)?,
        coding,
        little: false,
        table: None,
        items: Items {
            items: Row::new(alloc),
            values: false,
        },
    })
}

/// The number at a place.
fn number_at(leaf: &NumLeaf, octets: &[u8], place: u64) -> Result<i128, ReadFault>
    requires fine { IsTrue (num_fine leaf.now) }
    requires few { length octets.now ≤ 2 ^ 32 }
{
    let mut cur = ReadCursor::new(octets, 8 * octets.len() as u64);
    match cur.skip(place) {
        Ok(()) => read_num(&mut cur, leaf),
        Err(_) => Err(ReadFault::Short),
    }
}

/// The number, where 64 bits hold it.
fn counted(x: &i128) -> u64 {
    if *x < 0 {
        0
    } else if *x > 18446744073709551615 {
        0
    } else {
        *x as u64
    }
}

/// Reads numbers at drawn places, and answers their sum.
fn reads(leaf: &NumLeaf, octets: &[u8; 4096], rounds: u32) -> u64
    requires { IsTrue (num_fine leaf.now) }
{
    let mut draw = Draw::new();
    let mut sum = 0u64;
    for round in 0..rounds {
        let _round = round;
        if let Ok(x) = number_at(leaf, octets, draw.next() % 32768) {
            sum = sum.wrapping_add(counted(&x));
        }
    }
    sum
}

/// Reads numbers of 11 bits.
pub fn reads_of_11(alloc: Global, octets: &[u8; 4096], rounds: u32) -> Result<u64, NoMemory> {
    let coding = NumCoding::Range { low: 0, width: 11 };
    let leaf = plain(alloc, 2047, coding)?;
    Ok(reads(&leaf, octets, rounds))
}

/// Reads numbers of 32 bits.
pub fn reads_of_32(alloc: Global, octets: &[u8; 4096], rounds: u32) -> Result<u64, NoMemory> {
    let leaf = plain(alloc, 4294967295, NumCoding::PosInt(32))?;
    Ok(reads(&leaf, octets, rounds))
}
