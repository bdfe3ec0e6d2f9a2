ghost use Rattle.std.specs.Prelude.{◌≡◌, ◌+◌, ◌*◌, ◌^◌, ◌<◌, ◌≤◌, IfOk, IsTrue, Some, length, take};
ghost use Rattle.acn_bits.specs.Writing.{place_of, Writes, Fills};
ghost use Rattle.acn_num.specs.Bits.{bits, low_bits, number};
ghost use Rattle.acn_num.specs.Ranges.{In};
ghost use Rattle.acn_grammar.specs.Code.{Code, Written};
ghost use Rattle.acn_grammar.specs.Interval.{width_of};
ghost use Rattle.acn_grammar.specs.Leaves.{num_fine};
ghost use Rattle.acn_grammar.specs.Length.{num_length};
ghost use Rattle.acn_bits.specs.declared.word.TheConstants.{WORD_BITS};

use crate::writer::{check_permitted, put_num};
use acn_bits::{Hole, ReadCursor, WriteCursor};
use acn_grammar::NumLeaf;
use acn_num::{BitList, NoMemory};
use std::alloc::Global;

/// Writes the code at the front of a buffer of its own, and answers how many bits it has.
fn write_alone<const M: usize>(buf: &mut [u8; M], leaf: &NumLeaf, x: i128) -> u64
    requires small { M ≤ 2 ^ 32 }
    requires fine { IsTrue (num_fine leaf.now) }
    requires permitted { In leaf.now.set x }
    requires room { num_length leaf.now x ≤ 8 * M }
    ensures code { Code Written leaf.now x (take (num_length leaf.now x) (bits buf.new)) }
    ensures long { length (take (num_length leaf.now x) (bits buf.new)) ≡ num_length leaf.now x }
    ensures count { result ≡ num_length leaf.now x }
{
    let mut out = WriteCursor::new(buf);
    put_num(&mut out, leaf, x);
    out.at()
}

/// How many bits the code of a permitted number has, at most 256. The call takes no memory.
pub fn code_length(leaf: &NumLeaf, x: i128) -> u64
    requires fine { IsTrue (num_fine leaf.now) }
    requires permitted { In leaf.now.set x }
    ensures count { result ≡ num_length leaf.now x }
    ensures short { result ≤ 256 }
{
    check_permitted(leaf, &x);
    let mut buf = [0u8; 32];
    write_alone(&mut buf, leaf, x)
}

/// The number that the first bits of a buffer spell.
fn number_at_front(buf: &[u8; 8], width: u32) -> u64
    requires { width ≤ WORD_BITS }
    ensures { result ≡ number (take width (bits buf.now)) }
{
    let mut bits = ReadCursor::new(buf, 64);
    match bits.take(width) {
        Ok(v) => v,
        Err(_) => unreachable!(),
    }
}

/// The code of a number, as a number.
fn code_number(leaf: &NumLeaf, x: i128, width: u32) -> u64
    requires fine { IsTrue (num_fine leaf.now) }
    requires permitted { In leaf.now.set x }
    requires width { num_length leaf.now x ≡ width }
    requires small { width ≤ WORD_BITS }
    ensures fits { result < 2 ^ width }
    ensures code { Code Written leaf.now x (low_bits width result) }
{
    let mut buf = [0u8; 8];
    let _count = write_alone(&mut buf, leaf, x);
    number_at_front(&buf, width)
}

/// Writes the code of a permitted number in the bits of a hole, and changes no others.
///
/// The hole has the one width of the leaf's codes. The call takes no memory.
pub fn fill_num<const N: usize>(cur: &mut WriteCursor<'_, N>, hole: Hole, leaf: &NumLeaf, x: i128)
    requires fine { IsTrue (num_fine leaf.now) }
    requires permitted { In leaf.now.set x }
    requires width { width_of leaf.now ≡ Some hole.width }
    requires passed { hole.place + hole.width ≤ place_of cur.old }
    ensures { Fills (Code Written leaf.now x) hole.place cur.old cur.new }
{
    check_permitted(leaf, &x);
    let v = code_number(leaf, x, hole.width());
    cur.fill(hole, v);
}

/// The first bits of a buffer as a list.
fn first_bits(alloc: Global, buf: &[u8; 32], count: u64) -> Result<BitList, NoMemory>
    requires { count ≤ 256 }
    ensures { IfOk result (λ list. list ≡ take count (bits buf.now)) }
{
    let mut cur = ReadCursor::new(buf, count);
    let mut list = BitList::new(alloc);
    for i in 0..count {
        let _at = i;
        match cur.take(1) {
            Ok(bit) => list.push(bit == 1)?,
            Err(_) => unreachable!(),
        }
    }
    Ok(list)
}

/// The written code of a permitted number as a list of bits. `NoMemory` where memory is wanting.
pub fn list_num(alloc: Global, leaf: &NumLeaf, x: i128) -> Result<BitList, NoMemory>
    requires fine { IsTrue (num_fine leaf.now) }
    requires permitted { In leaf.now.set x }
    ensures { IfOk result (λ list. Code Written leaf.now x list) }
{
    check_permitted(leaf, &x);
    let mut buf = [0u8; 32];
    let count = write_alone(&mut buf, leaf, x);
    first_bits(alloc, &buf, count)
}
