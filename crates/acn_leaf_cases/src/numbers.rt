//! What a leaf of numbers answers.

ghost use Rattle.std.specs.Prelude.{◌≤◌, length, IsTrue};
ghost use Rattle.acn_num.specs.Ranges.{In};
ghost use Rattle.acn_grammar.specs.Leaves.{num_fine};

use crate::fault::fault_in_words;
use acn_bits::{ReadCursor, WriteCursor};
use acn_case_lines::{bits_in_words, number, octets_in_words, octets_of};
use acn_grammar::{NumLeaf, ReadFault};
use acn_ints::{fill_num, list_num, put_num, read_num};
use acn_leaf::{fixed_width, num_fine, width};
use acn_num::NoMemory;
use std::alloc::Global;

// What stands at the front of the octets.
fn read(leaf: &NumLeaf, octets: &[u8]) -> Result<i128, ReadFault>
    requires fine { IsTrue (num_fine leaf.now) }
    requires few { length octets.now ≤ 1000 }
{
    let mut cur = ReadCursor::new(octets, 8 * octets.len() as u64);
    read_num(&mut cur, leaf)
}

fn read_in_words(alloc: Global, leaf: &NumLeaf, words: &[&str]) -> Result<String, NoMemory>
    requires { IsTrue (num_fine leaf.now) }
{
    let octets = octets_of(alloc, words)?;
    if octets.len() > 1000 {
        return Ok("too many octets".to_string(alloc)?);
    }
    match read(leaf, octets.as_slice()) {
        Ok(x) => Ok(format!(in alloc; "{x}")?),
        Err(fault) => fault_in_words(alloc, fault),
    }
}

fn list_in_words(alloc: Global, leaf: &NumLeaf, x: i128) -> Result<String, NoMemory>
    requires { IsTrue (num_fine leaf.now) }
{
    if leaf.set.holds(x) {
        return bits_in_words(alloc, &list_num(alloc, leaf, x)?);
    }
    Ok("not permitted".to_string(alloc)?)
}

fn width_in_words(alloc: Global, leaf: &NumLeaf) -> Result<String, NoMemory>
    requires { IsTrue (num_fine leaf.now) }
{
    match width(leaf) {
        Some(bits) => Ok(format!(in alloc; "{bits}")?),
        None => Ok("none".to_string(alloc)?),
    }
}

fn not_permitted(alloc: Global) -> Result<String, NoMemory> {
    Ok("not permitted".to_string(alloc)?)
}

// A hole in front of the second number, which the first fills, in octets of ones; how many bits these are. None comes where
// the codes have no fixed width.
#[tactic(auto, using(crate::proofs::Fixed::length_is_fixed, crate::proofs::Fixed::width_is_fixed))]
fn filled(buf: &mut [u8; 64], leaf: &NumLeaf, first: i128, second: i128) -> Option<u64>
    requires fine { IsTrue (num_fine leaf.now) }
    requires first { In leaf.now.set first }
    requires second { In leaf.now.set second }
{
    let bits = fixed_width(&leaf.coding)?;
    if bits > 64 {
        return None;
    }
    let mut out = WriteCursor::new(buf);
    let hole = out.hole(bits);
    put_num(&mut out, leaf, second);
    fill_num(&mut out, hole, leaf, first);
    Some(out.at())
}

// The octets of these bits.
fn octets_told(alloc: Global, buf: &[u8; 64], bits: u64) -> Result<String, NoMemory> {
    let count = bits.saturating_add(7) / 8;
    let octets = buf.get(..count as usize).unwrap_or(&[]);
    let words = octets_in_words(alloc, octets)?;
    Ok(format!(in alloc; "{bits} bits {words}")?)
}

fn fill_in_words(
    alloc: Global,
    leaf: &NumLeaf,
    first: i128,
    second: i128,
) -> Result<String, NoMemory>
    requires { IsTrue (num_fine leaf.now) }
{
    if !leaf.set.holds(first) || !leaf.set.holds(second) {
        return not_permitted(alloc);
    }
    let mut buf = [0xffu8; 64];
    match filled(&mut buf, leaf, first, second) {
        Some(bits) => octets_told(alloc, &buf, bits),
        None => Ok("no width".to_string(alloc)?),
    }
}

/// The answer to a question about a leaf of numbers.
pub fn about_number(
    alloc: Global,
    leaf: &NumLeaf,
    question: &str,
    words: &[&str],
) -> Result<String, NoMemory> {
    if !num_fine(leaf) {
        return Ok("no fine leaf".to_string(alloc)?);
    }
    match question {
        "fine" => Ok("Ok".to_string(alloc)?),
        "read" => read_in_words(alloc, leaf, words),
        "list" => list_in_words(alloc, leaf, number(words, 0)),
        "width" => width_in_words(alloc, leaf),
        "fill" => fill_in_words(alloc, leaf, number(words, 0), number(words, 1)),
        _ => Ok("not understood".to_string(alloc)?),
    }
}
