//! Numbers, sizes and strings that are made from a draw.

ghost use Rattle.std.specs.Ordering.{int_eq};
ghost use Rattle.std.specs.Prelude.{◌≡◌, ◌<◌, ◌^◌, ◌≤ℤ◌, ◌<ℤ◌, IfOk, OnOk, IsTrue, length, nat_abs, nat_eq, pos};
ghost use Rattle.acn_num.specs.Ranges.{count};
ghost use Rattle.acn_grammar.specs.Leaves.{num_fine, sizes_fine, text_fine};
ghost use Rattle.acn_tree.specs.Made as made;
ghost use Rattle.acn_grammar.specs.View.{data_of};

use crate::draw::Draw;
use acn_grammar::{NumKind, NumLeaf, TextLeaf, Value};
use acn_num::{NoMemory, RangeSet, Row};
use std::alloc::Global;

// A small number, which isn't below zero.
fn natural(x: &i128) -> u32
    requires least { pos 0 ≤ℤ x.now }
    requires small { x.now <ℤ pos (2 ^ 32) }
    ensures { result ≡ nat_abs x.now }
{
    let number = *x;
    number as u32
}

fn is_one(x: &i128) -> bool
    ensures { result ≡ int_eq x.now (pos 1) }
{
    *x == 1
}

// The permitted number at a place.
fn at_place(set: &RangeSet, place: u128) -> i128
    ensures { result ≡ made.at_place set.now place }
{
    set.nth(place).unwrap_or(0)
}

// The permitted number at a place that is drawn.
fn number(set: &RangeSet, draw: &mut Draw) -> i128
    requires { 0 < count set.now }
    ensures value { result ≡ (made.number set.now draw.old).value }
    ensures draw { draw.new ≡ (made.number set.now draw.old).state }
{
    let place = draw.pick(set.count());
    at_place(set, place)
}

/// The value of a number leaf.
pub fn number_value(leaf: &NumLeaf, draw: &mut Draw) -> Value
    requires fine { IsTrue (num_fine leaf.now) }
    requires few { length leaf.now.items.items < 2 ^ 32 }
    ensures value { data_of result ≡ made.number_data leaf.now.kind (made.number leaf.now.set draw.old).value }
    ensures draw { draw.new ≡ (made.number leaf.now.set draw.old).state }
{
    let x = number(&leaf.set, draw);
    match leaf.kind {
        NumKind::Integer => Value::Int(x),
        NumKind::Boolean => Value::Bool(is_one(&x)),
        NumKind::Enumerated => Value::Item(natural(&x)),
        NumKind::Null => Value::Null,
    }
}

/// One of the first eight permitted sizes.
pub fn size(sizes: &RangeSet, draw: &mut Draw) -> usize
    requires { IsTrue (sizes_fine sizes.now) }
    ensures value { result ≡ (made.size sizes.now draw.old).value }
    ensures draw { draw.new ≡ (made.size sizes.now draw.old).state }
{
    let place = draw.pick(sizes.count().min(8));
    natural(&at_place(sizes, place)) as usize
}

// So many octets.
fn some_octets(alloc: Global, n: usize, draw: &mut Draw) -> Result<Row<u8>, NoMemory>
    ensures value { IfOk result (λ os. os ≡ (made.parts (made.pick 256) n draw.old).value) }
    ensures draw { OnOk result (draw.new ≡ (made.parts (made.pick 256) n draw.old).state) }
{
    let mut octets = Row::new(alloc);
    for _ in 0..n {
        octets.push(draw.pick(256) as u8)?;
    }
    Ok(octets)
}

// So many bits.
fn some_bits(alloc: Global, n: usize, draw: &mut Draw) -> Result<Row<bool>, NoMemory>
    ensures value { IfOk result (λ bs. bs ≡ (made.parts (λ s. made.is (nat_eq 1) (made.pick 2 s)) n draw.old).value) }
    ensures draw { OnOk result (draw.new ≡ (made.parts (λ s. made.is (nat_eq 1) (made.pick 2 s)) n draw.old).state) }
{
    let mut bits = Row::new(alloc);
    for _ in 0..n {
        bits.push(draw.pick(2) == 1)?;
    }
    Ok(bits)
}

// One character of the leaf's alphabet.
fn character(leaf: &TextLeaf, draw: &mut Draw) -> u8
    requires { IsTrue (text_fine leaf.now) }
    ensures value { result ≡ (made.is nat_abs (made.number leaf.now.alphabet draw.old)).value }
    ensures draw { draw.new ≡ (made.is nat_abs (made.number leaf.now.alphabet draw.old)).state }
{
    natural(&number(&leaf.alphabet, draw)) as u8
}

// So many characters of the leaf's alphabet.
fn some_characters(
    alloc: Global,
    leaf: &TextLeaf,
    n: usize,
    draw: &mut Draw,
) -> Result<Row<u8>, NoMemory>
    requires { IsTrue (text_fine leaf.now) }
    ensures value { IfOk result (λ cs. cs ≡ (made.parts (λ s. made.is nat_abs (made.number leaf.now.alphabet s)) n draw.old).value) }
    ensures draw { OnOk result (draw.new ≡ (made.parts (λ s. made.is nat_abs (made.number leaf.now.alphabet s)) n draw.old).state) }
{
    let mut characters = Row::new(alloc);
    for _ in 0..n {
        characters.push(character(leaf, draw))?;
    }
    Ok(characters)
}

/// Octets, their size first.
pub fn octets(alloc: Global, sizes: &RangeSet, draw: &mut Draw) -> Result<Row<u8>, NoMemory>
    requires { IsTrue (sizes_fine sizes.now) }
    ensures value { IfOk result (λ os. os ≡ (made.string sizes.now (made.pick 256) draw.old).value) }
    ensures draw { OnOk result (draw.new ≡ (made.string sizes.now (made.pick 256) draw.old).state) }
{
    let n = size(sizes, draw);
    some_octets(alloc, n, draw)
}

/// Bits, their size first.
pub fn bits(alloc: Global, sizes: &RangeSet, draw: &mut Draw) -> Result<Row<bool>, NoMemory>
    requires { IsTrue (sizes_fine sizes.now) }
    ensures value { IfOk result (λ bs. bs ≡ (made.string sizes.now (λ s. made.is (nat_eq 1) (made.pick 2 s)) draw.old).value) }
    ensures draw { OnOk result (draw.new ≡ (made.string sizes.now (λ s. made.is (nat_eq 1) (made.pick 2 s)) draw.old).state) }
{
    let n = size(sizes, draw);
    some_bits(alloc, n, draw)
}

/// The characters of a text, their size first.
pub fn text(alloc: Global, leaf: &TextLeaf, draw: &mut Draw) -> Result<Row<u8>, NoMemory>
    requires { IsTrue (text_fine leaf.now) }
    ensures value { IfOk result (λ cs. cs ≡ (made.string leaf.now.sized.sizes (λ s. made.is nat_abs (made.number leaf.now.alphabet s)) draw.old).value) }
    ensures draw { OnOk result (draw.new ≡ (made.string leaf.now.sized.sizes (λ s. made.is nat_abs (made.number leaf.now.alphabet s)) draw.old).state) }
{
    let n = size(&leaf.sized.sizes, draw);
    some_characters(alloc, leaf, n, draw)
}
