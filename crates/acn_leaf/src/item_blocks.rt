//! Whether the items of an ENUMERATED differ in name and in number (X.680 clause 20).
//!
//! The names, or the numbers, of two blocks at a time are listed on the stack and sorted there, which takes no memory: the
//! same ones are neighbours then. Each pair of blocks is looked at.
ghost use Rattle.std.specs.Prelude.{◌≡◌, ◌≤◌, ◌+◌, ◌++◌, ◌&&◌, length, map};
ghost use Rattle.std.specs.Ordering.{int_eq};
ghost use Rattle.acn_grammar.specs.Asks.{same_name};
ghost use Rattle.acn_grammar.specs.Leaves.{all_differ};
ghost use Rattle.acn_leaf.specs.declared.item_blocks.TheConstants.{BLOCK, TWO_BLOCKS};

use crate::names::names_differ;
use crate::numbers::numbers_differ;
use acn_num::Name;
use arrayvec::ArrayVec;

/// So many items make a block.
const BLOCK: usize = 1024;

/// The names of two blocks are sorted at once, and so are the numbers: their list takes 32 KiB of the stack.
const TWO_BLOCKS: usize = 2048;

/// So few names, or numbers, are sorted in a list of their own, which takes 512 octets of the stack.
const FEW: usize = 32;

// Whether no two items of both lists together, of which there are `MOST` at most, have one name, by
// their order.
#[inline(never)]
fn listed_names_differ<'a, const MOST: usize>(
    front: &'a [(Name, i128)],
    behind: &'a [(Name, i128)],
) -> bool
    requires room { length front.now + length behind.now ≤ MOST }
    requires most { MOST ≤ TWO_BLOCKS }
    ensures { result ≡ all_differ same_name (map (λ item. item.0) front.now ++ map (λ item. item.0) behind.now) }
{
    let mut names: ArrayVec<&[u8], MOST> = ArrayVec::new();
    for item in front {
        names.push(item.0.bytes());
    }
    for item in behind {
        names.push(item.0.bytes());
    }
    names_differ(names.as_mut_slice())
}

// Whether no two items of both lists together have one name.
fn both_names_differ(front: &[(Name, i128)], behind: &[(Name, i128)]) -> bool
    requires front { length front.now ≤ BLOCK }
    requires behind { length behind.now ≤ BLOCK }
    ensures { result ≡ all_differ same_name (map (λ item. item.0) front.now ++ map (λ item. item.0) behind.now) }
{
    if front.len() + behind.len() <= FEW {
        listed_names_differ::<FEW>(front, behind)
    } else {
        listed_names_differ::<TWO_BLOCKS>(front, behind)
    }
}

// Whether the names of a block of items differ from each other and from those behind it.
fn block_of_names_differs(block: &[(Name, i128)], behind: &[(Name, i128)]) -> bool
    requires { length block.now ≤ BLOCK }
    ensures { all_differ same_name (map (λ item. item.0) block.now ++ map (λ item. item.0) behind.now) ≡ (result && all_differ same_name (map (λ item. item.0) behind.now)) }
{
    if !both_names_differ(block, &[]) {
        return false;
    }
    let mut rest = behind;
    while !rest.is_empty() {
        let (next, more) = rest.split_at(rest.len().min(BLOCK));
        if !both_names_differ(block, next) {
            return false;
        }
        rest = more;
    }
    true
}

// Whether the names of the items differ.
fn list_of_names_differs(items: &[(Name, i128)]) -> bool
    ensures { result ≡ all_differ same_name (map (λ item. item.0) items.now) }
{
    let mut rest = items;
    while !rest.is_empty() {
        let (block, behind) = rest.split_at(rest.len().min(BLOCK));
        if !block_of_names_differs(block, behind) {
            return false;
        }
        rest = behind;
    }
    true
}

/// Whether no two items have one name.
pub fn item_names_differ(items: &[(Name, i128)]) -> bool
    ensures { result ≡ all_differ (λ a b. same_name a.0 b.0) items.now }
{
    list_of_names_differs(items)
}

// Whether no two items of both lists together, of which there are `MOST` at most, have one number, by
// their order.
#[inline(never)]
fn listed_numbers_differ<'a, const MOST: usize>(
    front: &'a [(Name, i128)],
    behind: &'a [(Name, i128)],
) -> bool
    requires room { length front.now + length behind.now ≤ MOST }
    requires most { MOST ≤ TWO_BLOCKS }
    ensures { result ≡ all_differ int_eq (map (λ item. item.1) front.now ++ map (λ item. item.1) behind.now) }
{
    let mut numbers: ArrayVec<i128, MOST> = ArrayVec::new();
    for item in front {
        numbers.push(item.1);
    }
    for item in behind {
        numbers.push(item.1);
    }
    numbers_differ(numbers.as_mut_slice())
}

// Whether no two items of both lists together have one number.
fn both_numbers_differ(front: &[(Name, i128)], behind: &[(Name, i128)]) -> bool
    requires front { length front.now ≤ BLOCK }
    requires behind { length behind.now ≤ BLOCK }
    ensures { result ≡ all_differ int_eq (map (λ item. item.1) front.now ++ map (λ item. item.1) behind.now) }
{
    if front.len() + behind.len() <= FEW {
        listed_numbers_differ::<FEW>(front, behind)
    } else {
        listed_numbers_differ::<TWO_BLOCKS>(front, behind)
    }
}

// Whether the numbers of a block of items differ from each other and from those behind it.
fn block_of_numbers_differs(block: &[(Name, i128)], behind: &[(Name, i128)]) -> bool
    requires { length block.now ≤ BLOCK }
    ensures { all_differ int_eq (map (λ item. item.1) block.now ++ map (λ item. item.1) behind.now) ≡ (result && all_differ int_eq (map (λ item. item.1) behind.now)) }
{
    if !both_numbers_differ(block, &[]) {
        return false;
    }
    let mut rest = behind;
    while !rest.is_empty() {
        let (next, more) = rest.split_at(rest.len().min(BLOCK));
        if !both_numbers_differ(block, next) {
            return false;
        }
        rest = more;
    }
    true
}

// Whether the numbers of the items differ.
fn list_of_numbers_differs(items: &[(Name, i128)]) -> bool
    ensures { result ≡ all_differ int_eq (map (λ item. item.1) items.now) }
{
    let mut rest = items;
    while !rest.is_empty() {
        let (block, behind) = rest.split_at(rest.len().min(BLOCK));
        if !block_of_numbers_differs(block, behind) {
            return false;
        }
        rest = behind;
    }
    true
}

/// Whether no two items have one number.
pub fn item_numbers_differ(items: &[(Name, i128)]) -> bool
    ensures { result ≡ all_differ (λ a b. int_eq a.1 b.1) items.now }
{
    list_of_numbers_differs(items)
}
