//! Codes of numbers that are one subtraction, or a pattern.

ghost use Rattle.std.specs.Prelude.{◌≡◌, ◌≤◌, ◌≤ℤ◌, ◌∷◌, [], IfSome, IsTrue};
ghost use Rattle.acn_grammar.specs.Leaves.{num_fine};
ghost use Rattle.acn_bits.specs.declared.word.TheConstants.{WORD_BITS};
ghost use Rattle.acn_ints.specs.Limits.{IsNear};
ghost use Rattle.acn_ints.specs.Pieces.{IsBits};
ghost use Rattle.acn_writer.specs.Plain.{CanCount, IsAhead, IsBounded, IsCounted, IsOffset, IsPlainCode};

use acn_bits::WORD_BITS;
use acn_grammar::{NumCoding, NumLeaf, Pattern};

/// A code of at most `WORD_BITS` bits: the lowest bits of a value.
#[derive(Clone, Copy)]
pub struct PlainCode {
    pub width: u32,
    pub value: u64,
}

// The one range of a set that has one.
#[inline(always)]
fn only(ranges: &[(i128, i128)]) -> Option<&(i128, i128)>
    ensures { IfSome result (λ range. ranges.now ≡ range.now ∷ []) }
{
    match ranges {
        [range] => Some(range),
        _ => None,
    }
}

// Whether a number lies in a range.
#[inline(always)]
fn is_in(range: &(i128, i128), x: &i128) -> bool
    ensures low { IsTrue result → range.now.0 ≤ℤ x.now }
    ensures high { IsTrue result → x.now ≤ℤ range.now.1 }
{
    range.0 <= *x && *x <= range.1
}

// How far a number is from the least one.
#[inline(always)]
fn ahead(low: &i128, width: u32, x: &i128) -> u64
    requires few { width ≤ WORD_BITS }
    requires low { IsNear low.now }
    requires bounded { IsBounded x.now }
    requires ahead { IsAhead low.now x.now width }
    ensures { IsOffset low.now x.now width width result }
{
    (*x - *low) as u64
}

// How far a number is from the least one, in so many bits, which may be too many for a word.
#[inline(always)]
fn offset(low: &i128, width: u32, x: &i128) -> Option<PlainCode>
    requires bounded { IsBounded x.now }
    requires ahead { IsAhead low.now x.now width }
    ensures { IfSome result (λ code. IsOffset low.now x.now width code.width code.value) }
{
    if width > WORD_BITS {
        return None;
    }
    let value = ahead(low, width, x);
    Some(PlainCode { width, value })
}

// A pattern.
#[inline(always)]
fn spelled(pattern: &Pattern) -> PlainCode
    ensures { IsBits pattern.now result.width result.value }
{
    PlainCode {
        width: pattern.bits().len() as u32,
        value: pattern.number(),
    }
}

// The code of a number that is written itself, where the coding counts from a least one, or is a
// pattern.
#[inline(always)]
fn counted(coding: &NumCoding, x: &i128) -> Option<PlainCode>
    requires bounded { IsBounded x.now }
    requires can { CanCount coding.now x.now }
    ensures { IfSome result (λ code. IsCounted coding.now x.now code.width code.value) }
{
    match coding {
        NumCoding::Range { low, width } => offset(low, *width, x),
        NumCoding::PosInt(n) => offset(&0, *n, x),
        NumCoding::Flag { yes, no } => {
            if yes.is_none() && no.is_none() {
                offset(&0, 1, x)
            } else {
                None
            }
        }
        NumCoding::Fixed(pattern) => Some(spelled(pattern)),
        _ => None,
    }
}

/// The code of a permitted number, where the numbers are one range and the coding counts from a
/// least one, or is a pattern, with neither a table nor numbers of items nor another order of
/// octets. None elsewhere, and where the number isn't permitted.
#[inline(always)]
pub fn plain_code(leaf: &NumLeaf, x: &i128) -> Option<PlainCode>
    requires { IsTrue (num_fine leaf.now) }
    ensures { IfSome result (λ code. IsPlainCode leaf.now x.now code.width code.value) }
{
    let range = only(leaf.set.ranges())?;
    if !is_in(range, x) {
        return None;
    }
    if leaf.items.values {
        return None;
    }
    if leaf.little {
        return None;
    }
    match &leaf.table {
        Some(_) => None,
        None => counted(&leaf.coding, x),
    }
}
