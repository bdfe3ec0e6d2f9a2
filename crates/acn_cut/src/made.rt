//! Making a cut of a leaf.

ghost use Rattle.std.specs.Prelude.{◌≡◌, ◌^◌, ◌<◌, ◌≤◌, ◌+ℤ◌, pos, ◌∷◌, [], IfSome, IsTrue};
ghost use Rattle.acn_bits.specs.declared.word.TheConstants.{WORD_BITS};
ghost use Rattle.acn_cut.specs.Cuts.{IsCut};
ghost use Rattle.acn_cut.specs.Making as spec;

use crate::cut::Cut;
use acn_bits::WORD_BITS;
use acn_grammar::{NumCoding, NumLeaf, Pattern, Table};

// How far the one number is from the other.
fn gap(low: &i128, high: &i128) -> Option<u64>
    ensures { IfSome result (λ n. high.now ≡ low.now +ℤ pos n) }
{
    match high.checked_sub(*low) {
        Some(gap) => match u64::try_from(gap) {
            Ok(gap) => Some(gap),
            Err(_) => None,
        },
        None => None,
    }
}

// Whether a number has so many bits at most.
fn has_bits(width: u32, n: u64) -> bool
    requires { width ≤ WORD_BITS }
    ensures { IsTrue result → n < 2 ^ width }
{
    if width < WORD_BITS {
        n < 1 << width
    } else {
        true
    }
}

// The numbers from `low` to `high`, which are written as `image` and those behind it, and whose
// codes say how far these are from `from`.
fn between(low: &i128, high: &i128, image: &i128, from: &i128, width: u32) -> Option<Cut>
    ensures { IfSome result (λ cut. spec.IsBetween cut low.now high.now image.now from.now width) }
{
    if width > WORD_BITS || *high > i128::from(u64::MAX) {
        return None;
    }
    let first = gap(from, image)?;
    let span = gap(low, high)?;
    if !has_bits(width, first.checked_add(span)?) {
        return None;
    }
    Some(Cut {
        low: *low,
        first,
        span,
        width,
    })
}

// The number 0 under its pattern.
fn under(pattern: &Pattern) -> Cut
    ensures { spec.IsUnder result pattern.now }
{
    Cut {
        low: 0,
        first: pattern.number(),
        span: 0,
        width: pattern.bits().len() as u32,
    }
}

// Whether the leaf has neither numbers of items nor another order of octets.
fn is_plain(leaf: &NumLeaf) -> bool
    ensures { IsTrue result → spec.IsPlain leaf.now }
{
    !leaf.items.values && !leaf.little
}

// The image of the least number of a range that is on the line.
fn image_on(line: &(i128, i128, i128), range: &(i128, i128)) -> Option<i128>
    ensures { IfSome result (λ image. spec.CountsOnLine line.now range.now.0 range.now.1 image) }
{
    if range.0 < line.0 || line.1 < range.1 {
        return None;
    }
    line.2.checked_add(range.0.checked_sub(line.0)?)
}

// The one line of a table that has one.
fn only_line(lines: &[(i128, i128, i128)]) -> Option<&(i128, i128, i128)>
    ensures { IfSome result (λ line. lines.now ≡ line.now ∷ []) }
{
    match lines {
        [line] => Some(line),
        _ => None,
    }
}

// What the least number of a range is written as, where what the others are written as counts up
// with them.
fn image_of_least(table: &Option<Table>, range: &(i128, i128)) -> Option<i128>
    ensures { IfSome result (λ image. spec.CountsUp table.now range.now.0 range.now.1 image) }
{
    match table {
        None => Some(range.0),
        Some(table) => image_on(only_line(table.lines.items())?, range),
    }
}

// The one range of a set that has one.
fn only(ranges: &[(i128, i128)]) -> Option<&(i128, i128)>
    ensures { IfSome result (λ range. ranges.now ≡ range.now ∷ []) }
{
    match ranges {
        [range] => Some(range),
        _ => None,
    }
}

/// How the number of a leaf is read out of one word. None where it can't be so: its codes have
/// several widths, or more than 64 bits, or don't count up with its numbers, which may be several
/// ranges, or stand on several lines of a table.
pub fn cut_of(leaf: &NumLeaf) -> Option<Cut>
    ensures { IfSome result (λ cut. IsCut cut leaf.now) }
{
    let range = only(leaf.set.ranges())?;
    if !is_plain(leaf) {
        return None;
    }
    let image = image_of_least(&leaf.table, range)?;
    match &leaf.coding {
        NumCoding::Range { low, width } => between(&range.0, &range.1, &image, low, *width),
        NumCoding::PosInt(n) => between(&range.0, &range.1, &image, &0, *n),
        NumCoding::Flag { yes, no } => {
            if yes.is_none() && no.is_none() {
                between(&range.0, &range.1, &image, &0, 1)
            } else {
                None
            }
        }
        NumCoding::Fixed(pattern) => {
            if leaf.table.is_none() && range.0 <= 0 && 0 <= range.1 {
                Some(under(pattern))
            } else {
                None
            }
        }
        _ => None,
    }
}
