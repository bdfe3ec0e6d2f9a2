//! Whether the lines of a table have no key and no image in common (this profile's own).
//!
//! The keys of a line are a range, and so are its images. They are listed and sorted: those that meet are neighbours then. The
//! list of many lines takes memory. That of few stands on the stack; so does, where memory can't be had, the list of a block
//! of many lines: the range of each line behind the block is looked for in it by halves.
ghost use Rattle.std.specs.Prelude.{◌≡◌, ◌≤◌, ◌++◌, ◌&&◌, IfOk, length, map, not, true, int_lt};
ghost use Rattle.std.specs.List.{list_all, list_any};
ghost use Rattle.acn_grammar.specs.Leaves as leaves;
ghost use Rattle.acn_leaf.specs.Neighbours.{neighbours_differ, is_next};
ghost use Rattle.acn_leaf.specs.Sides as spec;
ghost use Rattle.acn_leaf.specs.declared.line_blocks.Side.TheVariants.{Keys};
ghost use Rattle.acn_leaf.specs.declared.line_blocks.TheConstants.{BLOCK};

use crate::table_rules::image;
use acn_num::NoMemory;
use arrayvec::ArrayVec;
use std::alloc::Global;

/// So many lines make a block: the list of their ranges takes 64 KiB of the stack.
const BLOCK: usize = 2048;

/// What two lines of a table may not have in common.
#[derive(Clone, Copy)]
enum Side {
    Keys,
    Images,
}

// The keys of a line, or its images: the first and the last.
fn range_of(side: Side, line: &(i128, i128, i128)) -> (i128, i128)
    requires { leaves.line_fine line.now ≡ true }
    ensures { result ≡ spec.range_of side line.now }
{
    match side {
        Side::Keys => (line.0, line.1),
        Side::Images => (line.2, image(line, &line.1)),
    }
}

// Whether the range ends before the other begins.
fn is_before(range: &(i128, i128), other: &(i128, i128)) -> bool
    ensures { result ≡ int_lt range.now.1 other.now.0 }
{
    range.1 < other.0
}

// Whether the range reaches the first of those behind it.
fn reaches_next(range: &(i128, i128), behind: &[(i128, i128)]) -> bool
    ensures { result ≡ is_next spec.reaches range.now behind.now }
{
    match behind.first() {
        Some(other) => !is_before(range, other),
        None => false,
    }
}

// Whether each range ends before the next begins.
fn rises(ranges: &[(i128, i128)]) -> bool
    ensures { result ≡ neighbours_differ spec.reaches ranges.now }
{
    for at in 0..ranges.len() {
        if reaches_next(&ranges[at], &ranges[at + 1..]) {
            return false;
        }
    }
    true
}

// Whether the range meets one of those that rise, by halves.
fn meets_one(range: &(i128, i128), ranges: &[(i128, i128)]) -> bool
    requires each { list_all spec.is_range ranges.now ≡ true }
    requires rising { neighbours_differ spec.reaches ranges.now ≡ true }
    ensures { result ≡ list_any (spec.meet range.now) ranges.now }
{
    let mut low = 0;
    let mut high = ranges.len();
    while low < high {
        let middle = low + (high - low) / 2;
        if is_before(&ranges[middle], range) {
            low = middle + 1;
        } else if is_before(range, &ranges[middle]) {
            high = middle;
        } else {
            return true;
        }
    }
    false
}

// Whether no line has a number in common with one of the ranges, which rise.
fn none_meets(side: Side, ranges: &[(i128, i128)], lines: &[(i128, i128, i128)]) -> bool
    requires each { list_all spec.is_range ranges.now ≡ true }
    requires rising { neighbours_differ spec.reaches ranges.now ≡ true }
    requires lines { list_all leaves.line_fine lines.now ≡ true }
    ensures { result ≡ list_all (λ line. not (list_any (spec.meet (spec.range_of side line)) ranges.now)) lines.now }
{
    for line in lines {
        let range = range_of(side, line);
        if meets_one(&range, ranges) {
            return false;
        }
    }
    true
}

// Whether the ranges are apart from each other and from those of the lines behind them. It sorts them.
fn ranges_differ(side: Side, ranges: &mut [(i128, i128)], behind: &[(i128, i128, i128)]) -> bool
    requires each { list_all spec.is_range ranges.old ≡ true }
    requires behind { list_all leaves.line_fine behind.now ≡ true }
    ensures { leaves.all_differ spec.meet (ranges.old ++ map (spec.range_of side) behind.now) ≡ (result && leaves.all_differ spec.meet (map (spec.range_of side) behind.now)) }
{
    ranges.sort_unstable();
    if !rises(ranges) {
        return false;
    }
    none_meets(side, ranges, behind)
}

// Whether the ranges of a block of lines are apart from each other and from those of the lines behind it.
#[inline(never)]
fn block_differs(side: Side, block: &[(i128, i128, i128)], behind: &[(i128, i128, i128)]) -> bool
    requires few { length block.now ≤ BLOCK }
    requires block { list_all leaves.line_fine block.now ≡ true }
    requires behind { list_all leaves.line_fine behind.now ≡ true }
    ensures { leaves.all_differ spec.meet (map (spec.range_of side) block.now ++ map (spec.range_of side) behind.now) ≡ (result && leaves.all_differ spec.meet (map (spec.range_of side) behind.now)) }
{
    let mut ranges: ArrayVec<(i128, i128), BLOCK> = ArrayVec::new();
    for line in block {
        ranges.push(range_of(side, line));
    }
    ranges_differ(side, ranges.as_mut_slice(), behind)
}

// Whether the range of the line reaches that of the first line behind it.
fn line_reaches_next(side: Side, line: &(i128, i128, i128), behind: &[(i128, i128, i128)]) -> bool
    requires line { leaves.line_fine line.now ≡ true }
    requires behind { list_all leaves.line_fine behind.now ≡ true }
    ensures { result ≡ is_next spec.reaches (spec.range_of side line.now) (map (spec.range_of side) behind.now) }
{
    match behind.first() {
        Some(other) => !is_before(&range_of(side, line), &range_of(side, other)),
        None => false,
    }
}

// Whether the range of each line ends before that of the next begins.
fn lines_rise(side: Side, lines: &[(i128, i128, i128)]) -> bool
    requires { list_all leaves.line_fine lines.now ≡ true }
    ensures { result ≡ neighbours_differ spec.reaches (map (spec.range_of side) lines.now) }
{
    for at in 0..lines.len() {
        if line_reaches_next(side, &lines[at], &lines[at + 1..]) {
            return false;
        }
    }
    true
}

// Whether no two lines have a key, or an image, in common, which takes no memory. Mostly the lines of a table stand in order.
fn side_differs(side: Side, lines: &[(i128, i128, i128)]) -> bool
    requires { list_all leaves.line_fine lines.now ≡ true }
    ensures { result ≡ leaves.all_differ spec.meet (map (spec.range_of side) lines.now) }
{
    if lines_rise(side, lines) {
        return true;
    }
    let mut rest = lines;
    while !rest.is_empty() {
        let (block, behind) = rest.split_at(rest.len().min(BLOCK));
        if !block_differs(side, block, behind) {
            return false;
        }
        rest = behind;
    }
    true
}

// The keys, or the images, of all lines.
fn all_ranges(
    alloc: Global,
    side: Side,
    lines: &[(i128, i128, i128)],
) -> Result<Vec<(i128, i128)>, NoMemory>
    requires { list_all leaves.line_fine lines.now ≡ true }
    ensures { IfOk result (λ ranges. ranges.items ≡ map (spec.range_of side) lines.now) }
{
    let mut ranges = Vec::with_capacity(alloc, lines.len())?;
    for line in lines {
        ranges.push(range_of(side, line))?;
    }
    Ok(ranges)
}

// Whether no two lines have a key, or an image, in common, all sorted at once where memory for that can be had.
fn many_differ(alloc: Global, side: Side, lines: &[(i128, i128, i128)]) -> bool
    requires { list_all leaves.line_fine lines.now ≡ true }
    ensures { result ≡ leaves.all_differ spec.meet (map (spec.range_of side) lines.now) }
{
    match all_ranges(alloc, side, lines) {
        Ok(mut ranges) => ranges_differ(side, ranges.as_mut_slice(), &[]),
        Err(NoMemory) => side_differs(side, lines),
    }
}

// Whether no two lines have a key, or an image, in common.
fn side_differs_in(alloc: Global, side: Side, lines: &[(i128, i128, i128)]) -> bool
    requires { list_all leaves.line_fine lines.now ≡ true }
    ensures { result ≡ leaves.all_differ spec.meet (map (spec.range_of side) lines.now) }
{
    if lines.len() <= BLOCK || lines_rise(side, lines) {
        side_differs(side, lines)
    } else {
        many_differ(alloc, side, lines)
    }
}

/// Whether the keys of each line end before those of the next begin.
pub fn keys_rise(lines: &[(i128, i128, i128)]) -> bool
    requires { list_all leaves.line_fine lines.now ≡ true }
    ensures { result ≡ neighbours_differ spec.reaches (map (spec.range_of Keys) lines.now) }
{
    lines_rise(Side::Keys, lines)
}

/// Whether no two lines have a key or an image in common. It takes no memory.
pub fn lines_differ(lines: &[(i128, i128, i128)]) -> bool
    requires { list_all leaves.line_fine lines.now ≡ true }
    ensures { result ≡ leaves.all_differ leaves.share lines.now }
{
    side_differs(Side::Keys, lines) && side_differs(Side::Images, lines)
}

/// Whether no two lines have a key or an image in common. It takes memory where they are many, as far as that can be had.
pub fn lines_differ_in(alloc: Global, lines: &[(i128, i128, i128)]) -> bool
    requires { list_all leaves.line_fine lines.now ≡ true }
    ensures { result ≡ leaves.all_differ leaves.share lines.now }
{
    side_differs_in(alloc, Side::Keys, lines) && side_differs_in(alloc, Side::Images, lines)
}
