ghost use Rattle.std.specs.Prelude.{◌≡◌, ◌≤◌, ◌≤ℤ◌, ◌+ℤ◌, ◌-ℤ◌, ◌&&◌, IfOk, true, [], length, map, option_map, take};
ghost use Rattle.std.specs.List.{list_all};
ghost use Rattle.acn_num.specs.Ranges.{some_range, least, union, bottom, top};
ghost use Rattle.acn_num.specs.Unions.{unions};
ghost use Rattle.acn_grammar.specs.Leaves as leaves;
ghost use Rattle.acn_codings.specs.Tables as spec;

use acn_acn_syntax::{MapLine, Signed};
use acn_leaf::{is_number, one_to_one_in};
use acn_num::{NoMemory, RangeSet, greater, is_at_most, less};
use acn_set_elements::signed;
use std::alloc::Global;

fn number_of(written: &Signed) -> i128
    ensures { result ≡ spec.number_of written.now }
{
    signed(written.negative, written.n)
}

/// The first key, the last key and the image of the first.
pub fn line_of(line: &MapLine) -> (i128, i128, i128)
    ensures { result ≡ spec.line_of line.now }
{
    let first = number_of(&line.first);
    let last = match &line.last {
        Some(last) => number_of(last),
        None => first,
    };
    (first, last, number_of(&line.image))
}

fn lines_of(alloc: Global, lines: &[MapLine]) -> Result<Vec<(i128, i128, i128)>, NoMemory>
    ensures { IfOk result (λ all. all.items ≡ map spec.line_of lines.now) }
{
    let mut all = Vec::new(alloc);
    for line in lines {
        all.push(line_of(line))?;
    }
    Ok(all)
}

// The number as far from `to` as `at` is from `from`.
fn shifted(to: &i128, from: &i128, at: &i128) -> i128
    requires to { leaves.is_number to.now ≡ true }
    requires from { leaves.is_number from.now ≡ true }
    requires low { bottom ≤ℤ at.now }
    requires high { at.now ≤ℤ top }
    ensures { result ≡ to.now +ℤ (at.now -ℤ from.now) }
{
    *to + (*at - *from)
}

// Whether the line isn't turned round, and its keys and images are numbers.
fn is_line(line: &(i128, i128, i128)) -> bool
    ensures { result ≡ leaves.line_fine line.now }
{
    if is_at_most(&line.0, &line.1)
        && is_number(&line.0)
        && is_number(&line.1)
        && is_number(&line.2)
    {
        is_number(&shifted(&line.2, &line.0, &line.1))
    } else {
        false
    }
}

fn keys(alloc: Global, line: &(i128, i128, i128)) -> Result<RangeSet, NoMemory>
    requires { leaves.line_fine line.now ≡ true }
    ensures { IfOk result (λ s. s ≡ spec.keys line.now) }
{
    RangeSet::between(alloc, line.0, line.1)
}

fn images(alloc: Global, line: &(i128, i128, i128)) -> Result<RangeSet, NoMemory>
    requires { leaves.line_fine line.now ≡ true }
    ensures { IfOk result (λ s. s ≡ spec.images line.now) }
{
    let last = shifted(&line.2, &line.0, &line.1);
    RangeSet::between(alloc, line.2, last)
}

fn all_keys(alloc: Global, lines: &[(i128, i128, i128)]) -> Result<RangeSet, NoMemory>
    requires { list_all leaves.line_fine lines.now ≡ true }
    ensures { IfOk result (λ s. s ≡ unions [] (map spec.keys lines.now)) }
{
    let mut sets = Vec::new(alloc);
    for line in lines {
        sets.push(keys(alloc, line)?)?;
    }
    RangeSet::empty(alloc).union_all(alloc, &sets)
}

fn all_images(alloc: Global, lines: &[(i128, i128, i128)]) -> Result<RangeSet, NoMemory>
    requires { list_all leaves.line_fine lines.now ≡ true }
    ensures { IfOk result (λ s. s ≡ unions [] (map spec.images lines.now)) }
{
    let mut sets = Vec::new(alloc);
    for line in lines {
        sets.push(images(alloc, line)?)?;
    }
    RangeSet::empty(alloc).union_all(alloc, &sets)
}

// How many lines at the front of a table are one to one. Where not all are, it is looked for by halves.
fn fine_front(alloc: Global, lines: &[(i128, i128, i128)]) -> usize
    ensures within { result ≤ length lines.now }
    ensures fine { (list_all leaves.line_fine (take result lines.now) && leaves.all_differ leaves.share (take result lines.now)) ≡ true }
{
    if one_to_one_in(alloc, lines) {
        return lines.len();
    }
    let mut fine = 0;
    let mut end = lines.len();
    while fine + 1 < end {
        let middle = fine + (end - fine) / 2;
        if one_to_one_in(alloc, &lines[..middle]) {
            fine = middle;
        } else {
            end = middle;
        }
    }
    fine
}

// The lesser of two numbers that may be there.
fn lesser(a: Option<i128>, b: Option<i128>) -> Option<i128>
    ensures { result ≡ spec.lesser a b }
{
    match (a, b) {
        (None, other) => other,
        (Some(x), None) => Some(x),
        (Some(x), Some(y)) => Some(*less(&x, &y)),
    }
}

// The least key of which an earlier line gives the image.
fn key_of_least(line: &(i128, i128, i128), both: &RangeSet) -> Option<i128>
    requires { leaves.line_fine line.now ≡ true }
    ensures { result ≡ option_map (λ x. line.now.0 +ℤ (x -ℤ line.now.2)) (least both.now) }
{
    match both.ranges() {
        [] => None,
        [range, ..] => Some(shifted(&line.0, &line.2, &range.0)),
    }
}

// The least key that an earlier line gives, or whose image it gives.
fn taken(
    alloc: Global,
    keys_before: &RangeSet,
    images_before: &RangeSet,
    line: &(i128, i128, i128),
) -> Result<Option<i128>, NoMemory>
    requires { leaves.line_fine line.now ≡ true }
    ensures { IfOk result (λ k. k ≡ spec.taken keys_before.now images_before.now line.now) }
{
    let same_keys = keys(alloc, line)?.meet(alloc, keys_before)?;
    let same_images = images(alloc, line)?.meet(alloc, images_before)?;
    Ok(lesser(same_keys.least(), key_of_least(line, &same_images)))
}

// The key at which a line is at fault behind lines that give keys and images.
fn line_fault(
    alloc: Global,
    keys_before: &RangeSet,
    images_before: &RangeSet,
    line: &(i128, i128, i128),
) -> Result<Option<i128>, NoMemory>
    ensures { IfOk result (λ k. k ≡ spec.line_fault keys_before.now images_before.now line.now) }
{
    if is_line(line) {
        taken(alloc, keys_before, images_before, line)
    } else {
        Ok(Some(line.0))
    }
}

fn with_keys(
    alloc: Global,
    before: &RangeSet,
    line: &(i128, i128, i128),
) -> Result<RangeSet, NoMemory>
    requires { leaves.line_fine line.now ≡ true }
    ensures { IfOk result (λ s. s ≡ union before.now (spec.keys line.now)) }
{
    let more = keys(alloc, line)?;
    before.union(alloc, &more)
}

fn with_images(
    alloc: Global,
    before: &RangeSet,
    line: &(i128, i128, i128),
) -> Result<RangeSet, NoMemory>
    requires { leaves.line_fine line.now ≡ true }
    ensures { IfOk result (λ s. s ≡ union before.now (spec.images line.now)) }
{
    let more = images(alloc, line)?;
    before.union(alloc, &more)
}

// The first fault of lines behind others that give keys and images.
fn fault_from(
    alloc: Global,
    keys_before: RangeSet,
    images_before: RangeSet,
    lines: &[(i128, i128, i128)],
) -> Result<Option<i128>, NoMemory>
    ensures { IfOk result (λ k. k ≡ spec.fault_behind keys_before images_before lines.now) }
{
    let mut given_keys = keys_before;
    let mut given_images = images_before;
    for line in lines {
        match line_fault(alloc, &given_keys, &given_images, line)? {
            Some(key) => return Ok(Some(key)),
            None => {
                given_keys = with_keys(alloc, &given_keys, line)?;
                given_images = with_images(alloc, &given_images, line)?;
            }
        }
    }
    Ok(None)
}

// The first fault of the lines behind some at which there is none.
fn fault_behind(
    alloc: Global,
    front: &[(i128, i128, i128)],
    behind: &[(i128, i128, i128)],
) -> Result<Option<i128>, NoMemory>
    requires { list_all leaves.line_fine front.now ≡ true }
    ensures { IfOk result (λ k. k ≡ spec.fault_behind (unions [] (map spec.keys front.now)) (unions [] (map spec.images front.now)) behind.now) }
{
    if behind.is_empty() {
        return Ok(None);
    }
    let keys_before = all_keys(alloc, front)?;
    let images_before = all_images(alloc, front)?;
    fault_from(alloc, keys_before, images_before, behind)
}

/// The first key at which a table is at fault, where it is: the first key of a line that is turned round or leaves the
/// numbers, else the least key of a line that an earlier line gives, or whose image one gives.
pub fn table_fault(alloc: Global, lines: &[MapLine]) -> Result<Option<i128>, NoMemory>
    ensures { IfOk result (λ k. k ≡ spec.table_fault lines.now) }
{
    let lines = lines_of(alloc, lines)?;
    let (front, behind) = lines.split_at(fine_front(alloc, &lines));
    fault_behind(alloc, front, behind)
}

// The keys of a line whose images lie from `low` to `high`.
fn keys_between(
    alloc: Global,
    low: &i128,
    high: &i128,
    line: &(i128, i128, i128),
) -> Result<RangeSet, NoMemory>
    requires fine { leaves.line_fine line.now ≡ true }
    requires low { bottom ≤ℤ low.now }
    requires low_end { low.now ≤ℤ top }
    requires high { high.now ≤ℤ top }
    requires high_end { bottom ≤ℤ high.now }
    ensures { IfOk result (λ s. s ≡ spec.keys_between low.now high.now line.now) }
{
    let first = shifted(&line.0, &line.2, low);
    let last = shifted(&line.0, &line.2, high);
    RangeSet::between(alloc, *greater(&line.0, &first), *less(&line.1, &last))
}

// The same of a line that may be at fault.
fn line_keys(
    alloc: Global,
    low: &i128,
    high: &i128,
    line: &(i128, i128, i128),
) -> Result<RangeSet, NoMemory>
    requires low { bottom ≤ℤ low.now }
    requires low_end { low.now ≤ℤ top }
    requires high { high.now ≤ℤ top }
    requires high_end { bottom ≤ℤ high.now }
    ensures { IfOk result (λ s. s ≡ spec.line_keys low.now high.now line.now) }
{
    if is_line(line) {
        keys_between(alloc, low, high, line)
    } else {
        Ok(RangeSet::empty(alloc))
    }
}

/// The keys of a table whose images lie from `low` to `high`. A line that is turned round or leaves the numbers has none.
#[tactic(auto, unfolding(crate::specs::Tables::keys_to))]
pub fn keys_to(
    alloc: Global,
    low: &i128,
    high: &i128,
    lines: &[MapLine],
) -> Result<RangeSet, NoMemory>
    requires low { bottom ≤ℤ low.now }
    requires low_end { low.now ≤ℤ top }
    requires high { high.now ≤ℤ top }
    requires high_end { bottom ≤ℤ high.now }
    ensures { IfOk result (λ s. s ≡ spec.keys_to low.now high.now lines.now) }
{
    let mut sets = Vec::new(alloc);
    for written in lines {
        sets.push(line_keys(alloc, low, high, &line_of(written))?)?;
    }
    RangeSet::empty(alloc).union_all(alloc, &sets)
}
