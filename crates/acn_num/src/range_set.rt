ghost use Rattle.std.specs.Prelude.{◌≡◌, ◌↔◌, ℤ, ◌≤ℤ◌, [], ◌∷◌, IfOk, ◌||◌, ◌&&◌, not, ◌++◌, ◌<◌, ◌^◌, ◌-ℤ◌, int_le, int_lt, pos, OnOk, MatchOption, ℕ, true, false};
ghost use Rattle.std.specs.Int.{int_max, int_min};
ghost use Rattle.acn_num.specs.Ranges as spec;
ghost use Rattle.acn_num.specs.Unions.{unions, one_has, AreAllRanges, IsUnionOfAll};
ghost use Rattle.acn_num.specs.Joining.{CanJoin, CanJoinAll, Joins, JoinsBefore};
ghost use Rattle.acn_num.specs.Meeting.{reaching_from, clip_until};
ghost use Rattle.acn_num.specs.Ranges.{has, AreRanges, IsRange, some_range, outside_from, size_of, count, nth, among, IsUnion, IsMeet, IsExcept, IsLeastExcept, SameNumbersSameSet, EachHasAPlace, NumbersRise, bottom, top, outside, meet, union, except, least, greatest};

use crate::NoMemory;
use crate::limits::{BOTTOM, TOP};
use crate::whole::{greater, less};
use std::alloc::Global;
use std::marker::Model;

/// A set of whole numbers from `-2^63 - 1` to `2^64`, which contracts see as its ranges in ascending order.
#[derive(Drop)]
pub struct RangeSet {
    ranges: Vec<(i128, i128)>,
}

impl Model for RangeSet {
    ghost use Rattle.std.specs.Prelude.{List, ℤ};
    ghost use Rattle.acn_num.specs.Ranges.{AreRanges};

    ghost Value = { List (ℤ × ℤ) };

    ghost view = { λ set. set.ranges.items };

    ghost invariant = { λ set. AreRanges set.ranges.items };
}

// Whether the number lies between the two ends.
fn is_in(x: &i128, range: &(i128, i128)) -> bool
    ensures { result ≡ spec.is_in x.now range.now }
{
    range.0 <= *x && *x <= range.1
}

impl RangeSet {
    /// The set without numbers. It takes no memory.
    pub fn empty(alloc: Global) -> RangeSet
        ensures { result ≡ [] }
    {
        RangeSet {
            ranges: Vec::new(alloc),
        }
    }

    /// The numbers from `low` to `high`.
    pub fn one(alloc: Global, low: i128, high: i128) -> Result<RangeSet, NoMemory>
        requires order { low ≤ℤ high }
        requires above { bottom ≤ℤ low }
        requires below { high ≤ℤ top }
        ensures { IfOk result (λ s. s ≡ (low, high) ∷ []) }
    {
        let mut ranges = Vec::new(alloc);
        ranges.push((low, high))?;
        Ok(RangeSet { ranges })
    }

    /// The numbers from `low` to `high`, or none where these are out of order.
    pub fn between(alloc: Global, low: i128, high: i128) -> Result<RangeSet, NoMemory>
        requires above { bottom ≤ℤ low }
        requires below { high ≤ℤ top }
        ensures { IfOk result (λ s. s ≡ some_range low high) }
    {
        if low <= high {
            RangeSet::one(alloc, low, high)
        } else {
            Ok(RangeSet::empty(alloc))
        }
    }

    /// The ranges, in ascending order. It takes no memory.
    pub fn ranges(&self) -> &[(i128, i128)]
        ensures same { result.now ≡ self.now }
        ensures ordered { AreRanges result.now }
    {
        self.ranges.as_slice()
    }

    /// The least number, where there is one.
    pub fn least(&self) -> Option<i128>
        ensures { result ≡ least self.now }
    {
        self.ranges.first().map(|range| range.0)
    }

    /// The greatest number, where there is one.
    pub fn greatest(&self) -> Option<i128>
        ensures { result ≡ greatest self.now }
    {
        match self.ranges.last() {
            Some(range) => Some(range.1),
            None => None,
        }
    }

    /// Whether the number is in the set.
    pub fn holds(&self, x: i128) -> bool
        ensures { result ≡ has self.now x }
    {
        for r in &self.ranges {
            if is_in(&x, r) {
                return true;
            }
        }
        false
    }

    /// Whether the set holds this natural number.
    pub fn holds_natural(&self, n: u64) -> bool
        ensures { result ≡ has self.now (pos n) }
    {
        self.holds(i128::from(n))
    }

    // The numbers between the ends that aren't in the set.
    fn outside(&self, alloc: Global) -> Result<RangeSet, NoMemory>
        ensures ranges { IfOk result (λ s. s ≡ outside self.now) }
        ensures ordered { AreRanges self.now }
    {
        let mut ranges = Vec::new(alloc);
        let mut below = BOTTOM - 1;
        for r in &self.ranges {
            add_gap(&mut ranges, &below, &r.0)?;
            below = r.1;
        }
        add_gap(&mut ranges, &below, &(TOP + 1))?;
        Ok(RangeSet { ranges })
    }

    /// The numbers that both sets hold.
    pub fn meet(&self, alloc: Global, other: &RangeSet) -> Result<RangeSet, NoMemory>
        ensures ranges { IfOk result (λ s. s ≡ meet self.now other.now) }
        ensures numbers { IfOk result (λ s. IsMeet self.now other.now s) }
        ensures ordered { AreRanges self.now × AreRanges other.now }
    {
        let mut ranges = Vec::new(alloc);
        let mut rest = other.ranges.as_slice();
        for r in &self.ranges {
            rest = reaching(rest, &r.0);
            clip_into(&mut ranges, r, rest)?;
        }
        Ok(RangeSet { ranges })
    }

    /// The numbers of this set that the other doesn't hold.
    pub fn except(&self, alloc: Global, other: &RangeSet) -> Result<RangeSet, NoMemory>
        ensures ranges { IfOk result (λ s. s ≡ except self.now other.now) }
        ensures numbers { IfOk result (λ s. IsExcept self.now other.now s) }
    {
        let rest = other.outside(alloc)?;
        self.meet(alloc, &rest)
    }

    /// The numbers that one of the sets holds, or both.
    pub fn union(&self, alloc: Global, other: &RangeSet) -> Result<RangeSet, NoMemory>
        ensures ranges { IfOk result (λ s. s ≡ union self.now other.now) }
        ensures numbers { IfOk result (λ s. IsUnion self.now other.now s) }
    {
        let mut ranges = Vec::new(alloc);
        let mut rest = other.ranges.as_slice();
        for range in &self.ranges {
            rest = join_before(&mut ranges, rest, &range.0)?;
            join_range(&mut ranges, range)?;
        }
        join_before(&mut ranges, rest, &(TOP + 1))?;
        Ok(RangeSet { ranges })
    }

    /// The numbers that this set or one of the others holds. Pairs are joined in rounds, so the time is linear in
    /// the ranges but for a factor that is the logarithm of the count of sets.
    pub fn union_all(&self, alloc: Global, others: &[RangeSet]) -> Result<RangeSet, NoMemory>
        ensures ranges { IfOk result (λ s. s ≡ unions self.now others.now) }
        ensures numbers { IfOk result (λ s. IsUnionOfAll self.now others.now s) }
    {
        let _ranges = &self.ranges;
        let joined = join(alloc, others)?;
        self.union(alloc, &joined)
    }

    /// The same set again.
    pub fn copy(&self, alloc: Global) -> Result<RangeSet, NoMemory>
        ensures { IfOk result (λ set. set ≡ self.now) }
    {
        let ranges = Vec::from_slice(alloc, &self.ranges)?;
        Ok(RangeSet { ranges })
    }

    /// How many numbers there are.
    pub fn count(&self) -> u128
        ensures { result ≡ count self.now }
    {
        let mut total = 0u128;
        for r in &self.ranges {
            total += size(r);
        }
        total
    }

    /// The number at a place from the least one on.
    pub fn nth(&self, n: u128) -> Option<i128>
        ensures { result ≡ nth self.now n }
    {
        let mut left = n;
        for r in &self.ranges {
            let size = size(r);
            if left < size {
                return Some(r.0 + left as i128);
            }
            left -= size;
        }
        None
    }

    /// The least number that isn't among the avoided ones.
    pub fn least_except(&self, avoided: &[i128]) -> Option<i128>
        ensures { MatchOption result ((x : ℤ) → has self.now x ≡ true → among avoided.now x ≡ true) (λ x. IsLeastExcept self.now avoided.now x) }
    {
        let _ranges = &self.ranges;
        let count = self.count();
        let mut place = 0u128;
        while place < count {
            match self.nth(place) {
                None => return None,
                Some(x) => {
                    if !is_among(&x, avoided) {
                        return Some(x);
                    }
                    place += 1;
                }
            }
        }
        None
    }
}

// The numbers that one of the sets holds: those of the first half, and those of the second.
fn join(alloc: Global, sets: &[RangeSet]) -> Result<RangeSet, NoMemory>
    ensures numbers { IfOk result (λ s. (x : ℤ) → has s x ≡ one_has sets.now x) }
    ensures each { IfOk result (λ s. AreAllRanges sets.now) }
{
    if sets.is_empty() {
        return Ok(RangeSet::empty(alloc));
    }
    if sets.len() == 1 {
        let _ranges = sets[0].ranges();
        return sets[0].copy(alloc);
    }
    let half = sets.len() / 2;
    let front = join(alloc, &sets[..half])?;
    let back = join(alloc, &sets[half..])?;
    front.union(alloc, &back)
}

// Whether the number is among these.
fn is_among(x: &i128, others: &[i128]) -> bool
    ensures { result ≡ among others.now x.now }
{
    for other in others {
        if *other <= *x && *x <= *other {
            return true;
        }
    }
    false
}

// How many numbers a range has.
fn size(range: &(i128, i128)) -> u128
    requires { IsRange range.now }
    ensures value { result ≡ size_of range.now }
    ensures small { result < 2 ^ 66 }
{
    (range.1 - range.0 + 1) as u128
}

// Adds a range, if it isn't empty.
fn add(ranges: &mut Vec<(i128, i128)>, low: &i128, high: &i128) -> Result<(), NoMemory>
    ensures { OnOk result (ranges.new.items ≡ ranges.old.items ++ some_range low.now high.now) }
{
    if *low <= *high {
        ranges.push((*low, *high))?;
    }
    Ok(())
}

// Adds the numbers between these two.
fn add_gap(ranges: &mut Vec<(i128, i128)>, below: &i128, above: &i128) -> Result<(), NoMemory>
    requires low { (bottom -ℤ pos 1) ≤ℤ below.now }
    requires high { below.now ≤ℤ top }
    requires second_low { bottom ≤ℤ above.now }
    ensures { OnOk result (ranges.new.items ≡ ranges.old.items ++ spec.gap below.now above.now) }
{
    add(ranges, &(*below + 1), &(*above - 1))
}

// Whether the first range begins behind the second.
fn begins_behind(other: &(i128, i128), range: &(i128, i128)) -> bool
    ensures { result ≡ int_lt range.now.1 other.now.0 }
{
    range.1 < other.0
}

// Whether the range reaches up to this number.
fn reaches(range: &(i128, i128), low: &i128) -> bool
    ensures { result ≡ int_le low.now range.now.1 }
{
    *low <= range.1
}

// The ranges from the first on that reaches up to this number.
fn reaching<'a>(others: &'a [(i128, i128)], low: &i128) -> &'a [(i128, i128)]
    ensures { result.now ≡ reaching_from low.now others.now }
{
    for (i, other) in others.iter().enumerate() {
        if reaches(other, low) {
            return &others[i..];
        }
    }
    &[]
}

// Adds what a range shares with each of the others, up to the first that begins behind it.
fn clip_into(
    ranges: &mut Vec<(i128, i128)>,
    range: &(i128, i128),
    others: &[(i128, i128)],
) -> Result<(), NoMemory>
    ensures { OnOk result (ranges.new.items ≡ ranges.old.items ++ clip_until range.now others.now) }
{
    for other in others {
        if begins_behind(other, range) {
            return Ok(());
        }
        add(
            ranges,
            greater(&range.0, &other.0),
            less(&range.1, &other.1),
        )?;
    }
    Ok(())
}

// Whether the range begins at this number or behind it.
fn begins_from(range: &(i128, i128), low: &i128) -> bool
    ensures { result ≡ int_le low.now range.now.0 }
{
    *low <= range.0
}

// Adds the numbers of a range that begins with the last one or behind it.
fn join_range(ranges: &mut Vec<(i128, i128)>, next: &(i128, i128)) -> Result<(), NoMemory>
    requires { CanJoin ranges.old.items next.now }
    ensures { OnOk result (Joins ranges.old.items next.now ranges.new.items) }
{
    match ranges.pop() {
        None => ranges.push(*next)?,
        Some(last) => {
            if last.1 < next.0 - 1 {
                ranges.push(last)?;
                ranges.push(*next)?;
            } else {
                add(ranges, &last.0, greater(&last.1, &next.1))?;
            }
        }
    }
    Ok(())
}

// Adds the numbers of the ranges that begin before this number. The others are left.
fn join_before<'a>(
    ranges: &mut Vec<(i128, i128)>,
    others: &'a [(i128, i128)],
    low: &i128,
) -> Result<&'a [(i128, i128)], NoMemory>
    requires { CanJoinAll ranges.old.items others.now }
    ensures { IfOk result (λ left. JoinsBefore low.now ranges.old.items others.now ranges.new.items left.now) }
{
    for (i, other) in others.iter().enumerate() {
        if begins_from(other, low) {
            return Ok(&others[i..]);
        }
        join_range(ranges, other)?;
    }
    Ok(&[])
}

/// Two sets with the same numbers are the same.
pub fn same_numbers_same_set()
    ensures { SameNumbersSameSet }
{}

/// Each number of a set stands at a place, and the numbers rise with their places.
pub fn places_name_each_number_once()
    ensures each { EachHasAPlace }
    ensures rises { NumbersRise }
{}
