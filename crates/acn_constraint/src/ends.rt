//! The ends of sets: which numbers can be kept, and which sizes.

ghost use Rattle.std.specs.Prelude.{◌≡◌, IfOk, Ok, int_lt, pos};
ghost use Rattle.acn_num.specs.Ranges.{greatest};
ghost use Rattle.acn_constraint.specs.Constraints as spec;
ghost use Rattle.acn_constraint.specs.Views.{Answers, opened_of, texts_of};
ghost use Rattle.acn_num.specs.declared.limits.TheConstants.{MOST_SIZE};

use crate::ConstraintFault;
use acn_num::{BOTTOM, GREATEST_NUMBER, LEAST_NUMBER, MOST_SIZE, NoMemory, RangeSet, TOP};
use std::alloc::Global;

/// The greatest number beside negative ones.
const GREATEST_SIGNED: i128 = 9223372036854775807;

/// The numbers of an INTEGER, from `-2^63` to `2^64 - 1`, and whether they have no bound below or above.
#[derive(Drop)]
pub struct OpenSet {
    /// The numbers.
    pub numbers: RangeSet,
    /// Whether there is no bound below.
    pub open_below: bool,
    /// Whether there is no bound above.
    pub open_above: bool,
}

/// The sizes and the characters of an IA5String.
#[derive(Drop)]
pub struct TextSets {
    /// The sizes.
    pub sizes: RangeSet,
    /// The characters.
    pub characters: RangeSet,
}

// The numbers of a set without the two ends.
fn bounded(alloc: Global, set: &RangeSet) -> Result<RangeSet, NoMemory>
    ensures { IfOk result (λ s. s ≡ spec.bounded set.now) }
{
    let ends = RangeSet::one(alloc, LEAST_NUMBER, GREATEST_NUMBER)?;
    set.meet(alloc, &ends)
}

fn is_negative(x: &i128) -> bool
    ensures { result ≡ int_lt x.now (pos 0) }
{
    *x < 0
}

// Whether the least number is negative.
fn starts_negative(least: Option<i128>) -> bool
    ensures { result ≡ spec.starts_negative least }
{
    match least {
        None => false,
        Some(number) => is_negative(&number),
    }
}

// The numbers of a set, which is signed or not.
fn within_words(alloc: Global, signed: bool, set: RangeSet) -> Result<RangeSet, NoMemory>
    ensures { IfOk result (λ s. s ≡ spec.within_words signed set) }
{
    if !signed {
        return Ok(set);
    }
    let words = RangeSet::one(alloc, LEAST_NUMBER, GREATEST_SIGNED)?;
    set.meet(alloc, &words)
}

// The numbers of a set that may be open.
#[tactic(auto, unfolding(crate::specs::Constraints::closed))]
fn closed(alloc: Global, set: &RangeSet) -> Result<RangeSet, NoMemory>
    ensures { IfOk result (λ s. s ≡ spec.closed set.now) }
{
    let inner = bounded(alloc, set)?;
    let signed = set.holds(BOTTOM) || starts_negative(inner.least());
    within_words(alloc, signed, inner)
}

// Whether a set has no numbers.
fn is_empty(set: &RangeSet) -> bool
    ensures { result ≡ spec.is_empty set.now }
{
    set.ranges().is_empty()
}

/// The numbers of a set and its open ends.
pub fn opened(alloc: Global, set: &RangeSet) -> Result<OpenSet, ConstraintFault>
    ensures { Answers opened_of result (spec.not_empty (spec.closed set.now) (Ok (spec.opened set.now))) }
{
    let numbers = closed(alloc, set)?;
    if is_empty(&numbers) {
        return Err(ConstraintFault::Empty);
    }
    Ok(OpenSet {
        numbers,
        open_below: set.holds(BOTTOM),
        open_above: set.holds(TOP),
    })
}

fn is_large(size: &i128) -> bool
    ensures { result ≡ int_lt (pos MOST_SIZE) size.now }
{
    *size > i128::from(MOST_SIZE)
}

// The sizes, where the greatest one is in its limit.
fn limited(sizes: RangeSet) -> Result<Option<RangeSet>, ConstraintFault>
    ensures { Answers (λ s. s) result (spec.limited sizes (greatest sizes)) }
{
    match sizes.greatest() {
        None => Ok(Some(sizes)),
        Some(size) => {
            if is_large(&size) {
                Err(ConstraintFault::SizeLimit { size })
            } else {
                Ok(Some(sizes))
            }
        }
    }
}

/// The sizes, where SIZE is written; there are some, and they have a greatest one in its limit.
pub fn sized(written: bool, sizes: RangeSet) -> Result<Option<RangeSet>, ConstraintFault>
    ensures { Answers (λ s. s) result (spec.sized written sizes) }
{
    if !written {
        return Ok(None);
    }
    if is_empty(&sizes) {
        return Err(ConstraintFault::Empty);
    }
    if sizes.holds(TOP) {
        return Err(ConstraintFault::Unbounded);
    }
    limited(sizes)
}

/// The characters of a set that has some.
pub fn filled(set: RangeSet) -> Result<RangeSet, ConstraintFault>
    ensures { Answers (λ s. s) result (spec.not_empty set (Ok set)) }
{
    if is_empty(&set) {
        return Err(ConstraintFault::Empty);
    }
    Ok(set)
}

// The two sets, where the greatest size is in its limit.
fn limited_text(sizes: RangeSet, characters: RangeSet) -> Result<TextSets, ConstraintFault>
    ensures { Answers texts_of result (spec.limited_text sizes characters (greatest sizes)) }
{
    match sizes.greatest() {
        None => Ok(TextSets { sizes, characters }),
        Some(size) => {
            if is_large(&size) {
                Err(ConstraintFault::SizeLimit { size })
            } else {
                Ok(TextSets { sizes, characters })
            }
        }
    }
}

/// The two sets of a text: both have something in them, and the sizes are written and have a greatest one in its limit.
pub fn text_sets(
    written: bool,
    sizes: RangeSet,
    characters: RangeSet,
) -> Result<TextSets, ConstraintFault>
    ensures { Answers texts_of result (spec.texts_left written sizes characters) }
{
    if is_empty(&sizes) {
        return Err(ConstraintFault::Empty);
    }
    if is_empty(&characters) {
        return Err(ConstraintFault::Empty);
    }
    if !written || sizes.holds(TOP) {
        return Err(ConstraintFault::Unbounded);
    }
    limited_text(sizes, characters)
}
