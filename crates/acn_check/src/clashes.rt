//! Conditions that can't hold together, since a slot is asked for two numbers.
ghost use Rattle.std.specs.Prelude.{◌≡◌, ◌<◌, true, option_map, IfOk, IfSome};
ghost use Rattle.std.specs.Ordering.{int_eq};
ghost use Rattle.acn_check.specs.First as spec;
ghost use Rattle.acn_check.specs.Program.{cases_of};
ghost use Rattle.acn_check.specs.declared.clashes.TheConstants.{MARK_PRIME};

use acn_leaf::numbers_differ;
use acn_num::{GREATEST_NUMBER, LEAST_NUMBER, NoMemory, is_at_most};
use acn_tree::{Alternative, Test};
use std::alloc::Global;

/// The prime below which marks are: 2^61 - 1.
pub const MARK_PRIME: u128 = 2_305_843_009_213_693_951;

/// What a mark is multiplied with before a number is added: some number with no pattern to it.
pub const MARK_FACTOR: u128 = 1_099_087_573_291_337;

/// How many slots a mark is made of at most.
const MOST_MARKED: usize = 8;

/// The number that a condition asks its slot for.
#[derive(Clone, Copy, Drop)]
pub struct Asked {
    pub slot: u32,
    pub number: i128,
}

/// What the condition asks.
pub fn asked_by(test: &Test) -> Asked
    ensures { spec.pair_of result.slot result.number ≡ spec.asked test.now }
{
    match test {
        Test::Flag(slot) => Asked {
            slot: *slot,
            number: 1,
        },
        Test::Equals(slot, number) => Asked {
            slot: *slot,
            number: *number,
        },
    }
}

/// Whether the numbers are the same.
pub fn is_number(a: &i128, b: &i128) -> bool
    ensures { result ≡ int_eq a.now b.now }
{
    *a == *b
}

// The number that conditions ask of the slot: that of the first of them on it.
fn number_asked(tests: &[Test], slot: u32) -> Option<i128>
    ensures { result ≡ spec.number_asked slot tests.now }
{
    for test in tests {
        let asked = asked_by(test);
        if asked.slot == slot {
            return Some(asked.number);
        }
    }
    None
}

// Whether these conditions ask another number of the condition's slot.
fn disputes(tests: &[Test], test: &Test) -> bool
    ensures { result ≡ spec.disputes tests.now test.now }
{
    let asked = asked_by(test);
    match number_asked(tests, asked.slot) {
        None => false,
        Some(number) => !is_number(&asked.number, &number),
    }
}

/// Whether the conditions of one side ask another number of a slot than those of the other.
pub fn clash(one: &[Test], other: &[Test]) -> bool
    ensures { result ≡ spec.clash one.now other.now }
{
    for test in one {
        if disputes(other, test) {
            return true;
        }
    }
    false
}

// A mark that goes on with a number. None goes on with what no number of a packet is.
fn mixed(mark: u128, number: &i128) -> Option<u128>
    requires { mark < MARK_PRIME }
    ensures is { result ≡ spec.mixed mark number.now }
    ensures small { IfSome result (λ m. m < MARK_PRIME) }
{
    if is_at_most(&LEAST_NUMBER, number) && is_at_most(number, &GREATEST_NUMBER) {
        let distance = (*number - LEAST_NUMBER) as u128;
        Some((mark * MARK_FACTOR + distance) % MARK_PRIME)
    } else {
        None
    }
}

// The mark of the numbers that conditions ask of the slots, where they ask one of each.
fn mark_of(tests: &[Test], slots: &[u32]) -> Option<u128>
    ensures is { result ≡ spec.mark slots.now tests.now }
    ensures small { IfSome result (λ m. m < MARK_PRIME) }
{
    let mut mark = 0u128;
    for slot in slots {
        let number = number_asked(tests, *slot)?;
        mark = mixed(mark, &number)?;
    }
    Some(mark)
}

// The marks of the alternatives, where each has one.
fn marks_on(
    alloc: Global,
    alternatives: &[Alternative],
    slots: &[u32],
) -> Result<Option<Vec<i128>>, NoMemory>
    ensures { IfOk result (λ found. option_map (λ v. v.items) found ≡ spec.marks_on slots.now (cases_of alternatives.now)) }
{
    let mut marks = Vec::new(alloc);
    for alternative in alternatives {
        match mark_of(alternative.tests.items(), slots) {
            None => return Ok(None),
            Some(mark) => marks.push(mark as i128)?,
        }
    }
    Ok(Some(marks))
}

// Whether each alternative has a mark of its own by these slots.
fn have_own(alloc: Global, alternatives: &[Alternative], slots: &[u32]) -> Result<bool, NoMemory>
    ensures { IfOk result (λ own. own ≡ spec.have_own slots.now (cases_of alternatives.now)) }
{
    match marks_on(alloc, alternatives, slots)? {
        None => Ok(false),
        Some(mut marks) => Ok(numbers_differ(&mut marks)),
    }
}

// The slots of the first conditions of the first alternative, `MOST_MARKED` of them at most: those that are tried, though
// any would do.
fn first_slots(alloc: Global, alternatives: &[Alternative]) -> Result<Vec<u32>, NoMemory> {
    let mut slots = Vec::new(alloc);
    if let Some(first) = alternatives.first() {
        for test in first.tests.items() {
            if slots.len() < MOST_MARKED {
                slots.push(asked_by(test).slot)?;
            }
        }
    }
    Ok(slots)
}

// Whether these slots tell all alternatives apart.
fn told_by(alloc: Global, alternatives: &[Alternative], slots: &[u32]) -> Result<bool, NoMemory>
    ensures { IfOk result (λ told. told ≡ true → spec.NoneMeet (cases_of alternatives.now)) }
{
    have_own(alloc, alternatives, slots)
}

/// Whether all alternatives are told apart by the slot of the first condition, or by those of the first alternative: then
/// no two hold together.
pub fn told_by_slots(alloc: Global, alternatives: &[Alternative]) -> Result<bool, NoMemory>
    ensures { IfOk result (λ told. told ≡ true → spec.NoneMeet (cases_of alternatives.now)) }
{
    let slots = first_slots(alloc, alternatives)?;
    match slots.as_slice() {
        [] => Ok(false),
        [first, ..] => {
            if told_by(alloc, alternatives, &[*first])? {
                return Ok(true);
            }
            told_by(alloc, alternatives, &slots)
        }
    }
}
