ghost use Rattle.std.specs.Prelude.{◌≡◌, ◌+◌, ◌-◌, ◌*◌, MatchOption, ◌<◌, ◌≤◌, ◌^◌, ◌∷◌, [], ◌++◌, List, ℕ, true, length, take, drop, IfOk, IfErr, OnOk, OnErr};
ghost use Rattle.acn_num.specs.Bits.{number};
ghost use Rattle.acn_grammar.specs.Code.{IsMinimal};
ghost use Rattle.acn_grammar.specs.ReadFaults.{reason_of};
ghost use Rattle.acn_ints.specs.EndedReads.{AreSoFar, PassedCharacter, PassedRest, PassedEnded, RestWrong, CharacterWrong, EndedWrong};
ghost use Rattle.acn_bits.specs.Reading.{Stays};
ghost use Rattle.acn_grammar.specs.declared.limits.TheConstants.{MOST_PATTERN_BITS};

use crate::fixed::bits_of;
use crate::ordered::pattern_number;
use acn_bits::ReadCursor;
use acn_grammar::ReadFault;

/// What stands at one place of an ended number.
#[derive(Clone, Copy, PartialEq, Eq)]
pub enum Character {
    Digit(u64),
    End,
}

/// The digits up to a place of an ended number.
#[derive(Clone, Copy, PartialEq, Eq)]
pub struct SoFar {
    pub count: u32,
    pub value: u128,
    pub leading_zero: bool,
}

/// The digits of an ended number: its magnitude, and whether it has no leading zeros.
#[derive(Clone, Copy, PartialEq, Eq)]
pub struct Ended {
    pub magnitude: u128,
    pub minimal: bool,
}

/// The rest of the end, of which the first bits were taken and spell `front`.
fn rest_of_end(
    cur: &mut ReadCursor<'_>,
    size: u32,
    front: u64,
    end: &[bool],
) -> Result<(), ReadFault>
    requires long { size ≤ length end.now }
    requires few { length end.now ≤ MOST_PATTERN_BITS }
    ensures end { OnOk result (PassedRest size front end.now cur.old cur.new) }
    ensures wrong { IfErr result (λ e. RestWrong size front end.now cur.old.rest (reason_of e)) }
    ensures stays { OnErr result (Stays cur.old cur.new) }
{
    let head = pattern_number(&end[..size as usize]);
    let tail = pattern_number(&end[size as usize..]);
    match bits_of(cur, end.len() as u32 - size) {
        Ok(v) => {
            if front != head {
                Err(ReadFault::BadDigit)
            } else if v != tail {
                Err(ReadFault::BadDigit)
            } else {
                Ok(())
            }
        }
        Err(fault) => Err(fault),
    }
}

/// The digit that the number stands for.
fn digit_of(v: u64, zero_digit: u64) -> Option<u64>
    requires { zero_digit ≤ 48 }
    ensures { MatchOption result ((d : ℕ) → d < 10 → v ≡ zero_digit + d → ⊥) (λ d. (d < 10) × (v ≡ zero_digit + d)) }
{
    if v < zero_digit {
        return None;
    }
    if v < zero_digit + 10 {
        Some(v - zero_digit)
    } else {
        None
    }
}

/// The digit or the end that stands next.
fn next_character(
    cur: &mut ReadCursor<'_>,
    size: u32,
    zero_digit: u64,
    end: &[bool],
) -> Result<Character, ReadFault>
    requires size { size ≤ 8 }
    requires zero_digit { zero_digit ≤ 48 }
    requires long { size ≤ length end.now }
    requires few { length end.now ≤ MOST_PATTERN_BITS }
    ensures character { IfOk result (λ it. PassedCharacter size zero_digit end.now cur.old cur.new it) }
    ensures wrong { IfErr result (λ e. CharacterWrong size zero_digit end.now cur.old.rest (reason_of e)) }
    ensures stays { OnErr result (Stays cur.old cur.new) }
{
    match bits_of(cur, size) {
        Ok(v) => {
            match digit_of(v, zero_digit) {
                Some(digit) => Ok(Character::Digit(digit)),
                None => match rest_of_end(cur, size, v, end) {
                    Ok(()) => Ok(Character::End),
                    Err(fault) => Err(fault),
                },
            }
        }
        Err(fault) => Err(fault),
    }
}

/// One digit more.
fn one_more(so_far: SoFar, digit: u64) -> SoFar
    requires few { so_far.count < 20 }
    requires below { so_far.value < 10 ^ 20 }
    requires digit { digit < 10 }
    ensures count { result.count ≡ so_far.count + 1 }
    ensures value { result.value ≡ 10 * so_far.value + digit }
    ensures digits { (ds : List ℕ) → AreSoFar ds so_far.count so_far.value so_far.leading_zero → AreSoFar (ds ++ digit ∷ []) result.count result.value result.leading_zero }
{
    SoFar {
        count: so_far.count + 1,
        value: 10 * so_far.value + u128::from(digit),
        leading_zero: if so_far.count == 0 {
            digit == 0
        } else {
            so_far.leading_zero
        },
    }
}

/// All digits: there is one, or the end is no digit.
fn finished(so_far: SoFar) -> Result<Ended, ReadFault>
    ensures some { OnOk result (0 < so_far.count) }
    ensures magnitude { IfOk result (λ n. n.magnitude ≡ so_far.value) }
    ensures least { IfOk result (λ n. (ds : List ℕ) → AreSoFar ds so_far.count so_far.value so_far.leading_zero → n.minimal ≡ true → IsMinimal ds) }
    ensures longer { IfOk result (λ n. (ds : List ℕ) → AreSoFar ds so_far.count so_far.value so_far.leading_zero → (n.minimal ≡ true → ⊥) → IsMinimal ds → ⊥) }
    ensures none { IfErr result (λ e. (so_far.count ≡ 0) × (e ≡ ReadFault.BadDigit)) }
{
    if so_far.count == 0 {
        return Err(ReadFault::BadDigit);
    }
    Ok(Ended {
        magnitude: so_far.value,
        minimal: so_far.count == 1 || !so_far.leading_zero,
    })
}

/// Digits, character by character, and the end.
pub fn read_ended(
    cur: &mut ReadCursor<'_>,
    size: u32,
    zero_digit: u64,
    end: &[bool],
    most: u32,
) -> Result<Ended, ReadFault>
    requires size { size ≤ 8 }
    requires zero_digit { zero_digit + 10 ≤ 2 ^ size }
    requires code { zero_digit ≤ 48 }
    requires long { size ≤ length end.now }
    requires few { length end.now ≤ MOST_PATTERN_BITS }
    requires most { most ≤ 20 }
    ensures read { IfOk result (λ n. PassedEnded size zero_digit end.now most cur.old cur.new n.magnitude n.minimal) }
    ensures small { IfOk result (λ n. n.magnitude < 10 ^ 20) }
    ensures wrong { IfErr result (λ e. EndedWrong size zero_digit end.now most cur.old.rest (reason_of e)) }
    ensures stays { OnErr result (Stays cur.old cur.new) }
{
    let mut so_far = SoFar {
        count: 0,
        value: 0,
        leading_zero: false,
    };
    for count in 0..most + 1 {
        match next_character(cur, size, zero_digit, end) {
            Ok(it) => match it {
                Character::Digit(digit) => {
                    if count == most {
                        return Err(ReadFault::TooLong);
                    }
                    so_far = one_more(so_far, digit);
                }
                Character::End => return finished(so_far),
            },
            Err(fault) => return Err(fault),
        }
    }
    unreachable!()
}
