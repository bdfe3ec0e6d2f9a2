//! Alternatives of one CHOICE whose conditions can hold together.
//!
//! A condition asks its slot for one number. So the conditions of two alternatives hold together exactly where
//! none of the slots that they name is asked for two numbers, and each number is permitted.
//!
//! Where each alternative asks a number of its own of one slot, as most do, no pair is looked at.
ghost use Rattle.std.specs.Prelude.{◌≡◌, ◌≤◌, ◌<◌, ◌+◌, ◌++◌, [], length, map, drop, option_map, IfOk};
ghost use Rattle.std.specs.List.{list_all};
ghost use Rattle.std.specs.Ordering.{int_eq};
ghost use Rattle.acn_check.specs.Facts.{facts_of};
ghost use Rattle.acn_check.specs.First as spec;
ghost use Rattle.acn_check.specs.First.{Told, first_of};
ghost use Rattle.acn_check.specs.Program.{det_of, cases_of, AreFew, FewCases, IsPut};
ghost use Rattle.acn_grammar.specs.declared.limits.TheConstants.{MOST_NODES};

use crate::clashes::{Asked, asked_by, clash, is_number, told_by_slots};
use crate::dets::{Det, det_of_slot};
use crate::lines::Line;
use acn_num::{NoMemory, Path, Row};
use acn_tree::{Alternative, Body, CheckFault, ChoiceRule, Test};
use std::alloc::Global;

// How many numbers stand before those of this slot and of greater ones.
fn place_of(values: &[(u32, i128)], slot: u32) -> usize
    ensures value { result ≡ spec.place_of slot values.now }
    ensures within { result ≤ length values.now }
{
    for (place, value) in values.iter().enumerate() {
        if value.0 >= slot {
            return place;
        }
    }
    values.len()
}

// Whether the number at this place is the one that is asked, where it is the slot's.
fn agrees_at(values: &[(u32, i128)], place: usize, asked: &Asked) -> Option<bool>
    ensures { result ≡ option_map (int_eq asked.now.number) (spec.number_at asked.now.slot place values.now) }
{
    match values.get(place) {
        None => None,
        Some(value) => {
            if value.0 == asked.slot {
                Some(is_number(&asked.number, &value.1))
            } else {
                None
            }
        }
    }
}

// Puts the number among those of other slots, which ascend. It isn't taken exactly where its slot has
// another number.
fn put(values: &mut Vec<(u32, i128)>, asked: &Asked) -> Result<bool, NoMemory>
    ensures { IfOk result (λ taken. IsPut (spec.put asked.now.slot asked.now.number values.old.items) taken values.new.items) }
{
    let number = asked.number;
    let place = place_of(values, asked.slot);
    match agrees_at(values, place, asked) {
        Some(agrees) => Ok(agrees),
        None => {
            values.insert(place, (asked.slot, number))?;
            Ok(true)
        }
    }
}

// Puts what these conditions ask. Not all are taken exactly where a slot is asked for two numbers.
fn gather(values: &mut Vec<(u32, i128)>, tests: &[Test]) -> Result<bool, NoMemory>
    ensures { IfOk result (λ taken. IsPut (spec.gathered tests.now values.old.items) taken values.new.items) }
{
    for test in tests {
        if !put(values, &asked_by(test))? {
            return Ok(false);
        }
    }
    Ok(true)
}

fn is_permitted(dets: &[Det], value: &(u32, i128)) -> bool
    ensures { result ≡ spec.permits (map det_of dets.now) value.now }
{
    match det_of_slot(dets, value.0) {
        None => false,
        Some(det) => det.leaf.set.holds(value.1),
    }
}

fn are_permitted(dets: &[Det], values: &[(u32, i128)]) -> bool
    ensures { result ≡ list_all (spec.permits (map det_of dets.now)) values.now }
{
    for value in values {
        if !is_permitted(dets, value) {
            return false;
        }
    }
    true
}

// The numbers that the conditions of both ask, if no slot is asked for two.
fn gather_both(
    alloc: Global,
    one: &[Test],
    other: &[Test],
) -> Result<Option<Vec<(u32, i128)>>, NoMemory>
    ensures { IfOk result (λ found. option_map (λ v. v.items) found ≡ spec.gathered (one.now ++ other.now) []) }
{
    let mut values = Vec::new(alloc);
    let first = gather(&mut values, one)?;
    if !first {
        return Ok(None);
    }
    let second = gather(&mut values, other)?;
    if !second {
        return Ok(None);
    }
    Ok(Some(values))
}

// The numbers, if all are permitted.
fn permitted_only(dets: &[Det], values: Vec<(u32, i128)>) -> Option<Vec<(u32, i128)>>
    ensures { option_map (λ v. v.items) result ≡ spec.only_if (list_all (spec.permits (map det_of dets.now)) values.items) values.items }
{
    if are_permitted(dets, &values) {
        Some(values)
    } else {
        None
    }
}

// The numbers under which the conditions of both hold, where both have some.
fn both_hold(
    alloc: Global,
    dets: &[Det],
    one: &[Test],
    other: &[Test],
) -> Result<Option<Vec<(u32, i128)>>, NoMemory>
    ensures { IfOk result (λ found. option_map (λ v. v.items) found ≡ spec.both_hold (map det_of dets.now) one.now other.now) }
{
    if one.is_empty() || other.is_empty() {
        return Ok(None);
    }
    match gather_both(alloc, one, other)? {
        None => Ok(None),
        Some(values) => Ok(permitted_only(dets, values)),
    }
}

/// An alternative of a CHOICE, by its number, and its conditions.
#[derive(Clone, Copy, Drop)]
struct Case<'t> {
    at: u32,
    tests: &'t [Test],
}

fn apart(alloc: Global, dets: &[Det], path: &Path, one: Case, other: Case) -> Result<(), CheckFault>
    ensures { Told (spec.overlapping (map det_of dets.now) path.now one.entry.at one.entry.tests.now other.entry.at other.entry.tests.now) result }
{
    if clash(one.tests, other.tests) {
        return Ok(());
    }
    match both_hold(alloc, dets, one.tests, other.tests)? {
        None => Ok(()),
        Some(values) => Err(CheckFault::Overlap {
            choice: path.copy(),
            first: one.at,
            second: other.at,
            values: Row::from_vec(values),
        }),
    }
}

// Compares an alternative with those behind it, the first of which has the next number.
fn apart_from(
    alloc: Global,
    dets: &[Det],
    path: &Path,
    one: Case,
    others: &[Alternative],
) -> Result<(), CheckFault>
    requires { one.at + 1 + length others.now ≤ MOST_NODES }
    ensures { Told (spec.against (map det_of dets.now) path.now one.entry.at one.entry.tests.now (one.entry.at + 1) (cases_of others.now)) result }
{
    for (place, alternative) in others.iter().enumerate() {
        let other = Case {
            at: one.at + 1 + place as u32,
            tests: alternative.tests.items(),
        };
        apart(alloc, dets, path, one, other)?;
    }
    Ok(())
}

// The alternatives behind one.
fn behind(alternatives: &[Alternative], at: usize) -> &[Alternative]
    requires { at < length alternatives.now }
    ensures { result.now ≡ drop (at + 1) alternatives.now }
{
    &alternatives[at + 1..]
}

fn all_apart(
    alloc: Global,
    dets: &[Det],
    path: &Path,
    alternatives: &[Alternative],
) -> Result<(), CheckFault>
    requires { length alternatives.now ≤ MOST_NODES }
    ensures { Told (spec.pairs (map det_of dets.now) path.now 0 (cases_of alternatives.now)) result }
{
    if told_by_slots(alloc, alternatives)? {
        return Ok(());
    }
    for (at, alternative) in alternatives.iter().enumerate() {
        let one = Case {
            at: at as u32,
            tests: alternative.tests.items(),
        };
        apart_from(alloc, dets, path, one, behind(alternatives, at))?;
    }
    Ok(())
}

fn line_is_apart(alloc: Global, line: &Line, dets: &[Det]) -> Result<(), CheckFault>
    requires { AreFew (facts_of line.now) }
    ensures { Told (spec.overlap_in (map det_of dets.now) (facts_of line.now).path (facts_of line.now).form) result }
{
    match line.body {
        Body::Choice(choice) => match choice.rule {
            ChoiceRule::Tests => all_apart(alloc, dets, &line.path, choice.alternatives.items()),
            ChoiceRule::Index(_) | ChoiceRule::Item(_) => Ok(()),
        },
        _ => Ok(()),
    }
}

/// Refuses the first two alternatives of one CHOICE whose conditions hold together under permitted numbers.
pub fn none_overlap(alloc: Global, lines: &[Line], dets: &[Det]) -> Result<(), CheckFault>
    requires { FewCases (map facts_of lines.now) }
    ensures { Told (first_of (spec.overlap_at (map det_of dets.now)) 0 (map facts_of lines.now)) result }
{
    for line in lines {
        line_is_apart(alloc, line, dets)?;
    }
    Ok(())
}
