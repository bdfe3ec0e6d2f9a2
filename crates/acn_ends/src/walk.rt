ghost use Rattle.std.specs.Prelude.{◌≡◌, suc, OnOk, IfOk, IfSome, Some, true};
ghost use Rattle.acn_ends.specs.Ends.{AreRight, IsRight, IsEndless, OneMore};

use crate::ends::Ends;
use crate::spot::{End, Spot, Steps};
use acn_num::NoMemory;
use std::alloc::Global;
use std::collections::HashSet;

// The end of a place from which one step leads to a place with this end.
fn one_more(end: End) -> Option<End>
    ensures { IfSome result (OneMore end) }
{
    match end {
        End::Never => Some(End::Never),
        End::At { spot, steps } => match steps.checked_add(1) {
            None => None,
            Some(steps) => Some(End::At { spot, steps }),
        },
    }
}

// The end of a place, where it can be told from what is noted.
fn end_here<S: Steps>(steps: &S, ends: &Ends, from: Spot) -> Option<End>
    requires { AreRight (S.onward steps.now) ends.now }
    ensures { IfSome result (IsRight (S.onward steps.now) from) }
{
    match steps.step(from) {
        None => Some(End::At {
            spot: from,
            steps: 0,
        }),
        Some(next) => match ends.of(next) {
            None => None,
            Some(end) => one_more(end),
        },
    }
}

// Notes the end of a place, where it can be told from what is noted.
fn note<S: Steps>(steps: &S, ends: &mut Ends, from: Spot) -> Result<(), NoMemory>
    requires { AreRight (S.onward steps.now) ends.old }
    ensures { OnOk result (AreRight (S.onward steps.now) ends.new) }
{
    match end_here(steps, ends, from) {
        None => Ok(()),
        Some(end) => ends.note(from, end),
    }
}

// Notes the ends of the places on a way, from its end back.
fn note_back<S: Steps>(steps: &S, ends: &mut Ends, way: &[Spot]) -> Result<(), NoMemory>
    requires { AreRight (S.onward steps.now) ends.old }
    ensures { OnOk result (AreRight (S.onward steps.now) ends.new) }
{
    for from in way.iter().rev() {
        note(steps, ends, *from)?;
    }
    Ok(())
}

// Whether at most so many steps from a place lead back to it.
fn comes_back<S: Steps>(steps: &S, most: usize, from: Spot) -> bool
    ensures { result ≡ true → IsEndless (S.onward steps.now) from }
{
    let mut at = from;
    for step in 0..most {
        match steps.step(at) {
            None => return false,
            Some(next) => at = next,
        }
        if at == from {
            return true;
        }
    }
    false
}

// Notes that a place has no end, where its steps come back.
fn note_endless<S: Steps>(
    steps: &S,
    ends: &mut Ends,
    most: usize,
    from: Spot,
) -> Result<(), NoMemory>
    requires { AreRight (S.onward steps.now) ends.old }
    ensures { OnOk result (AreRight (S.onward steps.now) ends.new) }
{
    if ends.of(from).is_none() && comes_back(steps, most, from) {
        ends.note(from, End::Never)?;
    }
    Ok(())
}

// The places on a way that were not seen before, and the place behind them.
#[derive(Drop)]
struct Way {
    passed: Vec<Spot>,
    at: Spot,
}

// Walks from a place over at most so many, until one that was seen before.
fn walk<S: Steps>(
    alloc: Global,
    steps: &S,
    seen: &mut HashSet<Spot>,
    most: usize,
    from: Spot,
) -> Result<Way, NoMemory> {
    let mut passed = Vec::new(alloc);
    let mut at = from;
    for step in 0..most {
        if !seen.insert(at)? {
            return Ok(Way { passed, at });
        }
        passed.push(at)?;
        match steps.step(at) {
            None => return Ok(Way { passed, at }),
            Some(next) => at = next,
        }
    }
    Ok(Way { passed, at })
}

// Notes the ends of the places on the way from a place.
fn settle<S: Steps>(
    alloc: Global,
    steps: &S,
    seen: &mut HashSet<Spot>,
    ends: &mut Ends,
    most: usize,
    from: Spot,
) -> Result<(), NoMemory>
    requires { AreRight (S.onward steps.now) ends.old }
    ensures { OnOk result (AreRight (S.onward steps.now) ends.new) }
{
    let way = walk(alloc, steps, seen, most, from)?;
    note_endless(steps, ends, most, way.at)?;
    note_back(steps, ends, way.passed.as_slice())
}

/// How the steps from these places end, and from those on their ways. Each place is passed a few times, so the time
/// grows with the number of places alone, where each step leads to one of them.
pub fn ends_of<S: Steps>(alloc: Global, steps: &S, from: &[Spot]) -> Result<Ends, NoMemory>
    ensures { IfOk result (AreRight (S.onward steps.now)) }
{
    let mut ends = Ends::new(alloc);
    let mut seen = HashSet::new(alloc);
    let most = from.len();
    for spot in from {
        settle(alloc, steps, &mut seen, &mut ends, most, *spot)?;
    }
    Ok(ends)
}
