//! Faults of single uses: the slot's field stands behind the node, or is of another kind.
ghost use Rattle.std.specs.Prelude.{◌≡◌, map};
ghost use Rattle.acn_grammar.specs.Walk.{condition};
ghost use Rattle.acn_check.specs.Facts.{facts_of};
ghost use Rattle.acn_check.specs.First as spec;
ghost use Rattle.acn_check.specs.First.{Told, first_of};
ghost use Rattle.acn_check.specs.Program.{use_of, det_of};

use crate::dets::{Det, det_of_slot};
use crate::lines::Line;
use crate::uses::{Use, body_use, slot_named};
use acn_tree::{CheckFault, NumKind, Test};

fn not_behind(line: &Line, at: usize, dets: &[Det], named: Use) -> Result<(), CheckFault>
    ensures { Told (spec.behind (map det_of dets.now) at (facts_of line.now) (use_of named)) result }
{
    if let Some(det) = det_of_slot(dets, slot_named(named))
        && at < det.at
    {
        let user = line.path.copy();
        return Err(CheckFault::Forward {
            user,
            det: det.path.copy(),
        });
    }
    Ok(())
}

fn tests_not_behind(line: &Line, at: usize, dets: &[Det], tests: &[Test]) -> Result<(), CheckFault>
    ensures { Told (first_of (λ u named. spec.behind (map det_of dets.now) at (facts_of line.now) named) 0 (map condition tests.now)) result }
{
    for test in tests {
        not_behind(line, at, dets, Use::Condition(*test))?;
    }
    Ok(())
}

fn line_not_behind(line: &Line, at: usize, dets: &[Det]) -> Result<(), CheckFault>
    ensures { Told (spec.first_behind (map det_of dets.now) at (facts_of line.now)) result }
{
    tests_not_behind(line, at, dets, line.tag.tests)?;
    match body_use(line.body) {
        None => Ok(()),
        Some(named) => not_behind(line, at, dets, named),
    }
}

/// Refuses the first use of a slot whose field stands behind the user.
pub fn none_behind(lines: &[Line], dets: &[Det]) -> Result<(), CheckFault>
    ensures { Told (first_of (spec.first_behind (map det_of dets.now)) 0 (map facts_of lines.now)) result }
{
    for (at, line) in lines.iter().enumerate() {
        line_not_behind(line, at, dets)?;
    }
    Ok(())
}

// Whether the use asks for a leaf of this kind.
fn fits_kind(named: Use, kind: NumKind) -> bool
    ensures { result ≡ spec.fits_kind (use_of named) kind }
{
    match named {
        Use::Condition(Test::Flag(_)) => kind == NumKind::Boolean,
        Use::Condition(Test::Equals(_, _)) => kind == NumKind::Integer,
        Use::Item(_) => kind == NumKind::Enumerated,
        Use::Size(_) => kind == NumKind::Integer,
    }
}

fn right_kind(line: &Line, dets: &[Det], named: Use) -> Result<(), CheckFault>
    ensures { Told (spec.wrong_kind (map det_of dets.now) (facts_of line.now) (use_of named)) result }
{
    if let Some(det) = det_of_slot(dets, slot_named(named))
        && !fits_kind(named, det.leaf.kind)
    {
        return Err(CheckFault::DetKind {
            user: line.path.copy(),
            det: det.path.copy(),
        });
    }
    Ok(())
}

fn tests_right_kind(line: &Line, dets: &[Det], tests: &[Test]) -> Result<(), CheckFault>
    ensures { Told (first_of (λ u named. spec.wrong_kind (map det_of dets.now) (facts_of line.now) named) 0 (map condition tests.now)) result }
{
    for test in tests {
        right_kind(line, dets, Use::Condition(*test))?;
    }
    Ok(())
}

fn line_right_kind(line: &Line, at: usize, dets: &[Det]) -> Result<(), CheckFault>
    ensures { Told (spec.first_wrong_kind (map det_of dets.now) at (facts_of line.now)) result }
{
    tests_right_kind(line, dets, line.tag.tests)?;
    match body_use(line.body) {
        None => Ok(()),
        Some(named) => right_kind(line, dets, named),
    }
}

/// Refuses the first use of a slot of another kind than it asks for.
pub fn all_right_kind(lines: &[Line], dets: &[Det]) -> Result<(), CheckFault>
    ensures { Told (first_of (spec.first_wrong_kind (map det_of dets.now)) 0 (map facts_of lines.now)) result }
{
    for (at, line) in lines.iter().enumerate() {
        line_right_kind(line, at, dets)?;
    }
    Ok(())
}
