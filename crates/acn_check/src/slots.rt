//! Faults of slots: codes of several lengths, no use, too many conditions.
ghost use Rattle.std.specs.Prelude.{◌≡◌, ◌<◌, ◌^◌, ◌-◌, true, map, option_map, slice_get, IfErr};
ghost use Rattle.std.specs.List.{list_all};
ghost use Rattle.acn_grammar.specs.Leaves.{num_fine};
ghost use Rattle.acn_grammar.specs.Interval.{width_of};
ghost use Rattle.acn_check.specs.Facts.{facts_of};
ghost use Rattle.acn_check.specs.First as spec;
ghost use Rattle.acn_check.specs.First.{Told, first_of};
ghost use Rattle.acn_check.specs.Program.{det_of, tally_of, IsTold};

use crate::dets::{Det, det_of_slot};
use crate::lines::Line;
use crate::tallies::Tally;
use acn_grammar::{MOST_CONDITIONS, MOST_DETERMINANT_BITS};
use acn_tree::{CheckFault, NumLeaf, width};

fn has_width(leaf: &NumLeaf) -> bool
    requires { num_fine leaf.now ≡ true }
    ensures { result ≡ spec.width_fits (width_of leaf.now) }
{
    match width(leaf) {
        None => false,
        Some(bits) => bits <= MOST_DETERMINANT_BITS,
    }
}

// The slot of an inserted field: the width of a component is free.
fn slot_inserted(line: &Line) -> Option<u32>
    ensures { result ≡ spec.slot_inserted (facts_of line.now).tag.component (facts_of line.now).tag.slot }
{
    if line.tag.component {
        None
    } else {
        line.tag.slot
    }
}

fn line_has_width(line: &Line, dets: &[Det]) -> Result<(), CheckFault>
    requires { list_all (λ d. num_fine d.leaf) (map det_of dets.now) ≡ true }
    ensures { Told (spec.no_width (map det_of dets.now) 0 (facts_of line.now)) result }
{
    if let Some(slot) = slot_inserted(line)
        && let Some(det) = det_of_slot(dets, slot)
        && !has_width(det.leaf)
    {
        return Err(CheckFault::DetWidth {
            det: line.path.copy(),
        });
    }
    Ok(())
}

/// Refuses the first inserted slot whose codes don't all have one width of at most
/// `MOST_DETERMINANT_BITS`.
pub fn all_have_width(lines: &[Line], dets: &[Det]) -> Result<(), CheckFault>
    requires { list_all (λ d. num_fine d.leaf) (map det_of dets.now) ≡ true }
    ensures { Told (first_of (spec.no_width (map det_of dets.now)) 0 (map facts_of lines.now)) result }
{
    for line in lines {
        line_has_width(line, dets)?;
    }
    Ok(())
}

fn tally_of_slot(line: &Line, tallies: &[Tally]) -> Option<Tally>
    ensures { option_map tally_of result ≡ spec.given (facts_of line.now).tag.slot (λ s. slice_get (map tally_of tallies.now) s) }
{
    match line.tag.slot {
        None => None,
        Some(slot) => tallies.get(slot as usize).copied(),
    }
}

fn line_used(line: &Line, tallies: &[Tally]) -> Result<(), CheckFault>
    ensures { Told (spec.no_use (map tally_of tallies.now) 0 (facts_of line.now)) result }
{
    match tally_of_slot(line, tallies) {
        Some(tally) if !tally.used => Err(CheckFault::Unused {
            det: line.path.copy(),
        }),
        _ => Ok(()),
    }
}

/// Refuses the first slot without a use.
pub fn all_used(lines: &[Line], tallies: &[Tally]) -> Result<(), CheckFault>
    ensures { Told (first_of (spec.no_use (map tally_of tallies.now)) 0 (map facts_of lines.now)) result }
{
    for line in lines {
        line_used(line, tallies)?;
    }
    Ok(())
}

fn line_has_few(line: &Line, tallies: &[Tally]) -> Result<(), CheckFault>
    ensures told { Told (spec.many_conditions (map tally_of tallies.now) 0 (facts_of line.now)) result }
    ensures exact { IfErr result IsTold }
{
    match tally_of_slot(line, tallies) {
        Some(tally) if tally.equals == u32::MAX => Err(CheckFault::NoMemory),
        Some(tally) if tally.equals > MOST_CONDITIONS => Err(CheckFault::TooManyConditions {
            det: line.path.copy(),
            count: tally.equals,
        }),
        _ => Ok(()),
    }
}

/// Refuses the first slot that more than `MOST_CONDITIONS` conditions compare with a number. A count that needs more than
/// 32 bits can't be told: so many conditions are answered as want of memory.
pub fn all_have_few(lines: &[Line], tallies: &[Tally]) -> Result<(), CheckFault>
    ensures told { Told (first_of (spec.many_conditions (map tally_of tallies.now)) 0 (map facts_of lines.now)) result }
    ensures exact { IfErr result IsTold }
{
    for line in lines {
        line_has_few(line, tallies)?;
    }
    Ok(())
}
