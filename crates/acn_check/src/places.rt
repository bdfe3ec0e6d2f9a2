//! Faults of nodes by themselves: several conditions on a component, too many open slots.
ghost use Rattle.std.specs.Prelude.{map, IfErr, IsTrue};
ghost use Rattle.acn_check.specs.Facts.{facts_of, fits, Fit};
ghost use Rattle.acn_check.specs.First as spec;
ghost use Rattle.acn_check.specs.First.{Told, first_of};
ghost use Rattle.acn_check.specs.Program.{IsTold};

use crate::lines::Line;
use acn_grammar::MOST_OPEN_SLOTS;
use acn_tree::CheckFault;

fn line_is_clear(line: &Line) -> Result<(), CheckFault>
    ensures { Told (spec.unclear 0 (facts_of line.now)) result }
{
    if line.tag.component && line.tag.tests.len() > 1 {
        return Err(CheckFault::AbsentUnclear {
            at: line.path.copy(),
        });
    }
    Ok(())
}

/// Refuses the first component with more than one condition.
pub fn all_clear(lines: &[Line]) -> Result<(), CheckFault>
    ensures { Told (first_of spec.unclear 0 (map facts_of lines.now)) result }
{
    for line in lines {
        line_is_clear(line)?;
    }
    Ok(())
}

fn line_has_few_open(line: &Line) -> Result<(), CheckFault>
    requires { IsTrue (fits (facts_of line.now)) }
    ensures told { Told (spec.much_open 0 (facts_of line.now)) result }
    ensures exact { IfErr result IsTold }
{
    if line.at_home > MOST_OPEN_SLOTS {
        return Err(CheckFault::TooManyOpen {
            at: line.path.copy(),
            count: line.at_home as u32,
        });
    }
    Ok(())
}

/// Refuses the first node on whose path more than `MOST_OPEN_SLOTS` slots are at home.
pub fn few_open(lines: &[Line]) -> Result<(), CheckFault>
    requires { Fit (map facts_of lines.now) }
    ensures told { Told (first_of spec.much_open 0 (map facts_of lines.now)) result }
    ensures exact { IfErr result IsTold }
{
    for line in lines {
        line_has_few_open(line)?;
    }
    Ok(())
}
