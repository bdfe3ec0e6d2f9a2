//! Lists that are ended by a pattern: whether the first bits of an element tell it from the pattern.
ghost use Rattle.std.specs.Prelude.{◌≡◌, true, map, IfErr};
ghost use Rattle.std.specs.List.{list_all};
ghost use Rattle.acn_check.specs.Facts.{facts_of};
ghost use Rattle.acn_check.specs.First as spec;
ghost use Rattle.acn_check.specs.First.{Told, first_of};
ghost use Rattle.acn_check.specs.Program.{IsTold};

use crate::lines::Line;
use acn_leads::is_ambiguous;
use acn_tree::{Body, CheckFault, SizeRule};

fn line_is_told(line: &Line) -> Result<(), CheckFault>
    requires { spec.leads_fine (facts_of line.now) ≡ true }
    ensures told { Told (spec.ambiguous_at 0 (facts_of line.now)) result }
    ensures exact { IfErr result IsTold }
{
    if let Body::List(sizing, element) = line.body
        && let SizeRule::Ended(pattern) = &sizing.rule
        && is_ambiguous(pattern.bits(), element.get())
    {
        return Err(CheckFault::TerminatorAmbiguous {
            list: line.path.copy(),
        });
    }
    Ok(())
}

/// Refuses the first list whose end can't be told from an element.
pub fn all_ends_told(lines: &[Line]) -> Result<(), CheckFault>
    requires { list_all spec.leads_fine (map facts_of lines.now) ≡ true }
    ensures told { Told (first_of spec.ambiguous_at 0 (map facts_of lines.now)) result }
    ensures exact { IfErr result IsTold }
{
    for line in lines {
        line_is_told(line)?;
    }
    Ok(())
}
