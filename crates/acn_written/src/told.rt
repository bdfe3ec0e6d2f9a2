ghost use Rattle.std.specs.Prelude.{◌≡◌, IfOk, is_some, true};
ghost use Rattle.acn_constraint.specs.Views.{fault_of};

use acn_constraint::ConstraintFault;
use acn_num::NoMemory;

/// Passes over a fault of constraints, unless it is want of memory.
pub fn pass_over(fault: ConstraintFault) -> Result<(), NoMemory>
    ensures { IfOk result (λ _. is_some (fault_of fault) ≡ true) }
{
    match fault {
        ConstraintFault::NoMemory => Err(NoMemory),
        ConstraintFault::Empty => Ok(()),
        ConstraintFault::Unbounded => Ok(()),
        ConstraintFault::TooWide { .. } => Ok(()),
        ConstraintFault::SizeLimit { .. } => Ok(()),
        ConstraintFault::NotHere => Ok(()),
    }
}
