//! The fields that have a slot.

ghost use Rattle.std.specs.Prelude.{◌≡◌, IfOk};
ghost use Rattle.acn_homes.specs.Homes as spec;
ghost use Rattle.acn_homes.specs.View.{paths_view};

use crate::uses::Use;
use acn_num::{NoMemory, Row};
use std::alloc::Global;

// The paths of the inserted fields and of those that a use names, as they come.
fn named<'p>(
    alloc: Global,
    inserted: &'p [Row<usize>],
    uses: &'p [Use],
) -> Result<Vec<&'p [usize]>, NoMemory>
    ensures { IfOk result (λ all. paths_view all.items ≡ spec.named inserted.now uses.now) }
{
    let mut all = Vec::with_capacity(alloc, inserted.len())?;
    for field in inserted {
        all.push(field.items())?;
    }
    for one in uses {
        all.push(one.field.items())?;
    }
    Ok(all)
}

/// The paths of the fields that have a slot, each once, in preorder.
pub fn fields<'p>(
    alloc: Global,
    inserted: &'p [Row<usize>],
    uses: &'p [Use],
) -> Result<Vec<&'p [usize]>, NoMemory>
    ensures { IfOk result (λ all. paths_view all.items ≡ spec.fields inserted.now uses.now) }
{
    let mut all = named(alloc, inserted, uses)?;
    all.sort_unstable();
    all.dedup();
    Ok(all)
}
