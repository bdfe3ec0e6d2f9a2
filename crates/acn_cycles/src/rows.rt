ghost use Rattle.std.specs.Prelude.{◌≡◌, IfOk};
ghost use Rattle.acn_index.specs.Views.{index_view};
ghost use Rattle.acn_cycles.specs.Numbers as spec;

use crate::numbers::numbers_in;
use crate::targets::push_targets;
use acn_index::index::Index;
use acn_num::{NoMemory, Row};
use acn_world::TypeId;
use std::alloc::Global;

// The numbers of those to which an assignment refers.
fn row_in(
    alloc: Global,
    index: &Index,
    firsts: &[usize],
    place: TypeId,
) -> Result<Row<usize>, NoMemory>
    requires { spec.AreSmall firsts.now }
    ensures { IfOk result (λ row. row ≡ spec.row_in (index_view index.now) firsts.now place) }
{
    let mut all = Vec::new(alloc);
    push_targets(alloc, index, place, &mut all)?;
    numbers_in(alloc, firsts, all.as_slice())
}

/// For each of the assignments the numbers of those to which it refers.
pub fn rows_in(
    alloc: Global,
    index: &Index,
    firsts: &[usize],
    places: &[TypeId],
) -> Result<Vec<Row<usize>>, NoMemory>
    requires { spec.AreSmall firsts.now }
    ensures { IfOk result (λ rows. rows.items ≡ spec.rows_in (index_view index.now) firsts.now places.now) }
{
    let mut rows = Vec::new(alloc);
    for place in places {
        let row = row_in(alloc, index, firsts, *place)?;
        rows.push(row)?;
    }
    Ok(rows)
}
