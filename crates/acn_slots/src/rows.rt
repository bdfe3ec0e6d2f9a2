//! Lists of numbers.

ghost use Rattle.std.specs.Prelude.{◌≡◌, [], ◌∷◌, ◌++◌, IfOk};

use acn_num::{NoMemory, Row};
use std::alloc::Global;

/// The same numbers again.
pub fn copied(alloc: Global, numbers: &[usize]) -> Result<Row<usize>, NoMemory>
    ensures { IfOk result (λ all. all ≡ numbers.now) }
{
    Ok(Row::from_vec(Vec::from_slice(alloc, numbers)?))
}

/// With one number more.
pub fn extended(alloc: Global, numbers: &[usize], last: usize) -> Result<Row<usize>, NoMemory>
    ensures { IfOk result (λ all. all ≡ numbers.now ++ last ∷ []) }
{
    let mut all = copied(alloc, numbers)?;
    all.push(last)?;
    Ok(all)
}
