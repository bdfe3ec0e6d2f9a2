//! The slots at home in a SEQUENCE.

ghost use Rattle.std.specs.Prelude.{◌≡◌, IfOk};
ghost use Rattle.acn_grammar.specs.Asks.{with_fields};
ghost use Rattle.acn_grammar.specs.Grammar.{Grammar};
ghost use Rattle.acn_grammar.specs.View.{fields_view};
ghost use Rattle.acn_determinants.specs.Determinants.{SequenceIn};
ghost use Rattle.acn_asking.specs.Gathered.{paths_of, LeavesIn};

use acn_asking::{Open, open_home};
use acn_grammar::Field;
use acn_num::{NoMemory, Path, Row};
use std::alloc::Global;

fn copied<'t>(alloc: Global, slot: &Open<'t>) -> Result<Open<'t>, NoMemory>
    ensures { IfOk result (λ copy. copy ≡ slot.now) }
{
    let field = Vec::from_slice(alloc, slot.field.items())?;
    Ok(Open {
        slot: slot.slot,
        field: Row::from_vec(field),
        leaf: slot.leaf,
    })
}

fn all_copied<'t>(alloc: Global, slots: &[Open<'t>]) -> Result<Vec<Open<'t>>, NoMemory>
    ensures { IfOk result (λ all. all.items ≡ slots.now) }
{
    let mut all = Vec::new(alloc);
    for slot in slots {
        all.push(copied(alloc, slot)?)?;
    }
    Ok(all)
}

/// The slots at home in the SEQUENCE at the path, with those round it.
pub fn with_home<'t>(
    alloc: Global,
    fields: &'t [Field],
    home: &[u32],
    path: &Path,
    around: &[Open<'t>],
) -> Result<Row<Open<'t>>, NoMemory>
    requires { (root : Grammar) × SequenceIn root (fields_view fields.now) home.now }
    ensures paths { IfOk result (λ all. paths_of all ≡ with_fields path.now (fields_view fields.now) home.now (paths_of around.now)) }
    ensures leaves { IfOk result (λ all. (root : Grammar) → SequenceIn root (fields_view fields.now) home.now → LeavesIn root around.now → LeavesIn root all) }
{
    let mut all = all_copied(alloc, around)?;
    open_home(alloc, fields, home, path, &mut all)?;
    Ok(Row::from_vec(all))
}
