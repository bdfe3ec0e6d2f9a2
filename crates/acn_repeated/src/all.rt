ghost use Rattle.std.specs.Prelude.{◌≡◌, ◌++◌, map, OnOk};
ghost use Rattle.acn_index.specs.Views.{index_view};
ghost use Rattle.acn_world.specs.Repeated as repeated;
ghost use Rattle.acn_world.specs.declared.fault.NameFault.TheVariants as fault;
ghost use Rattle.acn_repeated.specs.Named.{names_view};
ghost use Rattle.acn_repeated.specs.Blamed.{blames_view};

use crate::blame::{Blame, Kind};
use crate::lists::push_twice_tables;
use crate::seen::nothing_seen;
use crate::{repeated, repeated_acn};
use acn_acn_syntax::MapTable;
use acn_index::index::Index;
use acn_num::{Name, NoMemory};
use std::alloc::Global;

// Adds a fault for each name of a table that is given twice.
fn push_names<'t>(names: &[&'t Name], all: &mut Vec<Blame<'t>>) -> Result<(), NoMemory>
    ensures { OnOk result (blames_view all.new.items ≡ blames_view all.old.items ++ map (λ n. fault.Repeated n n) (names_view names.now)) }
{
    for name in names {
        all.push(Blame {
            kind: Kind::Repeated,
            owner: *name,
            name: *name,
        })?;
    }
    Ok(())
}

// Adds the faults of tables.
fn push_tables<'t>(
    alloc: Global,
    tables: &'t [MapTable],
    all: &mut Vec<Blame<'t>>,
) -> Result<(), NoMemory>
    ensures { OnOk result (blames_view all.new.items ≡ blames_view all.old.items ++ repeated.table_repeats tables.now) }
{
    let mut names = Vec::new(alloc);
    push_twice_tables(alloc, tables, &mut names)?;
    push_names(names.as_slice(), all)?;
    Ok(())
}

/// Adds the names that are given twice: those of ASN.1 files, of ACN files and of tables, each in the order of the text.
#[tactic(auto, unfolding(acn_world::specs::Repeated::repeats))]
pub fn push_repeats<'w>(
    alloc: Global,
    index: &'w Index,
    all: &mut Vec<Blame<'w>>,
) -> Result<(), NoMemory>
    ensures { OnOk result (blames_view all.new.items ≡ blames_view all.old.items ++ repeated.repeats (index_view index.now)) }
{
    let mut seen = nothing_seen(alloc);
    repeated::push_modules(alloc, index.modules.items(), &mut seen, all)?;
    let mut acn_seen = nothing_seen(alloc);
    repeated_acn::push_acn_modules(alloc, index.acn.items(), &mut acn_seen, all)?;
    push_tables(alloc, index.tables.items(), all)?;
    Ok(())
}
