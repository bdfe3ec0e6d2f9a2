ghost use Rattle.std.specs.Prelude.{◌≡◌, ◌<◌, length, map, flat_map, IfOk};
ghost use Rattle.acn_asn_syntax.specs.Mirror as plain;
ghost use Rattle.acn_asn_syntax.specs.View.{module_view};
ghost use Rattle.acn_index.specs.World.{IsSmall, world_from};
ghost use Rattle.acn_index.specs.Steps as steps;
ghost use Rattle.acn_index.specs.Views.{index_view};

use crate::ends::{bases_of, lasts_of};
use crate::index::Index;
use crate::jumps::{Jumps, jumps_of};
use crate::maps::maps_of;
use acn_acn_syntax::{AcnModule, MapTable};
use acn_asn_syntax::AsnModule;
use acn_ends::Ends;
use acn_firsts::Firsts;
use acn_num::{NoMemory, Row};
use std::alloc::Global;

// How many assignments the modules have.
fn items_of(modules: &[AsnModule]) -> usize
    requires { length (flat_map (λ (m : plain.AsnModule). m.items) (map module_view modules.now)) < 4294967296 }
    ensures { result ≡ length (flat_map (λ (m : plain.AsnModule). m.items) (map module_view modules.now)) }
{
    let mut all: usize = 0;
    for owner in modules {
        all += owner.items.items().len();
    }
    all
}

/// The index without ends.
pub fn bare(
    alloc: Global,
    modules: Row<AsnModule>,
    acn: Row<AcnModule>,
    tables: Row<MapTable>,
) -> Result<Index, NoMemory>
    requires { IsSmall (world_from modules acn tables) }
    ensures { IfOk result (λ index. index_view index ≡ world_from modules acn tables) }
{
    let maps = maps_of(alloc, modules.items(), acn.items(), tables.items())?;
    let count = items_of(modules.items());
    Ok(Index {
        modules,
        acn,
        tables,
        maps,
        count,
        imported: Firsts::new(alloc),
        jumps: Ends::new(alloc),
        lasts: Ends::new(alloc),
        bases: Ends::new(alloc),
    })
}

// The index with the ends of imports.
fn with_jumps(index: Index, found: Jumps) -> Index
    requires { steps.AreJumps (index_view index) found.numbers found.ends }
    ensures { index_view result ≡ index_view index }
{
    let Index {
        modules,
        acn,
        tables,
        maps,
        count,
        imported,
        jumps,
        lasts,
        bases,
    } = index;
    let Jumps { numbers, ends } = found;
    Index {
        modules,
        acn,
        tables,
        maps,
        count,
        imported: numbers,
        jumps: ends,
        lasts,
        bases,
    }
}

// The index with the ends of references.
fn with_ends(index: Index, last: Ends, base: Ends) -> Index
    requires values { steps.AreLasts (index_view index) last }
    requires types { steps.AreBases (index_view index) base }
    ensures { index_view result ≡ index_view index }
{
    let Index {
        modules,
        acn,
        tables,
        maps,
        count,
        imported,
        jumps,
        lasts,
        bases,
    } = index;
    Index {
        modules,
        acn,
        tables,
        maps,
        count,
        imported,
        jumps,
        lasts: last,
        bases: base,
    }
}

/// Finds the ends of imports.
pub fn find_jumps(alloc: Global, index: Index) -> Result<Index, NoMemory>
    ensures { IfOk result (λ all. index_view all ≡ index_view index) }
{
    let jumps = jumps_of(alloc, &index)?;
    Ok(with_jumps(index, jumps))
}

/// Finds the ends of references, by the ends of imports.
pub fn find_ends(alloc: Global, index: Index) -> Result<Index, NoMemory>
    ensures { IfOk result (λ all. index_view all ≡ index_view index) }
{
    let lasts = lasts_of(alloc, &index)?;
    let bases = bases_of(alloc, &index)?;
    Ok(with_ends(index, lasts, bases))
}
