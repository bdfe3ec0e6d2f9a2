ghost use Rattle.std.specs.Prelude.{◌≡◌, ◌++◌, map, flat_map, IfOk, OnOk};
ghost use Rattle.acn_asn_syntax.specs.View.{module_view};
ghost use Rattle.acn_acn_syntax.specs.View.{module_of, modules_of};
ghost use Rattle.acn_index.specs.Views.{index_view};
ghost use Rattle.acn_index.specs.World.{IsSmall, world_of, asn_modules, acn_modules, map_tables};

use acn_acn_syntax::{AcnModule, AcnModules, MapTable, MapTables};
use acn_asn_syntax::{AsnModule, AsnModules};
use acn_index::index::Index;
use acn_num::{NoMemory, Row};
use acn_world::Sources;
use std::alloc::Global;

// The modules of all ASN.1 files.
fn gather_asn(alloc: Global, files: Vec<AsnModules>) -> Result<Row<AsnModule>, NoMemory>
    ensures { IfOk result (λ all. map module_view all ≡ asn_modules files.items) }
{
    let mut all = Vec::new(alloc);
    for file in files {
        all.append(&mut file.modules.into_vec())?;
    }
    Ok(Row::from_vec(all))
}

// The modules of all ACN files.
fn gather_acn(alloc: Global, files: Vec<AcnModules>) -> Result<Row<AcnModule>, NoMemory>
    ensures { IfOk result (λ all. map module_of all ≡ acn_modules files.items) }
{
    let mut all = Vec::new(alloc);
    for file in files {
        all.append(&mut file.modules.into_vec())?;
    }
    Ok(Row::from_vec(all))
}

// The tables of all mapping files.
fn gather_tables(alloc: Global, files: Vec<MapTables>) -> Result<Row<MapTable>, NoMemory>
    ensures { IfOk result (λ all. all ≡ map_tables files.items) }
{
    let mut all = Vec::new(alloc);
    for file in files {
        all.append(&mut file.tables.into_vec())?;
    }
    Ok(Row::from_vec(all))
}

/// The modules and tables of all files.
#[tactic(auto, unfolding(acn_index::specs::World::world_of))]
pub fn gather(alloc: Global, sources: Sources) -> Result<Index, NoMemory>
    requires { IsSmall (world_of sources) }
    ensures { IfOk result (λ index. index_view index ≡ world_of sources) }
{
    let Sources { asn, acn, maps } = sources;
    let modules = gather_asn(alloc, asn.into_vec())?;
    let acn = gather_acn(alloc, acn.into_vec())?;
    let tables = gather_tables(alloc, maps.into_vec())?;
    Index::new(alloc, modules, acn, tables)
}
