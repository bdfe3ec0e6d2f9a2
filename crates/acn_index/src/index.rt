ghost use Rattle.std.specs.Prelude.{◌≡◌};
ghost use Rattle.acn_index.specs.World.{IsSmall, count as count_of, world_from};
ghost use Rattle.acn_index.specs.Keyed as keyed;
ghost use Rattle.acn_index.specs.Steps as steps;

use crate::indexing::{bare, find_ends, find_jumps};
use crate::maps::Maps;
use acn_acn_syntax::{AcnModule, MapTable};
use acn_asn_syntax::AsnModule;
use acn_ends::Ends;
use acn_firsts::Firsts;
use acn_num::{NoMemory, Row};
use std::alloc::Global;

/// The modules and the tables of all files, with the first places of their names.
#[derive(Drop)]
pub struct Index {
    pub modules: Row<AsnModule>,
    pub acn: Row<AcnModule>,
    pub tables: Row<MapTable>,
    pub maps: Maps,
    /// How many assignments there are.
    pub count: usize,
    /// The names that are imported, each with its number.
    pub imported: Firsts,
    /// Where the imports of a name end, by the numbers of a module and of the name.
    pub jumps: Ends,
    /// Where the references of values end.
    pub lasts: Ends,
    /// Where the references of types end.
    pub bases: Ends,
    ghost small: { IsSmall (world_from modules acn tables) },
    ghost mapped: { maps ≡ keyed.maps_of (world_from modules acn tables) },
    ghost counted: { count ≡ count_of (world_from modules acn tables) },
    ghost jumped: { steps.AreJumps (world_from modules acn tables) imported jumps },
    ghost lasting: { steps.AreLasts (world_from modules acn tables) lasts },
    ghost based: { steps.AreBases (world_from modules acn tables) bases },
}

impl Index {
    ghost use Rattle.std.specs.Prelude.{IfOk};
    ghost use Rattle.acn_index.specs.Views.{index_view};

    /// The index of these modules and tables.
    pub fn new(
        alloc: Global,
        modules: Row<AsnModule>,
        acn: Row<AcnModule>,
        tables: Row<MapTable>,
    ) -> Result<Index, NoMemory>
        requires { IsSmall (world_from modules acn tables) }
        ensures { IfOk result (λ index. index_view index ≡ world_from modules acn tables) }
    {
        let index = bare(alloc, modules, acn, tables)?;
        let index = find_jumps(alloc, index)?;
        find_ends(alloc, index)
    }
}
