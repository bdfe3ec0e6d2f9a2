ghost use Rattle.std.specs.Prelude.{◌≡◌, IfOk};
ghost use Rattle.acn_world.specs.Viewed.{world_view};
ghost use Rattle.acn_sites.specs.View.{site_view};
ghost use Rattle.acn_written.specs.Mapped as spec;

use crate::says::table_attr;
use acn_codings::table_fault;
use acn_num::NoMemory;
use acn_sites::Site;
use acn_world::World;
use std::alloc::Global;

/// The first key at which the mapping table of a site is at fault: that of a line that is turned round or leaves the
/// numbers, or a key that an earlier line gives, or whose image one gives. (This profile's own.)
#[tactic(auto, unfolding(crate::specs::Mapped::bad_mapping))]
pub fn bad_mapping(alloc: Global, world: &World, site: &Site<'_>) -> Result<Option<i128>, NoMemory>
    ensures { IfOk result (λ key. key ≡ spec.bad_mapping (world_view world.now) (site_view site.now)) }
{
    match table_attr(world, site) {
        None => Ok(None),
        Some(table) => table_fault(alloc, table.lines.items()),
    }
}
