ghost use Rattle.std.specs.Prelude.{◌≡◌, ◌+◌, ◌≤◌, ◌↔◌, min, map, IsTrue};
ghost use Rattle.acn_asn_syntax.specs.View.{module_view};
ghost use Rattle.acn_index.specs.World.{IsSmall, asn_modules, world_of};
ghost use Rattle.acn_names.specs.Few.{weight};

use acn_asn_syntax::{AsnModule, AsnModules};
use acn_world::Sources;

// Places are numbered by 32 bits.
const MOST: usize = 4294967296;

// The sum, or the limit where it is that or more.
fn capped(a: usize, b: usize) -> usize
    ensures { result ≡ min (a + b) 4294967296 }
{
    let sum = a.saturating_add(b);
    if sum < MOST { sum } else { MOST }
}

// With the modules and assignments of a file.
fn weigh(modules: &[AsnModule], before: usize) -> usize
    requires { before ≤ 4294967296 }
    ensures { result ≡ min (before + weight (map module_view modules.now)) 4294967296 }
{
    let mut all = before;
    for owner in modules {
        all = capped(capped(all, 1), owner.items.items().len());
    }
    all
}

// With those of all files.
fn weigh_all(files: &[AsnModules]) -> usize
    ensures { result ≡ min (weight (asn_modules files.now)) 4294967296 }
{
    let mut all: usize = 0;
    for file in files {
        all = weigh(file.modules.items(), all);
    }
    all
}

/// Whether the modules and assignments are few enough to be numbered by 32 bits.
#[tactic(auto, unfolding(acn_index::specs::World::world_of, acn_index::specs::World::count))]
pub fn are_few(sources: &Sources) -> bool
    ensures { IsTrue result ↔ IsSmall (world_of sources.now) }
{
    weigh_all(sources.asn.items()) < MOST
}
