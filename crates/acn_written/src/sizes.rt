//! The sizes and characters of a string, a list or contained octets.

ghost use Rattle.std.specs.Prelude.{◌≡◌, ◌∷◌, [], pos, option_copied, IfOk};
ghost use Rattle.acn_world.specs.Viewed.{world_view};
ghost use Rattle.acn_sites.specs.View.{site_view};
ghost use Rattle.acn_written.specs.Sizes as spec;

use crate::told::pass_over;
use acn_acn_syntax::SizeAttr;
use acn_constraint::{alphabet_of, size_of};
use acn_num::{MOST_SIZE, NoMemory, RangeSet};
use acn_reasons::size_attr;
use acn_sites::Site;
use acn_world::World;
use std::alloc::Global;

/// The sizes that a written SIZE leaves; none where there is no SIZE, or it leaves none.
#[tactic(auto, unfolding(crate::specs::Sizes::written_sizes), using(crate::proofs::Passed::sizes_left, crate::proofs::Passed::no_sizes))]
pub fn written_sizes(
    alloc: Global,
    world: &World,
    site: &Site<'_>,
) -> Result<Option<RangeSet>, NoMemory>
    ensures { IfOk result (λ sizes. sizes ≡ spec.written_sizes (world_view world.now) (site_view site.now)) }
{
    match size_of(alloc, world, &site.chain) {
        Ok(sizes) => Ok(sizes),
        Err(fault) => {
            pass_over(fault)?;
            Ok(None)
        }
    }
}

/// The permitted sizes of a site, where a written SIZE leaves these: the one that `size` gives as a number, or else these, or
/// else all up to `MOST_SIZE`.
#[tactic(auto, unfolding(crate::specs::Sizes::sizes_at))]
pub fn sizes_at(
    alloc: Global,
    world: &World,
    site: &Site<'_>,
    written: Option<RangeSet>,
) -> Result<RangeSet, NoMemory>
    requires { written ≡ spec.written_sizes (world_view world.now) (site_view site.now) }
    ensures { IfOk result (λ sizes. sizes ≡ spec.sizes_at (world_view world.now) (site_view site.now)) }
{
    let _world = world;
    permitted(alloc, size_attr(site), written)
}

// The permitted sizes.
fn permitted(
    alloc: Global,
    size: Option<&SizeAttr>,
    written: Option<RangeSet>,
) -> Result<RangeSet, NoMemory>
    ensures { IfOk result (λ sizes. sizes ≡ spec.permitted (option_copied size.entry) written) }
{
    match size {
        Some(SizeAttr::Number(n)) => one_size(alloc, *n),
        Some(SizeAttr::NullTerminated) => or_all(alloc, written),
        Some(SizeAttr::Path(_)) => or_all(alloc, written),
        None => or_all(alloc, written),
    }
}

fn one_size(alloc: Global, n: u64) -> Result<RangeSet, NoMemory>
    ensures { IfOk result (λ sizes. sizes ≡ (pos n, pos n) ∷ []) }
{
    RangeSet::one(alloc, i128::from(n), i128::from(n))
}

fn or_all(alloc: Global, written: Option<RangeSet>) -> Result<RangeSet, NoMemory>
    ensures { IfOk result (λ sizes. sizes ≡ spec.or_all written) }
{
    match written {
        Some(sizes) => Ok(sizes),
        None => RangeSet::one(alloc, 0, i128::from(MOST_SIZE)),
    }
}

/// The characters that the constraints of a text leave.
#[tactic(auto, unfolding(crate::specs::Sizes::characters_at), using(crate::proofs::Passed::characters_left, crate::proofs::Passed::no_characters))]
pub fn characters_at(alloc: Global, world: &World, site: &Site<'_>) -> Result<RangeSet, NoMemory>
    ensures { IfOk result (λ cs. cs ≡ spec.characters_at (world_view world.now) (site_view site.now)) }
{
    match alphabet_of(alloc, world, &site.chain) {
        Ok(characters) => Ok(characters),
        Err(fault) => {
            pass_over(fault)?;
            Ok(RangeSet::empty(alloc))
        }
    }
}
