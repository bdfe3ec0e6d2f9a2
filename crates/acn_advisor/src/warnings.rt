//! What is to be known of types that are accepted.

ghost use Rattle.std.specs.Prelude.{◌≡◌, ℕ, List};
ghost use Rattle.std.specs.List.{All};
ghost use Rattle.acn_index.specs.World.{IsType};
ghost use Rattle.acn_tree_laws.specs.Laws.{IsOfSources};
ghost use Rattle.acn_world.specs.Viewed.{world_view};

use crate::sources::world_of_files;
use acn_advice::Page;
use acn_front::grammar_of_type;
use acn_index::TypeId;
use acn_outside::{Failed, Files};
use acn_warnings::put_warnings;
use acn_world::World;
use std::alloc::Global;

// Puts the warnings of the types of a world, one after the other.
fn put_of_types(
    alloc: Global,
    world: &World,
    types: &[TypeId],
    page: &mut Page,
) -> Result<(), Failed>
    requires sources { IsOfSources (world_view world.now) }
    requires types { All (IsType (world_view world.now)) types.now }
{
    for of in types {
        if let Ok(checked) = grammar_of_type(alloc, world, *of) {
            put_warnings(alloc, &checked, page)?;
        }
    }
    Ok(())
}

/// Puts what the types to which no other refers, of the files of these names, are to be warned of.
pub fn put_warnings_of_files<F: Files>(
    alloc: Global,
    names: &[String],
    files: &mut F,
    page: &mut Page,
) -> Result<(), Failed>
    ensures { (m : List ℕ) → F.contents files.new m ≡ F.contents files.old m }
{
    let Some(world) = world_of_files(alloc, names, files) else {
        return Ok(());
    };
    match world.roots(alloc) {
        Ok(roots) => put_of_types(alloc, &world, &roots, page),
        Err(_) => Ok(()),
    }
}
