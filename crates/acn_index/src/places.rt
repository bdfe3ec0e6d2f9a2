ghost use Rattle.std.specs.Prelude.{◌≡◌, ◌<◌, ◌++◌, length, map, flat_map, OnOk, IfOk};
ghost use Rattle.std.specs.List.{enumerate_from};
ghost use Rattle.acn_asn_syntax.specs.Mirror as plain;
ghost use Rattle.acn_asn_syntax.specs.View.{module_view, assign_view};
ghost use Rattle.acn_index.specs.Views.{index_view};
ghost use Rattle.acn_index.specs.World as world;

use crate::index::Index;
use crate::sources::TypeId;
use acn_asn_syntax::{AsnModule, Assign};
use acn_num::NoMemory;
use std::alloc::Global;

// Adds the places of a module's assignments.
fn push_module_places(k: u32, items: &[Assign], all: &mut Vec<TypeId>) -> Result<(), NoMemory>
    requires { length items.now < 4294967296 }
    ensures { OnOk result (all.new.items ≡ all.old.items ++ map (λ a. world.place k a.0) (enumerate_from 0 (map assign_view items.now))) }
{
    for (i, _item) in items.iter().enumerate() {
        all.push(TypeId {
            module: k,
            item: i as u32,
        })?;
    }
    Ok(())
}

// Adds the places of the modules' assignments.
fn push_places(modules: &[AsnModule], all: &mut Vec<TypeId>) -> Result<(), NoMemory>
    requires modules { length modules.now < 4294967296 }
    requires items { length (flat_map (λ (m : plain.AsnModule). m.items) (map module_view modules.now)) < 4294967296 }
    ensures { OnOk result (all.new.items ≡ all.old.items ++ flat_map world.module_places (enumerate_from 0 (map module_view modules.now))) }
{
    for (k, owner) in modules.iter().enumerate() {
        push_module_places(k as u32, owner.items.items(), all)?;
    }
    Ok(())
}

/// The places of all assignments, in the order of the text.
#[tactic(auto, unfolding(crate::specs::World::places, crate::specs::World::count))]
pub fn places(alloc: Global, index: &Index) -> Result<Vec<TypeId>, NoMemory>
    ensures { IfOk result (λ all. all.items ≡ world.places (index_view index.now)) }
{
    let mut all = Vec::new(alloc);
    push_places(index.modules.items(), &mut all)?;
    Ok(all)
}
