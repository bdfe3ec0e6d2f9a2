//! The first fault of the nodes that are to be made for a type, or what the walk over them notes.

ghost use Rattle.acn_world.specs.Viewed.{world_view};
ghost use Rattle.acn_index.specs.World.{IsType};

use crate::asked::Asked;
use crate::reasons::fault_in_words;
use crate::walked::walk_in_words;
use acn_case_sheets::{Trouble, parts_of, trouble_in_words, world_of};
use acn_num::NoMemory;
use acn_slots::PlainTypes;
use acn_survey::survey;
use acn_world::{TypeId, World};
use std::alloc::Global;

// What a walk over the nodes of a type answers.
fn surveyed(alloc: Global, world: &World, of: TypeId) -> Result<String, Trouble>
    requires { IsType (world_view world.now) of }
{
    let plain = PlainTypes::new(alloc);
    match survey(alloc, world, &plain, of) {
        Ok(walk) => walk_in_words(alloc, &walk),
        Err(fault) => fault_in_words(alloc, &fault),
    }
}

// The same, where it is there.
fn found(alloc: Global, asked: &Asked, parts: &[&str]) -> Result<String, Trouble> {
    let world = world_of(alloc, &asked.files, parts)?;
    match world.find(asked.module.as_bytes(), asked.name.as_bytes()) {
        Some(of) => surveyed(alloc, &world, of),
        None => Err(Trouble::Absent),
    }
}

/// What a walk over the nodes of the asked type answers, or why there is none.
pub fn survey_told(alloc: Global, asked: &Asked, case: &str) -> Result<String, NoMemory> {
    let parts = parts_of(alloc, case)?;
    match found(alloc, asked, parts.as_slice()) {
        Ok(answer) => Ok(answer),
        Err(trouble) => trouble_in_words(alloc, trouble),
    }
}
