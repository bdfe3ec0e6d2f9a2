//! The tree that the asked type is made into, in words.

ghost use Rattle.std.specs.Prelude.{◌≡◌, true};
ghost use Rattle.acn_index.specs.World.{IsType};
ghost use Rattle.acn_sources.specs.Files.{AreShort};
ghost use Rattle.acn_tree_laws.specs.Laws.{IsOfSources};
ghost use Rattle.acn_world.specs.Viewed.{world_view};

use crate::asked::Asked;
use crate::reasons::refused_in_words;
use crate::tree_words::tree_in_words;
use acn_case_sheets::{CaseFiles, Trouble, bytes_of, parts_of, trouble_in_words};
use acn_front::{LoadFault, load};
use acn_merge::{MergeFault, merge};
use acn_num::{MOST_FILE_BYTES, NoMemory};
use acn_sources::{File, FileKind};
use acn_world::{TypeId, World};
use std::alloc::Global;

// A file of a case, with the parts in their places.
#[derive(Drop)]
struct Filled {
    kind: FileKind,
    bytes: Vec<u8>,
}

// The files whose texts aren't empty.
fn filled_files(alloc: Global, files: &CaseFiles, parts: &[&str]) -> Result<Vec<Filled>, Trouble> {
    let mut all = Vec::new(alloc);
    for file in files.list.iter() {
        let text = file.filled(alloc, parts)?;
        if !text.as_str().trim().is_empty() {
            let bytes = bytes_of(alloc, text.as_str())?;
            let kind = file.kind;
            all.push(Filled { kind, bytes })?;
        }
    }
    Ok(all)
}

fn files_of<'a>(alloc: Global, filled: &'a [Filled]) -> Result<Vec<File<'a>>, NoMemory> {
    let mut files = Vec::new(alloc);
    for file in filled {
        files.push(File {
            kind: file.kind,
            bytes: file.bytes.as_slice(),
        })?;
    }
    Ok(files)
}

// Whether each file is as long as it may be.
fn are_short(files: &[File<'_>]) -> bool
    ensures { result ≡ true → AreShort files.now }
{
    for file in files {
        if file.bytes.len() > MOST_FILE_BYTES {
            return false;
        }
    }
    true
}

fn fault_in_words(alloc: Global, fault: &MergeFault) -> Result<String, Trouble> {
    match fault {
        MergeFault::At(refused) => refused_in_words(alloc, refused),
        MergeFault::NoMemory => Err(Trouble::NoMemory),
    }
}

fn merged(alloc: Global, world: &World, of: TypeId) -> Result<String, Trouble>
    requires is_type { IsType (world_view world.now) of }
    requires sources { IsOfSources (world_view world.now) }
{
    match merge(alloc, world, of) {
        Ok(tree) => Ok(tree_in_words(alloc, &tree)?),
        Err(fault) => fault_in_words(alloc, &fault),
    }
}

fn of_world(alloc: Global, asked: &Asked, world: &World) -> Result<String, Trouble>
    requires { IsOfSources (world_view world.now) }
{
    match world.find(asked.module.as_bytes(), asked.name.as_bytes()) {
        Some(of) => merged(alloc, world, of),
        None => Err(Trouble::Absent),
    }
}

fn of_files(alloc: Global, asked: &Asked, files: &[File<'_>]) -> Result<String, Trouble> {
    if !are_short(files) {
        return Err(Trouble::TooMuch);
    }
    match load(alloc, files) {
        Ok(world) => of_world(alloc, asked, &world),
        Err(LoadFault::File(_)) => Ok("not read".to_string(alloc)?),
        Err(LoadFault::Name(_)) => Err(Trouble::Misnamed),
        Err(LoadFault::NoMemory) => Err(Trouble::NoMemory),
    }
}

fn found(alloc: Global, asked: &Asked, parts: &[&str]) -> Result<String, Trouble> {
    let filled = filled_files(alloc, &asked.files, parts)?;
    let files = files_of(alloc, filled.as_slice())?;
    of_files(alloc, asked, files.as_slice())
}

/// The tree of the asked type, or the place and the reason why it has none.
pub fn tree_told(alloc: Global, asked: &Asked, case: &str) -> Result<String, NoMemory> {
    let parts = parts_of(alloc, case)?;
    match found(alloc, asked, parts.as_slice()) {
        Ok(answer) => Ok(answer),
        Err(trouble) => trouble_in_words(alloc, trouble),
    }
}
