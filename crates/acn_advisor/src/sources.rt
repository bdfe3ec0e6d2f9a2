//! Worlds and grammars, from the files anew.

ghost use Rattle.std.specs.Prelude.{◌≡◌, ℕ, List, IfOk, IfSome};
ghost use Rattle.acn_grammar.specs.ItemsNamed.{ItemsNamed};
ghost use Rattle.acn_grammar.specs.View.{grammar_of};
ghost use Rattle.acn_sources.specs.Files.{AreShort};
ghost use Rattle.acn_tree_laws.specs.Laws.{IsOfSources};
ghost use Rattle.acn_world.specs.Viewed.{world_view};

use acn_check::Checked;
use acn_files::read_files;
use acn_front::{LoadFault, grammar_of_type, load};
use acn_num::{MOST_FILE_BYTES, Name, NoMemory, Row};
use acn_outside::Files;
use acn_sources::{File, FileKind};
use acn_words::TypeName;
use acn_world::{NameFault, World};
use std::alloc::Global;

// The files of these names with these contents, as far as they are files.
#[tactic(auto, using(crate::proofs::Short::short_push))]
fn files_of<'a>(
    alloc: Global,
    names: &[String],
    contents: &'a [Vec<u8>],
) -> Result<Vec<File<'a>>, NoMemory>
    ensures { IfOk result (λ all. AreShort all.items) }
{
    let mut all = Vec::new(alloc);
    for (name, bytes) in names.iter().zip(contents.iter()) {
        if let Some(kind) = FileKind::of_name(name.as_str().as_bytes()) {
            if bytes.len() <= MOST_FILE_BYTES {
                all.push(File { kind, bytes })?;
            }
        }
    }
    Ok(all)
}

// The world of these contents of the files of these names, if they have one.
fn world_in(alloc: Global, names: &[String], contents: &[Vec<u8>]) -> Option<World>
    ensures { IfSome result (λ world. IsOfSources (world_view world)) }
{
    let Ok(files) = files_of(alloc, names, contents) else {
        return None;
    };
    match load(alloc, &files) {
        Ok(world) => Some(world),
        Err(_) => None,
    }
}

/// The world of the files of these names, if they have one.
pub fn world_of_files<F: Files>(alloc: Global, names: &[String], files: &mut F) -> Option<World>
    ensures same { (m : List ℕ) → F.contents files.new m ≡ F.contents files.old m }
    ensures sources { IfSome result (λ world. IsOfSources (world_view world)) }
{
    match read_files(alloc, files, names) {
        Ok(contents) => world_in(alloc, names, &contents),
        Err(_) => None,
    }
}

// The grammar of the type of a name in a world, if it has one.
fn grammar_in(alloc: Global, world: &World, of: &TypeName<'_>) -> Option<Checked>
    requires { IsOfSources (world_view world.now) }
    ensures { IfSome result (λ c. ItemsNamed (grammar_of c.tree.root)) }
{
    match world.find(of.module, of.name) {
        None => None,
        Some(found) => match grammar_of_type(alloc, world, found) {
            Ok(checked) => Some(checked),
            Err(_) => None,
        },
    }
}

/// The grammar of the type of a name, from the files of these names, if it has one.
pub fn grammar_of_name<F: Files>(
    alloc: Global,
    names: &[String],
    of: &TypeName<'_>,
    files: &mut F,
) -> Option<Checked>
    ensures same { (m : List ℕ) → F.contents files.new m ≡ F.contents files.old m }
    ensures named { IfSome result (λ c. ItemsNamed (grammar_of c.tree.root)) }
{
    match world_of_files(alloc, names, files) {
        Some(world) => grammar_in(alloc, &world, of),
        None => None,
    }
}

/// The names on a way from a type or a value to itself, itself first, where the first fault of the
/// files is such a way.
pub fn cycle_in(alloc: Global, names: &[String], contents: &[Vec<u8>]) -> Option<Row<Name>> {
    let Ok(files) = files_of(alloc, names, contents) else {
        return None;
    };
    match load(alloc, &files) {
        Err(LoadFault::Name(NameFault::Cycle { names, .. })) => Some(names),
        _ => None,
    }
}
