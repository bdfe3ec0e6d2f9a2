//! From files to the world of their names.

ghost use Rattle.std.specs.Prelude.{◌≡◌, IfOk, IfErr};
ghost use Rattle.acn_front.specs.Loaded.{IsLoadFault, IsWorldOf, file_told, name_told};
ghost use Rattle.acn_sources.specs.Files.{AreShort};
ghost use Rattle.acn_tree_laws.specs.Laws.{IsOfSources};
ghost use Rattle.acn_world.specs.Viewed.{world_view};

use acn_names::resolve;
use acn_source_laws::{proper_sources_give_a_world, sources_of_files_are_proper};
use acn_sources::{File, FileFault, SourcesFault, read_sources};
use acn_world::{NameFault, World};
use std::alloc::Global;

/// Why files say nothing.
#[derive(Drop)]
pub enum LoadFault {
    /// A file has no tree: the first such, with its first fault.
    File(SourcesFault),
    /// A name leads nowhere: the first such.
    Name(NameFault),
    /// Memory ran out.
    NoMemory,
}

fn file_fault(fault: SourcesFault) -> LoadFault
    ensures { result ≡ file_told fault fault.fault }
{
    match fault.fault {
        FileFault::NoMemory => LoadFault::NoMemory,
        _ => LoadFault::File(fault),
    }
}

fn name_fault(fault: NameFault) -> LoadFault
    ensures { result ≡ name_told fault }
{
    match fault {
        NameFault::NoMemory => LoadFault::NoMemory,
        _ => LoadFault::Name(fault),
    }
}

/// The world of the sources of these files, of which each has at most `MOST_FILE_BYTES`.
///
/// # Errors
///
/// `File` comes exactly where a file has no tree, and is the first such in the order given, with its first fault. `Name` comes
/// where all have one and a name of theirs leads nowhere: it is the first fault of a name. `NoMemory` comes where memory is wanting.
pub fn load(alloc: Global, files: &[File<'_>]) -> Result<World, LoadFault>
    requires { AreShort files.now }
    ensures world { IfOk result (λ all. IsWorldOf files.now (world_view all)) }
    ensures of_sources { IfOk result (λ all. IsOfSources (world_view all)) }
    ensures fault { IfErr result (IsLoadFault files.now) }
{
    sources_of_files_are_proper();
    proper_sources_give_a_world();
    match read_sources(alloc, files) {
        Ok(sources) => match resolve(alloc, sources) {
            Ok(world) => Ok(world),
            Err(fault) => Err(name_fault(fault)),
        },
        Err(fault) => Err(file_fault(fault)),
    }
}
