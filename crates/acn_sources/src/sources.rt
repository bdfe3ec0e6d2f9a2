//! From many files to the sources.

ghost use Rattle.std.specs.Prelude.{◌≡◌, ◌≢◌, ◌≤◌, length, IfOk, IfErr};
ghost use Rattle.acn_num.specs.declared.limits.TheConstants.{MOST_FILE_BYTES};
ghost use Rattle.acn_index.specs.declared.sources.Sources.{Sources};
ghost use Rattle.acn_sources.specs.Files as spec;
ghost use Rattle.acn_sources.specs.Files.{AreShort, AreSources, HasTree, HasFault, IsFirstFault};
ghost use Rattle.acn_sources.specs.Reading.{AnswersFault};
ghost use Rattle.acn_sources.specs.declared.fault.FileFault.{FileFault};
ghost use Rattle.acn_sources.specs.declared.fault.FileFault.TheVariants.{NoMemory};
ghost use Rattle.acn_sources.specs.declared.fault.SourcesFault.{SourcesFault};

use crate::{FileFault, FileKind, SourcesFault, read_acn, read_asn, read_map};
use acn_num::Row;
use acn_world::Sources;
use std::alloc::Global;

/// A file: what it holds, and its bytes.
#[derive(Clone, Copy)]
pub struct File<'a> {
    /// What it holds.
    pub kind: FileKind,
    /// Its bytes.
    pub bytes: &'a [u8],
}

// Adds the tree of a file to the others.
fn add(alloc: Global, file: &File<'_>, sources: &mut Sources) -> Result<(), FileFault>
    requires { length file.now.bytes.now ≤ MOST_FILE_BYTES }
    ensures added { IfOk result (λ _. spec.IsAdded file.now sources.old sources.new) }
    ensures each { HasTree file.now → IfErr result (λ e. e ≡ NoMemory) }
    ensures fault { IfErr result (λ e. e ≢ NoMemory → HasFault file.now e) }
    ensures first { (e : FileFault) → HasFault file.now e → AnswersFault e result }
{
    match file.kind {
        FileKind::Asn => sources.asn.push(read_asn(alloc, file.bytes)?)?,
        FileKind::Acn => sources.acn.push(read_acn(alloc, file.bytes)?)?,
        FileKind::Map => sources.maps.push(read_map(alloc, file.bytes)?)?,
    }
    Ok(())
}

/// The sources of these files, of which each has at most `MOST_FILE_BYTES`: the trees of all files, those of each kind in
/// the order of their files.
///
/// # Errors
///
/// The first file, in the order given, that has no tree is answered, with its first fault; exactly where there is such a
/// file. Where memory ran out the fault is `NoMemory`.
pub fn read_sources(alloc: Global, files: &[File<'_>]) -> Result<Sources, SourcesFault>
    requires { AreShort files.now }
    ensures sources { IfOk result (λ s. AreSources files.now s) }
    ensures each { (s : Sources) → AreSources files.now s → spec.AnswersSources s result }
    ensures fault { IfErr result (λ e. e.fault ≢ NoMemory → IsFirstFault files.now e) }
    ensures first { (e : SourcesFault) → IsFirstFault files.now e → spec.AnswersFirst e result }
{
    let mut sources = Sources {
        asn: Row::new(alloc),
        acn: Row::new(alloc),
        maps: Row::new(alloc),
    };
    for (number, file) in files.iter().enumerate() {
        match add(alloc, file, &mut sources) {
            Ok(()) => {}
            Err(fault) => {
                return Err(SourcesFault {
                    file: number,
                    fault,
                });
            }
        }
    }
    Ok(sources)
}
