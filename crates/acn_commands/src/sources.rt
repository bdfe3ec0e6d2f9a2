//! From the names of files to the world of their sources.

ghost use Rattle.std.specs.Prelude.{◌≡◌, ◌≢◌, ◌<◌, ℕ, List, Some, length, map, string_bytes, IfOk, IfErr, OnOk, IsTrue};
ghost use Rattle.std.specs.List.{list_all};
ghost use Rattle.acn_front.specs.Loaded.{IsLoadFault, IsWorldOf};
ghost use Rattle.acn_outside.specs.Counts.{AllStay};
ghost use Rattle.acn_outside.specs.declared.whole.WholeFault.TheVariants as whole;
ghost use Rattle.acn_commands.specs.Asked.{AreFilesOf, IsWorldOfNames};
ghost use Rattle.acn_commands.specs.Outside.{IsSilent, Says};
ghost use Rattle.acn_commands.specs.Steps as spec;
ghost use Rattle.acn_commands.specs.declared.status.Status.TheVariants as status;
ghost use Rattle.acn_source_report.specs.Texts.{name_line};
ghost use Rattle.acn_sources.specs.Files.{AreShort};
ghost use Rattle.acn_sources.specs.Names.{kind_of_name};
ghost use Rattle.acn_tree_laws.specs.Laws.{IsOfSources};
ghost use Rattle.acn_words.specs.Files.{is_file};
ghost use Rattle.acn_words.specs.Requests.{Request, files_of};
ghost use Rattle.acn_world.specs.Viewed.{world_view};

use crate::reports::no_memory;
use crate::status::Status;
use acn_files::{FilesFault, read_files};
use acn_front::{LoadFault, load};
use acn_num::NoMemory;
use acn_outside::{Files, Sink, WholeFault};
use acn_source_report::{put_file_fault, put_file_too_long, put_name_fault, put_unreadable};
use acn_sources::{File, FileKind, SourcesFault};
use acn_world::{NameFault, World};
use std::alloc::Global;

// What a file of this name holds.
fn kind_of(name: &String) -> FileKind
    requires { IsTrue (is_file (string_bytes name.now)) }
    ensures { kind_of_name (string_bytes name.now) ≡ Some result }
{
    FileKind::of_name(name.as_str().as_bytes()).unwrap()
}

// The files of these names with these contents.
fn files_of<'a>(
    alloc: Global,
    names: &[String],
    contents: &'a [Vec<u8>],
) -> Result<Vec<File<'a>>, NoMemory>
    requires same { length names.now ≡ length contents.now }
    requires files { IsTrue (list_all is_file (map string_bytes names.now)) }
    ensures { IfOk result (λ all. AreFilesOf (map string_bytes names.now) (map (λ v. v.items) contents.now) all.items) }
{
    let mut all = Vec::new(alloc);
    for (number, name) in names.iter().enumerate() {
        all.push(File {
            kind: kind_of(name),
            bytes: &contents[number],
        })?;
    }
    Ok(all)
}

// A file wasn't read whole.
fn unread<E: Sink>(names: &[String], fault: FilesFault, err: &mut E) -> Status
    requires within { fault.fault ≢ whole.NoMemory → fault.file < length names.now }
    ensures { spec.IsUnread (map string_bytes names.now) fault (E.taken err.old, E.faults err.old) (E.taken err.new, E.faults err.new) result }
{
    match fault.fault {
        WholeFault::Failed => {
            let _ = put_unreadable(names[fault.file].as_str().as_bytes(), err);
            Status::FileFailed
        }
        WholeFault::TooLong => {
            let _ = put_file_too_long(names[fault.file].as_str().as_bytes(), err);
            Status::NoGrammar
        }
        WholeFault::NoMemory => no_memory(err),
    }
}

// A file has no tree.
fn file_refused<E: Sink>(
    names: &[String],
    files: &[File<'_>],
    fault: &SourcesFault,
    err: &mut E,
) -> Status
    requires named { fault.now.file < length names.now }
    requires within { fault.now.file < length files.now }
    ensures status { result ≡ status.NoGrammar }
    ensures says { spec.SaysOfFile (map string_bytes names.now) files.now fault.now (E.taken err.old, E.faults err.old) (E.taken err.new, E.faults err.new) }
{
    let name = names[fault.file].as_str().as_bytes();
    let file = files[fault.file];
    let _ = put_file_fault(name, file.bytes, &fault.fault, err);
    Status::NoGrammar
}

// A name leads nowhere.
fn name_refused<E: Sink>(fault: &NameFault, err: &mut E) -> Status
    ensures status { result ≡ status.NoGrammar }
    ensures says { Says (name_line fault.now) (E.taken err.old, E.faults err.old) (E.taken err.new, E.faults err.new) }
{
    let _ = put_name_fault(fault, err);
    Status::NoGrammar
}

// The files give no world.
fn load_refused<E: Sink>(
    names: &[String],
    files: &[File<'_>],
    fault: LoadFault,
    err: &mut E,
) -> Status
    requires told { IsLoadFault files.now fault }
    requires same { length files.now ≡ length names.now }
    ensures { (contents : List (List ℕ)) → spec.EndsForFiles (map string_bytes names.now) contents files.now (E.taken err.old, E.faults err.old) (E.taken err.new, E.faults err.new) result }
{
    match fault {
        LoadFault::File(fault) => file_refused(names, files, &fault, err),
        LoadFault::Name(fault) => name_refused(&fault, err),
        LoadFault::NoMemory => no_memory(err),
    }
}

// The world of these files; where there is none, the line that says why was written.
fn world_of<E: Sink>(
    alloc: Global,
    names: &[String],
    files: &[File<'_>],
    err: &mut E,
) -> Result<World, Status>
    requires short { AreShort files.now }
    requires same { length files.now ≡ length names.now }
    ensures world { IfOk result (λ w. IsWorldOf files.now (world_view w)) }
    ensures of_sources { IfOk result (λ w. IsOfSources (world_view w)) }
    ensures silent { OnOk result (IsSilent (E.taken err.old, E.faults err.old) (E.taken err.new, E.faults err.new)) }
    ensures fails { IfErr result (λ status. (contents : List (List ℕ)) → spec.EndsForFiles (map string_bytes names.now) contents files.now (E.taken err.old, E.faults err.old) (E.taken err.new, E.faults err.new) status) }
{
    match load(alloc, files) {
        Ok(world) => Ok(world),
        Err(fault) => Err(load_refused(names, files, fault, err)),
    }
}

// The world of what was read.
fn world_of_contents<E: Sink>(
    alloc: Global,
    names: &[String],
    contents: &[Vec<u8>],
    err: &mut E,
) -> Result<World, Status>
    requires files { IsTrue (list_all is_file (map string_bytes names.now)) }
    requires read { spec.WereRead (map string_bytes names.now) (map (λ v. v.items) contents.now) }
    ensures world { IfOk result (λ w. spec.IsWorldOfContents (map string_bytes names.now) (map (λ v. v.items) contents.now) (world_view w)) }
    ensures of_sources { IfOk result (λ w. IsOfSources (world_view w)) }
    ensures silent { OnOk result (IsSilent (E.taken err.old, E.faults err.old) (E.taken err.new, E.faults err.new)) }
    ensures fails { IfErr result (spec.EndsForContents (map string_bytes names.now) (map (λ v. v.items) contents.now) (E.taken err.old, E.faults err.old) (E.taken err.new, E.faults err.new)) }
{
    match files_of(alloc, names, contents) {
        Ok(files) => world_of(alloc, names, &files, err),
        Err(_) => Err(no_memory(err)),
    }
}

/// The world of the files of these names. Where there is none, the line that says why was written to the output for errors. Unless a file
/// can't be read no count of faults changes.
pub fn read_world<F: Files, E: Sink>(
    alloc: Global,
    names: &[String],
    files: &mut F,
    err: &mut E,
) -> Result<World, Status>
    requires { IsTrue (list_all is_file (map string_bytes names.now)) }
    ensures world { IfOk result (λ w. IsWorldOfNames (F.contents files.old) (map string_bytes names.now) (world_view w)) }
    ensures of_sources { IfOk result (λ w. IsOfSources (world_view w)) }
    ensures silent { OnOk result (IsSilent (E.taken err.old, E.faults err.old) (E.taken err.new, E.faults err.new)) }
    ensures fails { IfErr result (λ status. (request : Request) → files_of request ≡ map string_bytes names.now → spec.EndsEarly (F.contents files.old) (F.faults files.old) (F.faults files.new) (E.taken err.old, E.faults err.old) (E.taken err.new, E.faults err.new) request status) }
    ensures uncounted { OnOk result (AllStay (F.faults files.old) (F.faults files.new)) }
    ensures told { IfErr result (spec.FilesStay (F.faults files.old) (F.faults files.new)) }
{
    match read_files(alloc, files, names) {
        Ok(contents) => world_of_contents(alloc, names, &contents, err),
        Err(fault) => Err(unread(names, fault, err)),
    }
}
