//! What is answered for the bytes and the names of files.

ghost use Rattle.std.specs.Prelude.{◌≡◌, true};
ghost use Rattle.acn_sources.specs.Files.{AreShort};

use acn_case_sheets::{CaseFiles, Trouble, bytes_of};
use acn_num::{MOST_FILE_BYTES, NoMemory};
use acn_sources::{File, FileFault, FileKind, read_sources};
use std::alloc::Global;

// Whether each file is as long as it may be.
fn are_short(files: &[File<'_>]) -> bool
    ensures { result ≡ true → AreShort files.now }
{
    for file in files {
        if file.bytes.len() > MOST_FILE_BYTES {
            return false;
        }
    }
    true
}

fn fault_in_words(alloc: Global, fault: FileFault) -> Result<String, NoMemory> {
    match fault {
        FileFault::BadByte { at } => Ok(format!(in alloc; "BadByte {at}")?),
        FileFault::Unclosed { at } => Ok(format!(in alloc; "Unclosed {at}")?),
        FileFault::TooManyTokens { at } => Ok(format!(in alloc; "TooManyTokens {at}")?),
        FileFault::TooWide { at } => Ok(format!(in alloc; "TooWide {at}")?),
        FileFault::LeftOut { at, length } => Ok(format!(in alloc; "LeftOut {at} {length}")?),
        FileFault::TooDeep { at } => Ok(format!(in alloc; "TooDeep {at}")?),
        FileFault::Syntax { at } => Ok(format!(in alloc; "Syntax {at}")?),
        FileFault::NoMemory => Err(NoMemory),
    }
}

// The bytes of all files.
fn all_bytes(alloc: Global, files: &CaseFiles, parts: &[&str]) -> Result<Vec<Vec<u8>>, Trouble> {
    let mut all = Vec::new(alloc);
    for file in files.list.iter() {
        let text = file.filled(alloc, parts)?;
        all.push(bytes_of(alloc, text.as_str())?)?;
    }
    Ok(all)
}

// The files with these bytes.
fn files_of<'a>(
    alloc: Global,
    files: &CaseFiles,
    all: &'a [Vec<u8>],
) -> Result<Vec<File<'a>>, NoMemory> {
    let mut list = Vec::new(alloc);
    for (file, bytes) in files.list.iter().zip(all) {
        list.push(File {
            kind: file.kind,
            bytes: bytes.as_slice(),
        })?;
    }
    Ok(list)
}

// `Ok`, or the number of the first file that is refused and its fault.
fn reading_in_words(alloc: Global, files: &[File<'_>]) -> Result<String, Trouble> {
    if !are_short(files) {
        return Err(Trouble::TooMuch);
    }
    match read_sources(alloc, files) {
        Ok(_) => Ok("Ok".to_string(alloc)?),
        Err(refused) => {
            let fault = fault_in_words(alloc, refused.fault)?;
            Ok(format!(in alloc; "{} {fault}", refused.file)?)
        }
    }
}

/// `Ok` where all files are read, and else the number of the first that is refused, from 0, with its fault. Places are
/// those of bytes.
pub fn files_told(alloc: Global, files: &CaseFiles, parts: &[&str]) -> Result<String, Trouble> {
    let all = all_bytes(alloc, files, parts)?;
    let list = files_of(alloc, files, all.as_slice())?;
    reading_in_words(alloc, list.as_slice())
}

/// What a file of this name holds.
pub fn kind_told(alloc: Global, name: &str) -> Result<String, NoMemory> {
    let kind = match FileKind::of_name(name.as_bytes()) {
        Some(FileKind::Asn) => "asn",
        Some(FileKind::Acn) => "acn",
        Some(FileKind::Map) => "map",
        None => "none",
    };
    Ok(format!(in alloc; "{kind}")?)
}
