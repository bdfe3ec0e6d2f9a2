//! Where in the files what a line says stands.

ghost use Rattle.std.specs.Prelude.{◌≡◌, ℕ, List};

use crate::files::put_file_place;
use crate::sources::cycle_in;
use acn_advice::{Page, put_shown};
use acn_files::read_files;
use acn_lex::lex;
use acn_marks::Source;
use acn_num::{MOST_FILE_BYTES, Name, NoMemory};
use acn_outside::{Failed, Files};
use acn_print::{Piece, put_piece};
use acn_sources::FileKind;
use acn_type_advice::put_source_place;
use std::alloc::Global;

// The most bytes of a name that are shown.
const MOST_NAME: usize = 64;

// The files of these names with these contents, as far as they have tokens. Tables are left out.
fn sources_of<'a>(
    alloc: Global,
    names: &'a [String],
    contents: &'a [Vec<u8>],
) -> Result<Vec<Source<'a>>, NoMemory> {
    let mut all = Vec::new(alloc);
    for (name, bytes) in names.iter().zip(contents.iter()) {
        let name = name.as_str().as_bytes();
        let is_acn = match FileKind::of_name(name) {
            Some(FileKind::Asn) => false,
            Some(FileKind::Acn) => true,
            _ => continue,
        };
        if bytes.len() <= MOST_FILE_BYTES {
            if let Ok(tokens) = lex(alloc, bytes) {
                all.push(Source {
                    name,
                    bytes,
                    is_acn,
                    tokens,
                })?;
            }
        }
    }
    Ok(all)
}

// Puts the names on a way from the first of them back to it.
fn put_way(names: &[Name], page: &mut Page) -> Result<(), Failed> {
    put_piece(page, &Piece::Text("  the way: "))?;
    for name in names {
        put_shown(name.bytes(), MOST_NAME, page)?;
        put_piece(page, &Piece::Text(", "))?;
    }
    if let Some(first) = names.first() {
        put_shown(first.bytes(), MOST_NAME, page)?;
    }
    put_piece(page, &Piece::Text("\n"))
}

fn put_in_contents(
    alloc: Global,
    names: &[String],
    contents: &[Vec<u8>],
    line: &[u8],
    page: &mut Page,
) -> Result<(), Failed> {
    if put_file_place(alloc, names, contents, page)? {
        return Ok(());
    }
    if let Ok(sources) = sources_of(alloc, names, contents) {
        put_source_place(alloc, &sources, line, page)?;
    }
    match cycle_in(alloc, names, contents) {
        Some(way) => put_way(way.items(), page),
        None => Ok(()),
    }
}

/// Puts where in the files of these names what the line of a refusal says stands.
pub fn put_place_of_line<F: Files>(
    alloc: Global,
    names: &[String],
    line: &[u8],
    files: &mut F,
    page: &mut Page,
) -> Result<(), Failed>
    ensures { (m : List ℕ) → F.contents files.new m ≡ F.contents files.old m }
{
    match read_files(alloc, files, names) {
        Ok(contents) => put_in_contents(alloc, names, &contents, line, page),
        Err(_) => Ok(()),
    }
}
