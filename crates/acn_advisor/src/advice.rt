//! What helps on a run.

ghost use Rattle.std.specs.Prelude.{◌≡◌, ℕ, List};
ghost use Rattle.acn_advice.specs.Page.{AddsLines};

use crate::files::put_pointer;
use crate::input::put_input_place;
use crate::places::put_place_of_line;
use crate::warnings::put_warnings_of_files;
use crate::words::put_usage;
use acn_advice::Page;
use acn_outside::{Failed, Files, Sink};
use acn_words::{Request, read_words};
use std::alloc::Global;

// Puts what helps where the sources are refused.
fn advise_on_sources<F: Files>(
    alloc: Global,
    words: &[String],
    line: &[u8],
    files: &mut F,
    page: &mut Page,
) -> Result<(), Failed>
    ensures { (m : List ℕ) → F.contents files.new m ≡ F.contents files.old m }
{
    if let Some(request) = read_words(words) {
        put_place_of_line(alloc, request.files(), line, files, page)?;
    }
    put_pointer(line, page)
}

// Puts what helps where the input is refused.
fn advise_on_input<F: Files>(
    alloc: Global,
    words: &[String],
    line: &[u8],
    input: Option<&[u8]>,
    files: &mut F,
    page: &mut Page,
) -> Result<(), Failed>
    ensures { (m : List ℕ) → F.contents files.new m ≡ F.contents files.old m }
{
    if let Some(request) = read_words(words) {
        if let Some(input) = input {
            put_input_place(alloc, &request, input, files, page)?;
        }
    }
    put_pointer(line, page)
}

// Puts what accepted types are to be warned of, where the words ask whether types are accepted.
fn warn<F: Files>(
    alloc: Global,
    words: &[String],
    files: &mut F,
    page: &mut Page,
) -> Result<(), Failed>
    ensures { (m : List ℕ) → F.contents files.new m ≡ F.contents files.old m }
{
    match read_words(words) {
        Some(Request::Check { files: names }) => put_warnings_of_files(alloc, names, files, page),
        _ => Ok(()),
    }
}

fn fill<F: Files>(
    alloc: Global,
    words: &[String],
    status: u8,
    line: &[u8],
    input: Option<&[u8]>,
    files: &mut F,
    page: &mut Page,
) -> Result<(), Failed>
    ensures { (m : List ℕ) → F.contents files.new m ≡ F.contents files.old m }
{
    match status {
        0 => warn(alloc, words, files, page),
        1 => put_usage(words, page),
        2 => advise_on_sources(alloc, words, line, files, page),
        3 => advise_on_input(alloc, words, line, input, files, page),
        _ => Ok(()),
    }
}

/// Prints what helps on a run over these words that ended with a status: at most `MOST_LINES` lines. `line` is what it printed on
/// the output for errors, and `input` what it read of the input, where that was kept. The files stay as they are. Where memory runs
/// out, or the output fails, the rest is left.
pub fn advise<F: Files, E: Sink>(
    alloc: Global,
    words: &[String],
    status: u8,
    line: &[u8],
    input: Option<&[u8]>,
    files: &mut F,
    err: &mut E,
)
    ensures lines { AddsLines (E.taken err.old) (E.taken err.new) }
    ensures files { (m : List ℕ) → F.contents files.new m ≡ F.contents files.old m }
{
    let mut page = Page::new(alloc);
    let _ = fill(alloc, words, status, line, input, files, &mut page);
    page.print(err);
}
