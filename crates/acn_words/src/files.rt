//! The files among the words.

ghost use Rattle.std.specs.Prelude.{◌≡◌, map, string_bytes};
ghost use Rattle.std.specs.List.{list_all, list_any};
ghost use Rattle.acn_words.specs.Files as spec;

use acn_sources::FileKind;

/// The most FILEs of a command.
pub const MOST_FILES: usize = 1000;

/// Whether a word ends as a FILE does.
pub fn is_file(name: &[u8]) -> bool
    ensures { result ≡ spec.is_file name.now }
{
    FileKind::of_name(name).is_some()
}

fn has_modules(name: &[u8]) -> bool
    ensures { result ≡ spec.has_modules name.now }
{
    match FileKind::of_name(name) {
        Some(FileKind::Asn) => true,
        Some(FileKind::Acn) => false,
        Some(FileKind::Map) => false,
        None => false,
    }
}

fn all_are_files(words: &[String]) -> bool
    ensures { result ≡ list_all spec.is_file (map string_bytes words.now) }
{
    for word in words {
        if !is_file(word.as_str().as_bytes()) {
            return false;
        }
    }
    true
}

/// Whether one of the FILEs has modules of ASN.1.
pub fn one_has_modules(words: &[String]) -> bool
    ensures { result ≡ list_any spec.has_modules (map string_bytes words.now) }
{
    for word in words {
        if has_modules(word.as_str().as_bytes()) {
            return true;
        }
    }
    false
}

/// Whether the words are FILEs: `MOST_FILES` at most, each with the end of a source's name, and one of them with modules of ASN.1.
pub fn are_files(words: &[String]) -> bool
    ensures { result ≡ spec.are_files (map string_bytes words.now) }
{
    words.len() <= MOST_FILES && all_are_files(words) && one_has_modules(words)
}
