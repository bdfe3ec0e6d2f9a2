//! The names of a module and of a type in one word.

ghost use Rattle.std.specs.Prelude.{◌≡◌, ◌+◌, ◌≤◌, length, take, drop, true, false, MatchOption};
ghost use Rattle.acn_words.specs.Names as spec;
ghost use Rattle.acn_words.specs.View.{type_view};

use acn_lex::is_reserved;

/// A type that words name.
#[derive(Clone, Copy)]
pub struct TypeName<'a> {
    /// The name of its module.
    pub module: &'a [u8],
    /// Its own name.
    pub name: &'a [u8],
}

fn starts_alphanumeric(bytes: &[u8]) -> bool
    ensures { result ≡ spec.starts_alphanumeric bytes.now }
{
    match bytes {
        [first, ..] => first.is_ascii_alphanumeric(),
        [] => false,
    }
}

fn goes_on(byte: u8, behind: &[u8]) -> bool
    ensures { result ≡ spec.goes_on byte behind.now }
{
    byte.is_ascii_alphanumeric() || byte == b'-' && starts_alphanumeric(behind)
}

// Whether the bytes behind a word's first letter go on with the word to their end.
fn are_word_bytes(bytes: &[u8]) -> bool
    ensures { result ≡ spec.are_word_bytes bytes.now }
{
    let mut rest = bytes;
    while let [first, behind @ ..] = rest {
        if !goes_on(*first, behind) {
            return false;
        }
        rest = behind;
    }
    true
}

fn starts_upper(bytes: &[u8]) -> bool
    ensures { result ≡ spec.starts_upper bytes.now }
{
    match bytes {
        [first, ..] => first.is_ascii_uppercase(),
        [] => false,
    }
}

fn is_reference(bytes: &[u8]) -> bool
    ensures { result ≡ spec.is_reference bytes.now }
{
    starts_upper(bytes) && are_word_bytes(bytes) && !is_reserved(bytes)
}

// The place of the first full stop, or the end.
fn stop_at(bytes: &[u8]) -> usize
    ensures value { result ≡ spec.stop_at bytes.now }
    ensures inside { result ≤ length bytes.now }
{
    for (i, b) in bytes.iter().enumerate() {
        if *b == b'.' {
            return i;
        }
    }
    bytes.len()
}

fn module_of(bytes: &[u8]) -> &[u8]
    ensures { result.now ≡ take (spec.stop_at bytes.now) bytes.now }
{
    &bytes[..stop_at(bytes)]
}

fn type_of(bytes: &[u8]) -> &[u8]
    ensures { result.now ≡ drop (spec.stop_at bytes.now + 1) bytes.now }
{
    let stop = stop_at(bytes);
    if stop < bytes.len() {
        &bytes[stop + 1..]
    } else {
        &[]
    }
}

/// The type that a word names: a reference to a module, a full stop, and a reference to a type (X.680, 12.2 and 12.5). None exactly for
/// other words.
pub fn type_named(word: &[u8]) -> Option<TypeName<'_>>
    ensures { MatchOption result (spec.is_type word.now ≡ false) (λ t. (spec.is_type word.now ≡ true) × (type_view t ≡ spec.named word.now)) }
{
    let module = module_of(word);
    let name = type_of(word);
    if is_reference(module) && is_reference(name) {
        Some(TypeName { module, name })
    } else {
        None
    }
}
