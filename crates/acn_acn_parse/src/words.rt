//! Words of attributes, and names in ACN files.

ghost use Rattle.std.specs.Prelude.{◌≡◌, IfErr};
ghost use Rattle.std.specs.Str.{bytes_eq};
ghost use Rattle.acn_cursor.specs.Steps.{Reads, word, ReadsFreely};
ghost use Rattle.acn_acn_syntax.specs.ModuleTokens as spelling;
ghost use Rattle.acn_acn_parse.specs.WordReading as spec;

use acn_acn_syntax::{Alignment, Encoding, Endianness};
use acn_cursor::{Cursor, Stop};
use acn_lex::{Kind, is_identifier, is_one_of};
use acn_num::Name;
use std::alloc::Global;

/// The name of an attribute.
#[derive(Clone, Copy)]
pub enum Attribute {
    Size,
    Encoding,
    Endianness,
    AlignToNext,
    EncodeValues,
    TrueValue,
    FalseValue,
    Pattern,
    TerminationPattern,
    PresentWhen,
    Determinant,
    MappingFunction,
}

fn same(text: &[u8], word: &[u8]) -> bool
    ensures { result ≡ bytes_eq text.now word.now }
{
    text == word
}

// The attribute that a word names, of those that say how wide a field is and how it is coded.
fn width_attribute_of(text: &[u8]) -> Option<Attribute>
    ensures { result ≡ spec.width_attribute_of text.now }
{
    if same(text, b"size") {
        return Some(Attribute::Size);
    }
    if same(text, b"encoding") {
        return Some(Attribute::Encoding);
    }
    if same(text, b"endianness") {
        return Some(Attribute::Endianness);
    }
    if same(text, b"align-to-next") {
        return Some(Attribute::AlignToNext);
    }
    if same(text, b"encode-values") {
        return Some(Attribute::EncodeValues);
    }
    None
}

// The attribute that a word names, of those that take a literal.
fn pattern_attribute_of(text: &[u8]) -> Option<Attribute>
    ensures { result ≡ spec.pattern_attribute_of text.now }
{
    if same(text, b"true-value") {
        return Some(Attribute::TrueValue);
    }
    if same(text, b"false-value") {
        return Some(Attribute::FalseValue);
    }
    if same(text, b"pattern") {
        return Some(Attribute::Pattern);
    }
    if same(text, b"termination-pattern") {
        return Some(Attribute::TerminationPattern);
    }
    None
}

// The attribute that a word names, of those that lead to another field or to a table.
fn path_attribute_of(text: &[u8]) -> Option<Attribute>
    ensures { result ≡ spec.path_attribute_of text.now }
{
    if same(text, b"present-when") {
        return Some(Attribute::PresentWhen);
    }
    if same(text, b"determinant") {
        return Some(Attribute::Determinant);
    }
    if same(text, b"mapping-function") {
        return Some(Attribute::MappingFunction);
    }
    None
}

// The attribute that a word names.
#[tactic(auto, unfolding(crate::specs::WordReading::attribute_of))]
fn attribute_of(text: &[u8]) -> Option<Attribute>
    ensures { result ≡ spec.attribute_of text.now }
{
    match width_attribute_of(text) {
        Some(attribute) => Some(attribute),
        None => match pattern_attribute_of(text) {
            Some(attribute) => Some(attribute),
            None => path_attribute_of(text),
        },
    }
}

fn encoding_of(text: &[u8]) -> Option<Encoding>
    ensures { result ≡ spec.encoding_of text.now }
{
    if same(text, b"pos-int") {
        return Some(Encoding::PosInt);
    }
    if same(text, b"twos-complement") {
        return Some(Encoding::TwosComplement);
    }
    if same(text, b"BCD") {
        return Some(Encoding::Bcd);
    }
    if same(text, b"ASCII") {
        return Some(Encoding::Ascii);
    }
    None
}

fn endianness_of(text: &[u8]) -> Option<Endianness>
    ensures { result ≡ spec.endianness_of text.now }
{
    if same(text, b"big") {
        return Some(Endianness::Big);
    }
    if same(text, b"little") {
        return Some(Endianness::Little);
    }
    None
}

fn alignment_of(text: &[u8]) -> Option<Alignment>
    ensures { result ≡ spec.alignment_of text.now }
{
    if same(text, b"byte") {
        return Some(Alignment::Byte);
    }
    if same(text, b"word") {
        return Some(Alignment::Word);
    }
    if same(text, b"dword") {
        return Some(Alignment::Dword);
    }
    None
}

/// Takes the next token, which has to be the name of an attribute.
#[tactic(auto, unfolding(crate::specs::WordReading::word_as))]
pub fn attribute_name(cursor: &mut Cursor<'_>) -> Result<Attribute, Stop>
    ensures read { ReadsFreely (spec.word_as spec.attribute_of cursor.old) result cursor.new }
    ensures kept { IfErr result (λ _. cursor.new ≡ cursor.old) }
{
    match cursor.text_of(Kind::Word) {
        None => Err(cursor.refuse()),
        Some(text) => match attribute_of(text) {
            None => Err(cursor.refuse()),
            Some(attribute) => {
                cursor.skip();
                Ok(attribute)
            }
        },
    }
}

/// Takes the next token, which has to be the word of an encoding.
#[tactic(auto, unfolding(crate::specs::WordReading::word_as))]
pub fn encoding(cursor: &mut Cursor<'_>) -> Result<Encoding, Stop>
    ensures read { ReadsFreely (spec.word_as spec.encoding_of cursor.old) result cursor.new }
    ensures kept { IfErr result (λ _. cursor.new ≡ cursor.old) }
{
    match cursor.text_of(Kind::Word) {
        None => Err(cursor.refuse()),
        Some(text) => match encoding_of(text) {
            None => Err(cursor.refuse()),
            Some(encoding) => {
                cursor.skip();
                Ok(encoding)
            }
        },
    }
}

/// Takes the next token, which has to be the word of an order of octets.
#[tactic(auto, unfolding(crate::specs::WordReading::word_as))]
pub fn endianness(cursor: &mut Cursor<'_>) -> Result<Endianness, Stop>
    ensures read { ReadsFreely (spec.word_as spec.endianness_of cursor.old) result cursor.new }
    ensures kept { IfErr result (λ _. cursor.new ≡ cursor.old) }
{
    match cursor.text_of(Kind::Word) {
        None => Err(cursor.refuse()),
        Some(text) => match endianness_of(text) {
            None => Err(cursor.refuse()),
            Some(endianness) => {
                cursor.skip();
                Ok(endianness)
            }
        },
    }
}

/// Takes the next token, which has to be the word of an alignment.
#[tactic(auto, unfolding(crate::specs::WordReading::word_as))]
pub fn alignment(cursor: &mut Cursor<'_>) -> Result<Alignment, Stop>
    ensures read { ReadsFreely (spec.word_as spec.alignment_of cursor.old) result cursor.new }
    ensures kept { IfErr result (λ _. cursor.new ≡ cursor.old) }
{
    match cursor.text_of(Kind::Word) {
        None => Err(cursor.refuse()),
        Some(text) => match alignment_of(text) {
            None => Err(cursor.refuse()),
            Some(alignment) => {
                cursor.skip();
                Ok(alignment)
            }
        },
    }
}

/// The words that are no identifiers in ACN files.
const ATTRIBUTE_WORDS: [&str; 22] = [
    "size",
    "encoding",
    "endianness",
    "align-to-next",
    "encode-values",
    "true-value",
    "false-value",
    "pattern",
    "termination-pattern",
    "present-when",
    "determinant",
    "mapping-function",
    "null-terminated",
    "pos-int",
    "twos-complement",
    "BCD",
    "ASCII",
    "big",
    "little",
    "byte",
    "word",
    "dword",
];

// Whether the word is one of the attribute words.
#[tactic(auto, unfolding(acn_acn_syntax::specs::ModuleTokens::attribute_words))]
fn is_attribute_word(text: &[u8]) -> bool
    ensures { result ≡ spec.is_attribute_word text.now }
{
    is_one_of(text, &ATTRIBUTE_WORDS)
}

// Whether an identifier of an ACN file is written so.
#[tactic(auto, unfolding(acn_acn_syntax::specs::ModuleTokens::is_acn_identifier))]
fn is_acn_identifier(text: &[u8]) -> bool
    ensures { result ≡ spelling.is_acn_identifier text.now }
{
    is_identifier(text) && !is_attribute_word(text)
}

/// Takes the next token, which has to be an identifier that is no attribute word.
#[tactic(auto, unfolding(acn_cursor::specs::Steps::word))]
pub fn acn_identifier(alloc: Global, cursor: &mut Cursor<'_>) -> Result<Name, Stop>
    ensures read { Reads (word spelling.is_acn_identifier cursor.old) result cursor.new }
    ensures kept { IfErr result (λ _. cursor.new ≡ cursor.old) }
{
    match cursor.text_of(Kind::Word) {
        None => Err(cursor.refuse()),
        Some(text) => {
            if is_acn_identifier(text) {
                let name = Name::copy(alloc, text)?;
                cursor.skip();
                Ok(name)
            } else {
                Err(cursor.refuse())
            }
        }
    }
}
