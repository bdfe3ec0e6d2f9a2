//! From the bytes of a file to its tree.

ghost use Rattle.std.specs.Prelude.{◌≡◌, ◌≢◌, ◌≤◌, map, length, IfOk, IfErr};
ghost use Rattle.acn_lex.specs.Lexeme.{placed};
ghost use Rattle.acn_num.specs.declared.limits.TheConstants.{MOST_FILE_BYTES};
ghost use Rattle.acn_asn_syntax.specs.declared.modules.AsnModules.{AsnModules};
ghost use Rattle.acn_acn_syntax.specs.declared.modules.AcnModules.{AcnModules};
ghost use Rattle.acn_acn_syntax.specs.declared.maps.MapTables.{MapTables};
ghost use Rattle.acn_sources.specs.Reading as spec;
ghost use Rattle.acn_sources.specs.Kinds.{IsAsn, IsAsnFault, IsAcn, IsAcnFault, IsMap, IsMapFault};
ghost use Rattle.acn_sources.specs.declared.fault.FileFault.{FileFault};
ghost use Rattle.acn_sources.specs.declared.fault.FileFault.TheVariants.{NoMemory};

use crate::FileFault;
use acn_acn_parse::{parse_acn, parse_map};
use acn_acn_syntax::{AcnModules, MapTables};
use acn_asn_parse::parse_asn;
use acn_asn_syntax::AsnModules;
use acn_cursor::ParseFault;
use acn_lex::{LexFault, Token, lex};
use std::alloc::Global;

// A fault of the bytes.
fn lexical(fault: LexFault) -> FileFault
    ensures { result ≡ spec.lexical fault }
{
    match fault {
        LexFault::BadByte { at } => FileFault::BadByte { at },
        LexFault::Unclosed { at } => FileFault::Unclosed { at },
        LexFault::TooManyTokens { at } => FileFault::TooManyTokens { at },
        LexFault::TooWide { at } => FileFault::TooWide { at },
        LexFault::NoMemory => FileFault::NoMemory,
    }
}

// Where this token begins, or the end of the file where it is behind the last.
fn place_of(tokens: &[Token<'_>], number: u32, end: u32) -> u32
    ensures { result ≡ spec.place_of end (map placed tokens.now) number }
{
    match tokens.get(number as usize) {
        Some(token) => token.at,
        None => end,
    }
}

fn length_of(tokens: &[Token<'_>], number: u32) -> usize
    ensures { result ≡ spec.length_of (map placed tokens.now) number }
{
    match tokens.get(number as usize) {
        Some(token) => token.text.len(),
        None => 0,
    }
}

// A fault of the tokens, by its place in the file.
fn located(fault: ParseFault, tokens: &[Token<'_>], end: u32) -> FileFault
    ensures { result ≡ spec.located end (map placed tokens.now) fault }
{
    match fault {
        ParseFault::Syntax { at } => FileFault::Syntax {
            at: place_of(tokens, at, end),
        },
        ParseFault::TooDeep { at } => FileFault::TooDeep {
            at: place_of(tokens, at, end),
        },
        ParseFault::LeftOut { at } => FileFault::LeftOut {
            at: place_of(tokens, at, end),
            length: length_of(tokens, at),
        },
        ParseFault::NoMemory => FileFault::NoMemory,
    }
}

/// The modules of an ASN.1 file, from its bytes, which are at most `MOST_FILE_BYTES`.
///
/// `Ok` is the one proper tree whose tokens are the tokens of the file.
///
/// # Errors
///
/// - `BadByte`, `Unclosed`, `TooManyTokens` or `TooWide` exactly where the file has this fault instead of tokens.
/// - `LeftOut` exactly where one of the tokens is a word or mark that this profile leaves out, with the first.
/// - `TooDeep` exactly where none is and the level of a token is too great, with the first.
/// - `Syntax` exactly where neither is and no proper tree has these tokens, with the token where the productions stop, or the
///   end of the file.
/// - `NoMemory` where memory ran out.
pub fn read_asn(alloc: Global, bytes: &[u8]) -> Result<AsnModules, FileFault>
    requires { length bytes.now ≤ MOST_FILE_BYTES }
    ensures tree { IfOk result (λ t. IsAsn bytes.now t) }
    ensures each { (t : AsnModules) → IsAsn bytes.now t → spec.AnswersTree t result }
    ensures fault { IfErr result (λ e. e ≢ NoMemory → IsAsnFault bytes.now e) }
    ensures first { (e : FileFault) → IsAsnFault bytes.now e → spec.AnswersFault e result }
{
    let tokens = match lex(alloc, bytes) {
        Ok(tokens) => tokens,
        Err(fault) => return Err(lexical(fault)),
    };
    match parse_asn(alloc, &tokens) {
        Ok(tree) => Ok(tree),
        Err(fault) => Err(located(fault, tokens.list.items(), bytes.len() as u32)),
    }
}

/// The modules of an ACN file, from its bytes, which are at most `MOST_FILE_BYTES`. Answers are as those of `read_asn`.
pub fn read_acn(alloc: Global, bytes: &[u8]) -> Result<AcnModules, FileFault>
    requires { length bytes.now ≤ MOST_FILE_BYTES }
    ensures tree { IfOk result (λ t. IsAcn bytes.now t) }
    ensures each { (t : AcnModules) → IsAcn bytes.now t → spec.AnswersTree t result }
    ensures fault { IfErr result (λ e. e ≢ NoMemory → IsAcnFault bytes.now e) }
    ensures first { (e : FileFault) → IsAcnFault bytes.now e → spec.AnswersFault e result }
{
    let tokens = match lex(alloc, bytes) {
        Ok(tokens) => tokens,
        Err(fault) => return Err(lexical(fault)),
    };
    match parse_acn(alloc, &tokens) {
        Ok(tree) => Ok(tree),
        Err(fault) => Err(located(fault, tokens.list.items(), bytes.len() as u32)),
    }
}

/// The tables of a mapping file, from its bytes, which are at most `MOST_FILE_BYTES`. Answers are as those of `read_asn`,
/// but that no word is left out of mapping files.
pub fn read_map(alloc: Global, bytes: &[u8]) -> Result<MapTables, FileFault>
    requires { length bytes.now ≤ MOST_FILE_BYTES }
    ensures tree { IfOk result (λ t. IsMap bytes.now t) }
    ensures each { (t : MapTables) → IsMap bytes.now t → spec.AnswersTree t result }
    ensures fault { IfErr result (λ e. e ≢ NoMemory → IsMapFault bytes.now e) }
    ensures first { (e : FileFault) → IsMapFault bytes.now e → spec.AnswersFault e result }
{
    let tokens = match lex(alloc, bytes) {
        Ok(tokens) => tokens,
        Err(fault) => return Err(lexical(fault)),
    };
    match parse_map(alloc, &tokens) {
        Ok(tree) => Ok(tree),
        Err(fault) => Err(located(fault, tokens.list.items(), bytes.len() as u32)),
    }
}
