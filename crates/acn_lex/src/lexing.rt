ghost use Rattle.std.specs.Prelude.{◌≡◌, ◌≢◌, ◌≤◌, List, length, map, IfOk, IfErr};
ghost use Rattle.acn_lex.specs.Lexing as turns;
ghost use Rattle.acn_lex.specs.Lexes as spec;
ghost use Rattle.acn_lex.specs.Lexeme.{Placed, placed};
ghost use Rattle.acn_lex.specs.declared.lexing.TheConstants.{MOST_TOKENS};
ghost use Rattle.acn_num.specs.declared.limits.TheConstants.{MOST_FILE_BYTES};
ghost use Rattle.acn_lex.specs.declared.fault.LexFault.TheVariants as fault;
ghost use Rattle.acn_lex.specs.declared.fault.LexFault.{LexFault};

use crate::fault::LexFault;
use crate::scan::{Step, step_at};
use crate::{Token, Tokens};
use acn_num::Row;
use std::alloc::Global;

/// The greatest number of tokens of one file, this profile's own.
pub const MOST_TOKENS: usize = 1_000_000;

/// The tokens of a file of ASN.1, ACN or a map, in order: the lexical items of X.680, clause 12, of which this profile
/// takes words, numbers, bits, hexadecimal digits, texts and marks. Each token has its place, the number of bytes before
/// it, and the slice of its text. White space and comments stand between them.
///
/// The bytes are at most `MOST_FILE_BYTES`, which the caller sees to.
///
/// # Errors
///
/// The first fault of the bytes is answered, with its place:
/// - `BadByte` where no token begins. A number with a zero before other digits is one such place, at its start (X.680,
///   12.8), and so is a literal in apostrophes that does not end right (X.680, 12.10 and 12.12) and a text with a byte
///   below 32 or above 126 (this profile's own).
/// - `Unclosed` where a comment between slashes (X.680, 12.6) or a literal begins that has no end.
/// - `TooWide` where a number of 2^64 or more begins (this profile's own).
/// - `TooManyTokens` where a token begins that `MOST_TOKENS` stand before (this profile's own).
/// - `NoMemory` where memory ran out.
pub fn lex<'a>(alloc: Global, bytes: &'a [u8]) -> Result<Tokens<'a>, LexFault>
    requires { length bytes.now ≤ MOST_FILE_BYTES }
    ensures tokens { IfOk result (λ ts. spec.Lexes 0 bytes.now (map placed ts.list)) }
    ensures few { IfOk result (λ ts. length ts.list ≤ MOST_TOKENS) }
    ensures each { (ts : List Placed) → spec.Lexes 0 bytes.now ts → length ts ≤ MOST_TOKENS → spec.AnswersTokens ts result }
    ensures fault { IfErr result (λ e. e ≢ fault.NoMemory → spec.Faults bytes.now e) }
    ensures first { (e : LexFault) → spec.Faults bytes.now e → spec.AnswersFault e result }
{
    by_turns(alloc, bytes)
}

fn by_turns<'a>(alloc: Global, bytes: &'a [u8]) -> Result<Tokens<'a>, LexFault>
    requires { length bytes.now ≤ MOST_FILE_BYTES }
    ensures { turns.Gives (turns.lex_from (length bytes.now) MOST_TOKENS 0 bytes.now) result }
{
    let mut list = Row::new(alloc);
    let mut at = 0u32;
    let mut rest = bytes;
    for _ in 0..bytes.len() {
        match step_at(rest) {
            Step::End => return Ok(Tokens { list }),
            Step::BadByte => return Err(LexFault::BadByte { at }),
            Step::Unclosed => return Err(LexFault::Unclosed { at }),
            Step::TooWide => return Err(LexFault::TooWide { at }),
            Step::Gap(k) => {
                let (_, behind) = rest.split_at(k);
                at += k as u32;
                rest = behind;
                continue;
            }
            Step::Token(kind, k) => {
                if list.items().len() == MOST_TOKENS {
                    return Err(LexFault::TooManyTokens { at });
                }
                let (text, behind) = rest.split_at(k);
                list.push(Token { kind, at, text })?;
                at += k as u32;
                rest = behind;
            }
        }
    }
    Ok(Tokens { list })
}
