//! What is looked for in tokens before a grammar is asked.

ghost use Rattle.std.specs.Prelude.{◌≡◌, ◌^◌, ◌<◌, map, length};
ghost use Rattle.acn_lex.specs.declared.Kind.TheVariants.{Word, Mark};
ghost use Rattle.acn_lex.specs.Lexeme.{lexeme, lexemes};
ghost use Rattle.acn_lex.specs.Words.{texts};
ghost use Rattle.acn_cursor.specs.Exact as exact;
ghost use Rattle.acn_cursor.specs.Screens as spec;
ghost use Rattle.acn_cursor.specs.Steps as steps;

use crate::ParseFault;
use crate::level::{Level, is_token};
use acn_lex::{Kind, Token};

fn is_one_of(token: &Token<'_>, kind: Kind, words: &[&str]) -> bool
    ensures { result ≡ spec.is_among (map (steps.token kind) (texts words.now)) (lexeme token.now) }
{
    for word in words {
        if is_token(token, kind, word.as_bytes()) {
            return true;
        }
    }
    false
}

#[tactic(auto, using(crate::proofs::Firsts::among_both))]
fn is_among(token: &Token<'_>, words: &[&str], marks: &[&str]) -> bool
    ensures { result ≡ spec.is_among (spec.tokens_of (texts words.now) (texts marks.now)) (lexeme token.now) }
{
    is_one_of(token, Kind::Word, words) || is_one_of(token, Kind::Mark, marks)
}

/// The number of the first token that is one of these words or marks.
#[tactic(auto, unfolding(crate::specs::Screens::first_left_out))]
pub fn left_out(tokens: &[Token<'_>], words: &[&str], marks: &[&str]) -> Option<u32>
    requires { length tokens.now < 2 ^ 32 }
    ensures { result ≡ spec.first_left_out (spec.tokens_of (texts words.now) (texts marks.now)) (lexemes tokens.now) }
{
    for (at, token) in tokens.iter().enumerate() {
        if is_among(token, words, marks) {
            return Some(at as u32);
        }
    }
    None
}

/// The number of the first token whose level is over `MOST_LEVEL`. A level is the marks `{` and `(` before the token less
/// the marks `}` and `)`, and the words `OF` since the last `::=`, `,`, `{` or `}`, where a `)` gives back the count that
/// stood at its `(`. It is this profile's own, and bounds how deep types and sets lie in one another.
///
/// The time is linear in the count of tokens, and no memory is taken.
#[tactic(auto, unfolding(crate::specs::Screens::first_too_deep))]
pub fn too_deep(tokens: &[Token<'_>]) -> Option<u32>
    requires { length tokens.now < 2 ^ 32 }
    ensures { result ≡ spec.first_too_deep (lexemes tokens.now) }
{
    let mut level = Level::new();
    for (at, token) in tokens.iter().enumerate() {
        if level.is_over() {
            return Some(at as u32);
        }
        level.pass(token);
    }
    None
}

/// Refuses tokens with one of these words or marks, and then those with a level over `MOST_LEVEL`.
#[tactic(auto, unfolding(crate::specs::Exact::screen))]
pub fn screened(tokens: &[Token<'_>], words: &[&str], marks: &[&str]) -> Result<(), ParseFault>
    requires { length tokens.now < 2 ^ 32 }
    ensures { exact.Screened (exact.screen (spec.tokens_of (texts words.now) (texts marks.now)) (lexemes tokens.now)) result }
{
    if let Some(at) = left_out(tokens, words, marks) {
        return Err(ParseFault::LeftOut { at });
    }
    if let Some(at) = too_deep(tokens) {
        return Err(ParseFault::TooDeep { at });
    }
    Ok(())
}
