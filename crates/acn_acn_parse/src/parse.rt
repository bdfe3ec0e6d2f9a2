//! The parser of ACN files.

ghost use Rattle.std.specs.Prelude.{◌≡◌, ◌^◌, ◌<◌, length};
ghost use Rattle.acn_cursor.specs.Exact as exact;
ghost use Rattle.acn_cursor.specs.Exact.{IsFound, IsLeftOut, IsOnly, IsPlaced, IsTooDeep};
ghost use Rattle.acn_lex.specs.Lexeme.{lexemes};
ghost use Rattle.acn_acn_syntax.specs.ModuleTokens.{acn_tokens, IsProperAcn};
ghost use Rattle.acn_acn_syntax.specs.View.{modules_of};
ghost use Rattle.acn_acn_syntax.specs.declared.modules.AcnModules.{AcnModules};
ghost use Rattle.acn_acn_parse.specs.FieldReading as spec;
ghost use Rattle.acn_acn_parse.specs.FieldReading.{WholeAs, left_out_tokens};

use crate::modules::modules;
use acn_acn_syntax::AcnModules;
use acn_cursor::{Cursor, ParseFault, Stop, in_file, screened};
use acn_lex::{ACN_LEFT_OUT, Token, Tokens};
use std::alloc::Global;

// Refuses tokens with a word that is left out of ACN files, and then those with a level over `MOST_LEVEL`.
#[tactic(auto, unfolding(crate::specs::FieldReading::left_out_tokens))]
fn screen(tokens: &[Token<'_>]) -> Result<(), ParseFault>
    requires { length tokens.now < 2 ^ 32 }
    ensures { exact.Screened (exact.screen left_out_tokens (lexemes tokens.now)) result }
{
    screened(tokens, &ACN_LEFT_OUT, &[])
}

fn whole(alloc: Global, tokens: &[Token<'_>]) -> Result<AcnModules, Stop>
    ensures { WholeAs modules_of (spec.modules_at (length tokens.now) (lexemes tokens.now)) result }
{
    let mut cursor = Cursor::new(tokens);
    let modules = modules(alloc, tokens.len(), &mut cursor)?;
    if cursor.left() == 0 {
        Ok(AcnModules { modules })
    } else {
        Err(cursor.refuse())
    }
}

/// The modules of an ACN file, from its tokens, of which there are fewer than `2^32`.
///
/// `Ok` is the one proper tree that has these tokens. `LeftOut` comes exactly where one of the words stands that this
/// profile leaves out of ACN; `TooDeep` exactly where none stands and the level of a token is over `MOST_LEVEL`; `Syntax` exactly
/// where neither holds and no proper tree has these tokens. Each keeps its token's number; that of `Syntax` is where the
/// productions of `specs/FieldReading` stop, read from left to right with the next token in view.
pub fn parse_acn(alloc: Global, tokens: &Tokens<'_>) -> Result<AcnModules, ParseFault>
    requires { length tokens.now.list < 2 ^ 32 }
    ensures found { IsFound acn_tokens IsProperAcn (lexemes tokens.now.list) result }
    ensures only { (t : AcnModules) → IsProperAcn t → lexemes tokens.now.list ≡ acn_tokens t → IsOnly result t }
    ensures left_out { IsLeftOut left_out_tokens (lexemes tokens.now.list) result }
    ensures too_deep { IsTooDeep left_out_tokens (lexemes tokens.now.list) result }
    ensures place { IsPlaced (exact.stops_at spec.modules_in_file (lexemes tokens.now.list)) result }
{
    let list = tokens.list.items();
    match screen(list) {
        Ok(()) => {
            let answer = whole(alloc, list);
            in_file(answer, list.len())
        }
        Err(fault) => Err(fault),
    }
}
