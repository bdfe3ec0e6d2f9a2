//! The parser of ASN.1 files.

ghost use Rattle.std.specs.Prelude.{◌≡◌, ◌^◌, ◌<◌, length};
ghost use Rattle.acn_cursor.specs.Exact as exact;
ghost use Rattle.acn_cursor.specs.Exact.{IsFound, IsLeftOut, IsOnly, IsPlaced, IsTooDeep};
ghost use Rattle.acn_cursor.specs.Steps.{Whole};
ghost use Rattle.acn_lex.specs.Lexeme.{lexemes};
ghost use Rattle.acn_asn_syntax.specs.Modules.{tokens_of, IsProper};
ghost use Rattle.acn_asn_syntax.specs.declared.modules.AsnModules.{AsnModules};
ghost use Rattle.acn_asn_parse.specs.Modules as spec;
ghost use Rattle.acn_asn_types.specs.Types.{type_at};
ghost use Rattle.acn_asn_parse.specs.Whole as left;

use crate::modules::modules;
use acn_asn_syntax::AsnModules;
use acn_cursor::{Cursor, ParseFault, Stop, in_file, screened};
use acn_lex::{ASN_LEFT_OUT, ASN_LEFT_OUT_MARKS, Token, Tokens};
use std::alloc::Global;

// Refuses tokens with a word or mark that is left out of ASN.1 files, and then those with a level over `MOST_LEVEL`.
#[tactic(auto, unfolding(crate::specs::Whole::left_out))]
fn screen(tokens: &[Token<'_>]) -> Result<(), ParseFault>
    requires { length tokens.now < 2 ^ 32 }
    ensures { exact.Screened (exact.screen left.left_out (lexemes tokens.now)) result }
{
    screened(tokens, &ASN_LEFT_OUT, &ASN_LEFT_OUT_MARKS)
}

fn whole(alloc: Global, tokens: &[Token<'_>]) -> Result<AsnModules, Stop>
    ensures { Whole (spec.modules_in (type_at (length tokens.now)) (lexemes tokens.now)) result }
{
    let mut cursor = Cursor::new(tokens);
    let found = modules(alloc, tokens.len(), &mut cursor)?;
    if cursor.left() == 0 {
        Ok(found)
    } else {
        Err(cursor.refuse())
    }
}

/// The modules of an ASN.1 file, from its tokens, of which there are fewer than `2^32`.
///
/// `Ok` is the one proper tree that has these tokens. `LeftOut` comes exactly where one of the words or marks stands that
/// this profile leaves out of ASN.1; `TooDeep` exactly where none stands and the level of a token is over `MOST_LEVEL`; `Syntax`
/// exactly where neither holds and no proper tree has these tokens. Each keeps its token's number; that of `Syntax` is where the
/// productions of `specs/Modules` stop, read from left to right with the next token in view.
pub fn parse_asn(alloc: Global, tokens: &Tokens<'_>) -> Result<AsnModules, ParseFault>
    requires { length tokens.now.list < 2 ^ 32 }
    ensures found { IsFound tokens_of IsProper (lexemes tokens.now.list) result }
    ensures only { (t : AsnModules) → IsProper t → lexemes tokens.now.list ≡ tokens_of t → IsOnly result t }
    ensures left_out { IsLeftOut left.left_out (lexemes tokens.now.list) result }
    ensures too_deep { IsTooDeep left.left_out (lexemes tokens.now.list) result }
    ensures place { IsPlaced (exact.stops_at spec.modules_at (lexemes tokens.now.list)) result }
{
    let list = tokens.list.items();
    match screen(list) {
        Ok(()) => {
            let answer = whole(alloc, list);
            in_file(answer, list.len())
        }
        Err(fault) => Err(fault),
    }
}
