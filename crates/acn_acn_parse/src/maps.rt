ghost use Rattle.std.specs.Prelude.{◌≡◌, ◌^◌, ◌<◌, [], ◌∷◌, length, IfOk};
ghost use Rattle.acn_cursor.specs.Steps.{Reads, ReadsFreely, Whole, many};
ghost use Rattle.acn_lex.specs.Lexeme.{lexemes};
ghost use Rattle.acn_acn_syntax.specs.declared.maps.MapTables.{MapTables};
ghost use Rattle.acn_cursor.specs.Exact.{IsFound, IsLeftOut, IsOnly, IsPlaced, IsTooDeep, stops_at};
ghost use Rattle.acn_acn_parse.specs.MapReading as spec;
ghost use Rattle.acn_acn_syntax.specs.MapTokens as spelling;

use crate::attributes::with_first;
use acn_acn_syntax::{MapLine, MapTable, MapTables, Signed};
use acn_cursor::{Cursor, ParseFault, Stop, identifier, in_file, screened};
use acn_lex::{Kind, Token, Tokens};
use acn_num::Row;
use std::alloc::Global;

/// Takes a number with its sign.
#[tactic(auto, unfolding(crate::specs::MapReading::signed))]
pub fn signed(cursor: &mut Cursor<'_>) -> Result<Signed, Stop>
    ensures { ReadsFreely (spec.signed cursor.old) result cursor.new }
{
    let negative = cursor.eat(Kind::Mark, b"-");
    let n = cursor.number()?;
    Ok(Signed { negative, n })
}

#[tactic(auto, unfolding(crate::specs::MapReading::last))]
fn last(cursor: &mut Cursor<'_>) -> Result<Option<Signed>, Stop>
    ensures { ReadsFreely (spec.last cursor.old) result cursor.new }
{
    if cursor.eat(Kind::Mark, b"..") {
        Ok(Some(signed(cursor)?))
    } else {
        Ok(None)
    }
}

#[tactic(auto, unfolding(crate::specs::MapReading::line))]
fn line(cursor: &mut Cursor<'_>) -> Result<MapLine, Stop>
    ensures { ReadsFreely (spec.line cursor.old) result cursor.new }
{
    let first = signed(cursor)?;
    let last = last(cursor)?;
    cursor.expect(Kind::Mark, b"=")?;
    let image = signed(cursor)?;
    Ok(MapLine { first, last, image })
}

fn lines(alloc: Global, cursor: &mut Cursor<'_>) -> Result<Row<MapLine>, Stop>
    ensures { Reads (many spec.has_line spec.line cursor.old) result cursor.new }
{
    let mut lines = Row::new(alloc);
    for _ in 0..cursor.left() {
        if cursor.sees(Kind::Mark, b"}") {
            return Ok(lines);
        }
        let line = line(cursor)?;
        lines.push(line)?;
    }
    Ok(lines)
}

#[tactic(auto, unfolding(crate::specs::MapReading::table))]
fn table(alloc: Global, cursor: &mut Cursor<'_>) -> Result<MapTable, Stop>
    ensures { Reads (spec.table cursor.old) result cursor.new }
{
    let name = identifier(alloc, cursor)?;
    cursor.expect(Kind::Mark, b"{")?;
    let lines = lines(alloc, cursor)?;
    cursor.expect(Kind::Mark, b"}")?;
    Ok(MapTable { name, lines })
}

fn all_tables(alloc: Global, cursor: &mut Cursor<'_>) -> Result<Row<MapTable>, Stop>
    ensures { Reads (many spec.has_more spec.table cursor.old) result cursor.new }
{
    let mut tables = Row::new(alloc);
    for _ in 0..cursor.left() {
        if cursor.left() == 0 {
            return Ok(tables);
        }
        let table = table(alloc, cursor)?;
        tables.push(table)?;
    }
    Ok(tables)
}

#[tactic(auto, unfolding(crate::specs::MapReading::tables))]
fn tables(alloc: Global, cursor: &mut Cursor<'_>) -> Result<MapTables, Stop>
    ensures { Reads (spec.tables cursor.old) result cursor.new }
{
    let first = table(alloc, cursor)?;
    let more = all_tables(alloc, cursor)?;
    let tables = with_first(alloc, first, more)?;
    Ok(MapTables { tables })
}

fn whole(alloc: Global, tokens: &[Token<'_>]) -> Result<MapTables, Stop>
    ensures { Whole (spec.tables (lexemes tokens.now)) result }
{
    let mut cursor = Cursor::new(tokens);
    let tables = tables(alloc, &mut cursor)?;
    if cursor.left() == 0 {
        Ok(tables)
    } else {
        Err(cursor.refuse())
    }
}

/// The tables of a mapping file, from its tokens, of which there are fewer than `2^32`.
///
/// `Ok` is the one proper tree that has these tokens. `TooDeep` comes exactly where the level of a token is over `MOST_LEVEL`,
/// and `Syntax` exactly where no level is and no proper tree has these tokens. Each keeps its token's number; that of `Syntax`
/// is where the productions of `specs/MapReading` stop, read from left to right with the next token in view. No word is left
/// out of mapping files.
pub fn parse_map(alloc: Global, tokens: &Tokens<'_>) -> Result<MapTables, ParseFault>
    requires { length tokens.now.list < 2 ^ 32 }
    ensures found { IsFound spelling.tokens_of spelling.IsProper (lexemes tokens.now.list) result }
    ensures only { (t : MapTables) → spelling.IsProper t → lexemes tokens.now.list ≡ spelling.tokens_of t → IsOnly result t }
    ensures left_out { IsLeftOut [] (lexemes tokens.now.list) result }
    ensures too_deep { IsTooDeep [] (lexemes tokens.now.list) result }
    ensures place { IsPlaced (stops_at spec.tables (lexemes tokens.now.list)) result }
{
    let list = tokens.list.items();
    match screened(list, &[], &[]) {
        Ok(()) => {
            let answer = whole(alloc, list);
            in_file(answer, list.len())
        }
        Err(fault) => Err(fault),
    }
}
