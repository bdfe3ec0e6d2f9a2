//! What stands before a module's assignments.

ghost use Rattle.std.specs.Prelude.{◌≡◌, IfErr};
ghost use Rattle.acn_cursor.specs.Steps.{Reads, many, word, ReadsFreely};
ghost use Rattle.acn_asn_syntax.specs.Modules as spelling;
ghost use Rattle.acn_asn_types.specs.Lists.{listed, more_of, next};
ghost use Rattle.acn_asn_parse.specs.Headers as spec;

use acn_asn_syntax::{Exports, Import, Oid, OidPart, Tagging};
use acn_asn_types::{has, has_comma, literal, row_of};
use acn_cursor::{Cursor, Stop, reference};
use acn_lex::{Kind, is_identifier, is_reference};
use acn_num::{Name, Row};
use std::alloc::Global;

/// The name of a module, and what stands behind it.
#[derive(Drop)]
pub struct ModuleHead {
    /// Its name.
    pub name: Name,
    /// Its object identifier, if it is written.
    pub oid: Option<Oid>,
    /// How its types are tagged, if it is written.
    pub tags: Option<Tagging>,
}

#[tactic(auto, unfolding(crate::specs::Headers::grouped_part))]
fn grouped_part(cursor: &mut Cursor<'_>) -> Result<OidPart, Stop>
    ensures { ReadsFreely (spec.grouped_part cursor.old) result cursor.new }
{
    let n = cursor.number()?;
    cursor.expect(Kind::Mark, b")")?;
    Ok(OidPart::Grouped(n))
}

#[tactic(auto, unfolding(crate::specs::Headers::word_part))]
fn word_part(alloc: Global, cursor: &mut Cursor<'_>) -> Result<OidPart, Stop>
    ensures { Reads (spec.word_part cursor.old) result cursor.new }
{
    Ok(OidPart::Word(literal(alloc, cursor, Kind::Word)?))
}

#[tactic(auto, unfolding(crate::specs::Headers::number_part))]
fn number_part(cursor: &mut Cursor<'_>) -> Result<OidPart, Stop>
    ensures { ReadsFreely (spec.number_part cursor.old) result cursor.new }
{
    Ok(OidPart::Number(cursor.number()?))
}

#[tactic(auto, unfolding(crate::specs::Headers::oid_part))]
fn oid_part(alloc: Global, cursor: &mut Cursor<'_>) -> Result<OidPart, Stop>
    ensures { Reads (spec.oid_part cursor.old) result cursor.new }
{
    if cursor.eat(Kind::Mark, b"(") {
        return grouped_part(cursor);
    }
    if has(cursor, Kind::Word) {
        word_part(alloc, cursor)
    } else {
        number_part(cursor)
    }
}

#[tactic(auto, unfolding(crate::specs::Headers::has_part))]
fn has_part(cursor: &Cursor<'_>) -> bool
    ensures { result ≡ spec.has_part cursor.now }
{
    !cursor.sees(Kind::Mark, b"}")
}

fn oid_parts(alloc: Global, cursor: &mut Cursor<'_>) -> Result<Row<OidPart>, Stop>
    ensures { Reads (many spec.has_part spec.oid_part cursor.old) result cursor.new }
{
    let mut row = Row::new(alloc);
    for _ in 0..cursor.left() {
        if !has_part(cursor) {
            return Ok(row);
        }
        let next = oid_part(alloc, cursor)?;
        row.push(next)?;
    }
    Ok(row)
}

#[tactic(auto, unfolding(crate::specs::Headers::oid_in))]
fn oid_in(alloc: Global, cursor: &mut Cursor<'_>) -> Result<Option<Oid>, Stop>
    ensures { Reads (spec.oid_in cursor.old) result cursor.new }
{
    let parts = oid_parts(alloc, cursor)?;
    cursor.expect(Kind::Mark, b"}")?;
    Ok(Some(Oid { parts }))
}

/// An object identifier, if one comes next.
#[tactic(auto, unfolding(crate::specs::Headers::oid_at))]
fn oid_at(alloc: Global, cursor: &mut Cursor<'_>) -> Result<Option<Oid>, Stop>
    ensures { Reads (spec.oid_at cursor.old) result cursor.new }
{
    if cursor.eat(Kind::Mark, b"{") {
        oid_in(alloc, cursor)
    } else {
        Ok(None)
    }
}

#[tactic(auto, unfolding(crate::specs::Headers::with_tags))]
fn with_tags(cursor: &mut Cursor<'_>, tagging: Tagging) -> Result<Option<Tagging>, Stop>
    ensures { ReadsFreely (spec.with_tags tagging cursor.old) result cursor.new }
{
    cursor.expect(Kind::Word, b"TAGS")?;
    Ok(Some(tagging))
}

#[tactic(auto, unfolding(crate::specs::Headers::tagging_at))]
fn tagging_at(cursor: &mut Cursor<'_>) -> Result<Option<Tagging>, Stop>
    ensures { ReadsFreely (spec.tagging_at cursor.old) result cursor.new }
{
    if cursor.eat(Kind::Word, b"EXPLICIT") {
        return with_tags(cursor, Tagging::Explicit);
    }
    if cursor.eat(Kind::Word, b"IMPLICIT") {
        return with_tags(cursor, Tagging::Implicit);
    }
    if cursor.eat(Kind::Word, b"AUTOMATIC") {
        return with_tags(cursor, Tagging::Automatic);
    }
    Ok(None)
}

#[tactic(auto, unfolding(crate::specs::Headers::head_at))]
pub fn head_at(alloc: Global, cursor: &mut Cursor<'_>) -> Result<ModuleHead, Stop>
    ensures { Reads (spec.head_at cursor.old) result cursor.new }
{
    let name = reference(alloc, cursor)?;
    let oid = oid_at(alloc, cursor)?;
    cursor.expect(Kind::Word, b"DEFINITIONS")?;
    let tags = tagging_at(cursor)?;
    Ok(ModuleHead { name, oid, tags })
}

fn is_name(text: &[u8]) -> bool
    ensures { result ≡ spelling.is_name text.now }
{
    is_reference(text) || is_identifier(text)
}

/// A name that is exported or imported.
#[tactic(auto, unfolding(acn_cursor::specs::Steps::word))]
fn name(alloc: Global, cursor: &mut Cursor<'_>) -> Result<Name, Stop>
    ensures read { Reads (word spelling.is_name cursor.old) result cursor.new }
    ensures kept { IfErr result (λ _. cursor.new ≡ cursor.old) }
{
    match cursor.text_of(Kind::Word) {
        None => Err(cursor.refuse()),
        Some(text) => {
            if is_name(text) {
                let name = Name::copy(alloc, text)?;
                cursor.skip();
                Ok(name)
            } else {
                Err(cursor.refuse())
            }
        }
    }
}

#[tactic(auto, unfolding(acn_asn_types::specs::Lists::next))]
fn next_name(alloc: Global, cursor: &mut Cursor<'_>) -> Result<Name, Stop>
    ensures { Reads (next (word spelling.is_name) cursor.old) result cursor.new }
{
    cursor.expect(Kind::Mark, b",")?;
    name(alloc, cursor)
}

#[tactic(auto, unfolding(acn_asn_types::specs::Lists::more_of))]
fn more_names(alloc: Global, cursor: &mut Cursor<'_>, first: Name) -> Result<Row<Name>, Stop>
    ensures { Reads (more_of (word spelling.is_name) first cursor.old) result cursor.new }
{
    let mut row = row_of(alloc, first)?;
    for _ in 0..cursor.left() {
        if !has_comma(cursor) {
            return Ok(row);
        }
        let next = next_name(alloc, cursor)?;
        row.push(next)?;
    }
    Ok(row)
}

#[tactic(auto, unfolding(acn_asn_types::specs::Lists::listed))]
fn some_names(alloc: Global, cursor: &mut Cursor<'_>) -> Result<Row<Name>, Stop>
    ensures { Reads (listed (word spelling.is_name) cursor.old) result cursor.new }
{
    let first = name(alloc, cursor)?;
    more_names(alloc, cursor, first)
}

#[tactic(auto, unfolding(crate::specs::Headers::is_end))]
fn is_end(cursor: &Cursor<'_>) -> bool
    ensures { result ≡ spec.is_end cursor.now }
{
    cursor.sees(Kind::Mark, b";")
}

/// The names before a semicolon.
#[tactic(auto, unfolding(crate::specs::Headers::names_at))]
fn names_at(alloc: Global, cursor: &mut Cursor<'_>) -> Result<Row<Name>, Stop>
    ensures { Reads (spec.names_at cursor.old) result cursor.new }
{
    if is_end(cursor) {
        Ok(Row::new(alloc))
    } else {
        some_names(alloc, cursor)
    }
}

#[tactic(auto, unfolding(crate::specs::Headers::all_exports))]
fn all_exports(cursor: &mut Cursor<'_>) -> Result<Option<Exports>, Stop>
    ensures { ReadsFreely (spec.all_exports cursor.old) result cursor.new }
{
    cursor.expect(Kind::Mark, b";")?;
    Ok(Some(Exports::All))
}

#[tactic(auto, unfolding(crate::specs::Headers::some_exports))]
fn some_exports(alloc: Global, cursor: &mut Cursor<'_>) -> Result<Option<Exports>, Stop>
    ensures { Reads (spec.some_exports cursor.old) result cursor.new }
{
    let names = names_at(alloc, cursor)?;
    cursor.expect(Kind::Mark, b";")?;
    Ok(Some(Exports::Some(names)))
}

#[tactic(auto, unfolding(crate::specs::Headers::exports_at))]
pub fn exports_at(alloc: Global, cursor: &mut Cursor<'_>) -> Result<Option<Exports>, Stop>
    ensures { Reads (spec.exports_at cursor.old) result cursor.new }
{
    if !cursor.eat(Kind::Word, b"EXPORTS") {
        return Ok(None);
    }
    if cursor.eat(Kind::Word, b"ALL") {
        all_exports(cursor)
    } else {
        some_exports(alloc, cursor)
    }
}

#[tactic(auto, unfolding(crate::specs::Headers::import_at))]
fn import_at(alloc: Global, cursor: &mut Cursor<'_>) -> Result<Import, Stop>
    ensures { Reads (spec.import_at cursor.old) result cursor.new }
{
    let names = some_names(alloc, cursor)?;
    cursor.expect(Kind::Word, b"FROM")?;
    let module = reference(alloc, cursor)?;
    let oid = oid_at(alloc, cursor)?;
    Ok(Import { names, module, oid })
}

#[tactic(auto, unfolding(crate::specs::Headers::has_import))]
fn has_import(cursor: &Cursor<'_>) -> bool
    ensures { result ≡ spec.has_import cursor.now }
{
    !is_end(cursor)
}

fn import_rows(alloc: Global, cursor: &mut Cursor<'_>) -> Result<Row<Import>, Stop>
    ensures { Reads (many spec.has_import spec.import_at cursor.old) result cursor.new }
{
    let mut row = Row::new(alloc);
    for _ in 0..cursor.left() {
        if !has_import(cursor) {
            return Ok(row);
        }
        let next = import_at(alloc, cursor)?;
        row.push(next)?;
    }
    Ok(row)
}

#[tactic(auto, unfolding(crate::specs::Headers::imports_in))]
fn imports_in(alloc: Global, cursor: &mut Cursor<'_>) -> Result<Option<Row<Import>>, Stop>
    ensures { Reads (spec.imports_in cursor.old) result cursor.new }
{
    let found = import_rows(alloc, cursor)?;
    cursor.expect(Kind::Mark, b";")?;
    Ok(Some(found))
}

#[tactic(auto, unfolding(crate::specs::Headers::imports_at))]
pub fn imports_at(alloc: Global, cursor: &mut Cursor<'_>) -> Result<Option<Row<Import>>, Stop>
    ensures { Reads (spec.imports_at cursor.old) result cursor.new }
{
    if cursor.eat(Kind::Word, b"IMPORTS") {
        imports_in(alloc, cursor)
    } else {
        Ok(None)
    }
}
