//! Fields. The depth is how many braces there may still be in one another.

ghost use Rattle.std.specs.Prelude.{◌≡◌, map, ◌∷◌, IfOk};
ghost use Rattle.acn_cursor.specs.Steps.{Reads, many};
ghost use Rattle.acn_acn_syntax.specs.Mirror as mirror;
ghost use Rattle.acn_acn_syntax.specs.View.{field_of, braces_view};
ghost use Rattle.acn_acn_parse.specs.AttributeReading.{has_comma as has_comma_next};
ghost use Rattle.acn_acn_parse.specs.FieldReading as spec;
ghost use Rattle.acn_acn_parse.specs.FieldReading.{ReadsAs};

use crate::attributes::{bracket, has_comma, path, with_first};
use crate::maps::signed;
use crate::words::acn_identifier;
use acn_acn_syntax::{AcnField, AcnPath, Attr, FieldKind, Signed};
use acn_cursor::{Cursor, Stop, reference};
use acn_lex::Kind;
use acn_num::{Name, NoMemory, Row};
use std::alloc::Global;

#[tactic(auto, unfolding(crate::specs::FieldReading::next_path))]
fn next_path(alloc: Global, cursor: &mut Cursor<'_>) -> Result<AcnPath, Stop>
    ensures { Reads (spec.next_path cursor.old) result cursor.new }
{
    cursor.expect(Kind::Mark, b",")?;
    path(alloc, cursor)
}

fn more_paths(alloc: Global, cursor: &mut Cursor<'_>) -> Result<Row<AcnPath>, Stop>
    ensures { Reads (many has_comma_next spec.next_path cursor.old) result cursor.new }
{
    let mut paths = Row::new(alloc);
    for _ in 0..cursor.left() {
        if !has_comma(cursor) {
            return Ok(paths);
        }
        let path = next_path(alloc, cursor)?;
        paths.push(path)?;
    }
    Ok(paths)
}

#[tactic(auto, unfolding(crate::specs::FieldReading::arguments))]
fn arguments(alloc: Global, cursor: &mut Cursor<'_>) -> Result<Row<AcnPath>, Stop>
    ensures { Reads (spec.arguments cursor.old) result cursor.new }
{
    if !cursor.eat(Kind::Mark, b"<") {
        return Ok(Row::new(alloc));
    }
    let first = path(alloc, cursor)?;
    let more = more_paths(alloc, cursor)?;
    cursor.expect(Kind::Mark, b">")?;
    Ok(with_first(alloc, first, more)?)
}

#[tactic(auto, unfolding(crate::specs::FieldReading::field_kind))]
fn field_kind(alloc: Global, cursor: &mut Cursor<'_>) -> Result<FieldKind, Stop>
    ensures { Reads (spec.field_kind cursor.old) result cursor.new }
{
    if cursor.eat(Kind::Word, b"INTEGER") {
        return Ok(FieldKind::Integer);
    }
    if cursor.eat(Kind::Word, b"BOOLEAN") {
        return Ok(FieldKind::Boolean);
    }
    if cursor.eat(Kind::Word, b"NULL") {
        return Ok(FieldKind::Null);
    }
    Ok(FieldKind::Ref(reference(alloc, cursor)?))
}

fn number_field(name: Name, n: Signed) -> AcnField
    ensures { field_of result ≡ mirror.number name n }
{
    AcnField::Number(name, n)
}

fn inserted_field(name: Name, kind: FieldKind, attributes: Row<Attr>) -> AcnField
    ensures { field_of result ≡ mirror.inserted name kind attributes }
{
    AcnField::Inserted {
        name,
        kind,
        attributes,
    }
}

fn plain_field(
    name: Name,
    arguments: Row<AcnPath>,
    attributes: Row<Attr>,
    fields: Option<Row<AcnField>>,
) -> AcnField
    ensures { field_of result ≡ mirror.plain name arguments attributes (braces_view fields) }
{
    AcnField::Plain {
        name,
        arguments,
        attributes,
        fields,
    }
}

#[tactic(auto, unfolding(crate::specs::FieldReading::number_rest))]
fn number_rest(name: Name, cursor: &mut Cursor<'_>) -> Result<AcnField, Stop>
    ensures { ReadsAs field_of (spec.number_rest name cursor.old) result cursor.new }
{
    cursor.expect(Kind::Mark, b"(")?;
    let n = signed(cursor)?;
    cursor.expect(Kind::Mark, b")")?;
    Ok(number_field(name, n))
}

#[tactic(auto, unfolding(crate::specs::FieldReading::inserted_rest))]
fn inserted_rest(alloc: Global, name: Name, cursor: &mut Cursor<'_>) -> Result<AcnField, Stop>
    ensures { ReadsAs field_of (spec.inserted_rest name cursor.old) result cursor.new }
{
    let kind = field_kind(alloc, cursor)?;
    let attributes = bracket(alloc, cursor)?;
    Ok(inserted_field(name, kind, attributes))
}

fn starts_plain(cursor: &Cursor<'_>) -> bool
    ensures { result ≡ spec.starts_plain cursor.now }
{
    cursor.sees(Kind::Mark, b"<") || cursor.sees(Kind::Mark, b"[")
}

// The first field and those behind it.
fn joined(alloc: Global, first: AcnField, more: Row<AcnField>) -> Result<Row<AcnField>, NoMemory>
    ensures { IfOk result (λ all. map field_of all ≡ field_of first ∷ map field_of more) }
{
    with_first(alloc, first, more)
}

#[cycle(fields)]
fn field(alloc: Global, depth: usize, cursor: &mut Cursor<'_>) -> Result<AcnField, Stop>
    ensures { ReadsAs field_of (spec.field_at depth cursor.old) result cursor.new }
{
    if depth == 0 {
        return Err(cursor.refuse());
    }
    field_in(alloc, depth - 1, cursor)
}

#[cycle(fields)]
#[tactic(auto, unfolding(crate::specs::FieldReading::field_in))]
fn field_in(alloc: Global, depth: usize, cursor: &mut Cursor<'_>) -> Result<AcnField, Stop>
    ensures { ReadsAs field_of (spec.field_in (spec.field_at depth) cursor.old) result cursor.new }
{
    let name = acn_identifier(alloc, cursor)?;
    field_rest(alloc, depth, name, cursor)
}

#[cycle(fields)]
#[tactic(auto, unfolding(crate::specs::FieldReading::field_rest))]
fn field_rest(
    alloc: Global,
    depth: usize,
    name: Name,
    cursor: &mut Cursor<'_>,
) -> Result<AcnField, Stop>
    ensures { ReadsAs field_of (spec.field_rest (spec.field_at depth) name cursor.old) result cursor.new }
{
    if cursor.sees(Kind::Mark, b"(") {
        return number_rest(name, cursor);
    }
    if starts_plain(cursor) {
        return plain_rest(alloc, depth, name, cursor);
    }
    inserted_rest(alloc, name, cursor)
}

#[cycle(fields)]
#[tactic(auto, unfolding(crate::specs::FieldReading::plain_rest))]
fn plain_rest(
    alloc: Global,
    depth: usize,
    name: Name,
    cursor: &mut Cursor<'_>,
) -> Result<AcnField, Stop>
    ensures { ReadsAs field_of (spec.plain_rest (spec.field_at depth) name cursor.old) result cursor.new }
{
    let arguments = arguments(alloc, cursor)?;
    let attributes = bracket(alloc, cursor)?;
    let fields = braces(alloc, depth, cursor)?;
    Ok(plain_field(name, arguments, attributes, fields))
}

/// Takes the fields between braces, where these are written.
#[cycle(fields)]
#[tactic(auto, unfolding(crate::specs::FieldReading::braces_at))]
pub fn braces(
    alloc: Global,
    depth: usize,
    cursor: &mut Cursor<'_>,
) -> Result<Option<Row<AcnField>>, Stop>
    ensures { ReadsAs braces_view (spec.braces_at (spec.field_at depth) cursor.old) result cursor.new }
{
    if cursor.eat(Kind::Mark, b"{") {
        Ok(Some(fields(alloc, depth, cursor)?))
    } else {
        Ok(None)
    }
}

#[cycle(fields)]
#[tactic(auto, unfolding(crate::specs::FieldReading::fields))]
fn fields(alloc: Global, depth: usize, cursor: &mut Cursor<'_>) -> Result<Row<AcnField>, Stop>
    ensures { ReadsAs (map field_of) (spec.fields (spec.field_at depth) cursor.old) result cursor.new }
{
    if cursor.eat(Kind::Mark, b"}") {
        return Ok(Row::new(alloc));
    }
    let first = field(alloc, depth, cursor)?;
    let more = more_fields(alloc, depth, cursor)?;
    cursor.expect(Kind::Mark, b"}")?;
    Ok(joined(alloc, first, more)?)
}

#[cycle(fields)]
fn more_fields(alloc: Global, depth: usize, cursor: &mut Cursor<'_>) -> Result<Row<AcnField>, Stop>
    ensures { ReadsAs (map field_of) (many has_comma_next (spec.next_field (spec.field_at depth)) cursor.old) result cursor.new }
{
    let mut fields = Row::new(alloc);
    for _ in 0..cursor.left() {
        if !has_comma(cursor) {
            return Ok(fields);
        }
        let field = next_field(alloc, depth, cursor)?;
        fields.push(field)?;
    }
    Ok(fields)
}

#[cycle(fields)]
#[tactic(auto, unfolding(crate::specs::FieldReading::next_field))]
fn next_field(alloc: Global, depth: usize, cursor: &mut Cursor<'_>) -> Result<AcnField, Stop>
    ensures { ReadsAs field_of (spec.next_field (spec.field_at depth) cursor.old) result cursor.new }
{
    cursor.expect(Kind::Mark, b",")?;
    field(alloc, depth, cursor)
}
