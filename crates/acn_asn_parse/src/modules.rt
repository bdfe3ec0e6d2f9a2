//! Assignments and modules. The depth is how many braces and parentheses there may be in one another.

ghost use Rattle.std.specs.Prelude.{◌≡◌};
ghost use Rattle.acn_cursor.specs.Steps.{Reads, many};
ghost use Rattle.acn_asn_parse.specs.Modules as spec;
ghost use Rattle.acn_asn_types.specs.Types as types;

use crate::headers::{ModuleHead, exports_at, head_at, imports_at};
use acn_asn_syntax::{AsnModule, AsnModules, AsnType, AsnValue, Assign, Exports, Import};
use acn_asn_types::{row_of, type_at, value};
use acn_cursor::{Cursor, Stop, identifier, reference};
use acn_lex::{Kind, is_identifier};
use acn_num::{Boxed, Name, Row};
use std::alloc::Global;

#[tactic(auto, unfolding(crate::specs::Modules::has_identifier))]
fn has_identifier(cursor: &Cursor<'_>) -> bool
    ensures { result ≡ spec.has_identifier cursor.now }
{
    match cursor.text_of(Kind::Word) {
        None => false,
        Some(text) => is_identifier(text),
    }
}

#[tactic(auto, unfolding(crate::specs::Modules::has_item))]
fn has_item(cursor: &Cursor<'_>) -> bool
    ensures { result ≡ spec.has_item cursor.now }
{
    !cursor.sees(Kind::Word, b"END")
}

#[tactic(auto, unfolding(crate::specs::Modules::type_is))]
fn type_is(name: Name, of: AsnType) -> Assign
    ensures { result ≡ spec.type_is name of }
{
    Assign::TypeIs(name, of)
}

#[tactic(auto, unfolding(crate::specs::Modules::value_is))]
fn value_is(name: Name, of: AsnType, value: AsnValue) -> Assign
    ensures { result ≡ spec.value_is name of value }
{
    Assign::ValueIs(name, of, value)
}

/// A type assignment (X.680 clause 16).
#[tactic(auto, unfolding(crate::specs::Modules::type_assign))]
fn type_assign(alloc: Global, depth: usize, cursor: &mut Cursor<'_>) -> Result<Assign, Stop>
    ensures { Reads (spec.type_assign (types.type_at depth) cursor.old) result cursor.new }
{
    let name = reference(alloc, cursor)?;
    cursor.expect(Kind::Mark, b"::=")?;
    let of = type_at(alloc, depth, cursor)?;
    Ok(type_is(name, of))
}

/// The value behind the type of a value assignment.
#[tactic(auto, unfolding(crate::specs::Modules::assigned))]
fn assigned(alloc: Global, cursor: &mut Cursor<'_>) -> Result<AsnValue, Stop>
    ensures { Reads (spec.assigned cursor.old) result cursor.new }
{
    cursor.expect(Kind::Mark, b"::=")?;
    value(alloc, cursor)
}

/// A value assignment (X.680 clause 16).
#[tactic(auto, unfolding(crate::specs::Modules::value_assign))]
fn value_assign(alloc: Global, depth: usize, cursor: &mut Cursor<'_>) -> Result<Assign, Stop>
    ensures { Reads (spec.value_assign (types.type_at depth) cursor.old) result cursor.new }
{
    let name = identifier(alloc, cursor)?;
    let of = Boxed::new(alloc, type_at(alloc, depth, cursor)?)?;
    let value = assigned(alloc, cursor)?;
    Ok(value_is(name, of.into_inner(), value))
}

#[tactic(auto, unfolding(crate::specs::Modules::assign_at))]
fn assign_at(alloc: Global, depth: usize, cursor: &mut Cursor<'_>) -> Result<Assign, Stop>
    ensures { Reads (spec.assign_at (types.type_at depth) cursor.old) result cursor.new }
{
    if has_identifier(cursor) {
        value_assign(alloc, depth, cursor)
    } else {
        type_assign(alloc, depth, cursor)
    }
}

fn item_rows(alloc: Global, depth: usize, cursor: &mut Cursor<'_>) -> Result<Row<Assign>, Stop>
    ensures { Reads (many spec.has_item (spec.assign_at (types.type_at depth)) cursor.old) result cursor.new }
{
    let mut row = Row::new(alloc);
    for _ in 0..cursor.left() {
        if !has_item(cursor) {
            return Ok(row);
        }
        let next = assign_at(alloc, depth, cursor)?;
        row.push(next)?;
    }
    Ok(row)
}

/// The assignments of a module, and its end.
#[tactic(auto, unfolding(crate::specs::Modules::items_at))]
fn items_at(alloc: Global, depth: usize, cursor: &mut Cursor<'_>) -> Result<Row<Assign>, Stop>
    ensures { Reads (spec.items_at (types.type_at depth) cursor.old) result cursor.new }
{
    let items = item_rows(alloc, depth, cursor)?;
    cursor.expect(Kind::Word, b"END")?;
    Ok(items)
}

#[tactic(auto, unfolding(crate::specs::Modules::module_of))]
fn module_of(
    head: ModuleHead,
    exports: Option<Exports>,
    imports: Option<Row<Import>>,
    items: Row<Assign>,
) -> AsnModule
    ensures { result ≡ spec.module_of head exports imports items }
{
    AsnModule {
        name: head.name,
        oid: head.oid,
        tags: head.tags,
        exports,
        imports,
        items,
    }
}

#[tactic(auto, unfolding(crate::specs::Modules::with_items))]
fn with_items(
    alloc: Global,
    depth: usize,
    cursor: &mut Cursor<'_>,
    head: ModuleHead,
    exports: Option<Exports>,
    imports: Option<Row<Import>>,
) -> Result<AsnModule, Stop>
    ensures { Reads (spec.with_items (types.type_at depth) head exports imports cursor.old) result cursor.new }
{
    let items = items_at(alloc, depth, cursor)?;
    Ok(module_of(head, exports, imports, items))
}

/// A module behind its `BEGIN`.
#[tactic(auto, unfolding(crate::specs::Modules::module_in))]
fn module_in(
    alloc: Global,
    depth: usize,
    cursor: &mut Cursor<'_>,
    head: ModuleHead,
) -> Result<AsnModule, Stop>
    ensures { Reads (spec.module_in (types.type_at depth) head cursor.old) result cursor.new }
{
    let exports = exports_at(alloc, cursor)?;
    let imports = imports_at(alloc, cursor)?;
    with_items(alloc, depth, cursor, head, exports, imports)
}

/// A module (X.680 clause 13).
#[tactic(auto, unfolding(crate::specs::Modules::module_at))]
fn module_at(alloc: Global, depth: usize, cursor: &mut Cursor<'_>) -> Result<AsnModule, Stop>
    ensures { Reads (spec.module_at (types.type_at depth) cursor.old) result cursor.new }
{
    let head = head_at(alloc, cursor)?;
    cursor.expect(Kind::Mark, b"::=")?;
    cursor.expect(Kind::Word, b"BEGIN")?;
    module_in(alloc, depth, cursor, head)
}

#[tactic(auto, unfolding(crate::specs::Modules::more_modules))]
fn more_modules(
    alloc: Global,
    depth: usize,
    cursor: &mut Cursor<'_>,
    first: AsnModule,
) -> Result<Row<AsnModule>, Stop>
    ensures { Reads (spec.more_modules (types.type_at depth) first cursor.old) result cursor.new }
{
    let mut row = row_of(alloc, first)?;
    for _ in 0..cursor.left() {
        if cursor.left() == 0 {
            return Ok(row);
        }
        let next = module_at(alloc, depth, cursor)?;
        row.push(next)?;
    }
    Ok(row)
}

/// The modules of a file.
#[tactic(auto, unfolding(crate::specs::Modules::modules_in))]
pub fn modules(alloc: Global, depth: usize, cursor: &mut Cursor<'_>) -> Result<AsnModules, Stop>
    ensures { Reads (spec.modules_in (types.type_at depth) cursor.old) result cursor.new }
{
    let first = module_at(alloc, depth, cursor)?;
    let modules = more_modules(alloc, depth, cursor, first)?;
    Ok(AsnModules { modules })
}
