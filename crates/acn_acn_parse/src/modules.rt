//! Parameters, entries and modules.

ghost use Rattle.std.specs.Prelude.{◌≡◌, ◌^◌, ◌<◌, map, ◌∷◌, length, true, IfOk};
ghost use Rattle.acn_cursor.specs.Steps.{Reads, many, ReadsFreely};
ghost use Rattle.acn_lex.specs.Lexeme.{lexemes};
ghost use Rattle.acn_acn_syntax.specs.View.{entry_of, module_of, modules_of};
ghost use Rattle.acn_acn_parse.specs.AttributeReading.{has_comma as has_comma_next};
ghost use Rattle.acn_acn_parse.specs.FieldReading as spec;
ghost use Rattle.acn_acn_parse.specs.FieldReading.{ReadsAs};

use crate::attributes::{bracket, has_comma, with_first};
use crate::fields::braces;
use crate::words::acn_identifier;
use acn_acn_syntax::{AcnEntry, AcnModule, Param, ParamKind};
use acn_cursor::{Cursor, Stop, reference};
use acn_lex::Kind;
use acn_num::{Boxed, NoMemory, Row};
use std::alloc::Global;

#[tactic(auto, unfolding(crate::specs::FieldReading::parameter_kind))]
fn parameter_kind(alloc: Global, cursor: &mut Cursor<'_>) -> Result<ParamKind, Stop>
    ensures { Reads (spec.parameter_kind cursor.old) result cursor.new }
{
    if cursor.eat(Kind::Word, b"INTEGER") {
        return Ok(ParamKind::Integer);
    }
    if cursor.eat(Kind::Word, b"BOOLEAN") {
        return Ok(ParamKind::Boolean);
    }
    Ok(ParamKind::Ref(reference(alloc, cursor)?))
}

#[tactic(auto, unfolding(crate::specs::FieldReading::one_parameter))]
fn one_parameter(alloc: Global, cursor: &mut Cursor<'_>) -> Result<Param, Stop>
    ensures { Reads (spec.one_parameter cursor.old) result cursor.new }
{
    let kind = parameter_kind(alloc, cursor)?;
    cursor.expect(Kind::Mark, b":")?;
    let name = acn_identifier(alloc, cursor)?;
    Ok(Param { kind, name })
}

#[tactic(auto, unfolding(crate::specs::FieldReading::next_parameter))]
fn next_parameter(alloc: Global, cursor: &mut Cursor<'_>) -> Result<Param, Stop>
    ensures { Reads (spec.next_parameter cursor.old) result cursor.new }
{
    cursor.expect(Kind::Mark, b",")?;
    one_parameter(alloc, cursor)
}

fn more_parameters(alloc: Global, cursor: &mut Cursor<'_>) -> Result<Row<Param>, Stop>
    ensures { Reads (many has_comma_next spec.next_parameter cursor.old) result cursor.new }
{
    let mut parameters = Row::new(alloc);
    for _ in 0..cursor.left() {
        if !has_comma(cursor) {
            return Ok(parameters);
        }
        let parameter = next_parameter(alloc, cursor)?;
        parameters.push(parameter)?;
    }
    Ok(parameters)
}

// Takes parameters, at least one, and the mark that closes them.
fn some_parameters(alloc: Global, cursor: &mut Cursor<'_>) -> Result<Row<Param>, Stop>
    ensures { Reads (spec.parameters_if true cursor.old) result cursor.new }
{
    let first = Boxed::new(alloc, one_parameter(alloc, cursor)?)?;
    let more = more_parameters(alloc, cursor)?;
    cursor.expect(Kind::Mark, b">")?;
    Ok(with_first(alloc, first.into_inner(), more)?)
}

#[tactic(auto, unfolding(crate::specs::FieldReading::parameters))]
fn parameters(alloc: Global, cursor: &mut Cursor<'_>) -> Result<Row<Param>, Stop>
    ensures { Reads (spec.parameters cursor.old) result cursor.new }
{
    if cursor.eat(Kind::Mark, b"<") {
        some_parameters(alloc, cursor)
    } else {
        Ok(Row::new(alloc))
    }
}

#[tactic(auto, unfolding(crate::specs::FieldReading::entry_at))]
fn entry(alloc: Global, depth: usize, cursor: &mut Cursor<'_>) -> Result<AcnEntry, Stop>
    ensures { ReadsAs entry_of (spec.entry_at depth cursor.old) result cursor.new }
{
    let name = reference(alloc, cursor)?;
    let parameters = parameters(alloc, cursor)?;
    let attributes = bracket(alloc, cursor)?;
    let fields = braces(alloc, depth, cursor)?;
    Ok(AcnEntry {
        name,
        parameters,
        attributes,
        fields,
    })
}

fn has_entry(cursor: &Cursor<'_>) -> bool
    ensures { result ≡ spec.has_entry cursor.now }
{
    !cursor.sees(Kind::Word, b"END")
}

fn entries(alloc: Global, depth: usize, cursor: &mut Cursor<'_>) -> Result<Row<AcnEntry>, Stop>
    ensures { ReadsAs (map entry_of) (many spec.has_entry (spec.entry_at depth) cursor.old) result cursor.new }
{
    let mut entries = Row::new(alloc);
    for _ in 0..cursor.left() {
        if !has_entry(cursor) {
            return Ok(entries);
        }
        let entry = entry(alloc, depth, cursor)?;
        entries.push(entry)?;
    }
    Ok(entries)
}

#[tactic(auto, unfolding(crate::specs::FieldReading::heading))]
fn heading(cursor: &mut Cursor<'_>) -> Result<(), Stop>
    ensures { ReadsFreely (spec.heading cursor.old) result cursor.new }
{
    cursor.expect(Kind::Word, b"DEFINITIONS")?;
    cursor.expect(Kind::Mark, b"::=")?;
    cursor.expect(Kind::Word, b"BEGIN")
}

#[tactic(auto, unfolding(crate::specs::FieldReading::module_at))]
fn module_at(alloc: Global, depth: usize, cursor: &mut Cursor<'_>) -> Result<AcnModule, Stop>
    ensures { ReadsAs module_of (spec.module_at depth cursor.old) result cursor.new }
{
    let name = reference(alloc, cursor)?;
    heading(cursor)?;
    let entries = entries(alloc, depth, cursor)?;
    cursor.expect(Kind::Word, b"END")?;
    Ok(AcnModule { name, entries })
}

fn more_modules(
    alloc: Global,
    depth: usize,
    cursor: &mut Cursor<'_>,
) -> Result<Row<AcnModule>, Stop>
    ensures { ReadsAs (map module_of) (many spec.has_more (spec.module_at depth) cursor.old) result cursor.new }
{
    let mut modules = Row::new(alloc);
    for _ in 0..cursor.left() {
        if cursor.left() == 0 {
            return Ok(modules);
        }
        let read = module_at(alloc, depth, cursor)?;
        modules.push(read)?;
    }
    Ok(modules)
}

// The first module and those behind it.
fn joined(alloc: Global, first: AcnModule, more: Row<AcnModule>) -> Result<Row<AcnModule>, NoMemory>
    ensures { IfOk result (λ all. map module_of all ≡ module_of first ∷ map module_of more) }
{
    with_first(alloc, first, more)
}

/// Takes the modules of a file.
#[tactic(auto, unfolding(crate::specs::FieldReading::modules_at))]
pub fn modules(alloc: Global, depth: usize, cursor: &mut Cursor<'_>) -> Result<Row<AcnModule>, Stop>
    ensures { ReadsAs (map module_of) (spec.modules_at depth cursor.old) result cursor.new }
{
    let first = module_at(alloc, depth, cursor)?;
    let more = more_modules(alloc, depth, cursor)?;
    Ok(joined(alloc, first, more)?)
}
