//! Types. The depth is how many braces and parentheses there may still be in one another.

ghost use Rattle.std.specs.Prelude.{◌≡◌};
ghost use Rattle.acn_cursor.specs.Steps.{Reads, many};
ghost use Rattle.acn_asn_types.specs.Lists.{listed, more_of, next};
ghost use Rattle.acn_asn_types.specs.Sets.{set_at};
ghost use Rattle.acn_asn_types.specs.Types as spec;

use crate::bases::{has_comma, rest_at, simple_base, tag_at};
use crate::heads::{ListHead, Step, row_of, typed, wrap};
use crate::sets::set;
use acn_asn_syntax::{Alternative, AsnBase, AsnType, Component, Constraint, Rest, Tag};
use acn_cursor::{Cursor, Stop, identifier};
use acn_lex::Kind;
use acn_num::{Boxed, Name, Row};
use std::alloc::Global;

#[tactic(auto, unfolding(crate::specs::Types::has_paren))]
fn has_paren(cursor: &Cursor<'_>) -> bool
    ensures { result ≡ spec.has_paren cursor.now }
{
    cursor.sees(Kind::Mark, b"(")
}

#[tactic(auto, unfolding(crate::specs::Types::component_of))]
fn component_of(name: Name, of: AsnType, rest: Rest) -> Component
    ensures { result ≡ spec.component_of name of rest }
{
    Component { name, of, rest }
}

#[tactic(auto, unfolding(crate::specs::Types::alternative_of))]
fn alternative_of(name: Name, of: AsnType) -> Alternative
    ensures { result ≡ spec.alternative_of name of }
{
    Alternative { name, of }
}

/// A set and its closing parenthesis.
#[tactic(auto, unfolding(crate::specs::Types::set_constraint))]
fn set_constraint(alloc: Global, depth: usize, cursor: &mut Cursor<'_>) -> Result<Constraint, Stop>
    ensures { Reads (spec.set_constraint (set_at depth) (spec.type_at depth) cursor.old) result cursor.new }
{
    let set = Boxed::new(alloc, set(alloc, depth, cursor)?)?;
    cursor.expect(Kind::Mark, b")")?;
    Ok(Constraint::Set(set.into_inner()))
}

/// The sizes of a list.
#[tactic(auto, unfolding(crate::specs::Types::size_at))]
fn size_at(alloc: Global, depth: usize, cursor: &mut Cursor<'_>) -> Result<Option<Constraint>, Stop>
    ensures { Reads (spec.size_at (set_at depth) (spec.type_at depth) cursor.old) result cursor.new }
{
    cursor.expect(Kind::Mark, b"(")?;
    let set = Boxed::new(alloc, set(alloc, depth, cursor)?)?;
    cursor.expect(Kind::Mark, b")")?;
    Ok(Some(Constraint::Size(set.into_inner())))
}

/// A type that has at most so many braces and parentheses in one another.
#[cycle(types)]
pub fn type_at(alloc: Global, depth: usize, cursor: &mut Cursor<'_>) -> Result<AsnType, Stop>
    ensures { Reads (spec.type_at depth cursor.old) result cursor.new }
{
    if depth == 0 {
        return Err(cursor.refuse());
    }
    type_in(alloc, depth - 1, cursor)
}

#[cycle(types)]
#[tactic(auto, unfolding(crate::specs::Types::type_in))]
fn type_in(alloc: Global, depth: usize, cursor: &mut Cursor<'_>) -> Result<AsnType, Stop>
    ensures { Reads (spec.type_in (set_at depth) (spec.type_at depth) cursor.old) result cursor.new }
{
    let mut heads = Row::new(alloc);
    for _ in 0..cursor.left() {
        match step_at(alloc, depth, cursor)? {
            Step::Inner(inner) => return Ok(wrap(alloc, heads, inner)?),
            Step::Head(head) => heads.push(head)?,
        }
    }
    Err(cursor.refuse())
}

#[cycle(types)]
#[tactic(auto, unfolding(crate::specs::Types::step_at))]
fn step_at(alloc: Global, depth: usize, cursor: &mut Cursor<'_>) -> Result<Step, Stop>
    ensures { Reads (spec.step_at (set_at depth) (spec.type_at depth) cursor.old) result cursor.new }
{
    let tag = tag_at(cursor)?;
    if cursor.eat(Kind::Word, b"SEQUENCE") {
        sequence_at(alloc, depth, cursor, tag)
    } else {
        other_at(alloc, depth, cursor, tag)
    }
}

#[cycle(types)]
#[tactic(auto, unfolding(crate::specs::Types::sequence_at))]
fn sequence_at(
    alloc: Global,
    depth: usize,
    cursor: &mut Cursor<'_>,
    tag: Option<Tag>,
) -> Result<Step, Stop>
    ensures { Reads (spec.sequence_at (set_at depth) (spec.type_at depth) tag cursor.old) result cursor.new }
{
    if cursor.eat(Kind::Mark, b"{") {
        let base = AsnBase::Sequence(components_at(alloc, depth, cursor)?);
        finish(alloc, depth, cursor, tag, Boxed::new(alloc, base)?)
    } else {
        list_at(alloc, depth, cursor, tag)
    }
}

#[cycle(types)]
#[tactic(auto, unfolding(crate::specs::Types::other_at))]
fn other_at(
    alloc: Global,
    depth: usize,
    cursor: &mut Cursor<'_>,
    tag: Option<Tag>,
) -> Result<Step, Stop>
    ensures { Reads (spec.other_at (set_at depth) (spec.type_at depth) tag cursor.old) result cursor.new }
{
    let base = Boxed::new(alloc, base_at(alloc, depth, cursor)?)?;
    finish(alloc, depth, cursor, tag, base)
}

/// The constraints behind a type.
#[cycle(types)]
#[tactic(auto, unfolding(crate::specs::Types::finish))]
fn finish(
    alloc: Global,
    depth: usize,
    cursor: &mut Cursor<'_>,
    tag: Option<Tag>,
    base: Boxed<AsnBase>,
) -> Result<Step, Stop>
    ensures { Reads (spec.finish (set_at depth) (spec.type_at depth) tag base cursor.old) result cursor.new }
{
    let constraints = constraints(alloc, depth, cursor)?;
    Ok(Step::Inner(typed(tag, base.into_inner(), constraints)))
}

#[cycle(types)]
#[tactic(auto, unfolding(crate::specs::Types::base_at))]
fn base_at(alloc: Global, depth: usize, cursor: &mut Cursor<'_>) -> Result<AsnBase, Stop>
    ensures { Reads (spec.base_at (set_at depth) (spec.type_at depth) cursor.old) result cursor.new }
{
    if cursor.eat(Kind::Word, b"CHOICE") {
        choice_at(alloc, depth, cursor)
    } else {
        simple_base(alloc, cursor)
    }
}

#[cycle(types)]
#[tactic(auto, unfolding(crate::specs::Types::choice_at))]
fn choice_at(alloc: Global, depth: usize, cursor: &mut Cursor<'_>) -> Result<AsnBase, Stop>
    ensures { Reads (spec.choice_at (set_at depth) (spec.type_at depth) cursor.old) result cursor.new }
{
    cursor.expect(Kind::Mark, b"{")?;
    let alternatives = alternatives(alloc, depth, cursor)?;
    cursor.expect(Kind::Mark, b"}")?;
    Ok(AsnBase::Choice(alternatives))
}

#[cycle(types)]
#[tactic(auto, unfolding(crate::specs::Lists::listed))]
fn alternatives(
    alloc: Global,
    depth: usize,
    cursor: &mut Cursor<'_>,
) -> Result<Row<Alternative>, Stop>
    ensures { Reads (listed (spec.alternative (set_at depth) (spec.type_at depth)) cursor.old) result cursor.new }
{
    let first = alternative(alloc, depth, cursor)?;
    more_alternatives(alloc, depth, cursor, first)
}

#[cycle(types)]
#[tactic(auto, unfolding(crate::specs::Lists::more_of))]
fn more_alternatives(
    alloc: Global,
    depth: usize,
    cursor: &mut Cursor<'_>,
    first: Alternative,
) -> Result<Row<Alternative>, Stop>
    ensures { Reads (more_of (spec.alternative (set_at depth) (spec.type_at depth)) first cursor.old) result cursor.new }
{
    let mut row = row_of(alloc, first)?;
    for _ in 0..cursor.left() {
        if !has_comma(cursor) {
            return Ok(row);
        }
        let next = next_alternative(alloc, depth, cursor)?;
        row.push(next)?;
    }
    Ok(row)
}

#[cycle(types)]
#[tactic(auto, unfolding(crate::specs::Lists::next))]
fn next_alternative(
    alloc: Global,
    depth: usize,
    cursor: &mut Cursor<'_>,
) -> Result<Alternative, Stop>
    ensures { Reads (next (spec.alternative (set_at depth) (spec.type_at depth)) cursor.old) result cursor.new }
{
    cursor.expect(Kind::Mark, b",")?;
    alternative(alloc, depth, cursor)
}

#[cycle(types)]
#[tactic(auto, unfolding(crate::specs::Types::alternative))]
fn alternative(alloc: Global, depth: usize, cursor: &mut Cursor<'_>) -> Result<Alternative, Stop>
    ensures { Reads (spec.alternative (set_at depth) (spec.type_at depth) cursor.old) result cursor.new }
{
    let name = identifier(alloc, cursor)?;
    let of = type_at(alloc, depth, cursor)?;
    Ok(alternative_of(name, of))
}

/// The components behind an opening brace, and the closing one.
#[cycle(types)]
#[tactic(auto, unfolding(crate::specs::Types::components_at))]
fn components_at(
    alloc: Global,
    depth: usize,
    cursor: &mut Cursor<'_>,
) -> Result<Row<Component>, Stop>
    ensures { Reads (spec.components_at (set_at depth) (spec.type_at depth) cursor.old) result cursor.new }
{
    if cursor.eat(Kind::Mark, b"}") {
        return Ok(Row::new(alloc));
    }
    let found = components(alloc, depth, cursor)?;
    cursor.expect(Kind::Mark, b"}")?;
    Ok(found)
}

#[cycle(types)]
#[tactic(auto, unfolding(crate::specs::Lists::listed))]
fn components(alloc: Global, depth: usize, cursor: &mut Cursor<'_>) -> Result<Row<Component>, Stop>
    ensures { Reads (listed (spec.component (set_at depth) (spec.type_at depth)) cursor.old) result cursor.new }
{
    let first = component(alloc, depth, cursor)?;
    more_components(alloc, depth, cursor, first)
}

#[cycle(types)]
#[tactic(auto, unfolding(crate::specs::Lists::more_of))]
fn more_components(
    alloc: Global,
    depth: usize,
    cursor: &mut Cursor<'_>,
    first: Component,
) -> Result<Row<Component>, Stop>
    ensures { Reads (more_of (spec.component (set_at depth) (spec.type_at depth)) first cursor.old) result cursor.new }
{
    let mut row = row_of(alloc, first)?;
    for _ in 0..cursor.left() {
        if !has_comma(cursor) {
            return Ok(row);
        }
        let next = next_component(alloc, depth, cursor)?;
        row.push(next)?;
    }
    Ok(row)
}

#[cycle(types)]
#[tactic(auto, unfolding(crate::specs::Lists::next))]
fn next_component(alloc: Global, depth: usize, cursor: &mut Cursor<'_>) -> Result<Component, Stop>
    ensures { Reads (next (spec.component (set_at depth) (spec.type_at depth)) cursor.old) result cursor.new }
{
    cursor.expect(Kind::Mark, b",")?;
    component(alloc, depth, cursor)
}

#[cycle(types)]
#[tactic(auto, unfolding(crate::specs::Types::component))]
fn component(alloc: Global, depth: usize, cursor: &mut Cursor<'_>) -> Result<Component, Stop>
    ensures { Reads (spec.component (set_at depth) (spec.type_at depth) cursor.old) result cursor.new }
{
    let name = identifier(alloc, cursor)?;
    let of = Boxed::new(alloc, type_at(alloc, depth, cursor)?)?;
    let rest = rest_at(alloc, cursor)?;
    Ok(component_of(name, of.into_inner(), rest))
}

/// The head of a list type, behind SEQUENCE.
#[cycle(types)]
#[tactic(auto, unfolding(crate::specs::Types::list_at))]
fn list_at(
    alloc: Global,
    depth: usize,
    cursor: &mut Cursor<'_>,
    tag: Option<Tag>,
) -> Result<Step, Stop>
    ensures { Reads (spec.list_at (set_at depth) (spec.type_at depth) tag cursor.old) result cursor.new }
{
    let constraint = Boxed::new(alloc, of_constraint(alloc, depth, cursor)?)?;
    cursor.expect(Kind::Word, b"OF")?;
    Ok(Step::Head(ListHead { tag, constraint }))
}

#[cycle(types)]
#[tactic(auto, unfolding(crate::specs::Types::of_constraint))]
fn of_constraint(
    alloc: Global,
    depth: usize,
    cursor: &mut Cursor<'_>,
) -> Result<Option<Constraint>, Stop>
    ensures { Reads (spec.of_constraint (set_at depth) (spec.type_at depth) cursor.old) result cursor.new }
{
    if cursor.eat(Kind::Word, b"SIZE") {
        return size_at(alloc, depth, cursor);
    }
    if has_paren(cursor) {
        some_constraint(alloc, depth, cursor)
    } else {
        Ok(None)
    }
}

#[cycle(types)]
#[tactic(auto, unfolding(crate::specs::Types::some_constraint))]
fn some_constraint(
    alloc: Global,
    depth: usize,
    cursor: &mut Cursor<'_>,
) -> Result<Option<Constraint>, Stop>
    ensures { Reads (spec.some_constraint (set_at depth) (spec.type_at depth) cursor.old) result cursor.new }
{
    Ok(Some(constraint_at(alloc, depth, cursor)?))
}

#[cycle(types)]
fn constraints(
    alloc: Global,
    depth: usize,
    cursor: &mut Cursor<'_>,
) -> Result<Row<Constraint>, Stop>
    ensures { Reads (many spec.has_paren (spec.constraint_at (set_at depth) (spec.type_at depth)) cursor.old) result cursor.new }
{
    let mut row = Row::new(alloc);
    for _ in 0..cursor.left() {
        if !has_paren(cursor) {
            return Ok(row);
        }
        let next = constraint_at(alloc, depth, cursor)?;
        row.push(next)?;
    }
    Ok(row)
}

#[cycle(types)]
#[tactic(auto, unfolding(crate::specs::Types::constraint_at))]
fn constraint_at(alloc: Global, depth: usize, cursor: &mut Cursor<'_>) -> Result<Constraint, Stop>
    ensures { Reads (spec.constraint_at (set_at depth) (spec.type_at depth) cursor.old) result cursor.new }
{
    cursor.expect(Kind::Mark, b"(")?;
    if cursor.eat(Kind::Word, b"CONTAINING") {
        containing_at(alloc, depth, cursor)
    } else {
        set_constraint(alloc, depth, cursor)
    }
}

/// A contained type and its closing parenthesis.
#[cycle(types)]
#[tactic(auto, unfolding(crate::specs::Types::containing_at))]
fn containing_at(alloc: Global, depth: usize, cursor: &mut Cursor<'_>) -> Result<Constraint, Stop>
    ensures { Reads (spec.containing_at (set_at depth) (spec.type_at depth) cursor.old) result cursor.new }
{
    let of = Boxed::new(alloc, type_at(alloc, depth, cursor)?)?;
    cursor.expect(Kind::Mark, b")")?;
    Ok(Constraint::Containing(of))
}
