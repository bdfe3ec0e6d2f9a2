//! Tags, named numbers, items, and types without types in them.

ghost use Rattle.acn_cursor.specs.Steps.{Reads, ReadsFreely};
ghost use Rattle.std.specs.Prelude.{◌≡◌};
ghost use Rattle.acn_asn_types.specs.Lists.{has_comma as comes_comma, listed, more_of, next};
ghost use Rattle.acn_asn_types.specs.Bases as spec;

use crate::heads::row_of;
use crate::values::{signed, value};
use acn_asn_syntax::{AsnBase, Item, Named, Rest, Tag, TagClass, TagMode};
use acn_cursor::{Cursor, Stop, identifier, reference};
use acn_lex::Kind;
use acn_num::Row;
use std::alloc::Global;

/// Whether a comma comes next.
#[tactic(auto, unfolding(crate::specs::Lists::has_comma))]
pub fn has_comma(cursor: &Cursor<'_>) -> bool
    ensures { result ≡ comes_comma cursor.now }
{
    cursor.sees(Kind::Mark, b",")
}

#[tactic(auto, unfolding(crate::specs::Bases::class_at))]
fn class_at(cursor: &mut Cursor<'_>) -> Result<Option<TagClass>, Stop>
    ensures { ReadsFreely (spec.class_at cursor.old) result cursor.new }
{
    if cursor.eat(Kind::Word, b"UNIVERSAL") {
        return Ok(Some(TagClass::Universal));
    }
    if cursor.eat(Kind::Word, b"APPLICATION") {
        return Ok(Some(TagClass::Application));
    }
    if cursor.eat(Kind::Word, b"PRIVATE") {
        return Ok(Some(TagClass::Private));
    }
    Ok(None)
}

#[tactic(auto, unfolding(crate::specs::Bases::mode_at))]
fn mode_at(cursor: &mut Cursor<'_>) -> Result<Option<TagMode>, Stop>
    ensures { ReadsFreely (spec.mode_at cursor.old) result cursor.new }
{
    if cursor.eat(Kind::Word, b"IMPLICIT") {
        return Ok(Some(TagMode::Implicit));
    }
    if cursor.eat(Kind::Word, b"EXPLICIT") {
        return Ok(Some(TagMode::Explicit));
    }
    Ok(None)
}

#[tactic(auto, unfolding(crate::specs::Bases::tag_in))]
fn tag_in(cursor: &mut Cursor<'_>) -> Result<Tag, Stop>
    ensures { ReadsFreely (spec.tag_in cursor.old) result cursor.new }
{
    let class = class_at(cursor)?;
    let number = cursor.number()?;
    cursor.expect(Kind::Mark, b"]")?;
    let mode = mode_at(cursor)?;
    Ok(Tag {
        class,
        number,
        mode,
    })
}

/// A tag, if one comes next.
#[tactic(auto, unfolding(crate::specs::Bases::tag_at))]
pub fn tag_at(cursor: &mut Cursor<'_>) -> Result<Option<Tag>, Stop>
    ensures { ReadsFreely (spec.tag_at cursor.old) result cursor.new }
{
    if !cursor.eat(Kind::Mark, b"[") {
        return Ok(None);
    }
    Ok(Some(tag_in(cursor)?))
}

#[tactic(auto, unfolding(crate::specs::Bases::grouped))]
fn grouped(cursor: &mut Cursor<'_>) -> Result<(bool, u64), Stop>
    ensures { ReadsFreely (spec.grouped cursor.old) result cursor.new }
{
    let n = signed(cursor)?;
    cursor.expect(Kind::Mark, b")")?;
    Ok(n)
}

#[tactic(auto, unfolding(crate::specs::Bases::named))]
fn named(alloc: Global, cursor: &mut Cursor<'_>) -> Result<Named, Stop>
    ensures { Reads (spec.named cursor.old) result cursor.new }
{
    let name = identifier(alloc, cursor)?;
    cursor.expect(Kind::Mark, b"(")?;
    let (negative, number) = grouped(cursor)?;
    Ok(Named {
        name,
        negative,
        number,
    })
}

#[tactic(auto, unfolding(crate::specs::Lists::next))]
fn next_named(alloc: Global, cursor: &mut Cursor<'_>) -> Result<Named, Stop>
    ensures { Reads (next spec.named cursor.old) result cursor.new }
{
    cursor.expect(Kind::Mark, b",")?;
    named(alloc, cursor)
}

#[tactic(auto, unfolding(crate::specs::Lists::more_of))]
fn more_named(alloc: Global, cursor: &mut Cursor<'_>, first: Named) -> Result<Row<Named>, Stop>
    ensures { Reads (more_of spec.named first cursor.old) result cursor.new }
{
    let mut row = row_of(alloc, first)?;
    for _ in 0..cursor.left() {
        if !has_comma(cursor) {
            return Ok(row);
        }
        let next = next_named(alloc, cursor)?;
        row.push(next)?;
    }
    Ok(row)
}

#[tactic(auto, unfolding(crate::specs::Lists::listed))]
fn named_numbers(alloc: Global, cursor: &mut Cursor<'_>) -> Result<Row<Named>, Stop>
    ensures { Reads (listed spec.named cursor.old) result cursor.new }
{
    let first = named(alloc, cursor)?;
    more_named(alloc, cursor, first)
}

#[tactic(auto, unfolding(crate::specs::Bases::item_number))]
fn item_number(cursor: &mut Cursor<'_>) -> Result<Option<(bool, u64)>, Stop>
    ensures { ReadsFreely (spec.item_number cursor.old) result cursor.new }
{
    if !cursor.eat(Kind::Mark, b"(") {
        return Ok(None);
    }
    Ok(Some(grouped(cursor)?))
}

#[tactic(auto, unfolding(crate::specs::Bases::item))]
fn item(alloc: Global, cursor: &mut Cursor<'_>) -> Result<Item, Stop>
    ensures { Reads (spec.item cursor.old) result cursor.new }
{
    let name = identifier(alloc, cursor)?;
    let number = item_number(cursor)?;
    Ok(Item { name, number })
}

#[tactic(auto, unfolding(crate::specs::Lists::next))]
fn next_item(alloc: Global, cursor: &mut Cursor<'_>) -> Result<Item, Stop>
    ensures { Reads (next spec.item cursor.old) result cursor.new }
{
    cursor.expect(Kind::Mark, b",")?;
    item(alloc, cursor)
}

#[tactic(auto, unfolding(crate::specs::Lists::more_of))]
fn more_items(alloc: Global, cursor: &mut Cursor<'_>, first: Item) -> Result<Row<Item>, Stop>
    ensures { Reads (more_of spec.item first cursor.old) result cursor.new }
{
    let mut row = row_of(alloc, first)?;
    for _ in 0..cursor.left() {
        if !has_comma(cursor) {
            return Ok(row);
        }
        let next = next_item(alloc, cursor)?;
        row.push(next)?;
    }
    Ok(row)
}

#[tactic(auto, unfolding(crate::specs::Lists::listed))]
fn items(alloc: Global, cursor: &mut Cursor<'_>) -> Result<Row<Item>, Stop>
    ensures { Reads (listed spec.item cursor.old) result cursor.new }
{
    let first = item(alloc, cursor)?;
    more_items(alloc, cursor, first)
}

/// What stands behind the type of a component.
#[tactic(auto, unfolding(crate::specs::Bases::rest_at))]
pub fn rest_at(alloc: Global, cursor: &mut Cursor<'_>) -> Result<Rest, Stop>
    ensures { Reads (spec.rest_at cursor.old) result cursor.new }
{
    if cursor.eat(Kind::Word, b"OPTIONAL") {
        return Ok(Rest::Optional);
    }
    if cursor.eat(Kind::Word, b"DEFAULT") {
        return Ok(Rest::Default(value(alloc, cursor)?));
    }
    Ok(Rest::Required)
}

#[tactic(auto, unfolding(crate::specs::Bases::integer_at))]
fn integer_at(alloc: Global, cursor: &mut Cursor<'_>) -> Result<AsnBase, Stop>
    ensures { Reads (spec.integer_at cursor.old) result cursor.new }
{
    if !cursor.eat(Kind::Mark, b"{") {
        return Ok(AsnBase::Integer(None));
    }
    let named = named_numbers(alloc, cursor)?;
    cursor.expect(Kind::Mark, b"}")?;
    Ok(AsnBase::Integer(Some(named)))
}

#[tactic(auto, unfolding(crate::specs::Bases::enumerated_at))]
fn enumerated_at(alloc: Global, cursor: &mut Cursor<'_>) -> Result<AsnBase, Stop>
    ensures { Reads (spec.enumerated_at cursor.old) result cursor.new }
{
    cursor.expect(Kind::Mark, b"{")?;
    let items = items(alloc, cursor)?;
    cursor.expect(Kind::Mark, b"}")?;
    Ok(AsnBase::Enumerated(items))
}

#[tactic(auto, unfolding(crate::specs::Bases::reference_at))]
fn reference_at(alloc: Global, cursor: &mut Cursor<'_>) -> Result<AsnBase, Stop>
    ensures { Reads (spec.reference_at cursor.old) result cursor.new }
{
    let first = reference(alloc, cursor)?;
    if !cursor.eat(Kind::Mark, b".") {
        return Ok(AsnBase::Ref(None, first));
    }
    let name = reference(alloc, cursor)?;
    Ok(AsnBase::Ref(Some(first), name))
}

#[tactic(auto, unfolding(crate::specs::Bases::number_base))]
fn number_base(alloc: Global, cursor: &mut Cursor<'_>) -> Result<AsnBase, Stop>
    ensures { Reads (spec.number_base cursor.old) result cursor.new }
{
    if cursor.eat(Kind::Word, b"INTEGER") {
        return integer_at(alloc, cursor);
    }
    if cursor.eat(Kind::Word, b"ENUMERATED") {
        return enumerated_at(alloc, cursor);
    }
    reference_at(alloc, cursor)
}

#[tactic(auto, unfolding(crate::specs::Bases::string_base))]
fn string_base(alloc: Global, cursor: &mut Cursor<'_>) -> Result<AsnBase, Stop>
    ensures { Reads (spec.string_base cursor.old) result cursor.new }
{
    if cursor.eat(Kind::Word, b"OCTET") {
        cursor.expect(Kind::Word, b"STRING")?;
        return Ok(AsnBase::OctetString);
    }
    if cursor.eat(Kind::Word, b"BIT") {
        cursor.expect(Kind::Word, b"STRING")?;
        return Ok(AsnBase::BitString);
    }
    number_base(alloc, cursor)
}

/// A type without types in it.
#[tactic(auto, unfolding(crate::specs::Bases::simple_base))]
pub fn simple_base(alloc: Global, cursor: &mut Cursor<'_>) -> Result<AsnBase, Stop>
    ensures { Reads (spec.simple_base cursor.old) result cursor.new }
{
    if cursor.eat(Kind::Word, b"BOOLEAN") {
        return Ok(AsnBase::Boolean);
    }
    if cursor.eat(Kind::Word, b"NULL") {
        return Ok(AsnBase::Null);
    }
    if cursor.eat(Kind::Word, b"IA5String") {
        return Ok(AsnBase::Ia5String);
    }
    string_base(alloc, cursor)
}
