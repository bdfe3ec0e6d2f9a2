//! Values.

ghost use Rattle.std.specs.Prelude.{◌≡◌, IfErr};
ghost use Rattle.acn_cursor.specs.Steps.{Reads, ReadsFreely};
ghost use Rattle.acn_asn_types.specs.Values as spec;

use acn_asn_syntax::AsnValue;
use acn_cursor::{Cursor, Stop, identifier};
use acn_lex::Kind;
use acn_num::Name;
use std::alloc::Global;

/// A number, and whether a minus stands before it.
#[tactic(auto, unfolding(crate::specs::Values::signed))]
pub fn signed(cursor: &mut Cursor<'_>) -> Result<(bool, u64), Stop>
    ensures { ReadsFreely (spec.signed cursor.old) result cursor.new }
{
    let negative = cursor.eat(Kind::Mark, b"-");
    let n = cursor.number()?;
    Ok((negative, n))
}

#[tactic(auto, unfolding(crate::specs::Values::signed_value))]
fn signed_value(cursor: &mut Cursor<'_>) -> Result<AsnValue, Stop>
    ensures { ReadsFreely (spec.signed_value cursor.old) result cursor.new }
{
    let (negative, n) = signed(cursor)?;
    Ok(AsnValue::Number(negative, n))
}

#[tactic(auto, unfolding(crate::specs::Values::named_value))]
fn named_value(alloc: Global, cursor: &mut Cursor<'_>) -> Result<AsnValue, Stop>
    ensures { Reads (spec.named_value cursor.old) result cursor.new }
{
    Ok(AsnValue::Ref(identifier(alloc, cursor)?))
}

#[tactic(auto, unfolding(crate::specs::Values::has))]
pub fn has(cursor: &Cursor<'_>, kind: Kind) -> bool
    ensures { result ≡ spec.has kind cursor.now }
{
    cursor.text_of(kind).is_some()
}

/// The text of the next token, which has to be of this kind.
#[tactic(auto, unfolding(crate::specs::Values::literal))]
pub fn literal(alloc: Global, cursor: &mut Cursor<'_>, kind: Kind) -> Result<Name, Stop>
    ensures read { Reads (spec.literal kind cursor.old) result cursor.new }
    ensures kept { IfErr result (λ _. cursor.new ≡ cursor.old) }
{
    match cursor.text_of(kind) {
        None => Err(cursor.refuse()),
        Some(text) => {
            let name = Name::copy(alloc, text)?;
            cursor.skip();
            Ok(name)
        }
    }
}

#[tactic(auto, unfolding(crate::specs::Values::bits_value))]
fn bits_value(alloc: Global, cursor: &mut Cursor<'_>) -> Result<AsnValue, Stop>
    ensures { Reads (spec.bits_value cursor.old) result cursor.new }
{
    Ok(AsnValue::Bits(literal(alloc, cursor, Kind::Bits)?))
}

#[tactic(auto, unfolding(crate::specs::Values::hex_value))]
fn hex_value(alloc: Global, cursor: &mut Cursor<'_>) -> Result<AsnValue, Stop>
    ensures { Reads (spec.hex_value cursor.old) result cursor.new }
{
    Ok(AsnValue::Hex(literal(alloc, cursor, Kind::Hex)?))
}

#[tactic(auto, unfolding(crate::specs::Values::text_value))]
fn text_value(alloc: Global, cursor: &mut Cursor<'_>) -> Result<AsnValue, Stop>
    ensures { Reads (spec.text_value cursor.old) result cursor.new }
{
    Ok(AsnValue::Text(literal(alloc, cursor, Kind::Text)?))
}

/// A literal or a number.
#[tactic(auto, unfolding(crate::specs::Values::other_value))]
fn other_value(alloc: Global, cursor: &mut Cursor<'_>) -> Result<AsnValue, Stop>
    ensures { Reads (spec.other_value cursor.old) result cursor.new }
{
    if has(cursor, Kind::Bits) {
        bits_value(alloc, cursor)
    } else if has(cursor, Kind::Hex) {
        hex_value(alloc, cursor)
    } else if has(cursor, Kind::Text) {
        text_value(alloc, cursor)
    } else {
        signed_value(cursor)
    }
}

/// A value.
#[tactic(auto, unfolding(crate::specs::Values::value_at))]
pub fn value(alloc: Global, cursor: &mut Cursor<'_>) -> Result<AsnValue, Stop>
    ensures { Reads (spec.value_at cursor.old) result cursor.new }
{
    if cursor.eat(Kind::Word, b"TRUE") {
        return Ok(AsnValue::True);
    }
    if cursor.eat(Kind::Word, b"FALSE") {
        return Ok(AsnValue::False);
    }
    if cursor.eat(Kind::Word, b"NULL") {
        return Ok(AsnValue::Null);
    }
    if has(cursor, Kind::Word) {
        named_value(alloc, cursor)
    } else {
        other_value(alloc, cursor)
    }
}
