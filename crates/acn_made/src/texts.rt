//! The text of the value behind DEFAULT.

ghost use Rattle.std.specs.Prelude.{◌≡◌, ◌++◌, flat_map, IfOk, OnOk};
ghost use Rattle.std.specs.Fmt.{decimal};
ghost use Rattle.acn_asn_syntax.specs.Values.{signed_tokens};
ghost use Rattle.acn_lex.specs.Lexeme.{Lexeme};
ghost use Rattle.acn_made.specs.Texts as spec;

use acn_asn_syntax::{AsnValue, Rest};
use acn_num::{Name, NoMemory};
use itoa::Buffer;
use std::alloc::Global;

// Adds a number in decimal digits.
fn push_number(n: u64, text: &mut Vec<u8>) -> Result<(), NoMemory>
    ensures { OnOk result (text.new.items ≡ text.old.items ++ decimal n) }
{
    let mut buffer = Buffer::new();
    text.extend_from_slice(buffer.format(n).as_bytes())?;
    Ok(())
}

// A sign, and a number in decimal digits.
fn digits_behind(alloc: Global, sign: &[u8], n: u64) -> Result<Name, NoMemory>
    ensures { IfOk result (λ text. text ≡ sign.now ++ decimal n) }
{
    let mut text = Vec::from_slice(alloc, sign)?;
    push_number(n, &mut text)?;
    Name::copy(alloc, text.as_slice())
}

// The text of a number with its sign.
#[tactic(auto, unfolding(acn_asn_syntax::specs::Values::signed_tokens))]
fn number_text(alloc: Global, negative: bool, n: u64) -> Result<Name, NoMemory>
    ensures { IfOk result (λ text. text ≡ flat_map (λ (t : Lexeme). t.text) (signed_tokens negative n)) }
{
    if negative {
        digits_behind(alloc, b"-", n)
    } else {
        digits_behind(alloc, b"", n)
    }
}

// The text of a value: that of its tokens, joined.
#[tactic(auto, unfolding(acn_asn_syntax::specs::Values::value_tokens))]
fn text_of(alloc: Global, value: &AsnValue) -> Result<Name, NoMemory>
    ensures { IfOk result (λ text. text ≡ spec.text_of value.now) }
{
    match value {
        AsnValue::Number(negative, n) => number_text(alloc, *negative, *n),
        AsnValue::True => Name::copy(alloc, b"TRUE"),
        AsnValue::False => Name::copy(alloc, b"FALSE"),
        AsnValue::Null => Name::copy(alloc, b"NULL"),
        AsnValue::Ref(name) => Name::copy(alloc, name.bytes()),
        AsnValue::Bits(text) => Name::copy(alloc, text.bytes()),
        AsnValue::Hex(text) => Name::copy(alloc, text.bytes()),
        AsnValue::Text(text) => Name::copy(alloc, text.bytes()),
    }
}

/// The text of the value behind DEFAULT, where there is one: that of its tokens, joined.
pub fn default_text(alloc: Global, rest: &Rest) -> Result<Option<Name>, NoMemory>
    ensures { IfOk result (λ text. text ≡ spec.default_text rest.now) }
{
    match rest {
        Rest::Required => Ok(None),
        Rest::Optional => Ok(None),
        Rest::Default(value) => Ok(Some(text_of(alloc, value)?)),
    }
}
