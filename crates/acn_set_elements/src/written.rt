ghost use Rattle.std.specs.Prelude.{◌≡◌, option_map, ◌<◌, ◌≤◌, ◌+◌, ◌∷◌, [], ◌&&◌, length, get_or, drop};
ghost use Rattle.acn_world.specs.Viewed.{world_view};
ghost use Rattle.acn_set_elements.specs.Written as spec;

use crate::numbers::NumberNames;
use acn_asn_syntax::AsnValue;
use acn_world::World;

/// The octet of a quotation mark.
const QUOTE: u8 = 34;

/// The number of this sign and these digits.
pub fn signed(negative: bool, digits: u64) -> i128
    ensures { result ≡ spec.signed negative digits }
{
    if negative {
        -i128::from(digits)
    } else {
        i128::from(digits)
    }
}

// The number that a value is.
fn number_is(value: &AsnValue) -> Option<i128>
    ensures { result ≡ spec.number_is value.now }
{
    match value {
        AsnValue::Number(negative, digits) => Some(signed(*negative, *digits)),
        AsnValue::True => None,
        AsnValue::False => None,
        AsnValue::Null => None,
        AsnValue::Ref(_) => None,
        AsnValue::Bits(_) => None,
        AsnValue::Hex(_) => None,
        AsnValue::Text(_) => None,
    }
}

// The number to which an identifier leads in a module.
#[tactic(auto, unfolding(crate::specs::Written::referred_number))]
fn referred_number(world: &World, k: u32, name: &[u8]) -> Option<i128>
    ensures { result ≡ spec.referred_number (world_view world.now) k name.now }
{
    let (_, _, value) = world.value(k, name)?;
    number_is(value)
}

/// A number as it is written in a module, where these names stand for numbers before any other.
pub fn number_in(world: &World, names: &NumberNames<'_>, k: u32, value: &AsnValue) -> Option<i128>
    ensures { result ≡ spec.number_in (world_view world.now) names.now k value.now }
{
    match value {
        AsnValue::Number(negative, digits) => Some(signed(*negative, *digits)),
        AsnValue::Ref(name) => match names.number_of(name.bytes()) {
            Some(number) => Some(number),
            None => referred_number(world, k, name.bytes()),
        },
        AsnValue::True => None,
        AsnValue::False => None,
        AsnValue::Null => None,
        AsnValue::Bits(_) => None,
        AsnValue::Hex(_) => None,
        AsnValue::Text(_) => None,
    }
}

/// The same where no names but those of values stand for numbers.
pub fn plain_number_in(world: &World, k: u32, value: &AsnValue) -> Option<i128>
    ensures { result ≡ spec.number_in (world_view world.now) [] k value.now }
{
    match value {
        AsnValue::Number(negative, digits) => Some(signed(*negative, *digits)),
        AsnValue::Ref(name) => referred_number(world, k, name.bytes()),
        AsnValue::True => None,
        AsnValue::False => None,
        AsnValue::Null => None,
        AsnValue::Bits(_) => None,
        AsnValue::Hex(_) => None,
        AsnValue::Text(_) => None,
    }
}

// The token of the text that a value is.
fn text_is(value: &AsnValue) -> Option<&[u8]>
    ensures { option_map (λ t. spec.unquoted t.now) result ≡ spec.text_is value.now }
{
    match value {
        AsnValue::Text(token) => Some(token.bytes()),
        AsnValue::Number(_, _) => None,
        AsnValue::True => None,
        AsnValue::False => None,
        AsnValue::Null => None,
        AsnValue::Ref(_) => None,
        AsnValue::Bits(_) => None,
        AsnValue::Hex(_) => None,
    }
}

// The token of the text to which an identifier leads in a module.
#[tactic(auto, unfolding(crate::specs::Written::referred_text))]
fn referred_text<'w>(world: &'w World, k: u32, name: &[u8]) -> Option<&'w [u8]>
    ensures { option_map (λ t. spec.unquoted t.now) result ≡ spec.referred_text (world_view world.now) k name.now }
{
    let (_, _, value) = world.value(k, name)?;
    text_is(value)
}

/// The token of a text as it is written in a module.
pub fn text_in<'w>(world: &'w World, k: u32, value: &'w AsnValue) -> Option<&'w [u8]>
    ensures { option_map (λ t. spec.unquoted t.now) result ≡ spec.text_in (world_view world.now) k value.now }
{
    match value {
        AsnValue::Text(token) => Some(token.bytes()),
        AsnValue::Ref(name) => referred_text(world, k, name.bytes()),
        AsnValue::Number(_, _) => None,
        AsnValue::True => None,
        AsnValue::False => None,
        AsnValue::Null => None,
        AsnValue::Bits(_) => None,
        AsnValue::Hex(_) => None,
    }
}

// Whether two quotation marks stand at a place of a token.
fn is_doubled(token: &[u8], at: usize) -> bool
    requires { at + 1 < length token.now }
    ensures { result ≡ (spec.is_quote (get_or token.now at 0) && spec.is_quote (get_or token.now (at + 1) 0)) }
{
    token[at] == QUOTE && token[at + 1] == QUOTE
}

// The character of a text that has one, from its token.
fn only_character(token: &[u8]) -> Option<i128>
    ensures { result ≡ spec.only_character (spec.unquoted token.now) }
{
    if token.len() == 3 {
        Some(i128::from(token[1]))
    } else if token.len() == 4 && is_doubled(token, 1) {
        Some(i128::from(token[1]))
    } else {
        None
    }
}

/// The one character of a text as it is written in a module.
pub fn character_in(world: &World, k: u32, value: &AsnValue) -> Option<i128>
    ensures { result ≡ spec.character_in (world_view world.now) k value.now }
{
    let token = text_in(world, k, value)?;
    only_character(token)
}

/// Where the next character of a text stands in its token: two quotation marks are one.
pub fn next_character(token: &[u8], at: usize) -> usize
    requires { at + 1 < length token.now }
    ensures reads { spec.unquoted_rest (drop at token.now) ≡ get_or token.now at 0 ∷ spec.unquoted_rest (drop result token.now) }
    ensures onward { at < result }
    ensures inside { result ≤ length token.now }
{
    if is_doubled(token, at) {
        at + 2
    } else {
        at + 1
    }
}
