//! The value behind DEFAULT, and what it stands for.

ghost use Rattle.std.specs.Prelude.{◌≡◌, ◌≤◌, ◌^◌, map, option_copied, option_map, IfSome};
ghost use Rattle.acn_num.specs.Bits.{octets};
ghost use Rattle.acn_index.specs.Values.{Worth, value_of};
ghost use Rattle.acn_world.specs.Viewed.{world_view};
ghost use Rattle.acn_slots.specs.View.{frame_view};
ghost use Rattle.acn_sites.specs.View.{position_view};
ghost use Rattle.acn_defaults.specs.Defaults as spec;

use acn_asn_syntax::{AsnValue, Rest};
use acn_codings::count_bits;
use acn_sites::Position;
use acn_slots::Frame;
use acn_world::World;

// The value behind DEFAULT.
fn value_behind(rest: &Rest) -> Option<&AsnValue>
    ensures { option_copied result ≡ spec.value_behind rest.now }
{
    match rest {
        Rest::Default(value) => Some(value),
        Rest::Optional => None,
        Rest::Required => None,
    }
}

/// The value behind DEFAULT of a component, where it has one.
pub fn value_at<'w>(position: &Position<'w>) -> Option<&'w AsnValue>
    ensures { option_copied result ≡ spec.value_at (position_view position.now) }
{
    match position {
        Position::Component { rest, .. } => value_behind(*rest),
        Position::Root { .. } => None,
        Position::Inserted { .. } => None,
        Position::Alternative { .. } => None,
        Position::Element => None,
        Position::Content => None,
    }
}

/// The module in whose text the components stand of the SEQUENCE that was entered last.
pub fn owner_in(frames: &[Frame<'_>]) -> Option<u32>
    ensures { result ≡ spec.owner_in (map frame_view frames.now) }
{
    match frames.first() {
        None => None,
        Some(frame) => Some(frame.owner),
    }
}

// The value to which an identifier leads.
fn referred<'w>(world: &'w World, k: u32, name: &[u8]) -> Option<&'w AsnValue>
    ensures { option_copied result ≡ option_map (λ (v : Worth). Worth.is v) (value_of (world_view world.now) k name.now) }
{
    let (_, _, value) = world.value(k, name)?;
    Some(value)
}

/// The value itself, or the one to which an identifier leads in a module.
pub fn value_in<'w>(world: &'w World, k: u32, value: &'w AsnValue) -> Option<&'w AsnValue>
    ensures { option_copied result ≡ spec.value_in (world_view world.now) k value.now }
{
    match value {
        AsnValue::Ref(name) => referred(world, k, name.bytes()),
        AsnValue::Number(_, _) => Some(value),
        AsnValue::True => Some(value),
        AsnValue::False => Some(value),
        AsnValue::Null => Some(value),
        AsnValue::Bits(_) => Some(value),
        AsnValue::Hex(_) => Some(value),
        AsnValue::Text(_) => Some(value),
    }
}

/// Whether a value is TRUE or FALSE.
pub fn is_truth(value: Option<&AsnValue>) -> bool
    ensures { result ≡ spec.is_truth (option_copied value.entry) }
{
    match value {
        None => false,
        Some(AsnValue::True) => true,
        Some(AsnValue::False) => true,
        Some(AsnValue::Number(_, _)) => false,
        Some(AsnValue::Null) => false,
        Some(AsnValue::Ref(_)) => false,
        Some(AsnValue::Bits(_)) => false,
        Some(AsnValue::Hex(_)) => false,
        Some(AsnValue::Text(_)) => false,
    }
}

/// Whether a value is NULL.
pub fn is_null_value(value: Option<&AsnValue>) -> bool
    ensures { result ≡ spec.is_null_value (option_copied value.entry) }
{
    match value {
        None => false,
        Some(AsnValue::Null) => true,
        Some(AsnValue::Number(_, _)) => false,
        Some(AsnValue::True) => false,
        Some(AsnValue::False) => false,
        Some(AsnValue::Ref(_)) => false,
        Some(AsnValue::Bits(_)) => false,
        Some(AsnValue::Hex(_)) => false,
        Some(AsnValue::Text(_)) => false,
    }
}

/// How many bits a literal has.
pub fn bits_of(value: Option<&AsnValue>) -> Option<u128>
    ensures is { result ≡ spec.bits_of (option_copied value.entry) }
    ensures few { IfSome result (λ n. n ≤ 2 ^ 66) }
{
    match value {
        None => None,
        Some(AsnValue::Bits(text)) => Some(count_bits(false, text.bytes())),
        Some(AsnValue::Hex(text)) => Some(count_bits(true, text.bytes())),
        Some(AsnValue::Number(_, _)) => None,
        Some(AsnValue::True) => None,
        Some(AsnValue::False) => None,
        Some(AsnValue::Null) => None,
        Some(AsnValue::Ref(_)) => None,
        Some(AsnValue::Text(_)) => None,
    }
}

/// How many octets a literal is, with the fewest zeros behind it that make whole octets.
pub fn octets_of(value: Option<&AsnValue>) -> Option<u128>
    ensures is { result ≡ option_map octets (spec.bits_of (option_copied value.entry)) }
    ensures few { IfSome result (λ n. n ≤ 2 ^ 66) }
{
    match bits_of(value) {
        None => None,
        Some(bits) => Some((bits + 7) / 8),
    }
}
