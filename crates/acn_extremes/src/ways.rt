//! Places of bits, and what is made up to them.

ghost use Rattle.std.specs.Prelude.{◌≡◌, ◌+◌, ◌*◌, ◌≤◌, ◌<◌, ◌^◌, option_map};
ghost use Rattle.acn_num.specs.Bits.{octets as octets_for};
ghost use Rattle.acn_extreme_laws.specs.Best as best;
ghost use Rattle.acn_extreme_laws.specs.Codes as codes;
ghost use Rattle.acn_extremes.specs.Ways.{chosen_way, place_way};
ghost use Rattle.acn_grammar.specs.Length.{padding as spec_padding};

use acn_extreme_laws::Side;
use acn_tree::Value;

/// Places of bits are held down to this.
const MOST_BITS: u64 = 1 << 40;

/// What is made for a node, a component, fields or elements, and the place behind it: a count of bits from the start of the packet, or of
/// the octets round it.
#[derive(Drop)]
pub struct Way<T> {
    pub end: u64,
    pub made: T,
}

/// An alternative that is chosen, the value that is made for it, and the place behind it.
#[derive(Drop)]
pub struct Chosen {
    pub index: u32,
    pub end: u64,
    pub value: Value,
}

/// The least and the greatest size of a string or list.
#[derive(Clone, Copy)]
pub struct SizeEnds {
    pub low: u64,
    pub high: u64,
}

/// The place that is this far behind another.
pub fn behind(at: u64, n: u64) -> u64
    ensures value { result ≡ best.behind at n }
    ensures small { result ≤ 2 ^ 40 }
{
    at.saturating_add(n).min(MOST_BITS)
}

// The bits of padding.
fn padding(align: u64, at: u64) -> u64
    requires { 0 < align }
    ensures { result ≡ spec_padding align at }
{
    if align == 1 {
        0
    } else {
        (align - at % align) % align
    }
}

/// The place behind the padding.
pub fn padded(align: u32, at: u64) -> u64
    requires { 0 < align }
    ensures { result ≡ best.behind at (spec_padding align at) }
{
    behind(at, padding(u64::from(align), at))
}

/// The place behind so many parts of a width.
pub fn behind_parts(at: u64, width: u64, n: u64) -> u64
    ensures { result ≡ best.behind at (width * n) }
{
    behind(at, width.saturating_mul(n))
}

// The least count of octets that holds so many bits.
fn octets(n: u64) -> u64
    ensures { result ≡ octets_for n }
{
    if n % 8 == 0 { n / 8 } else { n / 8 + 1 }
}

/// The place behind a size of this width and the whole octets round contents that end at another place of their own.
pub fn behind_octets(at: u64, width: u64, inside: u64) -> u64
    ensures { result ≡ best.behind at (width + 8 * octets_for inside) }
{
    behind(at, width.saturating_add(octets(inside).saturating_mul(8)))
}

// Whether a place is nearer to the side than another.
fn is_ahead(side: Side, a: u64, b: u64) -> bool
    ensures { result ≡ codes.ahead side a b }
{
    match side {
        Side::Shortest => a < b,
        Side::Longest => b < a,
    }
}

/// The first of two alternatives, unless the second ends nearer to the side.
pub fn better_case(side: Side, first: Option<Chosen>, second: Option<Chosen>) -> Option<Chosen>
    ensures { option_map chosen_way result ≡ best.better side (option_map chosen_way first) (option_map chosen_way second) }
{
    match first {
        None => second,
        Some(a) => match second {
            None => Some(a),
            Some(b) => {
                if is_ahead(side, b.end, a.end) {
                    Some(b)
                } else {
                    Some(a)
                }
            }
        },
    }
}

/// The first of two places, unless the second ends nearer to the side.
pub fn better_place(
    side: Side,
    first: Option<Way<Option<Value>>>,
    second: Option<Way<Option<Value>>>,
) -> Option<Way<Option<Value>>>
    ensures { option_map place_way result ≡ best.better side (option_map place_way first) (option_map place_way second) }
{
    match first {
        None => second,
        Some(a) => match second {
            None => Some(a),
            Some(b) => {
                if is_ahead(side, b.end, a.end) {
                    Some(b)
                } else {
                    Some(a)
                }
            }
        },
    }
}
