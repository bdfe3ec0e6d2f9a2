//! How the characters of an IA5String are written.

ghost use Rattle.std.specs.Prelude.{◌≡◌, ◌≤◌, ◌^◌, int_le, pos};
ghost use Rattle.acn_grammar.specs.Leaves as leaves;
ghost use Rattle.acn_sites.specs.View.{site_view};
ghost use Rattle.acn_leaves.specs.Leaves as spec;
ghost use Rattle.acn_leaves.specs.View.{characters_view};

use crate::width::least_width;
use acn_acn_syntax::{Encoding, SizeAttr};
use acn_num::{RangeSet, bits_for};
use acn_reasons::{encoding_attr, size_attr};
use acn_sites::Site;

/// How a character is written.
#[derive(Clone, Copy)]
pub struct Characters {
    /// Its bits.
    pub width: u32,
    /// Whether its index among the permitted ones is written, and not its number.
    pub indexed: bool,
}

// Whether a number has more bits than a width.
#[tactic(auto, using(crate::proofs::Least::beyond))]
fn has_more_bits(n: u64, width: u32) -> bool
    ensures { result ≡ int_le (pos (2 ^ width)) (pos n) }
{
    bits_for(n) > width
}

// Whether a character is beyond a width of bits.
fn is_beyond(width: u32, greatest: Option<i128>) -> bool
    requires { width ≤ 64 }
    ensures { result ≡ leaves.is_beyond width greatest }
{
    match greatest {
        None => false,
        Some(greatest) => match u64::try_from(greatest) {
            Ok(greatest) => has_more_bits(greatest, width),
            Err(_) => greatest > 0,
        },
    }
}

// In the fewest bits.
fn fewest(alphabet: &RangeSet) -> Characters
    ensures { characters_view result ≡ spec.fewest alphabet.now }
{
    let width = least_width(alphabet.count().saturating_sub(1));
    Characters {
        width,
        indexed: is_beyond(width, alphabet.greatest()),
    }
}

// Whether a character is an octet.
fn has_octets(site: &Site<'_>) -> bool
    ensures { result ≡ spec.has_octets (site_view site.now) }
{
    matches!(size_attr(site), Some(SizeAttr::NullTerminated))
        || matches!(encoding_attr(site), Some(Encoding::Ascii))
}

/// How a character of a text is written, of whose type these characters are the permitted ones: in an octet with `encoding ASCII` or
/// where the text is ended, else in the least width that has a number for each permitted one, by its index where the greatest one is
/// beyond that width (X.691 clause 30).
#[tactic(auto, unfolding(crate::specs::Leaves::characters_written))]
pub fn characters_written(site: &Site<'_>, alphabet: &RangeSet) -> Characters
    ensures { characters_view result ≡ spec.characters_written (site_view site.now) alphabet.now }
{
    if has_octets(site) {
        return Characters {
            width: 8,
            indexed: false,
        };
    }
    fewest(alphabet)
}
