ghost use Rattle.std.specs.Prelude.{◌≡◌, ◌<◌, ◌≤◌, ◌^◌, length, ℕ, ℤ, pos, ◌⊎◌, Bool, List};
ghost use Rattle.acn_grammar.specs.declared.node.NumCoding.TheVariants.{Range, PosInt, Twos, Flag, Fixed};
ghost use Rattle.acn_num.specs.Bits.{number, signed_number, IsNumber};
ghost use Rattle.acn_grammar.specs.Code.{opposite};
ghost use Rattle.acn_ints.specs.Limits.{CanWrite};
ghost use Rattle.acn_ints.specs.Limits.{IsEnd, OrderFits, PatternsFit};
ghost use Rattle.acn_ints.specs.Pieces.{IsPiece, IsBits};
ghost use Rattle.acn_bits.specs.declared.word.TheConstants.{WORD_BITS};

use crate::ordered::{ordered, pattern_number};
use acn_grammar::Pattern;

/// A code of at most `WORD_BITS` bits: the lowest bits of a value.
#[derive(Clone, Copy, PartialEq, Eq)]
pub struct Piece {
    pub width: u32,
    pub value: u64,
}

/// An offset from the least number.
pub fn range_piece(low: &i128, width: u32, little: bool, y: &i128) -> Piece
    requires low { IsEnd low.now }
    requires width { width ≤ WORD_BITS }
    requires can { CanWrite (Range low.now width) y.now }
    ensures { IsPiece (Range low.now width) little y.now result.width result.value }
{
    let _little = little;
    Piece {
        width,
        value: (*y - *low) as u64,
    }
}

/// A number without a sign.
pub fn unsigned_piece(n: u32, little: bool, y: &i128) -> Piece
    requires order { OrderFits little n }
    requires can { CanWrite (PosInt n) y.now }
    ensures { IsPiece (PosInt n) little y.now result.width result.value }
{
    Piece {
        width: n,
        value: ordered(*y as u64, n, little),
    }
}

/// A number in two's complement.
pub fn twos_piece(n: u32, little: bool, y: &i128) -> Piece
    requires order { OrderFits little n }
    requires can { CanWrite (Twos n) y.now }
    ensures { IsPiece (Twos n) little y.now result.width result.value }
{
    Piece {
        width: n,
        value: ordered(wrapped(n, y), n, little),
    }
}

/// The number that spells y in two's complement.
pub fn wrapped(n: u32, y: &i128) -> u64
    requires some { 1 ≤ n }
    requires width { n ≤ WORD_BITS }
    requires can { CanWrite (Twos n) y.now }
    ensures fits { result < 2 ^ n }
    ensures value { (bs : List Bool) → IsNumber n result bs → signed_number bs ≡ y.now }
{
    if *y < 0 {
        let half = i128::from(1u64 << (n - 1));
        (*y + half + half) as u64
    } else {
        *y as u64
    }
}

/// A pattern.
pub fn pattern_piece(pattern: &Pattern, little: bool, y: &i128) -> Piece
    requires can { y.now ≡ pos 0 }
    ensures { IsPiece (Fixed pattern.now) little y.now result.width result.value }
{
    let _little = little;
    let _y = y;
    plain_piece(pattern)
}

/// The complement of a pattern.
fn opposite_number(pattern: &Pattern) -> u64
    ensures { result ≡ number (opposite pattern.now) }
{
    let bits = pattern.bits();
    (u64::MAX >> (64 - bits.len())) - pattern_number(bits)
}

/// A Boolean.
pub fn flag_piece(ones: &Option<Pattern>, zeros: &Option<Pattern>, little: bool, y: &i128) -> Piece
    requires patterns { PatternsFit ones.now zeros.now }
    requires can { (y.now ≡ pos 0) ⊎ (y.now ≡ pos 1) }
    ensures { IsPiece (Flag ones.now zeros.now) little y.now result.width result.value }
{
    let _little = little;
    match ones {
        Some(p) => {
            if *y == 1 {
                plain_piece(p)
            } else {
                match zeros {
                    Some(q) => plain_piece(q),
                    None => opposite_piece(p),
                }
            }
        }
        None => match zeros {
            Some(q) => {
                if *y == 0 {
                    plain_piece(q)
                } else {
                    opposite_piece(q)
                }
            }
            None => Piece {
                width: 1,
                value: if *y == 1 { 1 } else { 0 },
            },
        },
    }
}

fn plain_piece(pattern: &Pattern) -> Piece
    ensures { IsBits pattern.now result.width result.value }
{
    Piece {
        width: pattern.bits().len() as u32,
        value: pattern.number(),
    }
}

fn opposite_piece(pattern: &Pattern) -> Piece
    ensures { IsBits (opposite pattern.now) result.width result.value }
{
    Piece {
        width: pattern.bits().len() as u32,
        value: opposite_number(pattern),
    }
}
