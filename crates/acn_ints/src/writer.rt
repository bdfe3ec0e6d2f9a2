ghost use Rattle.std.specs.Prelude.{◌≡◌, ◌+◌, ◌*◌, ◌^◌, ◌<◌, ◌≤◌, ◌++◌, false, IsTrue, Some, ℕ};
ghost use Rattle.acn_bits.specs.Writing.{place_of, Writes, Puts};
ghost use Rattle.acn_num.specs.Bits.{low_bits};
ghost use Rattle.acn_num.specs.Ranges.{In};
ghost use Rattle.acn_grammar.specs.Interval.{width_of};
ghost use Rattle.acn_grammar.specs.Leaves.{num_fine};
ghost use Rattle.acn_grammar.specs.declared.node.NumCoding.TheVariants.{Range, CountedFrom, CountedSigned, PosInt, Twos, Flag, Fixed};
ghost use Rattle.acn_grammar.specs.Code.{Code, Written, CodingCode};
ghost use Rattle.acn_grammar.specs.Length.{coding_length, num_length};
ghost use Rattle.acn_ints.specs.Limits.{CanWrite, CodingFits, LeafFits, OrderFits, PatternsFit, IsEnd};
ghost use Rattle.acn_ints.specs.Pieces.{CanCode};
ghost use Rattle.acn_bits.specs.declared.word.TheConstants.{WORD_BITS};

use crate::counted::{octets_for, signed_octets_for};
use crate::digit_writer::{put_bcd, put_bcd_ended, put_characters, put_characters_ended};
use crate::known::{image, item_count};
use crate::piece::{
    Piece, flag_piece, pattern_piece, range_piece, twos_piece, unsigned_piece, wrapped,
};
use acn_bits::WriteCursor;
use acn_grammar::{NumCoding, NumLeaf, Pattern};

/// Writes a code of at most `WORD_BITS` bits.
fn put_piece<const N: usize>(cur: &mut WriteCursor<'_, N>, piece: Piece)
    requires small { piece.width ≤ WORD_BITS }
    requires fits { piece.value < 2 ^ piece.width }
    requires room { place_of cur.old + piece.width ≤ 8 * N }
    ensures { Writes cur.old cur.new (place_of cur.old) (low_bits piece.width piece.value) (place_of cur.old + piece.width) }
{
    cur.put(piece.width, piece.value);
}

/// Writes a count of octets, and the octets.
fn put_octets<const N: usize>(cur: &mut WriteCursor<'_, N>, count: u32, v: u64)
    requires few { count ≤ 8 }
    requires fits { v < 2 ^ (8 * count) }
    requires room { place_of cur.old + (8 + 8 * count) ≤ 8 * N }
    ensures { Writes cur.old cur.new (place_of cur.old) (low_bits 8 count ++ low_bits (8 * count) v) (place_of cur.old + (8 + 8 * count)) }
{
    cur.put(8, u64::from(count));
    cur.put(8 * count, v);
}

/// Writes an offset behind the count of its octets.
fn put_counted_from<const N: usize>(cur: &mut WriteCursor<'_, N>, low: &i128, y: &i128)
    requires low { IsEnd low.now }
    requires can { CanWrite (CountedFrom low.now) y.now }
    requires room { place_of cur.old + coding_length (CountedFrom low.now) y.now ≤ 8 * N }
    ensures code { Puts (CodingCode Written (CountedFrom low.now) false y.now) cur.old cur.new }
    ensures long { place_of cur.new ≡ place_of cur.old + coding_length (CountedFrom low.now) y.now }
{
    let v = (*y - *low) as u64;
    put_octets(cur, octets_for(v), v);
}

/// Writes a number in two's complement behind the count of its octets.
fn put_counted_signed<const N: usize>(cur: &mut WriteCursor<'_, N>, y: &i128)
    requires can { CanWrite CountedSigned y.now }
    requires room { place_of cur.old + coding_length CountedSigned y.now ≤ 8 * N }
    ensures code { Puts (CodingCode Written CountedSigned false y.now) cur.old cur.new }
    ensures long { place_of cur.new ≡ place_of cur.old + coding_length CountedSigned y.now }
{
    let count = signed_octets_for(y);
    put_octets(cur, count, wrapped(8 * count, y));
}

/// Writes an offset from the least number.
fn put_range<const N: usize>(
    cur: &mut WriteCursor<'_, N>,
    low: &i128,
    width: u32,
    little: bool,
    y: &i128,
)
    requires low { IsEnd low.now }
    requires width { width ≤ WORD_BITS }
    requires can { CanWrite (Range low.now width) y.now }
    requires room { place_of cur.old + coding_length (Range low.now width) y.now ≤ 8 * N }
    ensures code { Puts (CodingCode Written (Range low.now width) little y.now) cur.old cur.new }
    ensures long { place_of cur.new ≡ place_of cur.old + coding_length (Range low.now width) y.now }
{
    put_piece(cur, range_piece(low, width, little, y));
}

/// Writes a number without a sign.
fn put_unsigned<const N: usize>(cur: &mut WriteCursor<'_, N>, n: u32, little: bool, y: &i128)
    requires order { OrderFits little n }
    requires can { CanWrite (PosInt n) y.now }
    requires room { place_of cur.old + coding_length (PosInt n) y.now ≤ 8 * N }
    ensures code { Puts (CodingCode Written (PosInt n) little y.now) cur.old cur.new }
    ensures long { place_of cur.new ≡ place_of cur.old + coding_length (PosInt n) y.now }
{
    put_piece(cur, unsigned_piece(n, little, y));
}

/// Writes a number in two's complement.
fn put_twos<const N: usize>(cur: &mut WriteCursor<'_, N>, n: u32, little: bool, y: &i128)
    requires order { OrderFits little n }
    requires can { CanWrite (Twos n) y.now }
    requires room { place_of cur.old + coding_length (Twos n) y.now ≤ 8 * N }
    ensures code { Puts (CodingCode Written (Twos n) little y.now) cur.old cur.new }
    ensures long { place_of cur.new ≡ place_of cur.old + coding_length (Twos n) y.now }
{
    put_piece(cur, twos_piece(n, little, y));
}

/// Writes a Boolean.
fn put_flag<const N: usize>(
    cur: &mut WriteCursor<'_, N>,
    ones: &Option<Pattern>,
    zeros: &Option<Pattern>,
    little: bool,
    y: &i128,
)
    requires patterns { PatternsFit ones.now zeros.now }
    requires can { CanWrite (Flag ones.now zeros.now) y.now }
    requires room { place_of cur.old + coding_length (Flag ones.now zeros.now) y.now ≤ 8 * N }
    ensures code { Puts (CodingCode Written (Flag ones.now zeros.now) little y.now) cur.old cur.new }
    ensures long { place_of cur.new ≡ place_of cur.old + coding_length (Flag ones.now zeros.now) y.now }
{
    put_piece(cur, flag_piece(ones, zeros, little, y));
}

/// Writes a pattern.
fn put_pattern<const N: usize>(
    cur: &mut WriteCursor<'_, N>,
    pattern: &Pattern,
    little: bool,
    y: &i128,
)
    requires can { CanWrite (Fixed pattern.now) y.now }
    requires room { place_of cur.old + coding_length (Fixed pattern.now) y.now ≤ 8 * N }
    ensures code { Puts (CodingCode Written (Fixed pattern.now) little y.now) cur.old cur.new }
    ensures long { place_of cur.new ≡ place_of cur.old + coding_length (Fixed pattern.now) y.now }
{
    put_piece(cur, pattern_piece(pattern, little, y));
}

/// Writes the code of a number that is written.
fn put_image<const N: usize>(
    cur: &mut WriteCursor<'_, N>,
    coding: &NumCoding,
    little: bool,
    y: &i128,
)
    requires fits { CodingFits coding.now little }
    requires can { CanWrite coding.now y.now }
    requires room { place_of cur.old + coding_length coding.now y.now ≤ 8 * N }
    ensures code { Puts (CodingCode Written coding.now little y.now) cur.old cur.new }
    ensures long { place_of cur.new ≡ place_of cur.old + coding_length coding.now y.now }
{
    match coding {
        NumCoding::Range { low, width } => put_range(cur, low, *width, little, y),
        NumCoding::CountedFrom { low } => put_counted_from(cur, low, y),
        NumCoding::CountedSigned => put_counted_signed(cur, y),
        NumCoding::PosInt(n) => put_unsigned(cur, *n, little, y),
        NumCoding::Twos(n) => put_twos(cur, *n, little, y),
        NumCoding::Bcd(n) => put_bcd(cur, *n, y),
        NumCoding::BcdEnded => put_bcd_ended(cur, y),
        NumCoding::Ascii { bits, signed } => put_characters(cur, *bits, *signed, y),
        NumCoding::AsciiEnded { end, signed } => put_characters_ended(cur, end, *signed, y),
        NumCoding::Flag { yes, no } => put_flag(cur, yes, no, little, y),
        NumCoding::Fixed(pattern) => put_pattern(cur, pattern, little, y),
    }
}

/// Writes the code of a number.
fn put_known<const N: usize>(cur: &mut WriteCursor<'_, N>, leaf: &NumLeaf, x: &i128)
    requires fits { LeafFits leaf.now }
    requires can { CanCode leaf.now x.now }
    requires room { place_of cur.old + num_length leaf.now x.now ≤ 8 * N }
    ensures code { Puts (Code Written leaf.now x.now) cur.old cur.new }
    ensures long { place_of cur.new ≡ place_of cur.old + num_length leaf.now x.now }
{
    match image(leaf, x) {
        Some(y) => put_image(cur, &leaf.coding, leaf.little, &y),
        None => unreachable!(),
    }
}

/// What is known of a permitted number.
pub fn check_permitted(leaf: &NumLeaf, x: &i128)
    requires fine { IsTrue (num_fine leaf.now) }
    requires permitted { In leaf.now.set x.now }
    ensures fits { LeafFits leaf.now }
    ensures can { CanCode leaf.now x.now }
    ensures short { num_length leaf.now x.now ≤ 256 }
    ensures one_width { (w : ℕ) → width_of leaf.now ≡ Some w → num_length leaf.now x.now ≡ w }
{
    let _items = item_count(leaf.items.items.items());
    let _ranges = leaf.set.ranges();
    let _number = *x;
}

/// Writes the code of a permitted number in the next bits, and changes no others. It takes no memory.
pub fn put_num<const N: usize>(cur: &mut WriteCursor<'_, N>, leaf: &NumLeaf, x: i128)
    requires fine { IsTrue (num_fine leaf.now) }
    requires permitted { In leaf.now.set x }
    requires room { place_of cur.old + num_length leaf.now x ≤ 8 * N }
    ensures code { Puts (Code Written leaf.now x) cur.old cur.new }
    ensures long { place_of cur.new ≡ place_of cur.old + num_length leaf.now x }
{
    check_permitted(leaf, &x);
    put_known(cur, leaf, &x);
}
