//! Bits that are put where there is room.

ghost use Rattle.std.specs.Prelude.{◌≡◌, ◌+◌, ◌-◌, ◌*◌, ◌^◌, ◌<◌, ◌≤◌, false, true, length, replicate};
ghost use Rattle.acn_num.specs.Bits.{bits, low_bits, number};
ghost use Rattle.acn_bits.specs.Writing.{Writes, place_of};
ghost use Rattle.acn_bits.specs.declared.word.TheConstants.{WORD_BITS};
ghost use Rattle.acn_grammar.specs.Length.{padding as padding_of};
ghost use Rattle.acn_writer.specs.declared.cursor.TheConstants.{OCTETS_AT_ONCE};

use acn_bits::{WORD_BITS, WriteCursor};
use acn_ints::pattern_number;

/// So many octets are written at once: those of a word.
const OCTETS_AT_ONCE: usize = 8;

/// Whether so many bits are left.
pub fn has_room<const N: usize>(cursor: &WriteCursor<'_, N>, n: u64) -> bool
    requires { length (bits cursor.now.buf.now) ≡ 8 * N }
    ensures room { result ≡ true → place_of cursor.now + n ≤ 8 * N }
    ensures none { result ≡ false → 8 * N < place_of cursor.now + n }
    ensures long { length (bits cursor.now.buf.now) ≡ 8 * N }
{
    n <= cursor.room()
}

/// Whether so many octets are left.
pub fn has_room_for_octets<const N: usize>(cursor: &WriteCursor<'_, N>, n: u64) -> bool
    requires { length (bits cursor.now.buf.now) ≡ 8 * N }
    ensures room { result ≡ true → place_of cursor.now + 8 * n ≤ 8 * N }
    ensures none { result ≡ false → 8 * N < place_of cursor.now + 8 * n }
    ensures long { length (bits cursor.now.buf.now) ≡ 8 * N }
{
    n <= cursor.room() / 8
}

/// Whether a number has so many bits at most, which make a word.
pub fn fits(width: u32, n: u64) -> bool
    ensures yes { result ≡ true → (width ≤ WORD_BITS) × (n < 2 ^ width) }
    ensures no { result ≡ false → width ≤ WORD_BITS → 2 ^ width ≤ n }
{
    if width < WORD_BITS {
        n < 1 << width
    } else {
        width == WORD_BITS
    }
}

/// How many zeros bring a position to a multiple.
pub fn padding(align: u32, position: u64) -> u64
    requires { 0 < align }
    ensures { result ≡ padding_of align position }
{
    let align = u64::from(align);
    (align - position % align) % align
}

/// Writes zeros.
pub fn put_zeros<const N: usize>(cursor: &mut WriteCursor<'_, N>, n: u64)
    requires { place_of cursor.old + n ≤ 8 * N }
    ensures { Writes cursor.old cursor.new (place_of cursor.old) (replicate n false) (place_of cursor.old + n) }
{
    cursor.put((n % u64::from(WORD_BITS)) as u32, 0);
    for word in 0..n / u64::from(WORD_BITS) {
        let _word = word;
        cursor.put(WORD_BITS, 0);
    }
}

/// Writes a list of bits.
pub fn put_bits<const N: usize>(cursor: &mut WriteCursor<'_, N>, list: &[bool])
    requires { place_of cursor.old + length list.now ≤ 8 * N }
    ensures { Writes cursor.old cursor.new (place_of cursor.old) list.now (place_of cursor.old + length list.now) }
{
    let word = WORD_BITS as usize;
    let front = list.len() % word;
    cursor.put(front as u32, pattern_number(&list[..front]));
    for i in 0..list.len() / word {
        let at = front + word * i;
        cursor.put(WORD_BITS, pattern_number(&list[at..at + word]));
    }
}

/// The number that the bits of octets spell, of fewer than a word has.
fn few_octets(octets: &[u8]) -> u64
    requires { length octets.now < OCTETS_AT_ONCE }
    ensures { result ≡ number (bits octets.now) }
{
    let mut all = 0u64;
    for octet in octets {
        all = (all << 8) | u64::from(*octet);
    }
    all
}

/// The number that the bits of octets spell, of as many as a word has.
fn octets_number(octets: &[u8]) -> u64
    requires { length octets.now ≤ OCTETS_AT_ONCE }
    ensures { result ≡ number (bits octets.now) }
{
    match octets.first_chunk::<OCTETS_AT_ONCE>() {
        Some(word) => u64::from_be_bytes(*word),
        None => few_octets(octets),
    }
}

/// Writes octets.
pub fn put_octets<const N: usize>(cursor: &mut WriteCursor<'_, N>, octets: &[u8])
    requires { place_of cursor.old + 8 * length octets.now ≤ 8 * N }
    ensures { Writes cursor.old cursor.new (place_of cursor.old) (bits octets.now) (place_of cursor.old + 8 * length octets.now) }
{
    let front = octets.len() % OCTETS_AT_ONCE;
    cursor.put(8 * front as u32, octets_number(&octets[..front]));
    for i in 0..octets.len() / OCTETS_AT_ONCE {
        let at = front + OCTETS_AT_ONCE * i;
        cursor.put(WORD_BITS, octets_number(&octets[at..at + OCTETS_AT_ONCE]));
    }
}

/// Whether a hole of so many bits can be left.
pub fn has_room_for_hole<const N: usize>(cursor: &WriteCursor<'_, N>, width: u32) -> bool
    requires { length (bits cursor.now.buf.now) ≡ 8 * N }
    ensures width { result ≡ true → width ≤ WORD_BITS }
    ensures room { result ≡ true → place_of cursor.now + width ≤ 8 * N }
    ensures none { result ≡ false → width ≤ WORD_BITS → 8 * N < place_of cursor.now + width }
    ensures long { length (bits cursor.now.buf.now) ≡ 8 * N }
{
    width <= WORD_BITS && has_room(cursor, u64::from(width))
}

/// Whether a hole lies behind the writer.
pub fn is_passed<const N: usize>(cursor: &WriteCursor<'_, N>, hole: (u64, u32)) -> bool
    ensures yes { result ≡ true → hole.0 + hole.1 ≤ place_of cursor.now }
    ensures no { result ≡ false → place_of cursor.now < hole.0 + hole.1 }
{
    let at = cursor.at();
    let width = u64::from(hole.1);
    width <= at && hole.0 <= at - width
}
