ghost use Rattle.std.specs.Prelude.{◌≡◌, ◌+◌, ◌<◌, ◌++◌, length, take, drop, get_or};
ghost use Rattle.acn_num.specs.Bits.{number, weight as weight_of};
ghost use Rattle.acn_grammar.specs.Asks.{same_name};
ghost use Rattle.acn_grammar.specs.Meets as meets;
ghost use Rattle.acn_grammar.specs.Spell.{octet_numbers};

use acn_grammar::Pattern;
use arrayvec::ArrayVec;

fn weight(bit: bool) -> u8
    ensures { result ≡ weight_of bit }
{
    if bit { 1 } else { 0 }
}

// The number that the bits of an octet spell.
fn octet(bits: &[bool]) -> u8
    requires { length bits.now ≡ 8 }
    ensures { result ≡ number bits.now }
{
    let mut octet = 0u8;
    for bit in bits {
        octet = octet * 2 + weight(*bit);
    }
    octet
}

// The octets of a terminator.
fn octets(end: &Pattern) -> ArrayVec<u8, 8>
    ensures { result.items ≡ octet_numbers end.now }
{
    let bits = end.bits();
    let mut octets = ArrayVec::new();
    for k in 0..bits.len() / 8 {
        octets.push(octet(&bits[8 * k..8 * k + 8]));
    }
    octets
}

// The octet at a place of a text and the terminator behind it.
fn octet_at(text: &[u8], end: &[u8], k: usize) -> u8
    requires { k < length text.now + length end.now }
    ensures { result ≡ get_or (text.now ++ end.now) k 0 }
{
    if k < text.len() {
        text[k]
    } else {
        end[k - text.len()]
    }
}

// Whether the terminator stands at a place of the text and the terminator behind it.
fn ends_at(end: &[u8], text: &[u8], i: usize) -> bool
    requires { i < length text.now }
    ensures { result ≡ same_name (take (length end.now) (drop i (text.now ++ end.now))) end.now }
{
    for k in 0..end.len() {
        if octet_at(text, end, i + k) != end[k] {
            return false;
        }
    }
    true
}

// The first place at which these octets end the text too early.
fn first_of_octets(end: &[u8], text: &[u8]) -> Option<usize>
    ensures { result ≡ meets.first_end end.now text.now }
{
    for i in 0..text.len() {
        if ends_at(end, text, i) {
            return Some(i);
        }
    }
    None
}

/// The first place of a text at which the terminator occurs in the text followed by it; none where it occurs first at the
/// text's end. (This profile's own.)
pub fn first_end(end: &Pattern, text: &[u8]) -> Option<usize>
    ensures { result ≡ meets.first_end (octet_numbers end.now) text.now }
{
    let end = octets(end);
    first_of_octets(end.as_slice(), text)
}
