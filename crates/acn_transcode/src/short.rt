//! Short texts.

ghost use Rattle.std.specs.Prelude.{◌≡◌, ◌≤◌, ◌+◌, ◌++◌, ◌∷◌, ℕ, List, IfSome, length, take, drop};
ghost use Rattle.json.specs.Print.{quoted};
ghost use Rattle.acn_transcode.specs.Short.{IsShort};

use acn_json::all_plain;

/// How many octets a short text has at most.
pub const MOST_SHORT: usize = 8;

/// A short text: so many of these octets, the first ones. All octets are put at once.
#[derive(Clone, Copy)]
pub struct Short {
    pub octets: [u8; MOST_SHORT],
    pub count: usize,
}

/// Puts octets over those at a place.
#[inline(always)]
pub fn put_over(text: &mut [u8], at: usize, octets: &[u8])
    requires { at + length octets.now ≤ length text.old }
    ensures { text.new ≡ take at text.old ++ octets.now ++ drop (at + length octets.now) text.old }
{
    text[at..at + octets.len()].copy_from_slice(octets);
}

/// A short text behind a minus sign, where both together are short.
#[inline(always)]
pub fn behind_minus(short: &Short) -> Option<Short>
    ensures { IfSome result (λ s. (text : List ℕ) → IsShort short.now text → IsShort s (45 ∷ text)) }
{
    if short.count >= MOST_SHORT {
        return None;
    }
    let mut octets = [b'-', 0, 0, 0, 0, 0, 0, 0];
    put_over(&mut octets, 1, &short.octets[..MOST_SHORT - 1]);
    Some(Short {
        octets,
        count: short.count + 1,
    })
}

/// The string of a name, where it is short and needs no escape.
pub fn short_name(name: &[u8]) -> Option<Short>
    ensures { IfSome result (λ short. IsShort short (quoted name.now)) }
{
    if name.len() > MOST_SHORT - 2 {
        return None;
    }
    if !all_plain(name) {
        return None;
    }
    let mut octets = [b'"', 0, 0, 0, 0, 0, 0, 0];
    put_over(&mut octets, 1, name);
    octets[1 + name.len()] = b'"';
    Some(Short {
        octets,
        count: name.len() + 2,
    })
}
