//! Keys of members that are put at once.

ghost use Rattle.std.specs.Prelude.{◌≡◌, ◌≤◌, ◌+◌, ◌++◌, length, take, drop};
ghost use Rattle.acn_lines.specs.Keys as spec;

/// How many octets a short key has at most, with the comma in front of it and the colon behind it.
pub const MOST_KEY: usize = 32;

/// How many octets are put at once for a short key, and for a value of eight octets behind it.
pub const KEY_ROOM: usize = 40;

/// A short key as it stands behind a comma, with its colon: so many of these octets, the first
/// ones. Behind them are zeros, so that all octets can be put at once.
#[derive(Clone, Copy)]
pub struct ShortKey {
    pub octets: [u8; KEY_ROOM],
    pub count: usize,
}

// Copies all the octets to a place.
fn copy_to(octets: &mut [u8], at: usize, from: &[u8])
    requires { at + length from.now ≤ length octets.old }
    ensures { octets.new ≡ take at octets.old ++ from.now ++ drop (at + length from.now) octets.old }
{
    octets[at..at + from.len()].copy_from_slice(from);
}

/// The short key of a key with its colon, where it has room.
pub fn short_of(key: &[u8]) -> Option<ShortKey>
    ensures { result ≡ spec.short_of key.now }
{
    if key.len() >= MOST_KEY {
        return None;
    }
    let mut octets = [0; KEY_ROOM];
    octets[0] = b',';
    copy_to(&mut octets, 1, key);
    Some(ShortKey {
        octets,
        count: 1 + key.len(),
    })
}
