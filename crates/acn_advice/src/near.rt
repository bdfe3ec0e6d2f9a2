//! Names that are near to one that is misspelled.

ghost use Rattle.std.specs.Prelude.{◌≤◌, length};

// So many letters of a name may be others.
const MOST_OTHERS: usize = 2;

// A letter, whether it is a capital or not.
fn letter(byte: u8) -> u8 {
    byte.to_ascii_lowercase()
}

// How many letters at the front are the same.
fn same_front(one: &[u8], other: &[u8]) -> usize
    ensures one { result ≤ length one.now }
    ensures other { result ≤ length other.now }
{
    let most = one.len().min(other.len());
    for i in 0..most {
        if letter(one[i]) != letter(other[i]) {
            return i;
        }
    }
    most
}

// How many letters at the end are the same.
fn same_end(one: &[u8], other: &[u8]) -> usize {
    let most = one.len().min(other.len());
    for i in 0..most {
        if letter(one[one.len() - 1 - i]) != letter(other[other.len() - 1 - i]) {
            return i;
        }
    }
    most
}

// Whether two letters are those of the other, turned round.
fn are_turned(one: &[u8], other: &[u8]) -> bool {
    match (one, other) {
        ([a, b], [c, d]) => letter(*a) == letter(*d) && letter(*b) == letter(*c),
        _ => false,
    }
}

// What is left without so many letters at the end.
fn without_end(text: &[u8], end: usize) -> &[u8] {
    text.get(..text.len().saturating_sub(end)).unwrap_or(text)
}

// How many letters differ between what is the same at the front and at the end. Two that are turned
// round are one.
fn others(one: &[u8], other: &[u8]) -> usize {
    let front = same_front(one, other);
    let one_rest = &one[front..];
    let other_rest = &other[front..];
    let end = same_end(one_rest, other_rest);
    let one_rest = without_end(one_rest, end);
    let other_rest = without_end(other_rest, end);
    if are_turned(one_rest, other_rest) {
        return 1;
    }
    one_rest.len().max(other_rest.len())
}

/// The name that differs the least from another, if it differs in `MOST_OTHERS` letters at most,
/// and in fewer than half of them.
pub fn nearest<'a>(name: &[u8], names: &[&'a [u8]]) -> Option<&'a [u8]> {
    let mut best = None;
    let mut least = MOST_OTHERS.saturating_add(1);
    for known in names {
        let differ = others(name, *known);
        let most = name.len().max(known.len());
        if differ < least && differ.saturating_mul(2) < most {
            least = differ;
            best = Some(*known);
        }
    }
    best
}
