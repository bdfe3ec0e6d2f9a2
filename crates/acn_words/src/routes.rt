//! The words of a command that name application processes.

ghost use Rattle.std.specs.Prelude.{◌≡◌, ◌+◌, ◌≤◌, ◌<◌, ◌∷◌, length, take, drop, true, false, map, string_bytes, slice_get, option_map, MatchOption, Some, IsTrue};
ghost use Rattle.std.specs.List.{list_all};
ghost use Rattle.acn_words.specs.Routes as spec;
ghost use Rattle.acn_words.specs.View.{route_view};

use crate::names::{TypeName, type_named};
use crate::route_words::RouteWords;
use acn_lex::number_of;

/// The greatest number of an application process: eleven bits (CCSDS 133.0-B-2, 4.1.3.3.4.4).
pub const MOST_APID: u64 = 2047;

/// The application process that packets are of, and their type.
#[derive(Clone, Copy)]
pub struct Route<'a> {
    /// The number of the application process, at most `MOST_APID`.
    pub apid: u32,
    /// The type of its packets.
    pub of: TypeName<'a>,
}

// The place of the first equals sign, or the end.
fn sign_at(bytes: &[u8]) -> usize
    ensures value { result ≡ spec.sign_at bytes.now }
    ensures inside { result ≤ length bytes.now }
{
    for (i, b) in bytes.iter().enumerate() {
        if *b == b'=' {
            return i;
        }
    }
    bytes.len()
}

fn apid_before(word: &[u8]) -> &[u8]
    ensures { result.now ≡ spec.apid_before word.now }
{
    &word[..sign_at(word)]
}

fn type_behind(word: &[u8]) -> &[u8]
    ensures { result.now ≡ spec.type_behind word.now }
{
    let sign = sign_at(word);
    if sign < word.len() {
        &word[sign + 1..]
    } else {
        &[]
    }
}

fn apid_in(word: &[u8]) -> Option<u32>
    ensures { result ≡ spec.apid_in word.now }
{
    let apid = number_of(apid_before(word))?;
    if apid <= MOST_APID {
        Some(apid as u32)
    } else {
        None
    }
}

/// The route that a word names: the number of an application process in digits without a leading zero, an equals sign, and a type. None
/// exactly for other words.
pub fn route_named(word: &[u8]) -> Option<Route<'_>>
    ensures { MatchOption result (spec.is_route word.now ≡ false) (λ r. (spec.is_route word.now ≡ true) × (route_view r ≡ spec.route_of word.now)) }
{
    let apid = apid_in(word)?;
    let of = type_named(type_behind(word))?;
    Some(Route { apid, of })
}

/// Whether a word is a route.
pub fn is_route(word: &[u8]) -> bool
    ensures { result ≡ spec.is_route word.now }
{
    route_named(word).is_some()
}

/// How many words in front are routes.
pub fn count_routes(words: &[String]) -> usize
    ensures value { result ≡ spec.count_routes (map string_bytes words.now) }
    ensures inside { result ≤ length words.now }
{
    for (i, word) in words.iter().enumerate() {
        if !is_route(word.as_str().as_bytes()) {
            return i;
        }
    }
    words.len()
}

/// The number of the application process of a route.
pub fn apid_of(word: &[u8]) -> u32
    ensures { result ≡ spec.apid_of word.now }
{
    apid_in(word).unwrap_or(0)
}

/// Whether one of the routes is of this application process.
pub fn has_apid(routes: &[String], apid: u32) -> bool
    ensures { result ≡ spec.has_apid apid (map string_bytes routes.now) }
{
    for word in routes {
        if apid_of(word.as_str().as_bytes()) == apid {
            return true;
        }
    }
    false
}

/// The route of a word among these.
pub fn route_at<'a>(routes: &RouteWords<'a>, i: usize) -> Route<'a>
    requires { i < length routes.now.words.now }
    ensures { slice_get (map spec.route_of (map string_bytes routes.now.words.now)) i ≡ Some (route_view result) }
{
    route_named(routes.word(i).as_str().as_bytes()).unwrap()
}
