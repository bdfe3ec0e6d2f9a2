//! Words that are routes.

ghost use Rattle.std.specs.Prelude.{◌≡◌, ◌<◌, length, true, false, map, string_bytes, slice_get, MatchOption, Some};
ghost use Rattle.std.specs.List.{list_all};
ghost use Rattle.acn_words.specs.Routes as spec;

use crate::routes::{apid_of, has_apid, is_route};

fn all_are_routes(words: &[String]) -> bool
    ensures { result ≡ list_all spec.is_route (map string_bytes words.now) }
{
    for word in words {
        if !is_route(word.as_str().as_bytes()) {
            return false;
        }
    }
    true
}

fn apids_differ(routes: &[String]) -> bool
    ensures { result ≡ spec.apids_differ (map string_bytes routes.now) }
{
    let mut rest = routes;
    while let [word, behind @ ..] = rest {
        if has_apid(behind, apid_of(word.as_str().as_bytes())) {
            return false;
        }
        rest = behind;
    }
    true
}

fn are_routes(words: &[String]) -> bool
    ensures { result ≡ spec.are_routes (map string_bytes words.now) }
{
    match words {
        [] => false,
        [_, ..] => all_are_routes(words) && apids_differ(words),
    }
}

/// One or more words that are routes, no two of them of one application process.
#[derive(Clone, Copy)]
pub struct RouteWords<'a> {
    words: &'a [String],
    ghost are_routes: { spec.are_routes (map string_bytes words.now) ≡ true },
}

impl<'a> RouteWords<'a> {
    /// The routes that words are. None exactly where they are none.
    pub fn of_words(words: &'a [String]) -> Option<RouteWords<'a>>
        ensures { MatchOption result (spec.are_routes (map string_bytes words.now) ≡ false) (λ r. (spec.are_routes (map string_bytes words.now) ≡ true) × (r.words.now ≡ words.now)) }
    {
        if are_routes(words) {
            Some(RouteWords { words })
        } else {
            None
        }
    }

    /// How many there are.
    pub fn count(&self) -> usize
        ensures count { result ≡ length self.now.words.now }
        ensures are { spec.are_routes (map string_bytes self.now.words.now) ≡ true }
    {
        self.words.len()
    }

    /// One of the words.
    pub fn word(&self, i: usize) -> &'a String
        requires { i < length self.now.words.now }
        ensures word { slice_get self.now.words.now i ≡ Some result.now }
        ensures route { spec.is_route (string_bytes result.now) ≡ true }
    {
        &self.words[i]
    }
}
