//! What is left of a line, and what is passed over.

ghost use Rattle.std.specs.Prelude.{◌≡◌, ◌<◌, ◌≤◌, ◌-◌, ◌++◌, ◌∷◌, ◌&&◌, ◌==◌, not, nat_lt, ℕ, IfSome, IsTrue, IsFalse, take, drop, length, slice_index};
ghost use Rattle.std.specs.List.{list_all};
ghost use Rattle.std.specs.Int.{w32, w64, from_le_bytes};
ghost use Rattle.json.specs.Print.{quoted};
ghost use Rattle.serde_json.specs.Written.{comma_if};

use memchr::memchr;

// The first four octets as a word.
#[inline(always)]
fn first_four(octets: &[u8]) -> u32
    requires { 4 ≤ length octets.now }
    ensures { result ≡ from_le_bytes w32 (take 4 octets.now) }
{
    match octets.first_chunk::<4>() {
        Some(four) => u32::from_le_bytes(*four),
        None => unreachable!(),
    }
}

// The last four octets as a word.
#[inline(always)]
fn last_four(octets: &[u8]) -> u32
    requires { 4 ≤ length octets.now }
    ensures { result ≡ from_le_bytes w32 (drop (length octets.now - 4) octets.now) }
{
    match octets.last_chunk::<4>() {
        Some(four) => u32::from_le_bytes(*four),
        None => unreachable!(),
    }
}

// The first eight octets as a word.
#[inline(always)]
fn first_eight(octets: &[u8]) -> u64
    requires { 8 ≤ length octets.now }
    ensures { result ≡ from_le_bytes w64 (take 8 octets.now) }
{
    match octets.first_chunk::<8>() {
        Some(eight) => u64::from_le_bytes(*eight),
        None => unreachable!(),
    }
}

// The last eight octets as a word.
#[inline(always)]
fn last_eight(octets: &[u8]) -> u64
    requires { 8 ≤ length octets.now }
    ensures { result ≡ from_le_bytes w64 (drop (length octets.now - 8) octets.now) }
{
    match octets.last_chunk::<8>() {
        Some(eight) => u64::from_le_bytes(*eight),
        None => unreachable!(),
    }
}

// Octets are small numbers.
#[inline(always)]
fn octets_are_small(octets: &[u8])
    ensures { (i : ℕ) → slice_index octets.now i < 256 }
{
    let _octets = octets;
}

// Whether two runs of one length are the same. Most keys are as long as two words or less, which
// may overlap: these are compared without a call.
#[inline(always)]
fn is_same_run(left: &[u8], right: &[u8]) -> bool
    requires { length left.now ≡ length right.now }
    ensures { IsTrue result → left.now ≡ right.now }
{
    octets_are_small(left);
    octets_are_small(right);
    let size = right.len();
    if size < 4 || 16 < size {
        return left == right;
    }
    if size < 8 {
        first_four(left) == first_four(right) && last_four(left) == last_four(right)
    } else {
        first_eight(left) == first_eight(right) && last_eight(left) == last_eight(right)
    }
}

/// What stands behind these octets.
#[inline(always)]
pub fn behind<'a>(text: &'a [u8], octets: &[u8]) -> Option<&'a [u8]>
    ensures { IfSome result (λ rest. text.now ≡ octets.now ++ rest.now) }
{
    if text.len() < octets.len() {
        return None;
    }
    let (front, rest) = text.split_at(octets.len());
    if is_same_run(front, octets) {
        Some(rest)
    } else {
        None
    }
}

/// 1 for each character that stands for itself in a string, and 0 for each other octet.
#[rattlefmt::skip]
const PLAIN_CHARACTERS: [u8; 256] = [
    0, 0, 0, 0, 0, 0, 0, 0, 0, 0, 0, 0, 0, 0, 0, 0, 0, 0, 0, 0, 0, 0, 0, 0, 0, 0, 0, 0, 0, 0, 0, 0,
    1, 1, 0, 1, 1, 1, 1, 1, 1, 1, 1, 1, 1, 1, 1, 1, 1, 1, 1, 1, 1, 1, 1, 1, 1, 1, 1, 1, 1, 1, 1, 1,
    1, 1, 1, 1, 1, 1, 1, 1, 1, 1, 1, 1, 1, 1, 1, 1, 1, 1, 1, 1, 1, 1, 1, 1, 1, 1, 1, 1, 0, 1, 1, 1,
    1, 1, 1, 1, 1, 1, 1, 1, 1, 1, 1, 1, 1, 1, 1, 1, 1, 1, 1, 1, 1, 1, 1, 1, 1, 1, 1, 1, 1, 1, 1, 1,
    0, 0, 0, 0, 0, 0, 0, 0, 0, 0, 0, 0, 0, 0, 0, 0, 0, 0, 0, 0, 0, 0, 0, 0, 0, 0, 0, 0, 0, 0, 0, 0,
    0, 0, 0, 0, 0, 0, 0, 0, 0, 0, 0, 0, 0, 0, 0, 0, 0, 0, 0, 0, 0, 0, 0, 0, 0, 0, 0, 0, 0, 0, 0, 0,
    0, 0, 0, 0, 0, 0, 0, 0, 0, 0, 0, 0, 0, 0, 0, 0, 0, 0, 0, 0, 0, 0, 0, 0, 0, 0, 0, 0, 0, 0, 0, 0,
    0, 0, 0, 0, 0, 0, 0, 0, 0, 0, 0, 0, 0, 0, 0, 0, 0, 0, 0, 0, 0, 0, 0, 0, 0, 0, 0, 0, 0, 0, 0, 0,
];

// Whether an octet is a character that stands for itself in a string.
#[inline(always)]
fn is_plain(c: u8) -> bool
    ensures { result ≡ (nat_lt c 128 && (nat_lt 31 c && (not (c == 34) && not (c == 92)))) }
{
    PLAIN_CHARACTERS[c as usize] != 0
}

// So many characters that stand for themselves come first.
#[inline(always)]
fn plain_front(text: &[u8]) -> usize
    ensures within { result ≤ length text.now }
    ensures plain { IsTrue (list_all (λ c. nat_lt c 128 && (nat_lt 31 c && (not (c == 34) && not (c == 92)))) (take result text.now)) }
{
    let mut at = 0;
    while at < text.len() {
        if !is_plain(text[at]) {
            return at;
        }
        at += 1;
    }
    at
}

/// What is left of a line.
#[derive(Drop)]
pub struct Rest<'a> {
    pub text: &'a [u8],
}

impl<'a> Rest<'a> {
    /// Passes over an octet, if it comes next.
    pub fn pass(&mut self, octet: u8) -> bool
        ensures passed { IsTrue result → self.old.text.now ≡ octet ∷ self.new.text.now }
        ensures stays { IsFalse result → self.new.text.now ≡ self.old.text.now }
    {
        let text = self.text;
        if text.is_empty() || text[0] != octet {
            return false;
        }
        self.text = &text[1..];
        true
    }

    /// Passes over these octets, if they come next.
    pub fn pass_all(&mut self, octets: &[u8]) -> bool
        ensures passed { IsTrue result → self.old.text.now ≡ octets.now ++ self.new.text.now }
        ensures stays { IsFalse result → self.new.text.now ≡ self.old.text.now }
    {
        match behind(self.text, octets) {
            Some(rest) => {
                self.text = rest;
                true
            }
            None => false,
        }
    }

    /// Passes over a comma, where one is wanted, and a key, if they come next.
    pub fn pass_key(&mut self, later: bool, key: &[u8]) -> bool
        ensures passed { IsTrue result → self.old.text.now ≡ comma_if later ++ (key.now ++ self.new.text.now) }
        ensures stays { IsFalse result → self.new.text.now ≡ self.old.text.now }
    {
        if later {
            self.pass_later(key)
        } else {
            self.pass_all(key)
        }
    }

    // Passes over a comma and a key.
    fn pass_later(&mut self, key: &[u8]) -> bool
        ensures passed { IsTrue result → self.old.text.now ≡ 44 ∷ (key.now ++ self.new.text.now) }
        ensures stays { IsFalse result → self.new.text.now ≡ self.old.text.now }
    {
        let text = self.text;
        if text.is_empty() || text[0] != b',' {
            return false;
        }
        match behind(&text[1..], key) {
            Some(rest) => {
                self.text = rest;
                true
            }
            None => false,
        }
    }

    /// Passes over a string, and answers what stands between its quotes.
    pub fn string(&mut self) -> Option<&'a [u8]>
        ensures { IfSome result (λ inside. self.old.text.now ≡ 34 ∷ (inside.now ++ 34 ∷ self.new.text.now)) }
    {
        let inside = behind(self.text, b"\"")?;
        let end = memchr(b'"', inside)?;
        let (front, closing) = inside.split_at(end);
        self.text = &closing[1..];
        Some(front)
    }

    // Passes over a string of characters that stand for themselves.
    #[inline(always)]
    fn characters(&mut self) -> Option<&'a [u8]>
        ensures text { IfSome result (λ inside. self.old.text.now ≡ 34 ∷ (inside.now ++ 34 ∷ self.new.text.now)) }
        ensures plain { IfSome result (λ inside. IsTrue (list_all (λ c. nat_lt c 128 && (nat_lt 31 c && (not (c == 34) && not (c == 92)))) inside.now)) }
    {
        let inside = behind(self.text, b"\"")?;
        let size = plain_front(inside);
        let (front, closing) = inside.split_at(size);
        if closing.is_empty() || closing[0] != b'"' {
            return None;
        }
        self.text = &closing[1..];
        Some(front)
    }

    /// Passes over a string of characters that stand for themselves, and answers these.
    #[inline]
    pub fn plain_string(&mut self) -> Option<&'a [u8]>
        ensures text { IfSome result (λ inside. self.old.text.now ≡ quoted inside.now ++ self.new.text.now) }
        ensures said { IfSome result (λ inside. IsTrue (list_all (λ c. nat_lt c 128) inside.now)) }
    {
        let inside = self.characters()?;
        Some(inside)
    }
}
