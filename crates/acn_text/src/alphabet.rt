ghost use Rattle.std.specs.Prelude.{◌≡◌, ◌<◌, ◌≤◌, ◌≤ℤ◌, pos, true, int_le, IsTrue, MatchOption};
ghost use Rattle.acn_num.specs.Ranges as spec;
ghost use Rattle.acn_num.specs.Ranges.{In, AreRanges, all_within, has};
ghost use Rattle.acn_grammar.specs.Leaves.{text_fine};
ghost use Rattle.acn_grammar.specs.Spell.{place_in, character_number};
ghost use Rattle.acn_text.specs.Steps.{IsSmall, IsCharacter, NoCharacter};

use acn_grammar::TextLeaf;
use acn_num::RangeSet;

/// How far apart two numbers are.
fn distance(low: &i128, high: &i128) -> u64
    requires order { low.now ≤ℤ high.now }
    requires low { IsSmall low.now }
    requires high { IsSmall high.now }
    ensures { result ≡ spec.distance low.now high.now }
{
    (*high - *low) as u64
}

/// Whether the number is at most this one.
fn is_up_to(x: &i128, high: &i128) -> bool
    ensures { result ≡ int_le x.now high.now }
{
    *x <= *high
}

/// How many characters of an alphabet lie below one of them.
fn place_in_ranges(ranges: &[(i128, i128)], x: &i128) -> u64
    requires ranges { AreRanges ranges.now }
    requires small { all_within (pos 0) (pos 127) ranges.now ≡ true }
    requires permitted { In ranges.now x.now }
    ensures { result ≡ place_in ranges.now x.now }
{
    let mut below = 0u64;
    for range in ranges {
        if is_up_to(x, &range.1) {
            return below + distance(&range.0, x);
        }
        below += distance(&range.0, &range.1) + 1;
    }
    unreachable!()
}

/// Whether the number is in the set.
pub fn is_in(set: &RangeSet, n: u64) -> bool
    ensures { result ≡ has set.now (pos n) }
{
    set.holds(i128::from(n))
}

/// The number that stands for a character.
pub fn number_of(leaf: &TextLeaf, c: u8) -> u64
    requires fine { IsTrue (text_fine leaf.now) }
    requires permitted { In leaf.now.alphabet (pos c) }
    ensures { result ≡ character_number leaf.now c }
{
    if leaf.indexed {
        place_in_ranges(leaf.alphabet.ranges(), &i128::from(c))
    } else {
        u64::from(c)
    }
}

/// The character that a number stands for.
pub fn character_of(leaf: &TextLeaf, v: u64) -> Option<u8>
    requires fine { IsTrue (text_fine leaf.now) }
    ensures { MatchOption result (NoCharacter leaf.now v) (λ c. IsCharacter leaf.now c v) }
{
    let _ranges = leaf.alphabet.ranges();
    if leaf.indexed {
        match leaf.alphabet.nth(u128::from(v)) {
            Some(x) => Some(x as u8),
            None => None,
        }
    } else if is_in(&leaf.alphabet, v) {
        Some(v as u8)
    } else {
        None
    }
}
