//! Patterns that end lists.

ghost use Rattle.std.specs.Prelude.{◌≡◌, ◌≤◌, Some, List, Bool, true, false, length, pos, take, OnOk, IfErr};
ghost use Rattle.acn_num.specs.Ranges.{In, greatest};
ghost use Rattle.acn_bits.specs.Reading.{passed};
ghost use Rattle.acn_grammar.specs.Interval.{size_of};
ghost use Rattle.acn_num.specs.declared.limits.TheConstants.{MOST_SIZE};
ghost use Rattle.acn_grammar.specs.declared.node.SizeRule.TheVariants.{Ended};
ghost use Rattle.acn_reads.specs.Decoded.{IsFault, Tells};
ghost use Rattle.acn_reads.specs.Ends.{Unpermitted, Unended};
ghost use Rattle.acn_reads.specs.Steps.{Named};

use crate::leaves::named;
use crate::stop::Stop;
use acn_bits::ReadCursor;
use acn_grammar::{Pattern, ReadFault, SizeRule, Sizing};
use acn_ints::pattern_number;
use acn_num::MOST_SIZE;

/// Whether the pattern stands next.
pub fn stands(cur: &ReadCursor<'_>, end: &Pattern) -> bool
    ensures room { result ≡ true → length end.now ≤ length cur.now.rest }
    ensures there { result ≡ true → take (length end.now) cur.now.rest ≡ end.now }
    ensures away { result ≡ false → take (length end.now) cur.now.rest ≡ end.now → ⊥ }
{
    let bits = end.bits();
    let mut ahead = cur.copy();
    match ahead.take(bits.len() as u32) {
        Ok(v) => v == pattern_number(bits),
        Err(_) => false,
    }
}

fn size_at_most(x: &i128) -> u64
    ensures { result ≡ size_of (Some x.now) }
{
    if *x < 0 {
        0
    } else if *x > i128::from(MOST_SIZE) {
        u64::from(MOST_SIZE)
    } else {
        *x as u64
    }
}

/// The greatest size of a list.
pub fn most_of(sizing: &Sizing) -> u64
    ensures most { result ≡ size_of (greatest sizing.now.sizes) }
    ensures few { result ≤ MOST_SIZE }
{
    match sizing.sizes.greatest() {
        Some(x) => size_at_most(&x),
        None => 0,
    }
}

/// Passes the pattern behind so many elements, which stands next.
pub fn pass_end(
    cur: &mut ReadCursor<'_>,
    end: &Pattern,
    sizing: &Sizing,
    n: u64,
    inside: bool,
    from: u64,
) -> Result<(), Stop>
    requires room { length end.now ≤ length cur.old.rest }
    requires there { take (length end.now) cur.old.rest ≡ end.now }
    ensures permitted { OnOk result (In sizing.now.sizes (pos n)) }
    ensures moved { OnOk result (cur.new ≡ passed (length end.now) cur.old) }
    ensures fails { IfErr result (λ e. Tells e (Named inside from (Unpermitted end.now sizing.now n cur.old.rest))) }
    ensures fault { IfErr result IsFault }
{
    if sizing.sizes.holds_natural(n) {
        match cur.skip(end.bits().len() as u64) {
            Ok(()) => Ok(()),
            Err(_) => unreachable!(),
        }
    } else {
        Err(Stop::Fails {
            reason: named(inside, ReadFault::SizeOutOfRange { n }),
            at: from,
        })
    }
}

/// No more elements may come, and the pattern doesn't stand next.
pub fn no_end(cur: &ReadCursor<'_>, end: &Pattern, inside: bool, from: u64) -> Stop
    requires { take (length end.now) cur.now.rest ≡ end.now → ⊥ }
    ensures fails { Tells result (Named inside from (Unended end.now cur.now.rest)) }
    ensures fault { IsFault result }
{
    if cur.left() < end.bits().len() as u64 {
        Stop::Fails {
            reason: named(inside, ReadFault::Short),
            at: from,
        }
    } else {
        Stop::Fails {
            reason: named(inside, ReadFault::TooLong),
            at: from,
        }
    }
}

/// The pattern of a list that one ends.
pub fn pattern_of(rule: &SizeRule) -> &Pattern
    requires { (p : List Bool) × (rule.now ≡ Ended p) }
    ensures { rule.now ≡ Ended result.now }
{
    match rule {
        SizeRule::Ended(end) => end,
        SizeRule::Prefix { .. } => unreachable!(),
        SizeRule::Slot(_) => unreachable!(),
    }
}
