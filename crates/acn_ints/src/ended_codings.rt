ghost use Rattle.std.specs.Prelude.{◌≡◌, ◌≤◌, ◌<◌, ◌^◌, true, false, length, IfOk, IfErr, OnErr};
ghost use Rattle.acn_grammar.specs.Images.{images_of};
ghost use Rattle.acn_grammar.specs.LeafFails.{most_digits};
ghost use Rattle.acn_grammar.specs.ReadFaults.{reason_of};
ghost use Rattle.acn_grammar.specs.declared.node.NumLeaf.{NumLeaf};
ghost use Rattle.acn_grammar.specs.declared.node.NumCoding.TheVariants.{BcdEnded, Ascii, AsciiEnded};
ghost use Rattle.acn_ints.specs.EndedReads.{PassedSign, SignWrong, IsSignedValue};
ghost use Rattle.acn_ints.specs.FixedReads.{FixedSaid, FixedWrong};
ghost use Rattle.acn_ints.specs.Limits.{IsNear, SignedDigitsFit, EndFits, CodingFits};
ghost use Rattle.acn_bits.specs.Reading.{Stays};
ghost use Rattle.acn_ints.specs.Reads.{IsSaid, Refuses};

use crate::digits::{read_ascii, read_digits};
use crate::ended::{Ended, read_ended};
use crate::fixed::bits_of;
use crate::said::Said;
use acn_bits::ReadCursor;
use acn_grammar::{Pattern, ReadFault};

/// Whether a minus stands next, or a plus.
fn take_sign(cur: &mut ReadCursor<'_>) -> Result<bool, ReadFault>
    ensures sign { IfOk result (λ negative. PassedSign cur.old cur.new negative) }
    ensures wrong { IfErr result (λ e. SignWrong cur.old.rest (reason_of e)) }
    ensures stays { OnErr result (Stays cur.old cur.new) }
{
    match bits_of(cur, 8) {
        Ok(v) => {
            if v == 43 {
                Ok(false)
            } else if v == 45 {
                Ok(true)
            } else {
                Err(ReadFault::BadDigit)
            }
        }
        Err(fault) => Err(fault),
    }
}

/// The number of digits behind a sign, or no sign.
fn with_sign(digits: Ended, negative: bool) -> Result<Said, ReadFault>
    requires { digits.magnitude < 10 ^ 20 }
    ensures near { IfOk result (λ s. IsNear s.image) }
    ensures wire { IfOk result (λ s. IsSignedValue negative digits.minimal digits.magnitude s.wire) }
    ensures image { IfOk result (λ s. IsSignedValue negative digits.minimal digits.magnitude s.image) }
    ensures wrong { IfErr result (λ e. (e ≡ ReadFault.NotMinimal) × (digits.minimal ≡ true → (negative ≡ true → 0 < digits.magnitude) → ⊥)) }
{
    if !digits.minimal {
        return Err(ReadFault::NotMinimal);
    }
    let magnitude = digits.magnitude as i128;
    if !negative {
        return Ok(Said {
            wire: magnitude,
            image: magnitude,
        });
    }
    if digits.magnitude == 0 {
        return Err(ReadFault::NotMinimal);
    }
    Ok(Said {
        wire: -magnitude,
        image: -magnitude,
    })
}

/// Decimal digits of four bits, and four ones behind them.
pub fn read_bcd_ended(cur: &mut ReadCursor<'_>, most: u32) -> Result<Said, ReadFault>
    requires { most ≤ 20 }
    ensures near { IfOk result (λ s. IsNear s.image) }
    ensures said { IfOk result (λ s. (leaf : NumLeaf) → most_digits (images_of leaf) ≡ most → IsSaid BcdEnded leaf cur.old cur.new s.wire s.image) }
    ensures wrong { IfErr result (λ e. (leaf : NumLeaf) → most_digits (images_of leaf) ≡ most → Refuses BcdEnded leaf cur.old.rest (reason_of e)) }
    ensures stays { OnErr result (Stays cur.old cur.new) }
{
    let end = [true, true, true, true];
    match read_ended(cur, 4, 0, &end, most) {
        Ok(digits) => with_sign(digits, false),
        Err(fault) => Err(fault),
    }
}

/// Decimal digits of an octet each, and a terminator behind them.
fn read_ascii_ended(cur: &mut ReadCursor<'_>, end: &Pattern, most: u32) -> Result<Said, ReadFault>
    requires most { most ≤ 20 }
    requires end { EndFits end.now }
    ensures near { IfOk result (λ s. IsNear s.image) }
    ensures said { IfOk result (λ s. (leaf : NumLeaf) → most_digits (images_of leaf) ≡ most → IsSaid (AsciiEnded end.now false) leaf cur.old cur.new s.wire s.image) }
    ensures wrong { IfErr result (λ e. (leaf : NumLeaf) → most_digits (images_of leaf) ≡ most → Refuses (AsciiEnded end.now false) leaf cur.old.rest (reason_of e)) }
    ensures stays { OnErr result (Stays cur.old cur.new) }
{
    match read_ended(cur, 8, 48, end.bits(), most) {
        Ok(digits) => with_sign(digits, false),
        Err(fault) => Err(fault),
    }
}

/// A sign octet, decimal digits of an octet each, and a terminator behind them.
fn read_signed_ended(cur: &mut ReadCursor<'_>, end: &Pattern, most: u32) -> Result<Said, ReadFault>
    requires most { most ≤ 20 }
    requires end { EndFits end.now }
    ensures near { IfOk result (λ s. IsNear s.image) }
    ensures said { IfOk result (λ s. (leaf : NumLeaf) → most_digits (images_of leaf) ≡ most → IsSaid (AsciiEnded end.now true) leaf cur.old cur.new s.wire s.image) }
    ensures wrong { IfErr result (λ e. (leaf : NumLeaf) → most_digits (images_of leaf) ≡ most → Refuses (AsciiEnded end.now true) leaf cur.old.rest (reason_of e)) }
    ensures stays { OnErr result (Stays cur.old cur.new) }
{
    match take_sign(cur) {
        Ok(negative) => match read_ended(cur, 8, 48, end.bits(), most) {
            Ok(digits) => with_sign(digits, negative),
            Err(fault) => Err(fault),
        },
        Err(fault) => Err(fault),
    }
}

/// A sign octet and decimal digits of an octet each, n bits together.
fn read_ascii_signed(cur: &mut ReadCursor<'_>, n: u32, little: bool) -> Result<Said, ReadFault>
    requires { SignedDigitsFit n }
    ensures near { IfOk result (λ s. IsNear s.image) }
    ensures said { IfOk result (λ s. FixedSaid (Ascii n true) little n cur.old cur.new s.wire s.image) }
    ensures wrong { IfErr result (λ e. FixedWrong (Ascii n true) little n cur.old cur.new (reason_of e)) }
{
    let _little = little;
    if u64::from(n) > cur.left() {
        return Err(ReadFault::Short);
    }
    match take_sign(cur) {
        Ok(negative) => match read_digits(cur, 48, 8, n / 8 - 1) {
            Some(x) => {
                let digits = Ended {
                    magnitude: u128::from(x),
                    minimal: true,
                };
                with_sign(digits, negative)
            }
            None => Err(ReadFault::BadDigit),
        },
        Err(fault) => Err(fault),
    }
}

/// Decimal digits of an octet each, n bits together, behind the octet of a sign where there is one.
pub fn read_characters(
    cur: &mut ReadCursor<'_>,
    n: u32,
    signed: bool,
    little: bool,
) -> Result<Said, ReadFault>
    requires { CodingFits (Ascii n signed) little }
    ensures near { IfOk result (λ s. IsNear s.image) }
    ensures said { IfOk result (λ s. FixedSaid (Ascii n signed) little n cur.old cur.new s.wire s.image) }
    ensures wrong { IfErr result (λ e. FixedWrong (Ascii n signed) little n cur.old cur.new (reason_of e)) }
{
    if signed {
        read_ascii_signed(cur, n, little)
    } else {
        read_ascii(cur, n, little)
    }
}

/// Decimal digits of an octet each and a terminator behind them, behind the octet of a sign where there is one.
pub fn read_characters_ended(
    cur: &mut ReadCursor<'_>,
    end: &Pattern,
    signed: bool,
    most: u32,
) -> Result<Said, ReadFault>
    requires most { most ≤ 20 }
    requires end { EndFits end.now }
    ensures near { IfOk result (λ s. IsNear s.image) }
    ensures said { IfOk result (λ s. (leaf : NumLeaf) → most_digits (images_of leaf) ≡ most → IsSaid (AsciiEnded end.now signed) leaf cur.old cur.new s.wire s.image) }
    ensures wrong { IfErr result (λ e. (leaf : NumLeaf) → most_digits (images_of leaf) ≡ most → Refuses (AsciiEnded end.now signed) leaf cur.old.rest (reason_of e)) }
    ensures stays { OnErr result (Stays cur.old cur.new) }
{
    if signed {
        read_signed_ended(cur, end, most)
    } else {
        read_ascii_ended(cur, end, most)
    }
}
