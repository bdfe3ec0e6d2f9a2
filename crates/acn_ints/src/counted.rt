ghost use Rattle.std.specs.Prelude.{◌≡◌, ◌≤◌, ◌<◌, ◌^◌, ◌*◌, ◌&&◌, int_le, int_lt, neg_ℤ, pos, ℕ, ℤ, IfOk, IfErr, OnErr};
ghost use Rattle.acn_grammar.specs.declared.node.NumLeaf.{NumLeaf};
ghost use Rattle.acn_grammar.specs.declared.node.NumCoding.TheVariants.{CountedFrom, CountedSigned, Twos};
ghost use Rattle.acn_grammar.specs.Length.{least_octets, least_signed_octets};
ghost use Rattle.acn_ints.specs.Limits.{CanWrite};
ghost use Rattle.acn_grammar.specs.ReadFaults.{reason_of};
ghost use Rattle.acn_ints.specs.Limits.{IsNear, IsEnd};
ghost use Rattle.acn_ints.specs.FixedReads.{Taken};
ghost use Rattle.acn_bits.specs.Reading.{Stays};
ghost use Rattle.acn_ints.specs.Reads.{IsSaid, Refuses};
ghost use Rattle.acn_ints.specs.Counts.{CountWrong, IsCount};

use crate::fixed::bits_of;
use crate::ordered::twos;
use crate::said::Said;
use acn_bits::ReadCursor;
use acn_grammar::ReadFault;

/// The least count of octets that holds the number, at least 1.
pub fn octets_for(v: u64) -> u32
    ensures least { result ≡ least_octets v }
    ensures some { 0 < result }
    ensures few { result ≤ 8 }
    ensures fits { v < 2 ^ (8 * result) }
{
    if v < 1 << 8 {
        1
    } else if v < 1 << 16 {
        2
    } else if v < 1 << 24 {
        3
    } else if v < 1 << 32 {
        4
    } else if v < 1 << 40 {
        5
    } else if v < 1 << 48 {
        6
    } else if v < 1 << 56 {
        7
    } else {
        8
    }
}

/// The octet of a count.
fn take_count(cur: &mut ReadCursor<'_>) -> Result<u32, ReadFault>
    ensures count { IfOk result (λ c. IsCount cur.old cur.new c) }
    ensures wrong { IfErr result (λ e. CountWrong cur.old.rest (reason_of e)) }
    ensures stays { OnErr result (Stays cur.old cur.new) }
{
    match bits_of(cur, 8) {
        Ok(c) => {
            if c == 0 {
                Err(ReadFault::NotMinimal)
            } else if c > 8 {
                Err(ReadFault::TooLong)
            } else {
                Ok(c as u32)
            }
        }
        Err(fault) => Err(fault),
    }
}

/// An offset in the least count of octets.
pub fn read_counted_from(cur: &mut ReadCursor<'_>, low: &i128) -> Result<Said, ReadFault>
    requires { IsEnd low.now }
    ensures near { IfOk result (λ s. IsNear s.image) }
    ensures said { IfOk result (λ s. (leaf : NumLeaf) → IsSaid (CountedFrom low.now) leaf cur.old cur.new s.wire s.image) }
    ensures wrong { IfErr result (λ e. (leaf : NumLeaf) → Refuses (CountedFrom low.now) leaf cur.old.rest (reason_of e)) }
    ensures stays { OnErr result (Stays cur.old cur.new) }
{
    match take_count(cur) {
        Ok(c) => match bits_of(cur, 8 * c) {
            Ok(v) => {
                if octets_for(v) < c {
                    Err(ReadFault::NotMinimal)
                } else {
                    Ok(Said {
                        wire: i128::from(v),
                        image: *low + i128::from(v),
                    })
                }
            }
            Err(fault) => Err(fault),
        },
        Err(fault) => Err(fault),
    }
}

/// The least count of octets of two's complement that holds the number, at least 1.
pub fn signed_octets_for(y: &i128) -> u32
    ensures least { result ≡ least_signed_octets y.now }
    ensures some { 0 < result }
    ensures few { result ≤ 8 }
    ensures fits { CanWrite CountedSigned y.now → CanWrite (Twos (8 * result)) y.now }
{
    if fits_octets(y, 1 << 7) {
        1
    } else if fits_octets(y, 1 << 15) {
        2
    } else if fits_octets(y, 1 << 23) {
        3
    } else if fits_octets(y, 1 << 31) {
        4
    } else if fits_octets(y, 1 << 39) {
        5
    } else if fits_octets(y, 1 << 47) {
        6
    } else if fits_octets(y, 1 << 55) {
        7
    } else {
        8
    }
}

/// Whether the number lies between these halves.
fn fits_octets(y: &i128, half: u64) -> bool
    requires { half < 2 ^ 60 }
    ensures { result ≡ (int_le (neg_ℤ (pos half)) y.now && int_lt y.now (pos half)) }
{
    -i128::from(half) <= *y && *y < i128::from(half)
}

/// A number in two's complement in the least count of octets.
pub fn read_counted_signed(cur: &mut ReadCursor<'_>) -> Result<Said, ReadFault>
    ensures near { IfOk result (λ s. IsNear s.image) }
    ensures said { IfOk result (λ s. (leaf : NumLeaf) → IsSaid CountedSigned leaf cur.old cur.new s.wire s.image) }
    ensures wrong { IfErr result (λ e. (leaf : NumLeaf) → Refuses CountedSigned leaf cur.old.rest (reason_of e)) }
    ensures stays { OnErr result (Stays cur.old cur.new) }
{
    match take_count(cur) {
        Ok(c) => match bits_of(cur, 8 * c) {
            Ok(v) => {
                let y = twos(v, 8 * c);
                if signed_octets_for(&y) < c {
                    Err(ReadFault::NotMinimal)
                } else {
                    Ok(Said { wire: y, image: y })
                }
            }
            Err(fault) => Err(fault),
        },
        Err(fault) => Err(fault),
    }
}
