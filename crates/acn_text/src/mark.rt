ghost use Rattle.std.specs.Prelude.{◌≡◌, ◌+◌, ◌-◌, ◌*◌, ◌/◌, ◌%◌, ◌^◌, ◌<◌, ◌≤◌, IfOk, IfErr, OnOk, OnErr, length, take};
ghost use Rattle.acn_num.specs.Bits.{number};
ghost use Rattle.acn_bits.specs.Reading.{passed};
ghost use Rattle.acn_bits.specs.declared.word.TheConstants.{WORD_BITS};

use acn_bits::ReadCursor;
use acn_grammar::ReadFault;

/// The number that the bits of a window spell after the window went on by an octet.
pub fn next_seen(cur: &mut ReadCursor<'_>, width: u32, seen: u64) -> Result<u64, ReadFault>
    requires low { 8 ≤ width }
    requires high { width ≤ WORD_BITS }
    ensures seen { IfOk result (λ v. v ≡ seen % 2 ^ (width - 8) * 256 + number (take 8 cur.old.rest)) }
    ensures within { OnOk result (8 ≤ length cur.old.rest) }
    ensures moved { OnOk result (cur.new ≡ passed 8 cur.old) }
    ensures reason { IfErr result (λ e. e ≡ ReadFault.Short) }
    ensures short { OnErr result (length cur.old.rest < 8) }
    ensures kept { OnErr result (cur.new ≡ cur.old) }
{
    match cur.take(8) {
        Ok(octet) => Ok((seen % (1u64 << (width - 8))) * 256 + octet),
        Err(_) => Err(ReadFault::Short),
    }
}

/// The first octet of a window of some octets.
pub fn first_octet(width: u32, seen: u64) -> u64
    requires low { 8 ≤ width }
    requires high { width ≤ WORD_BITS }
    requires fits { seen < 2 ^ width }
    ensures value { result ≡ seen / 2 ^ (width - 8) }
    ensures small { result < 256 }
{
    seen >> (width - 8)
}
