//! The octets of contents.

ghost use Rattle.std.specs.Prelude.{◌≡◌, ◌≤◌, ◌++◌, OnOk};
ghost use Rattle.acn_num.specs.Bits.{octets as octets_for};
ghost use Rattle.acn_num.specs.declared.limits.TheConstants.{MOST_SIZE};
ghost use Rattle.acn_grammar.specs.Length.{bit_length};
ghost use Rattle.acn_grammar.specs.View.{data_of, grammar_of};
ghost use Rattle.acn_lengths.specs.Measured.{CanMeasure};
ghost use Rattle.acn_plain_write.specs.Adds.{size_bits};

use crate::parts::put_size;
use acn_grammar::{Node, SizeRule, Value};
use acn_lengths::bit_end;
use acn_num::{BitList, NoMemory};

// How many octets contents take.
fn octets_of(content: &Node, v: &Value) -> usize
    requires can { CanMeasure (grammar_of content.now) (data_of v.now) }
    requires few { octets_for (bit_length (grammar_of content.now) 0 (data_of v.now)) ≤ MOST_SIZE }
    ensures { result ≡ octets_for (bit_length (grammar_of content.now) 0 (data_of v.now)) }
{
    ((bit_end(content, 0, v) + 7) / 8) as usize
}

/// Adds the size of contents, where it stands in front.
pub fn put_content_size(
    content: &Node,
    v: &Value,
    rule: &SizeRule,
    bits: &mut BitList,
) -> Result<(), NoMemory>
    requires can { CanMeasure (grammar_of content.now) (data_of v.now) }
    requires few { octets_for (bit_length (grammar_of content.now) 0 (data_of v.now)) ≤ MOST_SIZE }
    ensures { OnOk result (bits.new ≡ bits.old ++ size_bits rule.now (octets_for (bit_length (grammar_of content.now) 0 (data_of v.now)))) }
{
    match rule {
        SizeRule::Prefix { .. } => put_size(bits, rule, octets_of(content, v)),
        SizeRule::Slot(_) => Ok(()),
        SizeRule::Ended(_) => Ok(()),
    }
}
