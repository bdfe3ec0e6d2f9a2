//! Numbers, strings and texts.

ghost use Rattle.std.specs.Prelude.{◌≡◌, ◌++◌, [], IsTrue, OnOk, length};
ghost use Rattle.acn_num.specs.Bits.{bits as bits_of};
ghost use Rattle.acn_num.specs.Ranges.{In};
ghost use Rattle.acn_grammar.specs.Code.{Code, Written};
ghost use Rattle.acn_grammar.specs.Leaves.{num_fine, text_fine};
ghost use Rattle.acn_grammar.specs.Length.{number_of};
ghost use Rattle.acn_grammar.specs.View.{data_of};
ghost use Rattle.acn_grammar.specs.Meets.{text_breach};
ghost use Rattle.acn_text.specs.Texts.{TextCode, given_size};
ghost use Rattle.acn_plain_write.specs.Adds.{Appends, size_bits};

use crate::parts::{put_bits, put_octets, put_size};
use acn_grammar::{NumLeaf, Sizing, TextLeaf, Value};
use acn_ints::list_num;
use acn_num::{BitList, NoMemory};
use acn_text::list_text;
use std::alloc::Global;

/// Adds the code of a number.
pub fn write_number(
    alloc: Global,
    leaf: &NumLeaf,
    x: i128,
    bits: &mut BitList,
) -> Result<(), NoMemory>
    requires fine { IsTrue (num_fine leaf.now) }
    requires permitted { In leaf.now.set x }
    ensures { OnOk result (Appends (Code Written leaf.now x) bits.old bits.new) }
{
    let code = list_num(alloc, leaf, x)?;
    bits.append(&code)
}

/// Adds the code of a value of a number leaf.
pub fn write_leaf(
    alloc: Global,
    leaf: &NumLeaf,
    v: &Value,
    bits: &mut BitList,
) -> Result<(), NoMemory>
    requires fine { IsTrue (num_fine leaf.now) }
    requires permitted { In leaf.now.set (number_of (data_of v.now)) }
    ensures { OnOk result (Appends (Code Written leaf.now (number_of (data_of v.now))) bits.old bits.new) }
{
    write_number(alloc, leaf, v.number(), bits)
}

/// Adds an IA5String.
pub fn write_text(
    alloc: Global,
    leaf: &TextLeaf,
    text: &[u8],
    bits: &mut BitList,
) -> Result<(), NoMemory>
    requires fine { IsTrue (text_fine leaf.now) }
    requires meets { text_breach leaf.now text.now ≡ [] }
    ensures { OnOk result (Appends (TextCode leaf.now (given_size leaf.now.sized.rule (length text.now)) text.now) bits.old bits.new) }
{
    let code = list_text(alloc, leaf, text)?;
    bits.append(&code)
}

/// Adds an OCTET STRING.
pub fn write_octets(sizing: &Sizing, octets: &[u8], bits: &mut BitList) -> Result<(), NoMemory>
    ensures { OnOk result (bits.new ≡ bits.old ++ (size_bits sizing.now.rule (length octets.now) ++ bits_of octets.now)) }
{
    put_size(bits, &sizing.rule, octets.len())?;
    put_octets(bits, octets)
}

/// Adds a BIT STRING.
pub fn write_bits(sizing: &Sizing, string: &[bool], bits: &mut BitList) -> Result<(), NoMemory>
    ensures { OnOk result (bits.new ≡ bits.old ++ (size_bits sizing.now.rule (length string.now) ++ string.now)) }
{
    put_size(bits, &sizing.rule, string.len())?;
    put_bits(bits, string)
}
