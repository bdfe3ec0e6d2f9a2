//! Bits at the end of a list.

ghost use Rattle.std.specs.Prelude.{◌≡◌, ◌<◌, ◌++◌, Bool, List, OnOk, replicate, false};
ghost use Rattle.acn_num.specs.Bits.{bits as bits_of};
ghost use Rattle.acn_grammar.specs.Code.{Written};
ghost use Rattle.acn_grammar.specs.Length.{bit_before, padding, presence_bits};
ghost use Rattle.acn_grammar.specs.Spell.{Fill, Padding};
ghost use Rattle.acn_grammar.specs.View.{fields_view, places_view};
ghost use Rattle.acn_plain_write.specs.Adds.{Adds, size_bits, end_bits, index_bits};

use acn_grammar::{ChoiceRule, Field, Presence, SizeRule, Value};
use acn_num::{BitList, NoMemory};

fn put_zeros(bits: &mut BitList, count: usize) -> Result<(), NoMemory>
    ensures { OnOk result (bits.new ≡ bits.old ++ replicate count false) }
{
    for i in 0..count {
        let _at = i;
        bits.push(false)?;
    }
    Ok(())
}

// The padding at a position. Most nodes have none, and for these nothing is divided.
fn padding_at(align: usize, at: usize) -> usize
    requires { 0 < align }
    ensures { result ≡ padding align at }
{
    if align == 1 {
        0
    } else {
        (align - at % align) % align
    }
}

/// Adds the padding: the fewest zeros that bring the position, which counts from a base, to a multiple.
pub fn put_padding(bits: &mut BitList, base: usize, align: u32) -> Result<(), NoMemory>
    requires some { 0 < align }
    ensures { OnOk result (Adds (Padding Written align) base bits.old bits.new) }
{
    let at = bits.len().saturating_sub(base);
    put_zeros(bits, padding_at(align as usize, at))
}

/// Adds the zeros that fill the last octet.
pub fn put_fill(bits: &mut BitList, base: usize) -> Result<(), NoMemory>
    ensures { OnOk result (Adds (Fill Written) base bits.old bits.new) }
{
    put_zeros(bits, (8 - bits.len().saturating_sub(base) % 8) % 8)
}

/// Adds octets.
pub fn put_octets(bits: &mut BitList, octets: &[u8]) -> Result<(), NoMemory>
    ensures { OnOk result (bits.new ≡ bits.old ++ bits_of octets.now) }
{
    for octet in octets {
        bits.push_number(8, u64::from(*octet))?;
    }
    Ok(())
}

/// Adds bits.
pub fn put_bits(bits: &mut BitList, more: &[bool]) -> Result<(), NoMemory>
    ensures { OnOk result (bits.new ≡ bits.old ++ more.now) }
{
    for bit in more {
        bits.push(*bit)?;
    }
    Ok(())
}

/// Adds the size of a string or list, where it stands in front.
pub fn put_size(bits: &mut BitList, rule: &SizeRule, n: usize) -> Result<(), NoMemory>
    ensures { OnOk result (bits.new ≡ bits.old ++ size_bits rule.now n) }
{
    match rule {
        SizeRule::Prefix { low, width } => {
            bits.push_number(*width, (n as u64).saturating_sub(*low))
        }
        SizeRule::Slot(_) => Ok(()),
        SizeRule::Ended(_) => Ok(()),
    }
}

/// Adds the pattern that ends a list, where one does.
pub fn put_end(bits: &mut BitList, rule: &SizeRule) -> Result<(), NoMemory>
    ensures { OnOk result (bits.new ≡ bits.old ++ end_bits rule.now) }
{
    match rule {
        SizeRule::Prefix { .. } => Ok(()),
        SizeRule::Slot(_) => Ok(()),
        SizeRule::Ended(end) => put_bits(bits, end.bits()),
    }
}

/// Adds the index of an alternative, where it stands in front.
pub fn put_index(bits: &mut BitList, rule: &ChoiceRule, i: u32) -> Result<(), NoMemory>
    ensures { OnOk result (bits.new ≡ bits.old ++ index_bits rule.now i) }
{
    match rule {
        ChoiceRule::Index(width) => bits.push_number(*width, u64::from(i)),
        ChoiceRule::Tests => Ok(()),
        ChoiceRule::Item(_) => Ok(()),
    }
}

// Adds the bit of a component's presence, where it has one.
fn put_presence(bits: &mut BitList, presence: &Presence, there: bool) -> Result<(), NoMemory>
    ensures { OnOk result ((bs : List Bool) → bits.new ++ bs ≡ bits.old ++ bit_before presence.now there bs) }
{
    match presence {
        Presence::Always => Ok(()),
        Presence::Bit => bits.push(there),
        Presence::When(_) => Ok(()),
    }
}

/// Adds the presence bits of a SEQUENCE (X.691 clause 19).
pub fn put_presence_bits(
    bits: &mut BitList,
    fields: &[Field],
    places: &[Option<Value>],
) -> Result<(), NoMemory>
    ensures { OnOk result (bits.new ≡ bits.old ++ presence_bits (fields_view fields.now) (places_view places.now)) }
{
    let mut at = 0;
    for field in fields {
        match field {
            Field::Component { presence, .. } => {
                if at == places.len() {
                    return Ok(());
                }
                put_presence(bits, presence, places[at].is_some())?;
                at += 1;
            }
            Field::Inserted { .. } => {}
        }
    }
    Ok(())
}
