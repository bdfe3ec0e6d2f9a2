//! Parts of a value that hold no others.

ghost use Rattle.std.specs.Prelude.{ℕ, List, [], ◌∷◌, map, IsTrue};
ghost use Rattle.acn_grammar.specs.Grammar.{Grammar, octets as octets_form, bits as bits_form, text as text_form, octet_string, bit_string, characters};
ghost use Rattle.acn_grammar.specs.Leaves.{num_fine, text_fine};
ghost use Rattle.acn_grammar.specs.Length.{number_of};
ghost use Rattle.acn_grammar.specs.View.{data_of};
ghost use Rattle.acn_events.specs.Event.{aligns, codes, fills};
ghost use Rattle.acn_events.specs.Events.{form_events, end_events, index_events};
ghost use Rattle.acn_pack.specs.Packs.{Packs};

use crate::asking::ask_size;
use crate::values::{bits_in, octets_in, text_in};
use acn_grammar::{ChoiceRule, NumLeaf, SizeRule, Sizing, TextLeaf, Value};
use acn_writer::{Halt, Halted, Writer};

/// A number.
pub fn put_number<const N: usize, const S: usize, const A: usize>(
    leaf: &NumLeaf,
    v: &Value,
    w: &mut Writer<'_, '_, N, S, A>,
    why: &mut Halt,
) -> Result<(), Halted>
    requires { IsTrue (num_fine leaf.now) }
    ensures { (path : List ℕ) → Packs (codes leaf.now (number_of (data_of v.now)) ∷ []) w.old w.new path why.new result }
{
    let x = v.number();
    w.code(leaf, x, why)
}

/// A number, behind the zeros that align it.
pub fn put_aligned<const N: usize, const S: usize, const A: usize>(
    align: u32,
    leaf: &NumLeaf,
    v: &Value,
    w: &mut Writer<'_, '_, N, S, A>,
    why: &mut Halt,
) -> Result<(), Halted>
    requires { IsTrue (num_fine leaf.now) }
    ensures { (path : List ℕ) → Packs (aligns align ∷ codes leaf.now (number_of (data_of v.now)) ∷ []) w.old w.new path why.new result }
{
    w.align(align, why)?;
    put_number(leaf, v, w, why)
}

fn copy_octets<const N: usize, const S: usize, const A: usize>(
    sizing: &Sizing,
    octets: &[u8],
    w: &mut Writer<'_, '_, N, S, A>,
    why: &mut Halt,
) -> Result<(), Halted>
    ensures { (root : Grammar) (path : List ℕ) → Packs (form_events root (octets_form sizing.now) path (octet_string octets.now)) w.old w.new path why.new result }
{
    let n = octets.len() as u64;
    w.size(sizing, n, why)?;
    ask_size(&sizing.rule, n, w, why)?;
    w.copy_octets(octets, why)
}

fn copy_bits<const N: usize, const S: usize, const A: usize>(
    sizing: &Sizing,
    bits: &[bool],
    w: &mut Writer<'_, '_, N, S, A>,
    why: &mut Halt,
) -> Result<(), Halted>
    ensures { (root : Grammar) (path : List ℕ) → Packs (form_events root (bits_form sizing.now) path (bit_string bits.now)) w.old w.new path why.new result }
{
    let n = bits.len() as u64;
    w.size(sizing, n, why)?;
    ask_size(&sizing.rule, n, w, why)?;
    w.copy_bits(bits, why)
}

fn copy_text<const N: usize, const S: usize, const A: usize>(
    leaf: &TextLeaf,
    text: &[u8],
    w: &mut Writer<'_, '_, N, S, A>,
    why: &mut Halt,
) -> Result<(), Halted>
    requires { IsTrue (text_fine leaf.now) }
    ensures { (root : Grammar) (path : List ℕ) → Packs (form_events root (text_form leaf.now) path (characters text.now)) w.old w.new path why.new result }
{
    let n = text.len() as u64;
    ask_size(&leaf.sized.rule, n, w, why)?;
    w.text(leaf, text, why)
}

/// Octets.
pub fn put_octets<const N: usize, const S: usize, const A: usize>(
    sizing: &Sizing,
    v: &Value,
    w: &mut Writer<'_, '_, N, S, A>,
    why: &mut Halt,
) -> Result<(), Halted>
    ensures { (root : Grammar) (path : List ℕ) → Packs (form_events root (octets_form sizing.now) path (data_of v.now)) w.old w.new path why.new result }
{
    match octets_in(v) {
        Some(octets) => copy_octets(sizing, octets, w, why),
        None => Ok(()),
    }
}

/// Bits.
pub fn put_bits<const N: usize, const S: usize, const A: usize>(
    sizing: &Sizing,
    v: &Value,
    w: &mut Writer<'_, '_, N, S, A>,
    why: &mut Halt,
) -> Result<(), Halted>
    ensures { (root : Grammar) (path : List ℕ) → Packs (form_events root (bits_form sizing.now) path (data_of v.now)) w.old w.new path why.new result }
{
    match bits_in(v) {
        Some(bits) => copy_bits(sizing, bits, w, why),
        None => Ok(()),
    }
}

/// A text.
pub fn put_text<const N: usize, const S: usize, const A: usize>(
    leaf: &TextLeaf,
    v: &Value,
    w: &mut Writer<'_, '_, N, S, A>,
    why: &mut Halt,
) -> Result<(), Halted>
    requires { IsTrue (text_fine leaf.now) }
    ensures { (root : Grammar) (path : List ℕ) → Packs (form_events root (text_form leaf.now) path (data_of v.now)) w.old w.new path why.new result }
{
    match text_in(v) {
        Some(text) => copy_text(leaf, text, w, why),
        None => Ok(()),
    }
}

/// The pattern behind the last element, where one ends the list.
pub fn put_end<const N: usize, const S: usize, const A: usize>(
    rule: &SizeRule,
    w: &mut Writer<'_, '_, N, S, A>,
    why: &mut Halt,
) -> Result<(), Halted>
    ensures { (path : List ℕ) → Packs (end_events rule.now) w.old w.new path why.new result }
{
    match rule {
        SizeRule::Prefix { .. } => Ok(()),
        SizeRule::Slot(_) => Ok(()),
        SizeRule::Ended(end) => {
            let bits = end.bits();
            w.copy_bits(bits, why)
        }
    }
}

/// The index of an alternative, where it stands in front.
pub fn put_index<const N: usize, const S: usize, const A: usize>(
    rule: &ChoiceRule,
    i: u32,
    w: &mut Writer<'_, '_, N, S, A>,
    why: &mut Halt,
) -> Result<(), Halted>
    ensures { (path : List ℕ) → Packs (index_events rule.now i) w.old w.new path why.new result }
{
    match rule {
        ChoiceRule::Index(width) => {
            let index = u64::from(i);
            w.put(*width, index, why)
        }
        ChoiceRule::Tests => Ok(()),
        ChoiceRule::Item(_) => Ok(()),
    }
}

/// The holes of the slots at home in a SEQUENCE are filled.
pub fn fill_home<const N: usize, const S: usize, const A: usize>(
    home: &[u32],
    w: &mut Writer<'_, '_, N, S, A>,
    why: &mut Halt,
) -> Result<(), Halted>
    ensures { (path : List ℕ) → Packs (map fills home.now) w.old w.new path why.new result }
{
    if home.is_empty() {
        return Ok(());
    }
    fill_each(home, w, why)
}

#[inline(never)]
fn fill_each<const N: usize, const S: usize, const A: usize>(
    home: &[u32],
    w: &mut Writer<'_, '_, N, S, A>,
    why: &mut Halt,
) -> Result<(), Halted>
    ensures { (path : List ℕ) → Packs (map fills home.now) w.old w.new path why.new result }
{
    for slot in home {
        w.fill(*slot, why)?;
    }
    Ok(())
}
