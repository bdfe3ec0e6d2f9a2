ghost use Rattle.std.specs.Prelude.{◌≡◌, ◌^◌, ◌<◌, ◌≤◌, ◌++◌, IsTrue, IfOk, OnOk, length, []};
ghost use Rattle.acn_num.specs.Bits.{low_bits};
ghost use Rattle.acn_grammar.specs.Leaves.{text_fine};
ghost use Rattle.acn_grammar.specs.Meets.{text_breach};
ghost use Rattle.acn_text.specs.Texts.{TextCode, given_size};
ghost use Rattle.acn_text.specs.Steps.{SizeFits, NumbersFit, size_bits, character_bits, text_bits};
ghost use Rattle.acn_bits.specs.declared.word.TheConstants.{WORD_BITS};

use crate::alphabet::number_of;
use acn_grammar::{Pattern, SizeRule, TextLeaf};
use acn_num::{BitList, NoMemory};
use std::alloc::Global;

/// Adds the size in front.
fn add_size(list: &mut BitList, rule: &SizeRule, n: u64) -> Result<(), NoMemory>
    requires { SizeFits rule.now n }
    ensures { OnOk result (list.new ≡ list.old ++ size_bits rule.now n) }
{
    match rule {
        SizeRule::Prefix { low, width } => list.push_number(*width, n - *low),
        SizeRule::Slot(_) => Ok(()),
        SizeRule::Ended(_) => Ok(()),
    }
}

/// Adds characters.
fn add_characters(list: &mut BitList, leaf: &TextLeaf, text: &[u8]) -> Result<(), NoMemory>
    requires fine { IsTrue (text_fine leaf.now) }
    requires width { leaf.now.width ≤ WORD_BITS }
    requires fit { NumbersFit leaf.now text.now }
    ensures { OnOk result (list.new ≡ list.old ++ character_bits leaf.now text.now) }
{
    for c in text {
        list.push_number(leaf.width, number_of(leaf, *c))?;
    }
    Ok(())
}

/// Adds the end.
fn add_end(list: &mut BitList, end: &Pattern) -> Result<(), NoMemory>
    ensures { OnOk result (list.new ≡ list.old ++ end.now) }
{
    for bit in end.bits() {
        list.push(*bit)?;
    }
    Ok(())
}

/// Adds a text with its size or its end.
fn add_text(list: &mut BitList, leaf: &TextLeaf, text: &[u8]) -> Result<(), NoMemory>
    requires fine { IsTrue (text_fine leaf.now) }
    requires meets { text_breach leaf.now text.now ≡ [] }
    ensures { OnOk result (list.new ≡ list.old ++ text_bits leaf.now.ended leaf.now text.now) }
{
    match &leaf.ended {
        None => {
            add_size(list, &leaf.sized.rule, text.len() as u64)?;
            add_characters(list, leaf, text)
        }
        Some(end) => {
            add_characters(list, leaf, text)?;
            add_end(list, end)
        }
    }
}

/// The code of a text as a list of bits. `NoMemory` where memory is wanting.
pub fn list_text(alloc: Global, leaf: &TextLeaf, text: &[u8]) -> Result<BitList, NoMemory>
    requires fine { IsTrue (text_fine leaf.now) }
    requires meets { text_breach leaf.now text.now ≡ [] }
    ensures { IfOk result (λ list. TextCode leaf.now (given_size leaf.now.sized.rule (length text.now)) text.now list) }
{
    let mut list = BitList::new(alloc);
    add_text(&mut list, leaf, text)?;
    Ok(list)
}
