ghost use Rattle.std.specs.Prelude.{◌≡◌, ◌<◌, ◌≤◌, IsTrue, IfOk, IfErr, OnOk, OnErr, MatchOption, length, take, List, ℕ, pos, None};
ghost use Rattle.std.specs.List.{FoldsTo};
ghost use Rattle.acn_num.specs.Bits.{number};
ghost use Rattle.acn_num.specs.Ranges.{In};
ghost use Rattle.acn_bits.specs.Reading.{passed, Stays};
ghost use Rattle.acn_grammar.specs.Leaves.{text_fine};
ghost use Rattle.acn_grammar.specs.ReadFaults.{reason_of};
ghost use Rattle.acn_text.specs.Texts.{IsGiven};
ghost use Rattle.acn_text.specs.Steps.{RuleFits, SizeTaken, SizeMissing, NoSizeAt, NoCharacter, IsCharacter, PassedCharacters, NoCharactersAt};
ghost use Rattle.acn_bits.specs.declared.word.TheConstants.{WORD_BITS};
ghost use Rattle.acn_num.specs.declared.limits.TheConstants.{MOST_SIZE};

use crate::alphabet::{character_of, is_in};
use acn_bits::ReadCursor;
use acn_grammar::{ReadFault, SizeRule, Sizing, TextLeaf};

/// The size that stands in front, or the given one.
fn said_size(
    cur: &mut ReadCursor<'_>,
    rule: &SizeRule,
    given: Option<u64>,
) -> Result<u64, ReadFault>
    requires fits { RuleFits rule.now }
    requires given { IsGiven rule.now given }
    ensures taken { IfOk result (SizeTaken rule.now given cur.old cur.new) }
    ensures missing { IfErr result (λ e. (e ≡ ReadFault.Short) × SizeMissing rule.now cur.old × (cur.new ≡ cur.old)) }
{
    match rule {
        SizeRule::Prefix { low, width } => match cur.take(*width) {
            Ok(v) => Ok(*low + v),
            Err(_) => Err(ReadFault::Short),
        },
        SizeRule::Slot(_) => match given {
            Some(n) => Ok(n),
            None => unreachable!(),
        },
        SizeRule::Ended(_) => unreachable!(),
    }
}

/// The size of a text, which is permitted.
pub fn read_size(
    cur: &mut ReadCursor<'_>,
    sizing: &Sizing,
    given: Option<u64>,
) -> Result<u64, ReadFault>
    requires fits { RuleFits sizing.now.rule }
    requires given { IsGiven sizing.now.rule given }
    ensures permitted { IfOk result (λ n. In sizing.now.sizes (pos n)) }
    ensures taken { IfOk result (SizeTaken sizing.now.rule given cur.old cur.new) }
    ensures wrong { IfErr result (λ e. NoSizeAt sizing.now given cur.old.rest (reason_of e)) }
    ensures stays { OnErr result (Stays cur.old cur.new) }
{
    match said_size(cur, &sizing.rule, given) {
        Ok(n) => {
            if is_in(&sizing.sizes, n) {
                Ok(n)
            } else {
                Err(ReadFault::SizeOutOfRange { n })
            }
        }
        Err(fault) => Err(fault),
    }
}

/// The character that the next bits stand for.
fn read_character(cur: &mut ReadCursor<'_>, leaf: &TextLeaf) -> Option<u8>
    requires fine { IsTrue (text_fine leaf.now) }
    requires width { leaf.now.width ≤ WORD_BITS }
    requires room { leaf.now.width ≤ length cur.old.rest }
    ensures moved { cur.new ≡ passed leaf.now.width cur.old }
    ensures character { MatchOption result (NoCharacter leaf.now (number (take leaf.now.width cur.old.rest))) (λ c. IsCharacter leaf.now c (number (take leaf.now.width cur.old.rest))) }
{
    match cur.take(leaf.width) {
        Ok(v) => character_of(leaf, v),
        Err(_) => unreachable!(),
    }
}

/// Gives n characters.
pub fn read_characters<F: FnMut(u8)>(
    cur: &mut ReadCursor<'_>,
    leaf: &TextLeaf,
    n: u64,
    each: &mut F,
) -> Result<(), ReadFault>
    requires fine { IsTrue (text_fine leaf.now) }
    requires sized { leaf.now.ended ≡ None }
    requires few { n ≤ MOST_SIZE }
    requires callable { F.IsAlwaysCallable each.old }
    ensures read { OnOk result (PassedCharacters leaf.now (λ cs. FoldsTo (λ p c q. F.step p c tt q) each.old cs each.new) cur.old cur.new n) }
    ensures wrong { IfErr result (λ e. NoCharactersAt leaf.now n cur.old.rest (reason_of e)) }
    ensures stays { OnErr result (Stays cur.old cur.new) }
    ensures given { OnErr result ((cs : List ℕ) × FoldsTo (λ p c q. F.step p c tt q) each.old cs each.new) }
{
    if cur.left() < u64::from(leaf.width) * n {
        return Err(ReadFault::Short);
    }
    for i in 0..n {
        let _at = i;
        match read_character(cur, leaf) {
            Some(c) => each(c),
            None => return Err(ReadFault::BadCharacter),
        }
    }
    Ok(())
}
