//! Copies of what a node holds beside the nodes inside it. Each takes memory, and fails where there is none.

ghost use Rattle.std.specs.Prelude.{◌≡◌, IfOk};

use acn_grammar::{
    Items, NumCoding, NumLeaf, Pattern, Presence, SizeRule, Sizing, Table, Test, TextLeaf,
};
use acn_num::{Name, NoMemory, Row};
use std::alloc::Global;

/// A copy of a name.
pub fn name_of(alloc: Global, name: &Name) -> Result<Name, NoMemory>
    ensures { IfOk result (λ copy. copy ≡ name.now) }
{
    Name::copy(alloc, name.bytes())
}

/// A copy of a name, if there is one.
pub fn optional(alloc: Global, name: &Option<Name>) -> Result<Option<Name>, NoMemory>
    ensures { IfOk result (λ copy. copy ≡ name.now) }
{
    match name {
        Some(name) => {
            let copy = name_of(alloc, name)?;
            Ok(Some(copy))
        }
        None => Ok(None),
    }
}

/// A row of these numbers.
pub fn numbers_of(alloc: Global, numbers: &[u32]) -> Result<Row<u32>, NoMemory>
    ensures { IfOk result (λ copy. copy ≡ numbers.now) }
{
    Ok(Row::from_vec(Vec::from_slice(alloc, numbers)?))
}

/// A row of these conditions.
pub fn tests_of(alloc: Global, tests: &[Test]) -> Result<Row<Test>, NoMemory>
    ensures { IfOk result (λ copy. copy ≡ tests.now) }
{
    Ok(Row::from_vec(Vec::from_slice(alloc, tests)?))
}

/// A copy of what says when a component is there.
pub fn presence_of(alloc: Global, presence: &Presence) -> Result<Presence, NoMemory>
    ensures { IfOk result (λ copy. copy ≡ presence.now) }
{
    match presence {
        Presence::Always => Ok(Presence::Always),
        Presence::Bit => Ok(Presence::Bit),
        Presence::When(tests) => Ok(Presence::When(tests_of(alloc, tests.items())?)),
    }
}

fn rule_of(rule: &SizeRule) -> SizeRule
    ensures { result ≡ rule.now }
{
    match rule {
        SizeRule::Prefix { low, width } => SizeRule::Prefix {
            low: *low,
            width: *width,
        },
        SizeRule::Slot(slot) => SizeRule::Slot(*slot),
        SizeRule::Ended(end) => SizeRule::Ended(end.copy()),
    }
}

/// A copy of sizes and of what says them.
pub fn sizing_of(alloc: Global, sizing: &Sizing) -> Result<Sizing, NoMemory>
    ensures { IfOk result (λ copy. copy ≡ sizing.now) }
{
    let sizes = sizing.sizes.copy(alloc)?;
    Ok(Sizing {
        sizes,
        rule: rule_of(&sizing.rule),
    })
}

fn pattern_of(pattern: &Option<Pattern>) -> Option<Pattern>
    ensures { result ≡ pattern.now }
{
    match pattern {
        Some(pattern) => Some(pattern.copy()),
        None => None,
    }
}

/// A copy of a text leaf.
pub fn text_of(alloc: Global, leaf: &TextLeaf) -> Result<TextLeaf, NoMemory>
    ensures { IfOk result (λ copy. copy ≡ leaf.now) }
{
    let alphabet = leaf.alphabet.copy(alloc)?;
    let sized = sizing_of(alloc, &leaf.sized)?;
    Ok(TextLeaf {
        sized,
        ended: pattern_of(&leaf.ended),
        alphabet,
        width: leaf.width,
        indexed: leaf.indexed,
    })
}

fn coding_of(coding: &NumCoding) -> NumCoding
    ensures { result ≡ coding.now }
{
    match coding {
        NumCoding::Range { low, width } => NumCoding::Range {
            low: *low,
            width: *width,
        },
        NumCoding::CountedFrom { low } => NumCoding::CountedFrom { low: *low },
        NumCoding::CountedSigned => NumCoding::CountedSigned,
        NumCoding::PosInt(width) => NumCoding::PosInt(*width),
        NumCoding::Twos(width) => NumCoding::Twos(*width),
        NumCoding::Bcd(width) => NumCoding::Bcd(*width),
        NumCoding::BcdEnded => NumCoding::BcdEnded,
        NumCoding::Ascii { bits, signed } => NumCoding::Ascii {
            bits: *bits,
            signed: *signed,
        },
        NumCoding::AsciiEnded { end, signed } => NumCoding::AsciiEnded {
            end: end.copy(),
            signed: *signed,
        },
        NumCoding::Flag { yes, no } => NumCoding::Flag {
            yes: pattern_of(yes),
            no: pattern_of(no),
        },
        NumCoding::Fixed(pattern) => NumCoding::Fixed(pattern.copy()),
    }
}

fn table_of(alloc: Global, table: &Table) -> Result<Table, NoMemory>
    ensures { IfOk result (λ copy. copy ≡ table.now) }
{
    let name = name_of(alloc, &table.name)?;
    let lines = Row::from_vec(Vec::from_slice(alloc, table.lines.items())?);
    Ok(Table { name, lines })
}

fn optional_table(alloc: Global, table: &Option<Table>) -> Result<Option<Table>, NoMemory>
    ensures { IfOk result (λ copy. copy ≡ table.now) }
{
    match table {
        Some(table) => {
            let copy = table_of(alloc, table)?;
            Ok(Some(copy))
        }
        None => Ok(None),
    }
}

fn items_of(alloc: Global, items: &[(Name, i128)]) -> Result<Row<(Name, i128)>, NoMemory>
    ensures { IfOk result (λ copy. copy ≡ items.now) }
{
    let mut copies = Row::new(alloc);
    for item in items {
        let name = name_of(alloc, &item.0)?;
        copies.push((name, item.1))?;
    }
    Ok(copies)
}

/// A copy of a number leaf.
pub fn leaf_of(alloc: Global, leaf: &NumLeaf) -> Result<NumLeaf, NoMemory>
    ensures { IfOk result (λ copy. copy ≡ leaf.now) }
{
    let set = leaf.set.copy(alloc)?;
    let table = optional_table(alloc, &leaf.table)?;
    let items = items_of(alloc, leaf.items.items.items())?;
    Ok(NumLeaf {
        kind: leaf.kind,
        set,
        coding: coding_of(&leaf.coding),
        little: leaf.little,
        table,
        items: Items {
            items,
            values: leaf.items.values,
        },
    })
}
