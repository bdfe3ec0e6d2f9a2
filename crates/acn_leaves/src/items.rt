//! The items of an enumeration in the order of their numbers.

ghost use Rattle.std.specs.Prelude.{◌≡◌, map, option_map, int_le, if◌then◌else◌, ℤ, Option, Some, None, IfOk};
ghost use Rattle.std.specs.List.{zip};
ghost use Rattle.acn_num.specs.Names.{Name as NameData};
ghost use Rattle.acn_slots.specs.View.{braces_view};
ghost use Rattle.acn_written.specs.Items.{Numbered};
ghost use Rattle.acn_written.specs.View.{numbered_view};
ghost use Rattle.acn_leaves.specs.Leaves as leaves;
ghost use Rattle.acn_leaves.specs.Ordered as spec;
ghost use Rattle.acn_leaves.specs.View.{ranked_view};

use acn_acn_syntax::AcnField;
use acn_asn_syntax::Item;
use acn_num::{Name, NoMemory, Row, greater};
use acn_written::{item_numbers, values_of};
use std::alloc::Global;

/// An item with its number in ASN.1 and the number that is written for it.
#[derive(Drop)]
pub struct Ranked<'w> {
    number: i128,
    name: &'w Name,
    value: i128,
}

// Each number in ASN.1 with the item and the number that is written for it.
fn joined<'w>(
    alloc: Global,
    numbers: &[(&'w Name, i128)],
    values: &[(&'w Name, i128)],
) -> Result<Vec<Ranked<'w>>, NoMemory>
    ensures { IfOk result (λ all. map ranked_view all.items ≡ zip (map (λ (i : Numbered). i.1) (map numbered_view numbers.now)) (map numbered_view values.now)) }
{
    let mut all = Vec::new(alloc);
    for (i, numbered) in numbers.iter().enumerate() {
        match values.get(i) {
            None => return Ok(all),
            Some((name, value)) => all.push(Ranked {
                number: numbered.1,
                name: *name,
                value: *value,
            })?,
        }
    }
    Ok(all)
}

// In the order of their numbers in ASN.1.
fn in_order<'w>(all: Vec<Ranked<'w>>) -> Result<Vec<Ranked<'w>>, NoMemory>
    ensures { IfOk result (λ sorted. map ranked_view sorted.items ≡ spec.ascending spec.rank (map ranked_view all.entry.items)) }
{
    let mut all = all;
    all.sort_by_key(|one| one.number)?;
    Ok(all)
}

// Copies of the names, with the numbers that are written.
fn copied(alloc: Global, all: &[Ranked<'_>]) -> Result<Row<(Name, i128)>, NoMemory>
    ensures { IfOk result (λ items. items ≡ map (λ (r : spec.Ranked). r.1) (map ranked_view all.now)) }
{
    let mut items = Row::new(alloc);
    for one in all {
        let name = Name::copy(alloc, one.name.bytes())?;
        items.push((name, one.value))?;
    }
    Ok(items)
}

// Each number in ASN.1 with the item and the number that `encode-values` writes for it.
fn with_ranks<'w>(
    alloc: Global,
    items: &'w [Item],
    braces: Option<&'w [AcnField]>,
) -> Result<Vec<Ranked<'w>>, NoMemory>
    ensures { IfOk result (λ all. map ranked_view all.items ≡ spec.ranked items.now (braces_view braces.entry)) }
{
    let numbers = item_numbers(alloc, items)?;
    let values = values_of(alloc, items, braces)?;
    joined(alloc, numbers.as_slice(), values.as_slice())
}

/// The items in ascending order of their numbers in ASN.1, each with the number that `encode-values` writes for it.
#[tactic(auto, unfolding(crate::specs::Ordered::items_in_order))]
pub fn items_in_order(
    alloc: Global,
    items: &[Item],
    braces: Option<&[AcnField]>,
) -> Result<Row<(Name, i128)>, NoMemory>
    ensures { IfOk result (λ all. all ≡ spec.items_in_order items.now (braces_view braces.entry)) }
{
    let all = with_ranks(alloc, items, braces)?;
    let all = in_order(all)?;
    copied(alloc, all.as_slice())
}

// The greater of a number and another that may be there.
fn or_greater(x: &i128, other: Option<i128>) -> i128
    ensures { result ≡ leaves.greater_of other x.now }
{
    match other {
        None => *x,
        Some(y) => *greater(x, &y),
    }
}

/// The greatest of the numbers.
pub fn greatest_of(items: &[(&Name, i128)]) -> Option<i128>
    ensures { result ≡ leaves.greatest_of (map numbered_view items.now) }
{
    let mut greatest = None;
    for item in items {
        greatest = Some(or_greater(&item.1, greatest));
    }
    greatest
}
