//! The items of an enumeration with their numbers.

ghost use Rattle.std.specs.Prelude.{◌≡◌, [], map, option_map, IfOk};
ghost use Rattle.std.specs.List.{zip};
ghost use Rattle.acn_acn_syntax.specs.View.{field_of};
ghost use Rattle.acn_codings.specs.Tables as tables;
ghost use Rattle.acn_firsts.specs.Placed.{noted_all};
ghost use Rattle.acn_written.specs.Items as spec;
ghost use Rattle.acn_written.specs.View.{numbered_view, placed};

use acn_acn_syntax::{AcnField, Signed};
use acn_asn_syntax::Item;
use acn_codings::numbers_of;
use acn_firsts::Firsts;
use acn_num::{Name, NoMemory};
use acn_set_elements::signed;
use std::alloc::Global;

/// The items with their numbers in ASN.1.
pub fn item_numbers<'w>(alloc: Global, items: &'w [Item]) -> Result<Vec<(&'w Name, i128)>, NoMemory>
    ensures { IfOk result (λ all. map numbered_view all.items ≡ spec.item_numbers items.now) }
{
    let numbers = numbers_of(alloc, items)?;
    with_names(alloc, items, numbers.items())
}

// The names of items with these numbers.
fn with_names<'w>(
    alloc: Global,
    items: &'w [Item],
    numbers: &[i128],
) -> Result<Vec<(&'w Name, i128)>, NoMemory>
    ensures { IfOk result (λ all. map numbered_view all.items ≡ zip (map (λ (i : Item). i.name) items.now) numbers.now) }
{
    let mut all = Vec::new(alloc);
    for (i, item) in items.iter().enumerate() {
        match numbers.get(i) {
            None => return Ok(all),
            Some(number) => all.push((&item.name, *number))?,
        }
    }
    Ok(all)
}

// The number that a field gives to an item.
#[tactic(auto, using(acn_acn_syntax::proofs::Views::field_views))]
fn number_in(field: &AcnField) -> Option<(&Name, i128)>
    ensures { option_map numbered_view result ≡ spec.number_in (field_of field.now) }
{
    match field {
        AcnField::Number(name, number) => Some((name, number_of(number))),
        AcnField::Plain { .. } => None,
        AcnField::Inserted { .. } => None,
    }
}

fn number_of(written: &Signed) -> i128
    ensures { result ≡ tables.number_of written.now }
{
    signed(written.negative, written.n)
}

/// The items with the numbers that braces in ACN give them.
pub fn field_numbers<'w>(
    alloc: Global,
    fields: &'w [AcnField],
) -> Result<Vec<(&'w Name, i128)>, NoMemory>
    ensures { IfOk result (λ all. map numbered_view all.items ≡ spec.field_numbers (map field_of fields.now)) }
{
    let mut all = Vec::new(alloc);
    for field in fields {
        match number_in(field) {
            None => (),
            Some(numbered) => all.push(numbered)?,
        }
    }
    Ok(all)
}

/// The names that have a number, with the first place of each.
#[tactic(auto, unfolding(acn_firsts::specs::Placed::noted_all))]
pub fn names_of(alloc: Global, given: &[(&Name, i128)]) -> Result<Firsts, NoMemory>
    ensures { IfOk result (λ names. names ≡ noted_all [] (placed 0 (map numbered_view given.now))) }
{
    let mut names = Firsts::new(alloc);
    for (at, numbered) in given.iter().enumerate() {
        names.note(alloc, numbered.0.bytes(), at)?;
    }
    Ok(names)
}
