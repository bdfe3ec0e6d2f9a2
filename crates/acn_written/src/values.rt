//! The numbers that `encode-values` writes for the items of an enumeration.

ghost use Rattle.std.specs.Prelude.{◌≡◌, ◌^◌, ◌&&◌, [], map, filter, filter_map, nat_lt, not, option_map, IfOk, Some};
ghost use Rattle.acn_num.specs.Ranges.{distance};
ghost use Rattle.acn_firsts.specs.Placed.{noted_all};
ghost use Rattle.acn_codings.specs.Codings as codings;
ghost use Rattle.acn_codings.specs.Tables as tables;
ghost use Rattle.acn_slots.specs.View.{braces_view};
ghost use Rattle.acn_written.specs.Numbers as spec;
ghost use Rattle.acn_written.specs.View.{numbered_view, number_there, placed};

use crate::items::{field_numbers, item_numbers, names_of};
use acn_acn_syntax::AcnField;
use acn_asn_syntax::Item;
use acn_codings::{Coding, fits, numbers};
use acn_firsts::Firsts;
use acn_leaf::is_number;
use acn_num::{Name, NoMemory, is_at_most, less};
use std::alloc::Global;

// The number at a place, where there is one.
fn number_at(given: &[(&Name, i128)], at: Option<usize>) -> Option<i128>
    ensures { result ≡ number_there (map numbered_view given.now) at }
{
    match at {
        None => None,
        Some(at) => {
            let numbered = given.get(at)?;
            Some(numbered.1)
        }
    }
}

// The number that braces give a name.
#[tactic(auto, using(crate::proofs::Noted::number_noted))]
fn number_named(given: &[(&Name, i128)], names: &Firsts, name: &[u8]) -> Option<i128>
    requires { names.now ≡ noted_all [] (placed 0 (map numbered_view given.now)) }
    ensures { result ≡ spec.number_named (map numbered_view given.now) name.now }
{
    let at = names.get(name);
    number_at(given, at)
}

// An item with the number that braces give it.
fn renumbered<'w>(
    given: &[(&'w Name, i128)],
    names: &Firsts,
    item: &'w Item,
) -> Option<(&'w Name, i128)>
    requires { names.now ≡ noted_all [] (placed 0 (map numbered_view given.now)) }
    ensures { option_map numbered_view result ≡ spec.renumbered (map numbered_view given.now) item.now }
{
    let number = number_named(given, names, item.name.bytes())?;
    Some((&item.name, number))
}

// The items with the numbers that braces give them.
fn all_renumbered<'w>(
    alloc: Global,
    items: &'w [Item],
    given: &[(&'w Name, i128)],
) -> Result<Vec<(&'w Name, i128)>, NoMemory>
    ensures { IfOk result (λ all. map numbered_view all.items ≡ filter_map (spec.renumbered (map numbered_view given.now)) items.now) }
{
    let names = names_of(alloc, given)?;
    let mut all = Vec::new(alloc);
    for item in items {
        match renumbered(given, &names, item) {
            None => (),
            Some(numbered) => all.push(numbered)?,
        }
    }
    Ok(all)
}

/// Each item with the number that `encode-values` writes: that of the braces in ACN, where there are some, and else that of
/// ASN.1.
pub fn values_of<'w>(
    alloc: Global,
    items: &'w [Item],
    braces: Option<&'w [AcnField]>,
) -> Result<Vec<(&'w Name, i128)>, NoMemory>
    ensures { IfOk result (λ all. map numbered_view all.items ≡ spec.values_of items.now (braces_view braces.entry)) }
{
    match braces {
        None => item_numbers(alloc, items),
        Some(fields) => {
            let given = field_numbers(alloc, fields)?;
            all_renumbered(alloc, items, given.as_slice())
        }
    }
}

// The lesser of a number and another that may be there.
fn lesser(x: i128, other: Option<i128>) -> i128
    ensures { Some result ≡ tables.lesser (Some x) other }
{
    match other {
        None => x,
        Some(y) => *less(&x, &y),
    }
}

/// The least of the numbers.
pub fn least_of(items: &[(&Name, i128)]) -> Option<i128>
    ensures { result ≡ spec.least_of (map numbered_view items.now) }
{
    let mut least = None;
    for item in items {
        least = Some(lesser(item.1, least));
    }
    least
}

// Whether a number lies between two ends.
fn is_among(low: &i128, high: &i128, x: &i128) -> bool
    ensures { result ≡ spec.is_among (low.now, high.now) x.now }
{
    is_at_most(low, x) && is_at_most(x, high)
}

// Whether a number has 64 bits and is less than 2^64 above the least one.
fn is_word_from(low: Option<i128>, x: &i128) -> bool
    ensures { result ≡ spec.is_word_from low x.now }
{
    match low {
        None => false,
        Some(low) => is_number(x) && is_near(&low, x),
    }
}

fn is_near(low: &i128, x: &i128) -> bool
    ensures { result ≡ nat_lt (distance low.now x.now) (2 ^ 64) }
{
    x.abs_diff(*low) < 1 << 64
}

// Whether a coding can write a number, where the least one is this.
fn is_value(coding: Coding, low: Option<i128>, x: &i128) -> bool
    ensures { result ≡ spec.is_value coding low x.now }
{
    match coding {
        Coding::Default => is_word_from(low, x),
        Coding::PosInt(_) => is_coded(coding, x),
        Coding::Twos(_) => is_coded(coding, x),
        Coding::Bcd(_) => is_coded(coding, x),
        Coding::BcdEnded => is_coded(coding, x),
        Coding::Ascii(_, _) => is_coded(coding, x),
        Coding::AsciiEnded(_) => is_coded(coding, x),
    }
}

fn is_coded(coding: Coding, x: &i128) -> bool
    ensures { result ≡ (codings.fits coding && spec.is_among (codings.numbers coding) x.now) }
{
    if !fits(coding) {
        return false;
    }
    let ends = numbers(coding);
    is_among(&ends.0, &ends.1, x)
}

/// The items whose numbers can't be written.
pub fn lost_values<'w>(
    alloc: Global,
    coding: Coding,
    items: &[(&'w Name, i128)],
) -> Result<Vec<(&'w Name, i128)>, NoMemory>
    ensures { IfOk result (λ all. map numbered_view all.items ≡ spec.lost_values coding (map numbered_view items.now)) }
{
    let low = least_of(items);
    lost_above(alloc, coding, low, items)
}

// The same where the least number is this.
fn lost_above<'w>(
    alloc: Global,
    coding: Coding,
    low: Option<i128>,
    items: &[(&'w Name, i128)],
) -> Result<Vec<(&'w Name, i128)>, NoMemory>
    ensures { IfOk result (λ all. map numbered_view all.items ≡ filter (λ i. not (spec.is_value coding low i.1)) (map numbered_view items.now)) }
{
    let mut all = Vec::new(alloc);
    for item in items {
        if !is_value(coding, low, &item.1) {
            all.push(*item)?;
        }
    }
    Ok(all)
}
