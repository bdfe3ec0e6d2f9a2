//! The numbers of an INTEGER or an ENUMERATED, how they are written, and which can't be.

ghost use Rattle.std.specs.Prelude.{◌≡◌, ◌≤ℤ◌, true, int_lt, pos, option_map, option_and_then, option_copied, IfOk, Some};
ghost use Rattle.acn_num.specs.Ranges.{bottom, top};
ghost use Rattle.acn_world.specs.Viewed.{world_view};
ghost use Rattle.acn_world.specs.Chained.{chain_view};
ghost use Rattle.acn_codings.specs.Codings as codings;
ghost use Rattle.acn_constraint.specs.Constraints as constraints;
ghost use Rattle.acn_constraint.specs.Views.{opened_of};
ghost use Rattle.acn_slots.specs.Slots as slots;
ghost use Rattle.acn_slots.specs.View.{braces_view, use_view};
ghost use Rattle.acn_sites.specs.View.{site_view};
ghost use Rattle.acn_written.specs.Numbers as spec;
ghost use Rattle.acn_written.specs.View.{numbers_view};

use crate::says::{has_values, table_attr};
use crate::told::pass_over;
use crate::values::{least_of, lost_values, values_of};
use acn_acn_syntax::{AcnField, MapTable};
use acn_asn_syntax::{AsnBase, Item};
use acn_codings::{Coding, coding_of, fits, keys_to, least_lost, left_of, numbers};
use acn_constraint::{OpenSet, range_of};
use acn_num::{NoMemory, RangeSet};
use acn_reasons::{encoding_attr, size_attr};
use acn_sites::Site;
use acn_slots::{base_of, braces_at, braces_origin};
use acn_world::{Chain, World};
use std::alloc::Global;

/// How the numbers of an INTEGER or an ENUMERATED are written.
#[derive(Drop)]
pub struct Numbers {
    /// Their coding.
    pub coding: Coding,
    /// The numbers that the constraints leave, with their open ends; the indices of an enumeration's items.
    pub set: OpenSet,
    /// What is left of these where the coding can't write all.
    pub left: RangeSet,
    /// The least number that is to be written and can't be.
    pub lost: Option<i128>,
}

// The numbers between two ends, or the keys of a table whose images lie there.
fn through(
    alloc: Global,
    table: Option<&MapTable>,
    low: &i128,
    high: &i128,
) -> Result<RangeSet, NoMemory>
    requires low { bottom ≤ℤ low.now }
    requires low_end { low.now ≤ℤ top }
    requires high { high.now ≤ℤ top }
    requires high_end { bottom ≤ℤ high.now }
    ensures { IfOk result (λ s. s ≡ spec.through (option_copied table.entry) (low.now, high.now)) }
{
    match table {
        None => RangeSet::between(alloc, *low, *high),
        Some(table) => keys_to(alloc, low, high, table.lines.items()),
    }
}

// The ends of what a coding can write.
fn ends_of(coding: Coding) -> (i128, i128)
    requires { codings.fits coding ≡ true }
    ensures value { result ≡ codings.numbers coding }
    ensures low { bottom ≤ℤ result.0 }
    ensures low_end { result.0 ≤ℤ top }
    ensures high { result.1 ≤ℤ top }
    ensures high_end { bottom ≤ℤ result.1 }
{
    numbers(coding)
}

// The numbers that can be written.
fn can_write(alloc: Global, coding: Coding, table: Option<&MapTable>) -> Result<RangeSet, NoMemory>
    ensures { IfOk result (λ s. s ≡ spec.can_write coding (option_copied table.entry)) }
{
    if !fits(coding) {
        return Ok(RangeSet::empty(alloc));
    }
    let ends = ends_of(coding);
    through(alloc, table, &ends.0, &ends.1)
}

// These numbers in this coding, where these can be written.
fn written_so(
    alloc: Global,
    coding: Coding,
    set: OpenSet,
    can: &RangeSet,
) -> Result<Numbers, NoMemory>
    ensures { IfOk result (λ n. numbers_view n ≡ spec.written_so coding (opened_of set) can.now) }
{
    let left = left_of(alloc, &set, can)?;
    let lost = least_lost(alloc, &set, can)?;
    Ok(Numbers {
        coding,
        set,
        left,
        lost,
    })
}

fn is_negative(x: &i128) -> bool
    ensures { result ≡ int_lt x.now (pos 0) }
{
    *x < 0
}

// Whether the numbers have a sign.
fn has_sign(set: &OpenSet) -> bool
    ensures { result ≡ spec.has_sign (opened_of set.now) }
{
    if set.open_below {
        return false;
    }
    match set.numbers.least() {
        None => false,
        Some(least) => is_negative(&least),
    }
}

// The numbers of an INTEGER with this set.
fn integer_numbers(
    alloc: Global,
    world: &World,
    site: &Site<'_>,
    set: OpenSet,
) -> Result<Numbers, NoMemory>
    ensures { IfOk result (λ n. numbers_view n ≡ spec.integer_numbers (world_view world.now) (site_view site.now) (opened_of set)) }
{
    let coding = coding_of(has_sign(&set), size_attr(site), encoding_attr(site));
    let can = can_write(alloc, coding, table_attr(world, site))?;
    written_so(alloc, coding, set, &can)
}

// What the constraints leave, where they leave something.
#[tactic(auto, using(crate::proofs::Passed::set_left, crate::proofs::Passed::no_set))]
fn if_left(alloc: Global, world: &World, chain: &Chain<'_>) -> Result<Option<OpenSet>, NoMemory>
    ensures { IfOk result (λ s. option_map opened_of s ≡ spec.if_left (constraints.range_of (world_view world.now) (chain_view chain.now))) }
{
    match range_of(alloc, world, chain) {
        Ok(set) => Ok(Some(set)),
        Err(fault) => {
            pass_over(fault)?;
            Ok(None)
        }
    }
}

// The same numbers without open ends.
fn closed_set(set: RangeSet) -> OpenSet
    ensures { opened_of result ≡ spec.closed_set set }
{
    OpenSet {
        numbers: set,
        open_below: false,
        open_above: false,
    }
}

// The indices of items.
fn indices(alloc: Global, items: &[Item]) -> Result<RangeSet, NoMemory>
    ensures { IfOk result (λ s. s ≡ spec.indices items.now) }
{
    RangeSet::between(alloc, 0, items.len() as i128 - 1)
}

// The numbers of an enumeration whose indices are written.
fn indexed(alloc: Global, items: &[Item], coding: Coding) -> Result<Numbers, NoMemory>
    ensures { IfOk result (λ n. numbers_view n ≡ spec.indexed items.now coding) }
{
    let can = can_write(alloc, coding, None)?;
    let set = closed_set(indices(alloc, items)?);
    written_so(alloc, coding, set, &can)
}

// The numbers of an enumeration whose items' numbers are written.
fn valued(
    alloc: Global,
    items: &[Item],
    braces: Option<&[AcnField]>,
    coding: Coding,
) -> Result<Numbers, NoMemory>
    ensures { IfOk result (λ n. numbers_view n ≡ spec.valued items.now (spec.values_of items.now (braces_view braces.entry)) coding) }
{
    let values = values_of(alloc, items, braces)?;
    let lost = lost_values(alloc, coding, values.as_slice())?;
    Ok(Numbers {
        coding,
        set: closed_set(indices(alloc, items)?),
        left: indices(alloc, items)?,
        lost: least_of(lost.as_slice()),
    })
}

// The numbers of an enumeration.
fn enumerated_numbers(
    alloc: Global,
    site: &Site<'_>,
    items: &[Item],
    braces: Option<&[AcnField]>,
) -> Result<Numbers, NoMemory>
    ensures { IfOk result (λ n. numbers_view n ≡ spec.enumerated_numbers (site_view site.now) items.now (braces_view braces.entry)) }
{
    let coding = coding_of(false, size_attr(site), encoding_attr(site));
    if has_values(site) {
        valued(alloc, items, braces, coding)
    } else {
        indexed(alloc, items, coding)
    }
}

// The numbers of an INTEGER.
fn integer_at(alloc: Global, world: &World, site: &Site<'_>) -> Result<Option<Numbers>, NoMemory>
    ensures { IfOk result (λ n. option_map numbers_view n ≡ option_map (spec.integer_numbers (world_view world.now) (site_view site.now)) (spec.if_left (constraints.range_of (world_view world.now) (chain_view site.now.chain)))) }
{
    match if_left(alloc, world, &site.chain)? {
        None => Ok(None),
        Some(set) => Ok(Some(integer_numbers(alloc, world, site, set)?)),
    }
}

// The same of an enumeration.
fn enumerated_at(
    alloc: Global,
    site: &Site<'_>,
    items: &[Item],
) -> Result<Option<Numbers>, NoMemory>
    ensures { IfOk result (λ n. option_map numbers_view n ≡ Some (spec.enumerated_numbers (site_view site.now) items.now (slots.braces_at (use_view site.now.used) (slots.braces_origin (chain_view site.now.chain) (use_view site.now.used))))) }
{
    let from = braces_origin(&site.chain, site.used);
    let braces = braces_at(site.used, from);
    Ok(Some(enumerated_numbers(alloc, site, items, braces)?))
}

/// How the numbers of a site are written; none where its constraints are at fault, or its type has no numbers.
#[tactic(auto, unfolding(crate::specs::Numbers::numbers_at), using(acn_asn_syntax::proofs::Views::type_views))]
pub fn numbers_at(
    alloc: Global,
    world: &World,
    site: &Site<'_>,
) -> Result<Option<Numbers>, NoMemory>
    ensures { IfOk result (λ n. option_map numbers_view n ≡ spec.numbers_at (world_view world.now) (site_view site.now)) }
{
    match base_of(&site.chain) {
        AsnBase::Integer(_) => integer_at(alloc, world, site),
        AsnBase::Enumerated(items) => enumerated_at(alloc, site, items.items()),
        AsnBase::Boolean => Ok(None),
        AsnBase::Null => Ok(None),
        AsnBase::OctetString => Ok(None),
        AsnBase::BitString => Ok(None),
        AsnBase::Ia5String => Ok(None),
        AsnBase::Sequence(_) => Ok(None),
        AsnBase::SequenceOf(None, _) => Ok(None),
        AsnBase::SequenceOf(Some(_), _) => Ok(None),
        AsnBase::Choice(_) => Ok(None),
        AsnBase::Ref(_, _) => Ok(None),
    }
}

// The least number that can't be written, where there are numbers.
fn lost_of(numbers: &Option<Numbers>) -> Option<i128>
    ensures { result ≡ option_and_then (λ (n : spec.Numbers). spec.Numbers.lost n) (option_map numbers_view numbers.now) }
{
    match numbers {
        None => None,
        Some(numbers) => numbers.lost,
    }
}

/// The least number that is to be written at a site and that its coding can't write. (This profile's own.)
#[tactic(auto, unfolding(crate::specs::Numbers::too_narrow))]
pub fn too_narrow(world: &World, site: &Site<'_>, numbers: &Option<Numbers>) -> Option<i128>
    requires { option_map numbers_view numbers.now ≡ spec.numbers_at (world_view world.now) (site_view site.now) }
    ensures { result ≡ spec.too_narrow (world_view world.now) (site_view site.now) }
{
    let _world = world;
    let _site = site;
    lost_of(numbers)
}
