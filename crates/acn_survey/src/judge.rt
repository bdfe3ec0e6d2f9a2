ghost use Rattle.std.specs.Prelude.{◌≡◌, option_map, IfOk, Some, None, drop};
ghost use Rattle.std.specs.Option.{option_or};
ghost use Rattle.acn_world.specs.Viewed.{world_view};
ghost use Rattle.acn_enum_values.specs.View.{fault_view};
ghost use Rattle.acn_sites.specs.View.{site_view};
ghost use Rattle.acn_survey.specs.Reasons as spec;
ghost use Rattle.acn_survey.specs.View.{reason_of};

use crate::MergeReason;
use acn_defaults::bad_default;
use acn_enum_values::{EnumFault, enum_values};
use acn_grammar::MOST_NODES;
use acn_num::{Name, NoMemory};
use acn_reasons::{
    attribute_not_here, bad_path, constraint_fault, has_no_such_field, has_wrong_arguments,
    is_too_deep, repeated_attribute,
};
use acn_sites::Site;
use acn_slots::PlainTypes;
use acn_world::World;
use acn_written::{
    bad_endianness, bad_mapping, bad_size, numbers_at, pattern_clash, too_narrow, written_sizes,
};
use std::alloc::Global;

/// The first reason for which a site can't be made, by its number in preorder, from 1.
#[tactic(auto, unfolding(crate::specs::Reasons::reason_at))]
pub fn reason_at<'w>(
    alloc: Global,
    world: &'w World,
    plain: &'w PlainTypes,
    number: u32,
    site: &Site<'w>,
) -> Result<Option<MergeReason>, NoMemory>
    ensures { IfOk result (λ told. option_map reason_of told ≡ option_map Some (spec.reason_at (world_view world.now) number (site_view site.now))) }
{
    if is_too_deep(site) {
        return Ok(Some(MergeReason::TooDeep));
    }
    if number > MOST_NODES {
        return Ok(Some(MergeReason::TooManyNodes));
    }
    if let Some(kind) = repeated_attribute(alloc, site)? {
        return Ok(Some(MergeReason::RepeatedAttribute(kind)));
    }
    if let Some(kind) = attribute_not_here(alloc, site)? {
        return Ok(Some(MergeReason::AttributeNotHere(kind)));
    }
    if let Some(fault) = constraint_fault(alloc, world, site)? {
        return Ok(Some(MergeReason::Constraint(fault)));
    }
    if has_no_such_field(alloc, site)? {
        return Ok(Some(MergeReason::NoSuchField));
    }
    if has_wrong_arguments(alloc, world, plain, site)? {
        return Ok(Some(MergeReason::Arguments));
    }
    match bad_path(alloc, world, plain, site)? {
        Some(fault) => Ok(Some(MergeReason::Path(fault))),
        None => reason_written(alloc, world, site),
    }
}

// The first reason that lies in how a site is written.
fn reason_written<'w>(
    alloc: Global,
    world: &'w World,
    site: &Site<'w>,
) -> Result<Option<MergeReason>, NoMemory>
    ensures { IfOk result (λ told. option_map reason_of told ≡ option_map Some (spec.first (spec.reasons_written (world_view world.now) (site_view site.now)))) }
{
    if let Some(key) = bad_mapping(alloc, world, site)? {
        return Ok(Some(MergeReason::BadMapping { key }));
    }
    if let Some(fault) = enum_values(alloc, site)? {
        return Ok(Some(with_names(alloc, fault)?));
    }
    if pattern_clash(site) {
        return Ok(Some(MergeReason::PatternClash));
    }
    reason_of_numbers(alloc, world, site)
}

// The names of two items as a reason.
fn with_names(alloc: Global, fault: EnumFault<'_>) -> Result<MergeReason, NoMemory>
    ensures { IfOk result (λ reason. reason_of reason ≡ Some (spec.item_numbers (fault_view fault.entry))) }
{
    let first = Name::copy(alloc, fault.first.bytes())?;
    let second = Name::copy(alloc, fault.second.bytes())?;
    Ok(MergeReason::EnumValues { first, second })
}

// The first reason that lies in the size and the numbers of a site.
fn reason_of_numbers<'w>(
    alloc: Global,
    world: &'w World,
    site: &Site<'w>,
) -> Result<Option<MergeReason>, NoMemory>
    ensures { IfOk result (λ told. option_map reason_of told ≡ option_map Some (spec.first (drop 3 (spec.reasons_written (world_view world.now) (site_view site.now))))) }
{
    let numbers = numbers_at(alloc, world, site)?;
    let sizes = written_sizes(alloc, world, site)?;
    if bad_size(world, site, &numbers, &sizes) {
        return Ok(Some(MergeReason::BadSize));
    }
    if bad_endianness(world, site, &numbers) {
        return Ok(Some(MergeReason::EndianSize));
    }
    match too_narrow(world, site, &numbers) {
        Some(value) => Ok(Some(MergeReason::TooNarrow { value })),
        None => default_reason(alloc, world, site),
    }
}

// The last reason.
fn default_reason<'w>(
    alloc: Global,
    world: &'w World,
    site: &Site<'w>,
) -> Result<Option<MergeReason>, NoMemory>
    ensures { IfOk result (λ told. option_map reason_of told ≡ option_map Some (spec.first (drop 6 (spec.reasons_written (world_view world.now) (site_view site.now))))) }
{
    if bad_default(alloc, world, site)? {
        Ok(Some(MergeReason::BadDefault))
    } else {
        Ok(None)
    }
}
