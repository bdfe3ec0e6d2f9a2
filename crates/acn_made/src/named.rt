//! The slots that the attributes of a site name.

ghost use Rattle.std.specs.Prelude.{◌≡◌, List, option_map, IfOk, Some};
ghost use Rattle.std.specs.Borrow.{Bor};
ghost use Rattle.acn_num.specs.Names as names;
ghost use Rattle.acn_world.specs.Viewed.{world_view};
ghost use Rattle.acn_slots.specs.View.{scope_view};
ghost use Rattle.acn_sites.specs.View.{site_view, given_view};
ghost use Rattle.acn_made.specs.Named as spec;

use acn_acn_syntax::{Attr, SizeAttr};
use acn_homes::Homes;
use acn_num::{Name, NoMemory};
use acn_sites::{AttrKind, Given, Site, nearest, scope_of};
use acn_slots::{Lead, PlainTypes, Scope, leads};
use acn_world::World;
use std::alloc::Global;

// The number of the slot to which a path leads, where it leads to one.
fn number_led(homes: &Homes<'_>, lead: &Lead) -> Option<u32>
    ensures { result ≡ spec.number_led homes.now lead.now }
{
    match lead {
        Lead::Slot(slot) => homes.number(slot.path.items()),
        Lead::Nowhere => None,
        Lead::Absent { .. } => None,
    }
}

/// The number of the slot to which the names of a path lead, where they lead to one.
pub fn number_named<'w>(
    alloc: Global,
    world: &'w World,
    plain: &'w PlainTypes,
    homes: &Homes<'_>,
    scope: &Scope<'w>,
    names: &[Name],
) -> Result<Option<u32>, NoMemory>
    ensures { IfOk result (λ number. number ≡ spec.number_named (world_view world.now) homes.now (scope_view scope.now) names.now) }
{
    let lead = leads(alloc, world, plain, scope, names)?;
    Ok(number_led(homes, &lead))
}

// The path of a size.
fn path_of_size(size: &SizeAttr) -> Option<&[Name]>
    ensures { option_map (λ (p : Bor (List names.Name)). p.now) result ≡ spec.path_of_size size.now }
{
    match size {
        SizeAttr::Path(path) => Some(path.names.items()),
        SizeAttr::Number(_) => None,
        SizeAttr::NullTerminated => None,
    }
}

// The one path of `size` or `determinant`.
fn path_in(attr: &Attr) -> Option<&[Name]>
    ensures { option_map (λ (p : Bor (List names.Name)). p.now) result ≡ spec.path_in attr.now }
{
    match attr {
        Attr::Size(size) => path_of_size(size),
        Attr::Determinant(path) => Some(path.names.items()),
        Attr::Encoding(_) => None,
        Attr::Endianness(_) => None,
        Attr::AlignToNext(_) => None,
        Attr::EncodeValues => None,
        Attr::TrueValue(_) => None,
        Attr::FalseValue(_) => None,
        Attr::Pattern(_) => None,
        Attr::TerminationPattern(_) => None,
        Attr::PresentWhen(_) => None,
        Attr::MappingFunction(_) => None,
    }
}

// The slot that an attribute names.
fn determinant_in<'w>(
    alloc: Global,
    world: &'w World,
    plain: &'w PlainTypes,
    homes: &Homes<'_>,
    site: &Site<'w>,
    given: Given<'w>,
) -> Result<Option<u32>, NoMemory>
    ensures { IfOk result (λ number. number ≡ spec.determinant_in (world_view world.now) homes.now (site_view site.now) (Some (given_view given.entry))) }
{
    match path_in(given.attr) {
        None => Ok(None),
        Some(names) => {
            let scope = scope_of(alloc, world, plain, site, given)?;
            number_named(alloc, world, plain, homes, &scope, names)
        }
    }
}

/// The slot that the nearest attribute of this kind names, which is `size` or `determinant`.
pub fn determinant_by<'w>(
    alloc: Global,
    world: &'w World,
    plain: &'w PlainTypes,
    homes: &Homes<'_>,
    kind: AttrKind,
    site: &Site<'w>,
) -> Result<Option<u32>, NoMemory>
    ensures { IfOk result (λ number. number ≡ spec.determinant_by kind (world_view world.now) homes.now (site_view site.now)) }
{
    match nearest(kind, site) {
        None => Ok(None),
        Some(given) => determinant_in(alloc, world, plain, homes, site, given),
    }
}
