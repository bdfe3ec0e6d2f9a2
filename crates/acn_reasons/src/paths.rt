ghost use Rattle.std.specs.Prelude.{◌≡◌, ◌++◌, ◌∷◌, [], map, take, option_map, IfOk, OnOk, None};
ghost use Rattle.std.specs.List.{enumerate_from};
ghost use Rattle.acn_world.specs.Viewed.{world_view};
ghost use Rattle.acn_sites.specs.Places as places;
ghost use Rattle.acn_slots.specs.View.{scope_view};
ghost use Rattle.acn_sites.specs.View.{site_view, given_view};
ghost use Rattle.acn_reasons.specs.Named.{paths_view};
ghost use Rattle.acn_reasons.specs.Paths as spec;

use crate::arguments::own_arguments;
use acn_acn_syntax::{AcnPath, Attr, Condition, SizeAttr};
use acn_num::{Name, NoMemory, Row};
use acn_sites::{AttrKind, Given, Site, nearest, place_of, scope_of, sooner};
use acn_slots::{Lead, PlainTypes, Scope, leads};
use acn_world::World;
use std::alloc::Global;

/// Why a path leads to no determinant.
#[derive(Drop)]
pub enum PathFault {
    /// It leads to none.
    Unknown,
    /// It leads to one, but its first `through` names end at a field that may be absent; `names` are these, joined by full stops.
    MayBeAbsent { through: usize, names: Name },
}

// The place of an argument.
fn argument_place(alloc: Global, at: &[usize], number: usize) -> Result<Row<usize>, NoMemory>
    ensures { IfOk result (λ all. all ≡ places.argument_place at.now number) }
{
    let mut all = Row::from_vec(Vec::from_slice(alloc, at)?);
    all.push(0)?;
    all.push(number)?;
    Ok(all)
}

// The place of a condition.
fn condition_place(alloc: Global, at: &[usize], number: usize) -> Result<Row<usize>, NoMemory>
    ensures { IfOk result (λ all. all ≡ places.condition_place at.now number) }
{
    let mut all = Row::from_vec(Vec::from_slice(alloc, at)?);
    all.push(number)?;
    Ok(all)
}

// Adds the names, each behind a full stop.
fn push_dotted(names: &[Name], text: &mut Vec<u8>) -> Result<(), NoMemory>
    ensures { OnOk result (text.new.items ≡ text.old.items ++ spec.dotted names.now) }
{
    for name in names {
        text.push(b'.')?;
        text.extend_from_slice(name.bytes())?;
    }
    Ok(())
}

// The names joined by full stops.
fn joined(alloc: Global, names: &[Name]) -> Result<Name, NoMemory>
    ensures { IfOk result (λ text. text ≡ spec.joined names.now) }
{
    let mut text = Vec::new(alloc);
    match names.split_first() {
        None => (),
        Some((first, more)) => {
            text.extend_from_slice(first.bytes())?;
            push_dotted(more, &mut text)?;
        }
    }
    Name::copy(alloc, text.as_slice())
}

// So many names, or all where there are fewer.
fn first_names(names: &[Name], through: usize) -> &[Name]
    ensures { result.now ≡ take through names.now }
{
    if through < names.len() {
        &names[..through]
    } else {
        names
    }
}

// The fault of a path at a place.
fn fault_of(
    alloc: Global,
    at: Row<usize>,
    names: &[Name],
    lead: Lead,
) -> Result<Option<(Row<usize>, PathFault)>, NoMemory>
    ensures { IfOk result (λ fault. fault ≡ spec.fault_of at names.now lead) }
{
    match lead {
        Lead::Slot(_) => Ok(None),
        Lead::Nowhere => Ok(Some((at, PathFault::Unknown))),
        Lead::Absent { through, .. } => {
            let names = joined(alloc, first_names(names, through))?;
            Ok(Some((at, PathFault::MayBeAbsent { through, names })))
        }
    }
}

// The fault of an argument.
fn argument_fault<'w>(
    alloc: Global,
    world: &'w World,
    plain: &'w PlainTypes,
    site: &Site<'w>,
    number: usize,
    argument: &AcnPath,
) -> Result<Option<(Row<usize>, PathFault)>, NoMemory>
    ensures { IfOk result (λ fault. fault ≡ spec.argument_fault (world_view world.now) (site_view site.now) (number, argument.now)) }
{
    let at = argument_place(alloc, site.at.items(), number)?;
    let names = argument.names.items();
    let lead = leads(alloc, world, plain, &site.scope, names)?;
    fault_of(alloc, at, names, lead)
}

// The first fault of the arguments.
fn argument_faults<'w>(
    alloc: Global,
    world: &'w World,
    plain: &'w PlainTypes,
    site: &Site<'w>,
    arguments: &[AcnPath],
) -> Result<Option<(Row<usize>, PathFault)>, NoMemory>
    ensures { IfOk result (λ best. best ≡ places.earliest_from (spec.argument_fault (world_view world.now) (site_view site.now)) None (enumerate_from 0 arguments.now)) }
{
    let mut best = None;
    for (i, argument) in arguments.iter().enumerate() {
        best = sooner(
            best,
            argument_fault(alloc, world, plain, site, i, argument)?,
        );
    }
    Ok(best)
}

// The fault of a path in an attribute at a place.
fn path_fault<'w>(
    alloc: Global,
    world: &'w World,
    plain: &'w PlainTypes,
    at: &[usize],
    scope: &Scope<'w>,
    number: usize,
    path: &AcnPath,
) -> Result<Option<(Row<usize>, PathFault)>, NoMemory>
    ensures { IfOk result (λ fault. fault ≡ spec.path_fault (world_view world.now) at.now (scope_view scope.now) (number, path.now.names)) }
{
    let at = condition_place(alloc, at, number)?;
    let names = path.names.items();
    let lead = leads(alloc, world, plain, scope, names)?;
    fault_of(alloc, at, names, lead)
}

// Adds the paths of conditions.
fn push_conditions<'w>(
    conditions: &'w [Condition],
    all: &mut Vec<&'w AcnPath>,
) -> Result<(), NoMemory>
    ensures { OnOk result (paths_view all.new.items ≡ paths_view all.old.items ++ map spec.condition_path conditions.now) }
{
    for condition in conditions {
        all.push(&condition.path)?;
    }
    Ok(())
}

// Adds the path of a size.
fn push_size<'w>(size: &'w SizeAttr, all: &mut Vec<&'w AcnPath>) -> Result<(), NoMemory>
    ensures { OnOk result (paths_view all.new.items ≡ paths_view all.old.items ++ spec.size_paths size.now) }
{
    match size {
        SizeAttr::Number(_) => Ok(()),
        SizeAttr::NullTerminated => Ok(()),
        SizeAttr::Path(path) => {
            all.push(path)?;
            Ok(())
        }
    }
}

/// Adds the paths that an attribute gives: that of a size, those of conditions, or that of a determinant.
pub fn push_paths<'w>(attr: &'w Attr, all: &mut Vec<&'w AcnPath>) -> Result<(), NoMemory>
    ensures { OnOk result (paths_view all.new.items ≡ paths_view all.old.items ++ spec.paths_in attr.now) }
{
    match attr {
        Attr::Size(size) => push_size(size, all),
        Attr::PresentWhen(conditions) => push_conditions(conditions.items(), all),
        Attr::Determinant(path) => {
            all.push(path)?;
            Ok(())
        }
        Attr::Encoding(_) => Ok(()),
        Attr::Endianness(_) => Ok(()),
        Attr::AlignToNext(_) => Ok(()),
        Attr::EncodeValues => Ok(()),
        Attr::TrueValue(_) => Ok(()),
        Attr::FalseValue(_) => Ok(()),
        Attr::Pattern(_) => Ok(()),
        Attr::TerminationPattern(_) => Ok(()),
        Attr::MappingFunction(_) => Ok(()),
    }
}

// The first fault of these paths in an attribute at a place, or an earlier one.
fn path_faults<'w>(
    alloc: Global,
    world: &'w World,
    plain: &'w PlainTypes,
    at: &[usize],
    scope: &Scope<'w>,
    before: Option<(Row<usize>, PathFault)>,
    paths: &[&AcnPath],
) -> Result<Option<(Row<usize>, PathFault)>, NoMemory>
    ensures { IfOk result (λ best. best ≡ places.earliest_from (spec.path_fault (world_view world.now) at.now (scope_view scope.now)) before (enumerate_from 0 (paths_view paths.now))) }
{
    let mut best = before;
    for (i, path) in paths.iter().enumerate() {
        best = sooner(best, path_fault(alloc, world, plain, at, scope, i, *path)?);
    }
    Ok(best)
}

// The fault of an attribute, where it is sooner.
fn sooner_in<'w>(
    alloc: Global,
    world: &'w World,
    plain: &'w PlainTypes,
    site: &Site<'w>,
    best: Option<(Row<usize>, PathFault)>,
    given: Option<Given<'w>>,
) -> Result<Option<(Row<usize>, PathFault)>, NoMemory>
    ensures { IfOk result (λ sooner. sooner ≡ spec.sooner_in (world_view world.now) (site_view site.now) best (option_map given_view given.entry)) }
{
    match given {
        None => Ok(best),
        Some(given) => {
            let mut paths = Vec::new(alloc);
            push_paths(given.attr, &mut paths)?;
            let at = place_of(alloc, site, given)?;
            let scope = scope_of(alloc, world, plain, site, given)?;
            path_faults(
                alloc,
                world,
                plain,
                at.items(),
                &scope,
                best,
                paths.as_slice(),
            )
        }
    }
}

/// The fault of a path of a site: of its own arguments, and of the nearest `size`, `present-when` and `determinant`. The first in the
/// text is answered.
#[tactic(auto, unfolding(crate::specs::Paths::bad_path))]
pub fn bad_path<'w>(
    alloc: Global,
    world: &'w World,
    plain: &'w PlainTypes,
    site: &Site<'w>,
) -> Result<Option<PathFault>, NoMemory>
    ensures { IfOk result (λ fault. fault ≡ spec.bad_path (world_view world.now) (site_view site.now)) }
{
    let own = own_arguments(alloc, world, site)?;
    let best = argument_faults(alloc, world, plain, site, own)?;
    let size = nearest(AttrKind::Size, site);
    let best = sooner_in(alloc, world, plain, site, best, size)?;
    let conditions = nearest(AttrKind::PresentWhen, site);
    let best = sooner_in(alloc, world, plain, site, best, conditions)?;
    let determinant = nearest(AttrKind::Determinant, site);
    let best = sooner_in(alloc, world, plain, site, best, determinant)?;
    Ok(fault_there(best))
}

// What was found.
fn fault_there(found: Option<(Row<usize>, PathFault)>) -> Option<PathFault>
    ensures { result ≡ places.found_there found }
{
    match found {
        None => None,
        Some((_, fault)) => Some(fault),
    }
}
