ghost use Rattle.std.specs.Prelude.{◌≡◌, option_map, option_and_then, IfOk};
ghost use Rattle.std.specs.List.{zip, list_all};
ghost use Rattle.acn_asn_syntax.specs.View.{type_view};
ghost use Rattle.acn_world.specs.Chained.{chain_view, entry_view, entries_view};
ghost use Rattle.acn_index.specs.Chains as chains;
ghost use Rattle.acn_world.specs.Viewed.{world_view};
ghost use Rattle.acn_slots.specs.View.{origin_view};
ghost use Rattle.acn_sites.specs.View.{site_view, inside_view, typed_view};
ghost use Rattle.acn_slots.specs.Slots as slots;
ghost use Rattle.acn_reasons.specs.Arguments as spec;

use acn_acn_syntax::{AcnPath, Param, ParamKind};
use acn_asn_syntax::AsnType;
use acn_num::NoMemory;
use acn_sites::{Inside, Site, Typed, content_of, gives_parameters, has_parameters, inside_of};
use acn_slots::{Lead, Origin, PlainTypes, Sort, base_of, braces_origin, leads, sort_of};
use acn_world::{EntryAt, World};
use std::alloc::Global;

// Whether a type in the text of a module has parameters.
fn takes(alloc: Global, world: &World, owner: u32, of: &AsnType) -> Result<bool, NoMemory>
    ensures { IfOk result (λ takes. takes ≡ spec.takes (world_view world.now) owner (type_view of.now)) }
{
    let chain = world.chain(alloc, owner, of)?;
    Ok(has_parameters(&chain))
}

// Whether the element of a list takes its arguments.
fn element_takes(
    alloc: Global,
    world: &World,
    site: &Site<'_>,
    of: &AsnType,
    from: Option<Origin<'_>>,
) -> Result<bool, NoMemory>
    ensures { IfOk result (λ takes. takes ≡ spec.element_takes (world_view world.now) (site_view site.now) (type_view of.now) (option_map origin_view from.entry)) }
{
    match from {
        None => takes(alloc, world, site.chain.module, of),
        Some(_) => Ok(false),
    }
}

// Whether what octets contain takes their arguments.
fn content_takes(alloc: Global, world: &World, content: Option<Typed<'_>>) -> Result<bool, NoMemory>
    ensures { IfOk result (λ takes. takes ≡ spec.content_takes (world_view world.now) (option_map typed_view content.entry)) }
{
    match content {
        None => Ok(false),
        Some(typed) => takes(alloc, world, typed.owner, typed.of),
    }
}

// Whether what is in a site takes its arguments.
fn inside_takes(
    alloc: Global,
    world: &World,
    site: &Site<'_>,
    inside: Inside<'_>,
) -> Result<bool, NoMemory>
    ensures { IfOk result (λ takes. takes ≡ spec.inside_takes (world_view world.now) (site_view site.now) (inside_view inside.entry)) }
{
    match inside {
        Inside::Element(of) => {
            let from = braces_origin(&site.chain, site.used);
            element_takes(alloc, world, site, of, from)
        }
        Inside::Octets => content_takes(alloc, world, content_of(&site.chain)),
        Inside::Components(_) => Ok(false),
        Inside::Alternatives(_) => Ok(false),
        Inside::Nothing => Ok(false),
    }
}

/// Whether the arguments of a site stand for its element or content.
#[tactic(auto, unfolding(crate::specs::Arguments::are_passed_on))]
pub fn are_passed_on(alloc: Global, world: &World, site: &Site<'_>) -> Result<bool, NoMemory>
    ensures { IfOk result (λ on. on ≡ spec.are_passed_on (world_view world.now) (site_view site.now)) }
{
    if has_parameters(&site.chain) {
        return Ok(false);
    }
    inside_takes(alloc, world, site, inside_of(base_of(&site.chain)))
}

/// The arguments that are the site's own.
pub fn own_arguments<'w>(
    alloc: Global,
    world: &World,
    site: &Site<'w>,
) -> Result<&'w [AcnPath], NoMemory>
    ensures { IfOk result (λ own. own.now ≡ spec.own_arguments (world_view world.now) (site_view site.now)) }
{
    if are_passed_on(alloc, world, site)? {
        Ok(&[])
    } else {
        Ok(site.used.arguments)
    }
}

// What a parameter is, behind its references.
fn sort_of_param(
    alloc: Global,
    world: &World,
    reader: u32,
    kind: &ParamKind,
) -> Result<Option<Sort>, NoMemory>
    ensures { IfOk result (λ sort. sort ≡ spec.sort_of_param (world_view world.now) reader kind.now) }
{
    match kind {
        ParamKind::Integer => Ok(Some(Sort::Integer)),
        ParamKind::Boolean => Ok(Some(Sort::Boolean)),
        ParamKind::Ref(name) => named_sort(alloc, world, reader, name.bytes()),
    }
}

// What the type is to which a reference leads.
fn named_sort(
    alloc: Global,
    world: &World,
    reader: u32,
    name: &[u8],
) -> Result<Option<Sort>, NoMemory>
    ensures { IfOk result (λ sort. sort ≡ option_and_then slots.sort_of (slots.named_chain (world_view world.now) reader name.now)) }
{
    match world.lookup(reader, name) {
        None => Ok(None),
        Some(of) => {
            let chain = world.chain_at(alloc, of)?;
            Ok(sort_of(&chain))
        }
    }
}

fn same_sort(a: Sort, b: Sort) -> bool
    ensures { result ≡ spec.same_sort a b }
{
    match (a, b) {
        (Sort::Integer, Sort::Integer) => true,
        (Sort::Integer, Sort::Boolean) => false,
        (Sort::Integer, Sort::Enumerated) => false,
        (Sort::Boolean, Sort::Integer) => false,
        (Sort::Boolean, Sort::Boolean) => true,
        (Sort::Boolean, Sort::Enumerated) => false,
        (Sort::Enumerated, Sort::Integer) => false,
        (Sort::Enumerated, Sort::Boolean) => false,
        (Sort::Enumerated, Sort::Enumerated) => true,
    }
}

fn is_sort(sort: Sort, wanted: Option<Sort>) -> bool
    ensures { result ≡ spec.is_sort sort wanted }
{
    match wanted {
        None => false,
        Some(wanted) => same_sort(sort, wanted),
    }
}

// Whether what an argument leads to is of the kind of its parameter.
fn lead_fits(wanted: Option<Sort>, lead: &Lead) -> bool
    ensures { result ≡ spec.lead_fits wanted lead.now }
{
    match lead {
        Lead::Slot(slot) => is_sort(slot.sort, wanted),
        Lead::Nowhere => true,
        Lead::Absent { sort, .. } => is_sort(*sort, wanted),
    }
}

// Whether an argument is of the kind of its parameter.
fn argument_fits<'w>(
    alloc: Global,
    world: &'w World,
    plain: &'w PlainTypes,
    site: &Site<'w>,
    reader: u32,
    parameter: &Param,
    argument: &AcnPath,
) -> Result<bool, NoMemory>
    ensures { IfOk result (λ fits. fits ≡ spec.argument_fits (world_view world.now) (site_view site.now) reader (parameter.now, argument.now)) }
{
    let wanted = sort_of_param(alloc, world, reader, &parameter.kind)?;
    let lead = leads(alloc, world, plain, &site.scope, argument.names.items())?;
    Ok(lead_fits(wanted, &lead))
}

// Whether the arguments are of the kinds of the parameters, one by one.
fn kinds_fit<'w>(
    alloc: Global,
    world: &'w World,
    plain: &'w PlainTypes,
    site: &Site<'w>,
    reader: u32,
    parameters: &[Param],
    arguments: &[AcnPath],
) -> Result<bool, NoMemory>
    ensures { IfOk result (λ fit. fit ≡ list_all (spec.argument_fits (world_view world.now) (site_view site.now) reader) (zip parameters.now arguments.now)) }
{
    for (i, parameter) in parameters.iter().enumerate() {
        match arguments.get(i) {
            None => return Ok(true),
            Some(argument) => {
                if !argument_fits(alloc, world, plain, site, reader, parameter, argument)? {
                    return Ok(false);
                }
            }
        }
    }
    Ok(true)
}

// Whether the arguments of a site fit the parameters of an entry that has some.
fn entry_fits<'w>(
    alloc: Global,
    world: &'w World,
    plain: &'w PlainTypes,
    site: &Site<'w>,
    entry: EntryAt<'w>,
) -> Result<bool, NoMemory>
    ensures { IfOk result (λ fits. fits ≡ spec.entry_fits (world_view world.now) (site_view site.now) (entry_view entry.entry)) }
{
    let parameters = entry.is.parameters.items();
    if !gives_parameters(entry) {
        return Ok(true);
    }
    if parameters.len() != site.used.arguments.len() {
        return Ok(false);
    }
    kinds_fit(
        alloc,
        world,
        plain,
        site,
        entry.module,
        parameters,
        site.used.arguments,
    )
}

// Whether they fit those of each of these entries.
fn entries_fit<'w>(
    alloc: Global,
    world: &'w World,
    plain: &'w PlainTypes,
    site: &Site<'w>,
    entries: &[EntryAt<'w>],
) -> Result<bool, NoMemory>
    ensures { IfOk result (λ fit. fit ≡ list_all (spec.entry_fits (world_view world.now) (site_view site.now)) (entries_view entries.now)) }
{
    for entry in entries {
        if !entry_fits(alloc, world, plain, site, *entry)? {
            return Ok(false);
        }
    }
    Ok(true)
}

// Whether there are some.
fn has_items(arguments: &[AcnPath]) -> bool
    ensures { result ≡ chains.has_items arguments.now }
{
    match arguments.first() {
        None => false,
        Some(_) => true,
    }
}

// Whether the arguments of a site fit the parameters of what they stand for.
fn arguments_fit<'w>(
    alloc: Global,
    world: &'w World,
    plain: &'w PlainTypes,
    site: &Site<'w>,
) -> Result<bool, NoMemory>
    ensures { IfOk result (λ fit. fit ≡ spec.arguments_fit (world_view world.now) (site_view site.now)) }
{
    if has_parameters(&site.chain) {
        return entries_fit(alloc, world, plain, site, site.chain.entries.items());
    }
    if !has_items(site.used.arguments) {
        return Ok(true);
    }
    are_passed_on(alloc, world, site)
}

/// Whether the number or the kinds of a site's arguments differ from the parameters.
#[tactic(auto, unfolding(crate::specs::Arguments::has_wrong_arguments))]
pub fn has_wrong_arguments<'w>(
    alloc: Global,
    world: &'w World,
    plain: &'w PlainTypes,
    site: &Site<'w>,
) -> Result<bool, NoMemory>
    ensures { IfOk result (λ wrong. wrong ≡ spec.has_wrong_arguments (world_view world.now) (site_view site.now)) }
{
    let fit = arguments_fit(alloc, world, plain, site)?;
    Ok(!fit)
}
