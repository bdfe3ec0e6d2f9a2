//! The sites of a type in words.

ghost use Rattle.acn_world.specs.Viewed.{world_view};
ghost use Rattle.acn_index.specs.World.{IsType};

use crate::measure::fault_in_words;
use acn_acn_syntax::{AcnPath, Attr, SizeAttr};
use acn_case_sheets::Trouble;
use acn_num::Name;
use acn_reasons::{
    PathFault, attribute_not_here, bad_path, constraint_fault, has_no_such_field,
    has_wrong_arguments, is_too_deep, repeated_attribute,
};
use acn_sites::{AttrKind, Given, Position, Site, nearest, root_site, scope_of, sites_below};
use acn_slots::{Lead, PlainTypes, leads};
use acn_world::{TypeId, World};
use std::alloc::Global;

/// More sites than a case has.
const MOST_SITES: usize = 1000;

// A site that is still to be told, with the text of the node above it.
#[derive(Drop)]
struct Open<'w> {
    site: Site<'w>,
    above: String,
}

fn push_bytes(alloc: Global, name: &Name, words: &mut String) -> Result<(), Trouble> {
    let text = String::from_utf8_lossy(alloc, name.bytes())?;
    words.push_str(text.as_str())?;
    Ok(())
}

fn push_dotted(alloc: Global, name: &Name, words: &mut String) -> Result<(), Trouble> {
    words.push_str(".")?;
    push_bytes(alloc, name, words)
}

// Adds what a node adds to the text of the node above it.
fn push_mark(alloc: Global, position: Position<'_>, words: &mut String) -> Result<(), Trouble> {
    match position {
        Position::Root { owner, name } => {
            push_bytes(alloc, owner, words)?;
            push_dotted(alloc, name, words)?;
        }
        Position::Component { name, .. } => push_dotted(alloc, name, words)?,
        Position::Inserted { name, .. } => push_dotted(alloc, name, words)?,
        Position::Alternative { name } => push_dotted(alloc, name, words)?,
        Position::Element => words.push_str("[0]")?,
        Position::Content => words.push_str("()")?,
    }
    Ok(())
}

fn path_fault_in_words(alloc: Global, fault: &PathFault) -> Result<String, Trouble> {
    match fault {
        PathFault::Unknown => Ok("UnknownPath".to_string(alloc)?),
        PathFault::MayBeAbsent { through, names } => {
            let names = String::from_utf8_lossy(alloc, names.bytes())?;
            Ok(format!(in alloc; "DeterminantMayBeAbsent {through} {names}")?)
        }
    }
}

// The reason of an attribute, or none.
fn attribute_reason(alloc: Global, site: &Site<'_>) -> Result<Option<String>, Trouble> {
    if is_too_deep(site) {
        return Ok(Some("TooDeep".to_string(alloc)?));
    }
    if let Some(kind) = repeated_attribute(alloc, site)? {
        return Ok(Some(format!(in alloc; "RepeatedAttribute {}", kind.number())?));
    }
    if let Some(kind) = attribute_not_here(alloc, site)? {
        return Ok(Some(format!(in alloc; "AttributeNotHere {}", kind.number())?));
    }
    Ok(None)
}

// The reason of paths, or none.
fn path_reason<'w>(
    alloc: Global,
    world: &'w World,
    plain: &'w PlainTypes,
    site: &Site<'w>,
) -> Result<Option<String>, Trouble> {
    match bad_path(alloc, world, plain, site)? {
        None => Ok(None),
        Some(fault) => Ok(Some(path_fault_in_words(alloc, &fault)?)),
    }
}

// The reason of constraints, braces, arguments or paths, or none.
fn other_reason<'w>(
    alloc: Global,
    world: &'w World,
    plain: &'w PlainTypes,
    site: &Site<'w>,
) -> Result<Option<String>, Trouble> {
    if let Some(fault) = constraint_fault(alloc, world, site)? {
        return Ok(Some(fault_in_words(alloc, fault)?));
    }
    if has_no_such_field(alloc, site)? {
        return Ok(Some("NoSuchField".to_string(alloc)?));
    }
    if has_wrong_arguments(alloc, world, plain, site)? {
        return Ok(Some("Arguments".to_string(alloc)?));
    }
    path_reason(alloc, world, plain, site)
}

// The first path in an attribute.
fn first_path(attr: &Attr) -> Option<&AcnPath> {
    match attr {
        Attr::Size(SizeAttr::Path(path)) => Some(path),
        Attr::Determinant(path) => Some(path),
        Attr::PresentWhen(conditions) => match conditions.items().first() {
            Some(condition) => Some(&condition.path),
            None => None,
        },
        _ => None,
    }
}

// Adds the slot to which the first path of an attribute leads.
fn push_lead<'w>(
    alloc: Global,
    world: &'w World,
    plain: &'w PlainTypes,
    site: &Site<'w>,
    given: Given<'w>,
    words: &mut String,
) -> Result<(), Trouble> {
    if let Some(path) = first_path(given.attr) {
        let scope = scope_of(alloc, world, plain, site, given)?;
        if let Lead::Slot(slot) = leads(alloc, world, plain, &scope, path.names.items())? {
            words.push_str(" <-")?;
            for step in slot.path.items() {
                write!(words, " {step}")?;
            }
        }
    }
    Ok(())
}

// Adds the slots to which the paths of an attribute lead.
fn push_leads<'w>(
    alloc: Global,
    world: &'w World,
    plain: &'w PlainTypes,
    site: &Site<'w>,
    kind: AttrKind,
    words: &mut String,
) -> Result<(), Trouble> {
    match nearest(kind, site) {
        None => Ok(()),
        Some(given) => push_lead(alloc, world, plain, site, given, words),
    }
}

// Tells a site: the reason why it can't be made, or none.
fn told<'w>(
    alloc: Global,
    world: &'w World,
    plain: &'w PlainTypes,
    site: &Site<'w>,
    words: &mut String,
) -> Result<Option<String>, Trouble> {
    if let Some(reason) = attribute_reason(alloc, site)? {
        return Ok(Some(reason));
    }
    if let Some(reason) = other_reason(alloc, world, plain, site)? {
        return Ok(Some(reason));
    }
    push_leads(alloc, world, plain, site, AttrKind::Size, words)?;
    push_leads(alloc, world, plain, site, AttrKind::PresentWhen, words)?;
    push_leads(alloc, world, plain, site, AttrKind::Determinant, words)?;
    Ok(None)
}

// Opens the sites below a site, the first on top.
fn open_below<'w>(
    alloc: Global,
    world: &'w World,
    plain: &'w PlainTypes,
    site: &Site<'w>,
    text: &str,
    open: &mut Vec<Open<'w>>,
) -> Result<(), Trouble> {
    let mut below = sites_below(alloc, world, plain, site)?.into_vec();
    for _step in 0..below.len() {
        match below.pop() {
            None => return Ok(()),
            Some(site) => open.push(Open {
                site,
                above: text.to_string(alloc)?,
            })?,
        }
    }
    Ok(())
}

// The sites that are open and those below them, in preorder, or the first that has a reason.
fn walked<'w>(
    alloc: Global,
    world: &'w World,
    plain: &'w PlainTypes,
    open: &mut Vec<Open<'w>>,
) -> Result<String, Trouble> {
    let mut words = String::new(alloc);
    for _step in 0..MOST_SITES {
        match open.pop() {
            None => return Ok(words),
            Some(next) => {
                let mut text = next.above;
                push_mark(alloc, next.site.position, &mut text)?;
                if !words.is_empty() {
                    words.push_str(", ")?;
                }
                words.push_str(text.as_str())?;
                if let Some(reason) = told(alloc, world, plain, &next.site, &mut words)? {
                    return Ok(format!(in alloc; "{text}: {reason}")?);
                }
                open_below(alloc, world, plain, &next.site, text.as_str(), open)?;
            }
        }
    }
    Err(Trouble::TooMuch)
}

fn sites_of(alloc: Global, world: &World, of: TypeId) -> Result<String, Trouble>
    requires { IsType (world_view world.now) of }
{
    let plain = PlainTypes::new(alloc);
    let mut open = Vec::new(alloc);
    open.push(Open {
        site: root_site(alloc, world, of)?,
        above: String::new(alloc),
    })?;
    walked(alloc, world, &plain, &mut open)
}

/// The sites of the type T of the module M: the text of each node in preorder, with the paths of the slots that its
/// attributes name behind it. Where one can't be made, the first such with the reason.
pub fn sites_of_t(alloc: Global, world: &World) -> Result<String, Trouble> {
    match world.find(b"M", b"T") {
        Some(of) => sites_of(alloc, world, of),
        None => Err(Trouble::Absent),
    }
}
