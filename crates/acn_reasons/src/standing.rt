ghost use Rattle.std.specs.Prelude.{◌≡◌, ◌∷◌, [], take, find, option_map, option_copied, IfOk};
ghost use Rattle.std.specs.List.{enumerate_from, list_any};
ghost use Rattle.acn_sites.specs.Attributes as attrs;
ghost use Rattle.acn_sites.specs.Places as places;
ghost use Rattle.acn_slots.specs.View.{origin_view};
ghost use Rattle.acn_sites.specs.View.{site_view, given_view, position_view};
ghost use Rattle.acn_reasons.specs.Standing as spec;
ghost use Rattle.acn_reasons.specs.Classes as classes;

use crate::classes::{
    Class, class_of, encoding_attr, encoding_in, is_ascii, is_bcd, is_binary, is_ended, size_attr,
};
use acn_acn_syntax::{Attr, SizeAttr};
use acn_num::{MOST_STEPS, NoMemory, Row};
use acn_sites::{AttrKind, Given, Position, Site, kind_of, nearest, place_of, sooner};
use acn_slots::{Origin, is_optional};
use std::alloc::Global;

/// Whether the path of a site has more steps than `MOST_STEPS`.
pub fn is_too_deep(site: &Site<'_>) -> bool
    ensures { result ≡ spec.is_too_deep (site_view site.now) }
{
    site.path.items().len() > MOST_STEPS
}

// Whether an attribute of this kind is among these.
fn has_kind(kind: AttrKind, attributes: &[Attr]) -> bool
    ensures { result ≡ list_any (attrs.is_of kind) attributes.now }
{
    for attr in attributes {
        if kind_of(attr).number() == kind.number() {
            return true;
        }
    }
    false
}

// The first attribute that stands behind one of its kind, with its number.
fn first_repeat(attributes: &[Attr]) -> Option<(usize, &Attr)>
    ensures { option_map (λ a. (a.0, a.1.now)) result ≡ find (spec.stands_behind attributes.now) (enumerate_from 0 attributes.now) }
{
    for (i, attr) in attributes.iter().enumerate() {
        if has_kind(kind_of(attr), &attributes[..i]) {
            return Some((i, attr));
        }
    }
    None
}

// The same with its place.
fn repeat_in<'w>(
    alloc: Global,
    site: &Site<'w>,
    from: Origin<'w>,
    attributes: &'w [Attr],
) -> Result<Option<(Row<usize>, AttrKind)>, NoMemory>
    ensures { IfOk result (λ found. found ≡ spec.repeat_in (site_view site.now) (origin_view from.entry, attributes.now)) }
{
    match first_repeat(attributes) {
        None => Ok(None),
        Some((number, attr)) => {
            let at = place_of(alloc, site, Given { from, number, attr })?;
            Ok(Some((at, kind_of(attr))))
        }
    }
}

/// The attribute that one bracket of a site gives twice, the first in the text of those of all brackets. Its place is that of its
/// second occurrence.
#[tactic(auto, unfolding(crate::specs::Standing::repeated_attribute))]
pub fn repeated_attribute(alloc: Global, site: &Site<'_>) -> Result<Option<AttrKind>, NoMemory>
    ensures { IfOk result (λ kind. kind ≡ spec.repeated_attribute (site_view site.now)) }
{
    let mut best = repeat_in(alloc, site, Origin::Use, site.used.attributes)?;
    for entry in site.chain.entries.items() {
        let attributes = entry.is.attributes.items();
        let found = repeat_in(alloc, site, Origin::Entry(*entry), attributes)?;
        best = sooner(best, found);
    }
    Ok(kind_there(best))
}

// What was found.
fn kind_there(found: Option<(Row<usize>, AttrKind)>) -> Option<AttrKind>
    ensures { result ≡ places.found_there found }
{
    match found {
        None => None,
        Some((_, kind)) => Some(kind),
    }
}

// Whether a `size` stands on a type.
fn size_stands(class: Class, decimal: bool, size: &SizeAttr) -> bool
    ensures { result ≡ spec.size_stands class decimal size.now }
{
    match size {
        SizeAttr::Number(_) => class.is_number() || class.is_sized(),
        SizeAttr::Path(_) => class.is_sized(),
        SizeAttr::NullTerminated => {
            (class.is_integer() && decimal) || class.is_text() || class.is_list()
        }
    }
}

// Whether a node may be absent.
fn may_be_missing(position: Position<'_>) -> bool
    ensures { result ≡ spec.may_be_missing (position_view position.entry) }
{
    match position {
        Position::Root { .. } => false,
        Position::Component { rest, .. } => is_optional(rest),
        Position::Inserted { .. } => false,
        Position::Alternative { .. } => true,
        Position::Element => false,
        Position::Content => false,
    }
}

// Whether an `encoding` stands on a type.
fn encoding_stands(class: Class, attr: &Attr) -> bool
    ensures { result ≡ spec.encoding_stands class attr.now }
{
    class.is_integer()
        || (class.is_enumerated() && is_binary(encoding_in(attr)))
        || (class.is_text() && is_ascii(encoding_in(attr)))
}

// Whether an attribute stands on the type of a site, beside its nearest attributes.
fn stands_here(site: &Site<'_>, attr: &Attr) -> bool
    ensures { result ≡ spec.stands_here (site_view site.now) attr.now }
{
    let class = class_of(site);
    match attr {
        Attr::Size(size) => {
            let encoding = encoding_attr(site);
            size_stands(class, is_bcd(encoding) || is_ascii(encoding), size)
        }
        Attr::Encoding(_) => encoding_stands(class, attr),
        Attr::Endianness(_) => class.is_number(),
        Attr::AlignToNext(_) => true,
        Attr::EncodeValues => class.is_enumerated(),
        Attr::TrueValue(_) => class.is_boolean(),
        Attr::FalseValue(_) => class.is_boolean(),
        Attr::Pattern(_) => class.is_null(),
        Attr::TerminationPattern(_) => is_ended(size_attr(site)) && !is_bcd(encoding_attr(site)),
        Attr::PresentWhen(_) => may_be_missing(site.position),
        Attr::Determinant(_) => class.is_choice(),
        Attr::MappingFunction(_) => class.is_integer() && size_attr(site).is_some(),
    }
}

// The nearest attribute of a kind, with its place, where it may not stand here.
fn stranger(
    alloc: Global,
    site: &Site<'_>,
    kind: AttrKind,
) -> Result<Option<(Row<usize>, AttrKind)>, NoMemory>
    ensures { IfOk result (λ found. found ≡ spec.stranger (site_view site.now) kind) }
{
    match nearest(kind, site) {
        None => Ok(None),
        Some(given) => {
            if stands_here(site, given.attr) {
                return Ok(None);
            }
            Ok(Some((place_of(alloc, site, given)?, kind)))
        }
    }
}

const ALL_KINDS: [AttrKind; 12] = [
    AttrKind::Size,
    AttrKind::Encoding,
    AttrKind::Endianness,
    AttrKind::AlignToNext,
    AttrKind::EncodeValues,
    AttrKind::TrueValue,
    AttrKind::FalseValue,
    AttrKind::Pattern,
    AttrKind::TerminationPattern,
    AttrKind::PresentWhen,
    AttrKind::Determinant,
    AttrKind::MappingFunction,
];

// The first in the text of the strangers of these kinds.
fn first_stranger(
    alloc: Global,
    site: &Site<'_>,
    kinds: &[AttrKind],
) -> Result<Option<AttrKind>, NoMemory>
    ensures { IfOk result (λ kind. kind ≡ places.found_there (places.earliest (spec.stranger (site_view site.now)) kinds.now)) }
{
    let mut best = None;
    for kind in kinds {
        best = sooner(best, stranger(alloc, site, *kind)?);
    }
    Ok(kind_there(best))
}

/// The attribute that doesn't stand on the type of a site, the first in the text of the nearest ones of each kind.
#[tactic(auto, unfolding(crate::specs::Standing::attribute_not_here))]
pub fn attribute_not_here(alloc: Global, site: &Site<'_>) -> Result<Option<AttrKind>, NoMemory>
    ensures { IfOk result (λ kind. kind ≡ spec.attribute_not_here (site_view site.now)) }
{
    first_stranger(alloc, site, &ALL_KINDS)
}
