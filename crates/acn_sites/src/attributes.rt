ghost use Rattle.std.specs.Prelude.{◌≡◌, find, option_map, IfOk};
ghost use Rattle.std.specs.List.{enumerate_from};
ghost use Rattle.acn_world.specs.Chained.{entry_view, entries_view};
ghost use Rattle.acn_world.specs.Viewed.{world_view};
ghost use Rattle.acn_sites.specs.Attributes as spec;
ghost use Rattle.acn_slots.specs.View.{origin_view, scope_view};
ghost use Rattle.acn_sites.specs.View.{site_view, given_view};

use crate::site::Site;
use acn_acn_syntax::Attr;
use acn_num::{NoMemory, Row};
use acn_slots::{Origin, PlainTypes, Scope};
use acn_world::{EntryAt, World};
use std::alloc::Global;

/// The attributes by what they say.
#[derive(Clone, Copy)]
pub enum AttrKind {
    /// `size`.
    Size,
    /// `encoding`.
    Encoding,
    /// `endianness`.
    Endianness,
    /// `align-to-next`.
    AlignToNext,
    /// `encode-values`.
    EncodeValues,
    /// `true-value`.
    TrueValue,
    /// `false-value`.
    FalseValue,
    /// `pattern`.
    Pattern,
    /// `termination-pattern`.
    TerminationPattern,
    /// `present-when`.
    PresentWhen,
    /// `determinant`.
    Determinant,
    /// `mapping-function`.
    MappingFunction,
}

/// An attribute, with the bracket in which it stands and its number there.
#[derive(Clone, Copy)]
pub struct Given<'w> {
    /// The bracket.
    pub from: Origin<'w>,
    /// Its number in the bracket.
    pub number: usize,
    /// The attribute.
    pub attr: &'w Attr,
}

impl AttrKind {
    /// The number by which faults name it.
    pub fn number(self) -> u32
        ensures { result ≡ spec.number_of self }
    {
        match self {
            AttrKind::Size => 1,
            AttrKind::Encoding => 2,
            AttrKind::Endianness => 3,
            AttrKind::AlignToNext => 4,
            AttrKind::EncodeValues => 5,
            AttrKind::TrueValue => 6,
            AttrKind::FalseValue => 7,
            AttrKind::Pattern => 8,
            AttrKind::TerminationPattern => 9,
            AttrKind::PresentWhen => 10,
            AttrKind::Determinant => 11,
            AttrKind::MappingFunction => 12,
        }
    }
}

/// What an attribute says.
pub fn kind_of(attr: &Attr) -> AttrKind
    ensures { result ≡ spec.kind_of attr.now }
{
    match attr {
        Attr::Size(_) => AttrKind::Size,
        Attr::Encoding(_) => AttrKind::Encoding,
        Attr::Endianness(_) => AttrKind::Endianness,
        Attr::AlignToNext(_) => AttrKind::AlignToNext,
        Attr::EncodeValues => AttrKind::EncodeValues,
        Attr::TrueValue(_) => AttrKind::TrueValue,
        Attr::FalseValue(_) => AttrKind::FalseValue,
        Attr::Pattern(_) => AttrKind::Pattern,
        Attr::TerminationPattern(_) => AttrKind::TerminationPattern,
        Attr::PresentWhen(_) => AttrKind::PresentWhen,
        Attr::Determinant(_) => AttrKind::Determinant,
        Attr::MappingFunction(_) => AttrKind::MappingFunction,
    }
}

// Whether an attribute is of this kind.
fn is_of(kind: AttrKind, attr: &Attr) -> bool
    ensures { result ≡ spec.is_of kind attr.now }
{
    kind_of(attr).number() == kind.number()
}

// The first attribute of this kind, with its number.
fn first_of(kind: AttrKind, attributes: &[Attr]) -> Option<(usize, &Attr)>
    ensures { option_map (λ a. (a.0, a.1.now)) result ≡ find (λ a. spec.is_of kind a.1) (enumerate_from 0 attributes.now) }
{
    for (i, attr) in attributes.iter().enumerate() {
        if is_of(kind, attr) {
            return Some((i, attr));
        }
    }
    None
}

// The first attribute of this kind in a bracket.
fn given_in<'w>(kind: AttrKind, from: Origin<'w>, attributes: &'w [Attr]) -> Option<Given<'w>>
    ensures { option_map given_view result ≡ spec.given_in kind (origin_view from.entry) attributes.now }
{
    let (number, attr) = first_of(kind, attributes)?;
    Some(Given { from, number, attr })
}

// The same at an entry.
fn given_at<'w>(kind: AttrKind, entry: EntryAt<'w>) -> Option<Given<'w>>
    ensures { option_map given_view result ≡ spec.given_at_entry kind (entry_view entry.entry) }
{
    given_in(kind, Origin::Entry(entry), entry.is.attributes.items())
}

// That of the outermost of these entries that gives it.
fn given_along<'w>(kind: AttrKind, entries: &[EntryAt<'w>]) -> Option<Given<'w>>
    ensures { option_map given_view result ≡ spec.given_along kind (entries_view entries.now) }
{
    let mut found = None;
    for entry in entries {
        match given_at(kind, *entry) {
            None => (),
            Some(given) => found = Some(given),
        }
    }
    found
}

/// The attribute of this kind that decides at a site: that of its use, else that of the first entry along its chain
/// that gives it, from the outermost to the base.
#[tactic(auto, unfolding(crate::specs::Attributes::nearest))]
pub fn nearest<'w>(kind: AttrKind, site: &Site<'w>) -> Option<Given<'w>>
    ensures { option_map given_view result ≡ spec.nearest kind (site_view site.now) }
{
    match given_in(kind, Origin::Use, site.used.attributes) {
        Some(given) => Some(given),
        None => given_along(kind, site.chain.entries.items()),
    }
}

/// The place of an attribute.
pub fn place_of<'w>(
    alloc: Global,
    site: &Site<'w>,
    given: Given<'w>,
) -> Result<Row<usize>, NoMemory>
    ensures { IfOk result (λ at. at ≡ spec.place_of (site_view site.now) (given_view given.entry)) }
{
    let mut at = site.origin_place(alloc, given.from)?;
    at.push(1)?;
    at.push(given.number)?;
    Ok(at)
}

/// The scope in which its paths are read.
pub fn scope_of<'w>(
    alloc: Global,
    world: &'w World,
    plain: &'w PlainTypes,
    site: &Site<'w>,
    given: Given<'w>,
) -> Result<Scope<'w>, NoMemory>
    ensures { IfOk result (λ scope. scope_view scope ≡ spec.scope_of (world_view world.now) (site_view site.now) (given_view given.entry)) }
{
    site.origin_scope(alloc, world, plain, given.from)
}
