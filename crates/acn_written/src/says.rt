//! What the nearest attributes of a site say of the way in which it is written.

ghost use Rattle.std.specs.Prelude.{◌≡◌, option_copied};
ghost use Rattle.acn_world.specs.Viewed.{world_view};
ghost use Rattle.acn_sites.specs.View.{site_view};
ghost use Rattle.acn_written.specs.Says as spec;

use acn_acn_syntax::{Attr, Endianness, Literal, MapTable};
use acn_sites::{AttrKind, Site, nearest};
use acn_world::World;

// The literal of an attribute.
fn literal_in(attr: &Attr) -> Option<&Literal>
    ensures { option_copied result ≡ spec.literal_in attr.now }
{
    match attr {
        Attr::TrueValue(literal) => Some(literal),
        Attr::FalseValue(literal) => Some(literal),
        Attr::Pattern(literal) => Some(literal),
        Attr::TerminationPattern(literal) => Some(literal),
        Attr::Size(_) => None,
        Attr::Encoding(_) => None,
        Attr::Endianness(_) => None,
        Attr::AlignToNext(_) => None,
        Attr::EncodeValues => None,
        Attr::PresentWhen(_) => None,
        Attr::Determinant(_) => None,
        Attr::MappingFunction(_) => None,
    }
}

/// The literal of the nearest attribute of a kind.
pub fn literal_attr<'w>(kind: AttrKind, site: &Site<'w>) -> Option<&'w Literal>
    ensures { option_copied result ≡ spec.literal_attr kind (site_view site.now) }
{
    let given = nearest(kind, site)?;
    literal_in(given.attr)
}

// The table that an attribute names.
fn table_in<'w>(world: &'w World, attr: &Attr) -> Option<&'w MapTable>
    ensures { option_copied result ≡ spec.table_in (world_view world.now) attr.now }
{
    match attr {
        Attr::MappingFunction(name) => world.table(name.bytes()),
        Attr::TrueValue(_) => None,
        Attr::FalseValue(_) => None,
        Attr::Pattern(_) => None,
        Attr::TerminationPattern(_) => None,
        Attr::Size(_) => None,
        Attr::Encoding(_) => None,
        Attr::Endianness(_) => None,
        Attr::AlignToNext(_) => None,
        Attr::EncodeValues => None,
        Attr::PresentWhen(_) => None,
        Attr::Determinant(_) => None,
    }
}

/// The mapping table that the nearest attribute names.
pub fn table_attr<'w>(world: &'w World, site: &Site<'_>) -> Option<&'w MapTable>
    ensures { option_copied result ≡ spec.table_attr (world_view world.now) (site_view site.now) }
{
    let given = nearest(AttrKind::MappingFunction, site)?;
    table_in(world, given.attr)
}

// Whether an attribute says that the least significant octet stands first.
fn says_little(attr: &Attr) -> bool
    ensures { result ≡ spec.says_little attr.now }
{
    match attr {
        Attr::Endianness(Endianness::Little) => true,
        Attr::Endianness(Endianness::Big) => false,
        Attr::MappingFunction(_) => false,
        Attr::TrueValue(_) => false,
        Attr::FalseValue(_) => false,
        Attr::Pattern(_) => false,
        Attr::TerminationPattern(_) => false,
        Attr::Size(_) => false,
        Attr::Encoding(_) => false,
        Attr::AlignToNext(_) => false,
        Attr::EncodeValues => false,
        Attr::PresentWhen(_) => false,
        Attr::Determinant(_) => false,
    }
}

/// Whether the least significant octet of a number stands first.
pub fn is_little(site: &Site<'_>) -> bool
    ensures { result ≡ spec.is_little (site_view site.now) }
{
    match nearest(AttrKind::Endianness, site) {
        None => false,
        Some(given) => says_little(given.attr),
    }
}

/// Whether the numbers of an enumeration's items are written, and not their indices.
pub fn has_values(site: &Site<'_>) -> bool
    ensures { result ≡ spec.has_values (site_view site.now) }
{
    nearest(AttrKind::EncodeValues, site).is_some()
}
