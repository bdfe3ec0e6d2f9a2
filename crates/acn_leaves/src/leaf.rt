//! The leaf of a site with numbers.

ghost use Rattle.std.specs.Prelude.{◌≡◌, ◌∷◌, [], Bool, true, false, pos, map, option_map, option_copied, IfOk, Some};
ghost use Rattle.acn_world.specs.Viewed.{world_view};
ghost use Rattle.acn_world.specs.Chained.{chain_view};
ghost use Rattle.acn_codings.specs.Codings as codings;
ghost use Rattle.acn_codings.specs.Tables as tables;
ghost use Rattle.acn_slots.specs.Slots as slots;
ghost use Rattle.acn_slots.specs.View.{braces_view, use_view};
ghost use Rattle.acn_sites.specs.View.{site_view};
ghost use Rattle.acn_written.specs.View.{numbered_view, numbers_view};
ghost use Rattle.acn_written.specs.Numbers.{numbers_at};
ghost use Rattle.acn_written.specs.Says.{table_attr};
ghost use Rattle.acn_leaves.specs.Leaves as spec;

use crate::items::{greatest_of, items_in_order};
use crate::width::{high_end, low_end, range_width};
use acn_acn_syntax::{AcnField, MapTable};
use acn_asn_syntax::{AsnBase, Item};
use acn_codings::{Coding, fits, line_of};
use acn_grammar::{Items, NumCoding, NumKind, NumLeaf, Pattern, Table};
use acn_num::{Name, NoMemory, RangeSet, Row};
use acn_sites::{AttrKind, Site};
use acn_slots::{base_of, braces_at, braces_origin};
use acn_world::World;
use acn_written::{
    Numbers, bits_given, end_of, has_values, is_little, least_of, numbers_at, pattern_attr,
    table_attr, values_of,
};
use std::alloc::Global;

// The numbers from a least to a greatest one as a range.
fn range_from(low: &i128, high: &i128) -> NumCoding
    ensures { result ≡ spec.range_from low.now high.now }
{
    NumCoding::Range {
        low: *low,
        width: range_width(low, high),
    }
}

// How a set of numbers is written without a size.
fn default_coding(open_below: bool, open_above: bool, set: &RangeSet) -> NumCoding
    ensures { result ≡ spec.default_coding open_below open_above set.now }
{
    if open_below {
        return NumCoding::CountedSigned;
    }
    if open_above {
        return NumCoding::CountedFrom { low: low_end(set) };
    }
    range_from(&low_end(set), &high_end(set))
}

// A coding whose width is one that it has.
fn as_said(default: NumCoding, end: Pattern, coding: Coding) -> NumCoding
    requires fits { codings.fits coding ≡ true }
    ensures { result ≡ spec.as_said default end coding }
{
    match coding {
        Coding::Default => default,
        Coding::PosInt(bits) => NumCoding::PosInt(bits as u32),
        Coding::Twos(bits) => NumCoding::Twos(bits as u32),
        Coding::Bcd(bits) => NumCoding::Bcd(bits as u32),
        Coding::BcdEnded => NumCoding::BcdEnded,
        Coding::Ascii(bits, signed) => NumCoding::Ascii {
            bits: bits as u32,
            signed,
        },
        Coding::AsciiEnded(signed) => NumCoding::AsciiEnded { end, signed },
    }
}

// The default coding, or the one that attributes give, where its width is one that it has.
fn written_as(default: NumCoding, end: Pattern, coding: Coding) -> NumCoding
    ensures { result ≡ spec.written_as default end coding }
{
    if fits(coding) {
        as_said(default, end, coding)
    } else {
        default
    }
}

// A leaf without items.
fn no_items(alloc: Global) -> Items
    ensures { result ≡ spec.no_items }
{
    Items {
        items: Row::new(alloc),
        values: false,
    }
}

// A mapping table as leaves have it.
fn table_of(alloc: Global, table: &MapTable) -> Result<Table, NoMemory>
    ensures { IfOk result (λ t. t ≡ spec.table_of table.now) }
{
    let mut lines = Row::new(alloc);
    for line in table.lines.items() {
        lines.push(line_of(line))?;
    }
    Ok(Table {
        name: Name::copy(alloc, table.name.bytes())?,
        lines,
    })
}

// The table of a site, where it has one.
fn table_at(alloc: Global, world: &World, site: &Site<'_>) -> Result<Option<Table>, NoMemory>
    ensures { IfOk result (λ t. t ≡ option_map spec.table_of (table_attr (world_view world.now) (site_view site.now))) }
{
    match table_attr(world, site) {
        None => Ok(None),
        Some(table) => Ok(Some(table_of(alloc, table)?)),
    }
}

// The leaf of an INTEGER.
fn integer_leaf(
    alloc: Global,
    world: &World,
    site: &Site<'_>,
    numbers: Numbers,
) -> Result<NumLeaf, NoMemory>
    ensures { IfOk result (λ leaf. leaf ≡ spec.integer_leaf (world_view world.now) (site_view site.now) (numbers_view numbers)) }
{
    let set = &numbers.set;
    let default = default_coding(set.open_below, set.open_above, &numbers.left);
    let coding = written_as(default, end_of(site), numbers.coding);
    Ok(NumLeaf {
        kind: NumKind::Integer,
        set: numbers.left,
        coding,
        little: is_little(site),
        table: table_at(alloc, world, site)?,
        items: no_items(alloc),
    })
}

// The numbers of items as a range.
fn values_range(values: &[(&Name, i128)]) -> NumCoding
    ensures { result ≡ spec.values_range (map numbered_view values.now) }
{
    range_from(
        &least_of(values).unwrap_or(0),
        &greatest_of(values).unwrap_or(0),
    )
}

// The leaf of an ENUMERATED.
fn enumerated_leaf(
    alloc: Global,
    site: &Site<'_>,
    items: &[Item],
    braces: Option<&[AcnField]>,
    numbers: Numbers,
) -> Result<NumLeaf, NoMemory>
    ensures { IfOk result (λ leaf. leaf ≡ spec.enumerated_leaf (site_view site.now) items.now (braces_view braces.entry) (numbers_view numbers)) }
{
    let values = has_values(site);
    let default = if values {
        values_range(values_of(alloc, items, braces)?.as_slice())
    } else {
        default_coding(false, false, &numbers.left)
    };
    Ok(NumLeaf {
        kind: NumKind::Enumerated,
        set: numbers.left,
        coding: written_as(default, end_of(site), numbers.coding),
        little: is_little(site),
        table: None,
        items: Items {
            items: items_in_order(alloc, items, braces)?,
            values,
        },
    })
}

// The leaf of a BOOLEAN.
fn boolean_leaf(alloc: Global, site: &Site<'_>) -> Result<NumLeaf, NoMemory>
    ensures { IfOk result (λ leaf. leaf ≡ spec.boolean_leaf (site_view site.now)) }
{
    Ok(NumLeaf {
        kind: NumKind::Boolean,
        set: RangeSet::one(alloc, 0, 1)?,
        coding: NumCoding::Flag {
            yes: bits_given(pattern_attr(AttrKind::TrueValue, site)),
            no: bits_given(pattern_attr(AttrKind::FalseValue, site)),
        },
        little: false,
        table: None,
        items: no_items(alloc),
    })
}

// How a NULL with this pattern, or without one, is written.
fn null_coding(pattern: Option<Pattern>) -> NumCoding
    ensures { result ≡ spec.null_coding pattern }
{
    match pattern {
        None => NumCoding::Range { low: 0, width: 0 },
        Some(pattern) => NumCoding::Fixed(pattern),
    }
}

/// The leaf of a NULL.
pub fn null_leaf(alloc: Global, site: &Site<'_>) -> Result<NumLeaf, NoMemory>
    ensures { IfOk result (λ leaf. leaf ≡ spec.null_leaf (site_view site.now)) }
{
    Ok(NumLeaf {
        kind: NumKind::Null,
        set: RangeSet::one(alloc, 0, 0)?,
        coding: null_coding(bits_given(pattern_attr(AttrKind::Pattern, site))),
        little: false,
        table: None,
        items: no_items(alloc),
    })
}

// The leaf of an INTEGER, where its constraints leave numbers.
fn integer_at(alloc: Global, world: &World, site: &Site<'_>) -> Result<Option<NumLeaf>, NoMemory>
    ensures { IfOk result (λ leaf. leaf ≡ option_map (spec.integer_leaf (world_view world.now) (site_view site.now)) (numbers_at (world_view world.now) (site_view site.now))) }
{
    match numbers_at(alloc, world, site)? {
        None => Ok(None),
        Some(numbers) => Ok(Some(integer_leaf(alloc, world, site, numbers)?)),
    }
}

// The leaf of an ENUMERATED.
fn enumerated_at(
    alloc: Global,
    world: &World,
    site: &Site<'_>,
    items: &[Item],
) -> Result<Option<NumLeaf>, NoMemory>
    ensures { IfOk result (λ leaf. leaf ≡ option_map (spec.enumerated_leaf (site_view site.now) items.now (slots.braces_at (use_view site.now.used) (slots.braces_origin (chain_view site.now.chain) (use_view site.now.used)))) (numbers_at (world_view world.now) (site_view site.now))) }
{
    let from = braces_origin(&site.chain, site.used);
    let braces = braces_at(site.used, from);
    match numbers_at(alloc, world, site)? {
        None => Ok(None),
        Some(numbers) => Ok(Some(enumerated_leaf(alloc, site, items, braces, numbers)?)),
    }
}

/// The leaf of a site; none where its type has no numbers, or its constraints are at fault.
#[tactic(auto, unfolding(crate::specs::Leaves::leaf_at), using(acn_asn_syntax::proofs::Views::type_views))]
pub fn leaf_at(alloc: Global, world: &World, site: &Site<'_>) -> Result<Option<NumLeaf>, NoMemory>
    ensures { IfOk result (λ leaf. leaf ≡ spec.leaf_at (world_view world.now) (site_view site.now)) }
{
    match base_of(&site.chain) {
        AsnBase::Integer(_) => integer_at(alloc, world, site),
        AsnBase::Enumerated(items) => enumerated_at(alloc, world, site, items.items()),
        AsnBase::Boolean => Ok(Some(boolean_leaf(alloc, site)?)),
        AsnBase::Null => Ok(Some(null_leaf(alloc, site)?)),
        AsnBase::OctetString => Ok(None),
        AsnBase::BitString => Ok(None),
        AsnBase::Ia5String => Ok(None),
        AsnBase::Sequence(_) => Ok(None),
        AsnBase::SequenceOf(None, _) => Ok(None),
        AsnBase::SequenceOf(Some(_), _) => Ok(None),
        AsnBase::Choice(_) => Ok(None),
        AsnBase::Ref(_, _) => Ok(None),
    }
}
