//! Whether the value behind DEFAULT is permitted.

ghost use Rattle.std.specs.Prelude.{◌≡◌, ◌≤◌, ◌^◌, ◌&&◌, not, map, option_map, option_copied, is_some, pos, IfOk, IfSome, Some};
ghost use Rattle.std.specs.List.{list_any};
ghost use Rattle.std.specs.Str.{bytes_eq};
ghost use Rattle.acn_num.specs.Bits.{octets};
ghost use Rattle.acn_num.specs.Ranges.{has};
ghost use Rattle.acn_asn_syntax.specs.View.{base_view};
ghost use Rattle.acn_asn_syntax.specs.declared.types.Item.{Item};
ghost use Rattle.acn_world.specs.Viewed.{world_view};
ghost use Rattle.acn_world.specs.Chained.{chain_view};
ghost use Rattle.acn_set_elements.specs.Written as elements;
ghost use Rattle.acn_sites.specs.Sites as sites;
ghost use Rattle.acn_sites.specs.View.{site_view};
ghost use Rattle.acn_reasons.specs.Classes as classes;
ghost use Rattle.acn_written.specs.Ends as ends;
ghost use Rattle.acn_written.specs.Numbers as numbers;
ghost use Rattle.acn_written.specs.Sizes as sizes;
ghost use Rattle.acn_written.specs.View.{numbers_view};
ghost use Rattle.acn_defaults.specs.Defaults as spec;

use crate::given::{bits_of, is_null_value, is_truth, octets_of, owner_in, value_at, value_in};
use crate::text::permits_text;
use acn_asn_syntax::{AsnBase, AsnValue, Item};
use acn_num::{NoMemory, RangeSet};
use acn_reasons::{Class, class_of};
use acn_set_elements::{NumberNames, number_in, text_in};
use acn_sites::{Site, content_of};
use acn_slots::base_of;
use acn_world::World;
use acn_written::{Numbers, characters_at, ended_by, numbers_at, sizes_at, written_sizes};
use std::alloc::Global;

// Whether an item has a name.
fn has_item(items: &[Item], name: &[u8]) -> bool
    ensures { result ≡ list_any (λ (i : Item). bytes_eq i.name name.now) items.now }
{
    for item in items {
        if item.name.bytes() == name {
            return true;
        }
    }
    false
}

// Whether a value is the name of an item.
fn is_item(items: &[Item], value: &AsnValue) -> bool
    ensures { result ≡ spec.is_item items.now value.now }
{
    match value {
        AsnValue::Ref(name) => has_item(items, name.bytes()),
        AsnValue::Number(_, _) => false,
        AsnValue::True => false,
        AsnValue::False => false,
        AsnValue::Null => false,
        AsnValue::Bits(_) => false,
        AsnValue::Hex(_) => false,
        AsnValue::Text(_) => false,
    }
}

// The same of a type, where it is an enumeration.
#[tactic(auto, using(acn_asn_syntax::proofs::Views::type_views))]
fn is_item_of(base: &AsnBase, value: &AsnValue) -> bool
    ensures { result ≡ spec.is_item_of (base_view base.now) value.now }
{
    match base {
        AsnBase::Enumerated(items) => is_item(items.items(), value),
        AsnBase::Boolean => false,
        AsnBase::Null => false,
        AsnBase::Integer(_) => false,
        AsnBase::OctetString => false,
        AsnBase::BitString => false,
        AsnBase::Ia5String => false,
        AsnBase::Sequence(_) => false,
        AsnBase::SequenceOf(None, _) => false,
        AsnBase::SequenceOf(Some(_), _) => false,
        AsnBase::Choice(_) => false,
        AsnBase::Ref(_, _) => false,
    }
}

// The same of the type of a site.
fn is_item_at(site: &Site<'_>, value: &AsnValue) -> bool
    ensures { result ≡ spec.is_item_of (sites.base_of (site_view site.now)) value.now }
{
    let base = base_of(&site.chain);
    is_item_of(base, value)
}

// Whether a set holds a number, where there is one.
fn is_among(set: &RangeSet, x: Option<i128>) -> bool
    ensures { result ≡ spec.is_among set.now x }
{
    match x {
        None => false,
        Some(x) => set.holds(x),
    }
}

// Whether a number is one of those that are left for the coding.
fn is_left(numbers: &Option<Numbers>, x: Option<i128>) -> bool
    ensures { result ≡ spec.is_left (option_map numbers_view numbers.now) x }
{
    match numbers {
        None => false,
        Some(numbers) => is_among(&numbers.left, x),
    }
}

// Whether an INTEGER permits a value.
fn permits_number(
    alloc: Global,
    world: &World,
    site: &Site<'_>,
    k: u32,
    value: &AsnValue,
) -> Result<bool, NoMemory>
    ensures { IfOk result (λ permits. permits ≡ spec.is_left (numbers.numbers_at (world_view world.now) (site_view site.now)) (elements.number_in (world_view world.now) (elements.named_of (sites.base_of (site_view site.now))) k value.now)) }
{
    let numbers = numbers_at(alloc, world, site)?;
    let base = base_of(&site.chain);
    let names = NumberNames::of(alloc, base, &[])?;
    let number = number_in(world, &names, k, value);
    Ok(is_left(&numbers, number))
}

// The permitted sizes.
fn sizes_of(alloc: Global, world: &World, site: &Site<'_>) -> Result<RangeSet, NoMemory>
    ensures { IfOk result (λ permitted. permitted ≡ sizes.sizes_at (world_view world.now) (site_view site.now)) }
{
    let written = written_sizes(alloc, world, site)?;
    sizes_at(alloc, world, site, written)
}

fn holds_count(sizes: &RangeSet, n: u128) -> bool
    requires { n ≤ 2 ^ 66 }
    ensures { result ≡ has sizes.now (pos n) }
{
    sizes.holds(n as i128)
}

// Whether a count is among the sizes.
fn has_count(sizes: &RangeSet, count: Option<u128>) -> bool
    requires { IfSome count (λ n. n ≤ 2 ^ 66) }
    ensures { result ≡ spec.has_count sizes.now count }
{
    match count {
        None => false,
        Some(n) => holds_count(sizes, n),
    }
}

// Whether an OCTET STRING permits a value.
fn permits_octets<'w>(
    alloc: Global,
    world: &'w World,
    site: &Site<'w>,
    k: u32,
    value: &'w AsnValue,
) -> Result<bool, NoMemory>
    ensures { IfOk result (λ permits. permits ≡ (not (is_some (sites.content_of (chain_view site.now.chain))) && spec.has_count (sizes.sizes_at (world_view world.now) (site_view site.now)) (option_map octets (spec.bits_of (spec.value_in (world_view world.now) k value.now))))) }
{
    if content_of(&site.chain).is_some() {
        return Ok(false);
    }
    let sizes = sizes_of(alloc, world, site)?;
    let count = octets_of(value_in(world, k, value));
    Ok(has_count(&sizes, count))
}

// Whether a BIT STRING permits a value.
fn permits_bits<'w>(
    alloc: Global,
    world: &'w World,
    site: &Site<'w>,
    k: u32,
    value: &'w AsnValue,
) -> Result<bool, NoMemory>
    ensures { IfOk result (λ permits. permits ≡ spec.has_count (sizes.sizes_at (world_view world.now) (site_view site.now)) (spec.bits_of (spec.value_in (world_view world.now) k value.now))) }
{
    let sizes = sizes_of(alloc, world, site)?;
    let count = bits_of(value_in(world, k, value));
    Ok(has_count(&sizes, count))
}

// Whether an IA5String permits a value.
fn permits_characters<'w>(
    alloc: Global,
    world: &'w World,
    site: &Site<'w>,
    k: u32,
    value: &'w AsnValue,
) -> Result<bool, NoMemory>
    ensures { IfOk result (λ permits. permits ≡ spec.permits_text (sizes.sizes_at (world_view world.now) (site_view site.now)) (sizes.characters_at (world_view world.now) (site_view site.now)) (ends.ended_by (site_view site.now)) (elements.text_in (world_view world.now) k value.now)) }
{
    let sizes = sizes_of(alloc, world, site)?;
    let characters = characters_at(alloc, world, site)?;
    let end = ended_by(site);
    let token = text_in(world, k, value);
    permits_text(alloc, &sizes, &characters, &end, token)
}

// Whether the type of a site permits a value that stands in a module.
fn permits<'w>(
    alloc: Global,
    world: &'w World,
    site: &Site<'w>,
    k: u32,
    value: &'w AsnValue,
) -> Result<bool, NoMemory>
    ensures { IfOk result (λ permits. permits ≡ spec.permits (world_view world.now) (site_view site.now) k value.now (classes.class_of (site_view site.now))) }
{
    match class_of(site) {
        Class::Boolean => Ok(is_truth(value_in(world, k, value))),
        Class::Null => Ok(is_null_value(value_in(world, k, value))),
        Class::Integer => permits_number(alloc, world, site, k, value),
        Class::Enumerated => Ok(is_item_at(site, value)),
        Class::Octets => permits_octets(alloc, world, site, k, value),
        Class::Bits => permits_bits(alloc, world, site, k, value),
        Class::Text => permits_characters(alloc, world, site, k, value),
        Class::Sequence => Ok(false),
        Class::List => Ok(false),
        Class::Choice => Ok(false),
        Class::Reference => Ok(false),
    }
}

// Whether the value behind DEFAULT isn't permitted.
fn is_refused<'w>(
    alloc: Global,
    world: &'w World,
    site: &Site<'w>,
    value: &'w AsnValue,
) -> Result<bool, NoMemory>
    ensures { IfOk result (λ refused. refused ≡ spec.is_refused (world_view world.now) (site_view site.now) (Some value.now) (spec.owner_in (sites.Site.scope (site_view site.now)).frames)) }
{
    match owner_in(site.scope.frames.items()) {
        None => Ok(true),
        Some(k) => Ok(!permits(alloc, world, site, k, value)?),
    }
}

/// Whether the value behind DEFAULT of a site isn't permitted by its type (X.680 clause 25): an identifier stands for a named
/// number or an item of the type, else for the value to which it leads in the module where the component stands. The
/// number is one of those that are left for the coding, the size one that `size` and the constraints permit, each character
/// one of the alphabet, and the text ends where its terminator first stands. No value is permitted for octets that contain a
/// type, a SEQUENCE, a list or a CHOICE. (X.680 clauses 18 to 24 and 41; what attributes say is this profile's own.)
#[tactic(auto, unfolding(crate::specs::Defaults::bad_default))]
pub fn bad_default<'w>(alloc: Global, world: &'w World, site: &Site<'w>) -> Result<bool, NoMemory>
    ensures { IfOk result (λ bad. bad ≡ spec.bad_default (world_view world.now) (site_view site.now)) }
{
    match value_at(&site.position) {
        None => Ok(false),
        Some(value) => is_refused(alloc, world, site, value),
    }
}
