//! Items of an enumeration that have one number, or that lack one.

ghost use Rattle.std.specs.Prelude.{◌≡◌, [], map, Some, option_map, IfOk};
ghost use Rattle.acn_asn_syntax.specs.Mirror.{enumerated};
ghost use Rattle.acn_asn_syntax.specs.View.{base_view};
ghost use Rattle.acn_acn_syntax.specs.View.{field_of};
ghost use Rattle.acn_firsts.specs.Placed.{noted_all};
ghost use Rattle.acn_slots.specs.View.{braces_view};
ghost use Rattle.acn_sites.specs.View.{site_view};
ghost use Rattle.acn_written.specs.View.{numbered_view, placed};
ghost use Rattle.acn_enum_values.specs.EnumValues as spec;
ghost use Rattle.acn_enum_values.specs.View.{fault_view};

use crate::seen::Seen;
use acn_acn_syntax::AcnField;
use acn_asn_syntax::{AsnBase, Item};
use acn_firsts::Firsts;
use acn_num::{Name, NoMemory};
use acn_sites::Site;
use acn_slots::{base_of, braces_at, braces_origin};
use acn_written::{field_numbers, item_numbers, names_of};
use std::alloc::Global;

/// Two items of an enumeration with one number, or one that lacks a number, twice.
#[derive(Clone, Copy)]
pub struct EnumFault<'w> {
    /// The name of the earlier one.
    pub first: &'w Name,
    /// The name of the later one.
    pub second: &'w Name,
}

// The first that has the number of one before it, behind that one.
fn twins<'w>(alloc: Global, items: &[(&'w Name, i128)]) -> Result<Option<EnumFault<'w>>, NoMemory>
    ensures { IfOk result (λ found. option_map fault_view found ≡ spec.twins (map numbered_view items.now)) }
{
    let mut seen = Seen::new(alloc);
    for item in items {
        match seen.with_number(item.1) {
            Some(first) => {
                return Ok(Some(EnumFault {
                    first,
                    second: item.0,
                }));
            }
            None => seen.add(item.0, item.1)?,
        }
    }
    Ok(None)
}

// Whether a name has a number.
#[tactic(auto, using(crate::proofs::Noted::name_noted))]
fn has_number(given: &[(&Name, i128)], names: &Firsts, name: &[u8]) -> bool
    requires { names.now ≡ noted_all [] (placed 0 (map numbered_view given.now)) }
    ensures { result ≡ spec.has_number (map numbered_view given.now) name.now }
{
    names.get(name).is_some()
}

// Whether an item lacks a number.
fn lacks(given: &[(&Name, i128)], names: &Firsts, item: &Item) -> bool
    requires { names.now ≡ noted_all [] (placed 0 (map numbered_view given.now)) }
    ensures { result ≡ spec.lacks (map numbered_view given.now) item.now }
{
    !has_number(given, names, item.name.bytes())
}

// The first item that has no number there, twice.
fn lacking<'w>(
    alloc: Global,
    given: &[(&Name, i128)],
    items: &'w [Item],
) -> Result<Option<EnumFault<'w>>, NoMemory>
    ensures { IfOk result (λ found. option_map fault_view found ≡ spec.lacking (map numbered_view given.now) items.now) }
{
    let names = names_of(alloc, given)?;
    for item in items {
        if lacks(given, &names, item) {
            return Ok(Some(EnumFault {
                first: &item.name,
                second: &item.name,
            }));
        }
    }
    Ok(None)
}

// The fault of the numbers that braces give.
fn fields_fault<'w>(
    alloc: Global,
    items: &'w [Item],
    fields: &'w [AcnField],
) -> Result<Option<EnumFault<'w>>, NoMemory>
    ensures { IfOk result (λ found. option_map fault_view found ≡ spec.braces_fault items.now (Some (map field_of fields.now))) }
{
    let given = field_numbers(alloc, fields)?;
    match twins(alloc, given.as_slice())? {
        Some(found) => Ok(Some(found)),
        None => lacking(alloc, given.as_slice(), items),
    }
}

// The fault of an enumeration's numbers.
fn items_fault<'w>(
    alloc: Global,
    items: &'w [Item],
    braces: Option<&'w [AcnField]>,
) -> Result<Option<EnumFault<'w>>, NoMemory>
    ensures { IfOk result (λ found. option_map fault_view found ≡ spec.fault_of (enumerated items.now) (braces_view braces.entry)) }
{
    let numbered = item_numbers(alloc, items)?;
    match twins(alloc, numbered.as_slice())? {
        Some(found) => Ok(Some(found)),
        None => match braces {
            None => Ok(None),
            Some(fields) => fields_fault(alloc, items, fields),
        },
    }
}

// The same of a type, where it is an enumeration.
#[tactic(auto, using(acn_asn_syntax::proofs::Views::type_views))]
fn fault_of<'w>(
    alloc: Global,
    base: &'w AsnBase,
    braces: Option<&'w [AcnField]>,
) -> Result<Option<EnumFault<'w>>, NoMemory>
    ensures { IfOk result (λ found. option_map fault_view found ≡ spec.fault_of (base_view base.now) (braces_view braces.entry)) }
{
    match base {
        AsnBase::Enumerated(items) => items_fault(alloc, items.items(), braces),
        AsnBase::Boolean => Ok(None),
        AsnBase::Null => Ok(None),
        AsnBase::Integer(_) => Ok(None),
        AsnBase::OctetString => Ok(None),
        AsnBase::BitString => Ok(None),
        AsnBase::Ia5String => Ok(None),
        AsnBase::Sequence(_) => Ok(None),
        AsnBase::SequenceOf(None, _) => Ok(None),
        AsnBase::SequenceOf(Some(_), _) => Ok(None),
        AsnBase::Choice(_) => Ok(None),
        AsnBase::Ref(_, _) => Ok(None),
    }
}

/// The fault of the numbers of an enumeration's items: the first item in the order of the text that has the number of an
/// earlier one, behind that one; or the first that braces in ACN give no number, twice. The numbers of ASN.1 come before
/// those of ACN, and equal numbers before a number that is lacking. (X.680, 20.3; for ACN this profile's own.)
#[tactic(auto, unfolding(crate::specs::EnumValues::enum_values))]
pub fn enum_values<'w>(alloc: Global, site: &Site<'w>) -> Result<Option<EnumFault<'w>>, NoMemory>
    ensures { IfOk result (λ found. option_map fault_view found ≡ spec.enum_values (site_view site.now)) }
{
    let from = braces_origin(&site.chain, site.used);
    fault_of(alloc, base_of(&site.chain), braces_at(site.used, from))
}
