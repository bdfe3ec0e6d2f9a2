ghost use Rattle.std.specs.Prelude.{◌≡◌, ◌++◌, ◌∷◌, [], map, drop, true, false, option_map, option_to_list, IfOk, OnOk};
ghost use Rattle.std.specs.List.{list_all};
ghost use Rattle.acn_asn_syntax.specs.Mirror as tree;
ghost use Rattle.acn_asn_syntax.specs.View.{base_view, component_view, alternative_view};
ghost use Rattle.acn_acn_syntax.specs.View.{field_of};
ghost use Rattle.acn_firsts.specs.Placed.{noted_all};
ghost use Rattle.acn_slots.specs.View.{braces_view};
ghost use Rattle.acn_sites.specs.View.{site_view};
ghost use Rattle.acn_reasons.specs.Braced as spec;
ghost use Rattle.acn_reasons.specs.Named.{names_view, noted_items, fields_view};

use acn_acn_syntax::AcnField;
use acn_asn_syntax::{Alternative, AsnBase, Component, Item};
use acn_firsts::Firsts;
use acn_num::{Name, NoMemory};
use acn_sites::{Site, alternative_name};
use acn_slots::{base_of, braces_at, braces_origin, component_name};
use std::alloc::Global;

// The names of components.
fn component_names<'w>(
    alloc: Global,
    components: &'w [Component],
) -> Result<Vec<&'w Name>, NoMemory>
    ensures { IfOk result (λ all. names_view all.items ≡ spec.component_names (map component_view components.now)) }
{
    let mut all = Vec::new(alloc);
    for component in components {
        all.push(component_name(component))?;
    }
    Ok(all)
}

// The names of alternatives.
fn alternative_names<'w>(
    alloc: Global,
    alternatives: &'w [Alternative],
) -> Result<Vec<&'w Name>, NoMemory>
    ensures { IfOk result (λ all. names_view all.items ≡ spec.alternative_names (map alternative_view alternatives.now)) }
{
    let mut all = Vec::new(alloc);
    for alternative in alternatives {
        all.push(alternative_name(alternative))?;
    }
    Ok(all)
}

// How many names are passed behind a plain field of this name, where so many were before it.
fn behind(names: &[&Name], passed: usize, name: &[u8]) -> Option<usize>
    ensures { option_map (λ k. names_view (drop k names.now)) result ≡ spec.behind (names_view (drop passed names.now)) name.now }
{
    match names.get(passed) {
        None => None,
        Some(next) => {
            if next.bytes() == name {
                Some(passed + 1)
            } else {
                None
            }
        }
    }
}

// How many names are passed behind a field, where so many were before it.
#[tactic(auto, using(acn_acn_syntax::proofs::Views::field_views))]
fn passed_by(inserts: bool, names: &[&Name], passed: usize, field: &AcnField) -> Option<usize>
    ensures { option_map (λ k. names_view (drop k names.now)) result ≡ spec.passed inserts (names_view (drop passed names.now)) (field_of field.now) }
{
    match field {
        AcnField::Plain { name, .. } => behind(names, passed, name.bytes()),
        AcnField::Inserted { .. } => { if inserts { Some(passed) } else { None } }
        AcnField::Number(_, _) => None,
    }
}

// Whether all are passed.
fn are_none(names: &[&Name], passed: usize) -> bool
    ensures { result ≡ spec.are_none (names_view (drop passed names.now)) }
{
    match names.get(passed) {
        None => true,
        Some(_) => false,
    }
}

// Whether the plain fields have these names in this order.
fn lists(inserts: bool, names: &[&Name], fields: &[AcnField]) -> bool
    ensures { result ≡ spec.lists inserts (names_view names.now) (fields_view fields.now) }
{
    let mut passed = 0;
    for field in fields {
        match passed_by(inserts, names, passed, field) {
            None => return false,
            Some(more) => passed = more,
        }
    }
    are_none(names, passed)
}

// Whether there is one plain field.
fn one_plain(fields: &[AcnField]) -> bool
    ensures { result ≡ spec.one_plain (fields_view fields.now) }
{
    match fields {
        [field] => is_plain(field),
        _ => false,
    }
}

// Whether a field is plain.
#[tactic(auto, using(acn_acn_syntax::proofs::Views::field_views))]
fn is_plain(field: &AcnField) -> bool
    ensures { result ≡ spec.is_plain (field_of field.now) }
{
    match field {
        AcnField::Plain { .. } => true,
        AcnField::Inserted { .. } => false,
        AcnField::Number(_, _) => false,
    }
}

// The names of the items.
#[tactic(auto, unfolding(acn_firsts::specs::Placed::noted_all))]
fn items_of(alloc: Global, items: &[Item]) -> Result<Firsts, NoMemory>
    ensures { IfOk result (λ firsts. firsts ≡ noted_all [] (noted_items items.now)) }
{
    let mut firsts = Firsts::new(alloc);
    for item in items {
        firsts.note(alloc, item.name.bytes(), 0)?;
    }
    Ok(firsts)
}

// Whether an item has this name.
#[tactic(auto, using(crate::proofs::Items::item_is_noted))]
fn is_item(items: &[Item], firsts: &Firsts, name: &[u8]) -> bool
    requires { firsts.now ≡ noted_all [] (noted_items items.now) }
    ensures { result ≡ spec.is_item items.now name.now }
{
    firsts.get(name).is_some()
}

// Whether a field gives a number to an item.
#[tactic(auto, using(acn_acn_syntax::proofs::Views::field_views))]
fn is_number_of(items: &[Item], firsts: &Firsts, field: &AcnField) -> bool
    requires { firsts.now ≡ noted_all [] (noted_items items.now) }
    ensures { result ≡ spec.is_number_of items.now (field_of field.now) }
{
    match field {
        AcnField::Plain { .. } => false,
        AcnField::Inserted { .. } => false,
        AcnField::Number(name, _) => is_item(items, firsts, name.bytes()),
    }
}

// Whether each field gives a number to an item.
fn are_numbers(alloc: Global, items: &[Item], fields: &[AcnField]) -> Result<bool, NoMemory>
    ensures { IfOk result (λ fit. fit ≡ list_all (spec.is_number_of items.now) (fields_view fields.now)) }
{
    let firsts = items_of(alloc, items)?;
    for field in fields {
        if !is_number_of(items, &firsts, field) {
            return Ok(false);
        }
    }
    Ok(true)
}

// Whether the fields between braces list the components of a SEQUENCE.
#[tactic(auto, using(acn_asn_syntax::proofs::Views::components_back))]
fn components_fit(
    alloc: Global,
    components: &[Component],
    fields: &[AcnField],
) -> Result<bool, NoMemory>
    ensures { IfOk result (λ fit. fit ≡ spec.lists true (spec.component_names (map component_view components.now)) (fields_view fields.now)) }
{
    let names = component_names(alloc, components)?;
    Ok(lists(true, names.as_slice(), fields))
}

// Whether they list the alternatives of a CHOICE.
fn alternatives_fit(
    alloc: Global,
    alternatives: &[Alternative],
    fields: &[AcnField],
) -> Result<bool, NoMemory>
    ensures { IfOk result (λ fit. fit ≡ spec.lists false (spec.alternative_names (map alternative_view alternatives.now)) (fields_view fields.now)) }
{
    let names = alternative_names(alloc, alternatives)?;
    Ok(lists(false, names.as_slice(), fields))
}

// Whether the fields between braces are those that the type has.
#[tactic(auto, using(acn_asn_syntax::proofs::Views::type_views, acn_asn_syntax::proofs::Views::components_back, acn_asn_syntax::proofs::Views::alternatives_back))]
fn braces_fit(alloc: Global, base: &AsnBase, fields: &[AcnField]) -> Result<bool, NoMemory>
    ensures { IfOk result (λ fit. fit ≡ spec.braces_fit (base_view base.now) (fields_view fields.now)) }
{
    match base {
        AsnBase::Sequence(components) => components_fit(alloc, components.items(), fields),
        AsnBase::Choice(alternatives) => alternatives_fit(alloc, alternatives.items(), fields),
        AsnBase::SequenceOf(None, _) => Ok(one_plain(fields)),
        AsnBase::SequenceOf(Some(_), _) => Ok(one_plain(fields)),
        AsnBase::Enumerated(items) => are_numbers(alloc, items.items(), fields),
        AsnBase::Integer(_) => Ok(false),
        AsnBase::Boolean => Ok(false),
        AsnBase::Null => Ok(false),
        AsnBase::OctetString => Ok(false),
        AsnBase::BitString => Ok(false),
        AsnBase::Ia5String => Ok(false),
        AsnBase::Ref(_, _) => Ok(false),
    }
}

/// Whether the braces of a site don't list what its type has.
#[tactic(auto, unfolding(crate::specs::Braced::has_no_such_field))]
pub fn has_no_such_field(alloc: Global, site: &Site<'_>) -> Result<bool, NoMemory>
    ensures { IfOk result (λ fault. fault ≡ spec.has_no_such_field (site_view site.now)) }
{
    let from = braces_origin(&site.chain, site.used);
    match braces_at(site.used, from) {
        None => Ok(false),
        Some(fields) => {
            let fit = braces_fit(alloc, base_of(&site.chain), fields)?;
            Ok(!fit)
        }
    }
}
