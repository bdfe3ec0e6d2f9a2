//! The named numbers of an INTEGER, told by their names.

ghost use Rattle.std.specs.Prelude.{◌≡◌, [], IfOk, option_and_then};
ghost use Rattle.acn_asn_syntax.specs.View.{base_view};
ghost use Rattle.acn_firsts.specs.Placed.{noted_all};
ghost use Rattle.acn_set_elements.specs.Written as spec;
ghost use Rattle.acn_set_elements.specs.Numbered.{placed, number_at as number_there};

use crate::uses::are_many;
use crate::written::signed;
use acn_asn_syntax::{AsnBase, Constraint, Named};
use acn_firsts::Firsts;
use acn_num::{NoMemory, Row};
use std::alloc::Global;
use std::marker::Model;

/// The named numbers of an INTEGER, with a map of their names where many are used. Contracts see it as the list of them.
#[derive(Drop)]
pub struct NumberNames<'n> {
    names: &'n [Named],
    places: Option<Firsts>,
}

impl<'n> Model for NumberNames<'n> {
    ghost use Rattle.std.specs.Prelude.{◌≡◌, List, ℕ, Option, Some, []};
    ghost use Rattle.acn_num.specs.Names.{Name};
    ghost use Rattle.acn_firsts.specs.Placed.{noted_all};
    ghost use Rattle.acn_asn_syntax.specs.declared.types.Named.{Named};
    ghost use Rattle.acn_set_elements.specs.Numbered.{placed};

    ghost Value = { List Named };

    ghost view = { λ n. n.names.now };

    ghost invariant = { λ n. (kept : List (Name × ℕ)) → n.places ≡ Some kept → kept ≡ noted_all [] (placed 0 n.names.now) };
}

// Named numbers, where some are written.
fn listed(names: &Option<Row<Named>>) -> &[Named]
    ensures { result.now ≡ spec.listed names.now }
{
    match names {
        None => &[],
        Some(names) => names.items(),
    }
}

// The named numbers of an INTEGER.
fn named_of(base: &AsnBase) -> &[Named]
    ensures { result.now ≡ spec.named_of (base_view base.now) }
{
    match base {
        AsnBase::Integer(names) => listed(names),
        AsnBase::Boolean => &[],
        AsnBase::Null => &[],
        AsnBase::Enumerated(_) => &[],
        AsnBase::OctetString => &[],
        AsnBase::BitString => &[],
        AsnBase::Ia5String => &[],
        AsnBase::Sequence(_) => &[],
        AsnBase::SequenceOf(_, _) => &[],
        AsnBase::Choice(_) => &[],
        AsnBase::Ref(_, _) => &[],
    }
}

// Each name with its place.
#[tactic(auto, unfolding(acn_firsts::specs::Placed::noted_all))]
fn places_of(alloc: Global, names: &[Named]) -> Result<Firsts, NoMemory>
    ensures { IfOk result (λ all. all ≡ noted_all [] (placed 0 names.now)) }
{
    let mut all = Firsts::new(alloc);
    for (at, named) in names.iter().enumerate() {
        all.note(alloc, named.name.bytes(), at)?;
    }
    Ok(all)
}

// The number of a named number.
fn searched(names: &[Named], name: &[u8]) -> Option<i128>
    ensures { result ≡ spec.named_in names.now name.now }
{
    for named in names {
        if named.name.bytes() == name {
            return Some(signed(named.negative, named.number));
        }
    }
    None
}

// The number of the named number at a place.
fn number_at(names: &[Named], at: usize) -> Option<i128>
    ensures { result ≡ number_there names.now at }
{
    let named = names.get(at)?;
    Some(signed(named.negative, named.number))
}

// The same where there is a place.
fn number_where(names: &[Named], at: Option<usize>) -> Option<i128>
    ensures { result ≡ option_and_then (number_there names.now) at }
{
    match at {
        None => None,
        Some(at) => number_at(names, at),
    }
}

// The number at the place of a name.
fn looked_up(names: &[Named], places: &Firsts, name: &[u8]) -> Option<i128>
    requires { places.now ≡ noted_all [] (placed 0 names.now) }
    ensures { result ≡ spec.named_in names.now name.now }
{
    let at = places.get(name);
    number_where(names, at)
}

impl<'n> NumberNames<'n> {
    // These names, without a map.
    fn few(names: &'n [Named]) -> NumberNames<'n>
        ensures { result ≡ names.now }
    {
        NumberNames {
            names,
            places: None,
        }
    }

    // These names with a map.
    fn many(alloc: Global, names: &'n [Named]) -> Result<NumberNames<'n>, NoMemory>
        ensures { IfOk result (λ all. all ≡ names.now) }
    {
        let places = places_of(alloc, names)?;
        Ok(NumberNames {
            names,
            places: Some(places),
        })
    }

    /// The named numbers of a type, to be used in these constraints. A map of them is made where the constraints use many
    /// names, so a look-up costs no more than that; else it goes along the list.
    pub fn of(
        alloc: Global,
        base: &'n AsnBase,
        constraints: &[(u32, &Constraint)],
    ) -> Result<NumberNames<'n>, NoMemory>
        ensures { IfOk result (λ all. all ≡ spec.named_of (base_view base.now)) }
    {
        let names = named_of(base);
        if are_many(constraints) {
            NumberNames::many(alloc, names)
        } else {
            Ok(NumberNames::few(names))
        }
    }

    /// The number of a named number. None comes exactly where there is none with this name. It takes no memory.
    pub fn number_of(&self, name: &[u8]) -> Option<i128>
        ensures { result ≡ spec.named_in self.now name.now }
    {
        match &self.places {
            None => searched(self.names, name),
            Some(places) => looked_up(self.names, places, name),
        }
    }
}
