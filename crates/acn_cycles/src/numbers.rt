ghost use Rattle.std.specs.Prelude.{◌≡◌, ◌<◌, length, map, flat_map, slice_get, IfOk};
ghost use Rattle.acn_asn_syntax.specs.View.{module_view};
ghost use Rattle.acn_cycles.specs.Numbers as spec;

use acn_asn_syntax::AsnModule;
use acn_num::{NoMemory, Row};
use acn_world::TypeId;
use std::alloc::Global;

/// The number of the first assignment of each module.
pub fn starts_of(alloc: Global, modules: &[AsnModule]) -> Result<Vec<usize>, NoMemory>
    requires { length (flat_map (λ m. m.items) (map module_view modules.now)) < 4294967296 }
    ensures { IfOk result (λ firsts. firsts.items ≡ spec.starts_from 0 (map module_view modules.now)) }
{
    let mut firsts = Vec::new(alloc);
    let mut next: usize = 0;
    for owner in modules {
        firsts.push(next)?;
        next += owner.items.items().len();
    }
    Ok(firsts)
}

// The number of an assignment.
fn number_in(firsts: &[usize], place: TypeId) -> usize
    requires { spec.AreSmall firsts.now }
    ensures { result ≡ spec.number_in firsts.now place }
{
    match firsts.get(place.module as usize) {
        None => place.item as usize,
        Some(first) => *first + place.item as usize,
    }
}

/// The numbers of assignments.
pub fn numbers_in(
    alloc: Global,
    firsts: &[usize],
    places: &[TypeId],
) -> Result<Row<usize>, NoMemory>
    requires { spec.AreSmall firsts.now }
    ensures { IfOk result (λ row. row ≡ map (spec.number_in firsts.now) places.now) }
{
    let mut all = Vec::new(alloc);
    for place in places {
        all.push(number_in(firsts, *place))?;
    }
    Ok(Row::from_vec(all))
}

// The assignment with this number.
fn place_at(places: &[TypeId], number: usize) -> Option<TypeId>
    ensures { result ≡ slice_get places.now number }
{
    match places.get(number) {
        None => None,
        Some(place) => Some(*place),
    }
}

/// The assignments with these numbers.
pub fn places_at(
    alloc: Global,
    places: &[TypeId],
    numbers: &[usize],
) -> Result<Row<TypeId>, NoMemory>
    ensures { IfOk result (λ row. row ≡ spec.places_at places.now numbers.now) }
{
    let mut all = Vec::new(alloc);
    for number in numbers {
        match place_at(places, *number) {
            None => {}
            Some(place) => all.push(place)?,
        }
    }
    Ok(Row::from_vec(all))
}
