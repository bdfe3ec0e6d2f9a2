ghost use Rattle.std.specs.Prelude.{◌≡◌, length, option_map, option_and_then, slice_get, IfSome};
ghost use Rattle.std.specs.List.{position_from};
ghost use Rattle.std.specs.Str.{bytes_eq};
ghost use Rattle.acn_asn_syntax.specs.View.{module_view, assign_view};
ghost use Rattle.acn_index.specs.Views.{index_view};
ghost use Rattle.acn_index.specs.Lookup as spec;
ghost use Rattle.acn_index.specs.Sorts.{meant, sorted};
ghost use Rattle.acn_index.specs.Steps as steps;

use crate::TypeId;
use crate::index::Index;
use crate::maps::OwnNames;
use acn_asn_syntax::{AsnModule, Assign, Import};
use acn_ends::{End, Spot};
use acn_firsts::Firsts;

// Whether the two texts are the same.
pub fn same(a: &[u8], b: &[u8]) -> bool
    ensures { result ≡ bytes_eq a.now b.now }
{
    a == b
}

// The place of the first module with this name.
fn module_place(index: &Index, name: &[u8]) -> Option<usize>
    ensures { result ≡ spec.module_named (index_view index.now) name.now }
{
    index.maps.modules.get(name)
}

/// The number of the first module with this name.
pub fn module_named(index: &Index, name: &[u8]) -> Option<u32>
    ensures { result ≡ spec.module_named (index_view index.now) name.now }
{
    let k = module_place(index, name)?;
    Some(k as u32)
}

/// The module with this number.
pub fn module_at(index: &Index, k: u32) -> Option<&AsnModule>
    ensures { option_map (λ m. module_view m.now) result ≡ slice_get (index_view index.now).modules k }
{
    index.modules.items().get(k as usize)
}

/// The assignment with this number.
pub fn item_at(owner: &AsnModule, i: u32) -> Option<&Assign>
    ensures { option_map (λ a. assign_view a.now) result ≡ slice_get (module_view owner.now).items i }
{
    owner.items.items().get(i as usize)
}

/// What a module imports; nothing where IMPORTS isn't written.
pub fn imports_of(owner: &AsnModule) -> &[Import]
    ensures { result.now ≡ spec.imports_of (module_view owner.now) }
{
    match &owner.imports {
        None => &[],
        Some(imports) => imports.items(),
    }
}

// The first places of the names in the module with this number.
fn own_names_at(index: &Index, k: u32) -> Option<&OwnNames>
    ensures { option_map (λ o. o.now) result ≡ slice_get index.now.maps.own k }
{
    index.maps.own.items().get(k as usize)
}

// The import with this number.
fn import_at(owner: &AsnModule, i: usize) -> Option<&Import>
    ensures { option_map (λ i. i.now) result ≡ slice_get (spec.imports_of (module_view owner.now)) i }
{
    imports_of(owner).get(i)
}

// The first import by which the module with this number has the name.
fn import_of<'w>(index: &'w Index, k: u32, name: &[u8]) -> Option<&'w Import>
    ensures { option_map (λ i. i.now) result ≡ option_and_then (λ m. spec.import_of m name.now) (slice_get (index_view index.now).modules k) }
{
    let owner = module_at(index, k)?;
    let own = own_names_at(index, k)?;
    let place = own.imports.get(name)?;
    import_at(owner, place)
}

/// The module from which a module imports the name.
pub fn imported_from(index: &Index, name: &[u8], k: u32) -> Option<u32>
    ensures { result ≡ spec.imported_from (index_view index.now) name.now k }
{
    let import = import_of(index, k, name)?;
    module_named(index, import.module.bytes())
}

/// Which assignments are meant.
#[derive(Clone, Copy)]
pub enum Sort {
    /// Those of types.
    Types,
    /// Those of values.
    Values,
    /// All.
    Any,
}

// The first places of the names of a sort.
fn of_sort(own: &OwnNames, sort: Sort) -> &Firsts
    ensures { result.now ≡ sorted sort own.now }
{
    match sort {
        Sort::Types => &own.types,
        Sort::Values => &own.values,
        Sort::Any => &own.names,
    }
}

// The number of the first that is meant among the assignments of the module with this number.
fn own_place(index: &Index, sort: Sort, name: &[u8], k: u32) -> Option<usize>
    ensures { result ≡ option_and_then (λ m. position_from (meant sort name.now) 0 m.items) (slice_get (index_view index.now).modules k) }
{
    let own = own_names_at(index, k)?;
    of_sort(own, sort).get(name)
}

/// The first of a module's own assignments that is meant.
pub fn own(index: &Index, sort: Sort, name: &[u8], k: u32) -> Option<TypeId>
    ensures { result ≡ spec.own (index_view index.now) (meant sort name.now) k }
{
    let item = own_place(index, sort, name, k)?;
    Some(TypeId {
        module: k,
        item: item as u32,
    })
}

// The same over at most so many modules.
fn found_within(index: &Index, sort: Sort, name: &[u8], most: usize, k: u32) -> Option<TypeId>
    ensures { result ≡ spec.found_within most (index_view index.now) (meant sort name.now) name.now k }
{
    let mut owner = k;
    for step in 0..most {
        match own(index, sort, name, owner) {
            Some(place) => return Some(place),
            None => owner = imported_from(index, name, owner)?,
        }
    }
    None
}

// Where the imports of a name that begin in a module end.
fn jump(index: &Index, name: &[u8], k: u32) -> Option<End>
    ensures { IfSome result (steps.JumpsTo (index_view index.now) name.now k) }
{
    let number = index.imported.get(name)?;
    let item = u32::try_from(number).ok()?;
    index.jumps.of(Spot { group: k, item })
}

// How many modules there are.
fn count_modules(index: &Index) -> usize
    ensures { result ≡ length (index_view index.now).modules }
{
    index.modules.items().len()
}

/// What a name leads to in a module: its own assignment, else that of the module from which it is imported.
#[tactic(auto, unfolding(crate::specs::Lookup::found))]
pub fn found(index: &Index, sort: Sort, name: &[u8], k: u32) -> Option<TypeId>
    ensures { result ≡ spec.found (index_view index.now) (meant sort name.now) name.now k }
{
    let most = count_modules(index);
    match jump(index, name, k) {
        None => found_within(index, sort, name, most, k),
        Some(End::Never) => None,
        Some(End::At { spot, steps }) => match most.checked_sub(steps) {
            None => found_within(index, sort, name, most, k),
            Some(rest) => found_within(index, sort, name, rest, spot.group),
        },
    }
}
