ghost use Rattle.std.specs.Prelude.{◌≡◌, option_map, option_copied, option_and_then, slice_get};
ghost use Rattle.std.specs.List.{position_from};
ghost use Rattle.std.specs.Str.{bytes_eq};
ghost use Rattle.acn_asn_syntax.specs.View.{module_view, assign_view, type_view};
ghost use Rattle.acn_acn_syntax.specs.View.{module_of, entry_of};
ghost use Rattle.acn_index.specs.Views.{index_view};
ghost use Rattle.acn_index.specs.World as world;
ghost use Rattle.acn_index.specs.Lookup as spec;

use crate::TypeId;
use crate::index::Index;
use crate::lookup::{Sort, found, item_at, module_at, module_named, own};
use acn_acn_syntax::{AcnEntry, AcnModule, MapTable};
use acn_asn_syntax::{AsnType, Assign};
use acn_firsts::Firsts;
use acn_num::Name;

/// The type to which a reference in a module leads, with or without a module's name in front.
#[tactic(auto, unfolding(crate::specs::Lookup::type_named))]
pub fn type_named(index: &Index, k: u32, from: &Option<Name>, name: &[u8]) -> Option<TypeId>
    ensures { result ≡ spec.type_named (index_view index.now) k from.now name.now }
{
    match from {
        None => found(index, Sort::Types, name, k),
        Some(from) => {
            let other = module_named(index, from.bytes())?;
            found(index, Sort::Types, name, other)
        }
    }
}

/// The value to which an identifier in a module refers.
#[tactic(auto, unfolding(crate::specs::Lookup::value_named))]
pub fn value_named(index: &Index, k: u32, name: &[u8]) -> Option<TypeId>
    ensures { result ≡ spec.value_named (index_view index.now) k name.now }
{
    found(index, Sort::Values, name, k)
}

/// The type that the module with a name gives a name to itself.
#[tactic(auto, unfolding(crate::specs::Lookup::type_in))]
pub fn type_in(index: &Index, owner: &[u8], name: &[u8]) -> Option<TypeId>
    ensures { result ≡ spec.type_in (index_view index.now) owner.now name.now }
{
    let k = module_named(index, owner)?;
    own(index, Sort::Types, name, k)
}

/// The assignment at a place.
#[tactic(auto, unfolding(crate::specs::World::assignment))]
pub fn assignment(index: &Index, place: TypeId) -> Option<&Assign>
    ensures { option_map (λ a. assign_view a.now) result ≡ world.assignment (index_view index.now) place }
{
    let owner = module_at(index, place.module)?;
    item_at(owner, place.item)
}

/// The name of an assignment.
pub fn name_of(item: &Assign) -> &Name
    ensures { result.now ≡ world.name_of (assign_view item.now) }
{
    match item {
        Assign::TypeIs(name, _) => name,
        Assign::ValueIs(name, _, _) => name,
    }
}

// The table with this number.
fn table_at(index: &Index, i: usize) -> Option<&MapTable>
    ensures { option_copied result ≡ slice_get (index_view index.now).tables i }
{
    index.tables.items().get(i)
}

/// The first table with this name.
pub fn table_named<'w>(index: &'w Index, name: &[u8]) -> Option<&'w MapTable>
    ensures { option_copied result ≡ spec.table_named (index_view index.now) name.now }
{
    let k = index.maps.tables.get(name)?;
    table_at(index, k)
}

// The type of a type's assignment.
fn type_part(item: &Assign) -> Option<&AsnType>
    ensures { option_map (λ t. type_view t.now) result ≡ world.type_part (assign_view item.now) }
{
    match item {
        Assign::TypeIs(_, of) => Some(of),
        Assign::ValueIs(_, _, _) => None,
    }
}

/// The type that a place gives a name to.
#[tactic(auto, unfolding(crate::specs::World::type_at))]
pub fn type_at(index: &Index, place: TypeId) -> Option<&AsnType>
    ensures { option_map (λ t. type_view t.now) result ≡ world.type_at (index_view index.now) place }
{
    let item = assignment(index, place)?;
    type_part(item)
}
