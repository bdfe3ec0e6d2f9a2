ghost use Rattle.std.specs.Prelude.{◌≡◌, option_map, option_copied, Option, Some, None};
ghost use Rattle.acn_asn_syntax.specs.View.{assign_view};
ghost use Rattle.acn_index.specs.Views.{index_view};
ghost use Rattle.acn_index.specs.Found.{found_view};
ghost use Rattle.acn_index.specs.World as world;
ghost use Rattle.acn_index.specs.Values as spec;

use crate::TypeId;
use crate::ends::{place_at, spot_of};
use crate::index::Index;
use crate::references::{assignment, value_named};
use acn_asn_syntax::{AsnType, AsnValue, Assign};
use acn_ends::End;

/// The type and the value of a value's assignment, with the number of its module.
#[derive(Clone, Copy)]
pub struct Worth<'w> {
    pub owner: u32,
    pub of: &'w AsnType,
    pub is: &'w AsnValue,
}

// The type and the value of an assignment.
fn worth_of<'w>(owner: u32, item: &'w Assign) -> Option<Worth<'w>>
    ensures { option_map found_view result ≡ spec.worth_of owner (assign_view item.now) }
{
    match item {
        Assign::TypeIs(_, _) => None,
        Assign::ValueIs(_, of, is) => Some(Worth { owner, of, is }),
    }
}

/// The same for the assignment at a place.
pub fn worth_at(index: &Index, place: TypeId) -> Option<Worth<'_>>
    ensures { option_map found_view result ≡ spec.worth_at (index_view index.now) place }
{
    let item = assignment(index, place)?;
    worth_of(place.module, item)
}

// What an identifier leads to by one assignment.
#[tactic(auto, unfolding(crate::specs::Values::first_worth))]
fn first_worth<'w>(index: &'w Index, k: u32, name: &[u8]) -> Option<Worth<'w>>
    ensures { option_map found_view result ≡ spec.first_worth (index_view index.now) k name.now }
{
    let place = value_named(index, k, name)?;
    worth_at(index, place)
}

/// The name to which a value refers.
pub fn refers(value: &AsnValue) -> Option<&[u8]>
    ensures { option_copied result ≡ spec.refers value.now }
{
    match value {
        AsnValue::Number(_, _) => None,
        AsnValue::True => None,
        AsnValue::False => None,
        AsnValue::Null => None,
        AsnValue::Ref(name) => Some(name.bytes()),
        AsnValue::Bits(_) => None,
        AsnValue::Hex(_) => None,
        AsnValue::Text(_) => None,
    }
}

/// How many assignments there are.
pub fn count(index: &Index) -> usize
    ensures { result ≡ world.count (index_view index.now) }
{
    index.count
}

// Follows the references of values from an identifier, over at most so many assignments.
fn value_within<'w>(index: &'w Index, most: usize, k: u32, name: &[u8]) -> Option<Worth<'w>>
    ensures { option_map found_view result ≡ spec.value_within most (index_view index.now) k name.now }
{
    let mut owner = k;
    let mut name = name;
    for step in 0..most {
        let worth = first_worth(index, owner, name)?;
        match refers(worth.is) {
            None => return Some(worth),
            Some(next) => {
                owner = worth.owner;
                name = next;
            }
        }
    }
    None
}

// The value at which references end, unless it refers to something still.
fn end_worth(index: &Index, place: TypeId) -> Option<Worth<'_>>
    ensures { option_map found_view result ≡ spec.end_worth (index_view index.now) place }
{
    let worth = worth_at(index, place)?;
    match refers(worth.is) {
        None => Some(worth),
        Some(_) => None,
    }
}

/// What an identifier leads to in the end.
#[tactic(auto, unfolding(crate::specs::Values::value_of))]
pub fn value_of<'w>(index: &'w Index, k: u32, name: &[u8]) -> Option<Worth<'w>>
    ensures { option_map found_view result ≡ spec.value_of (index_view index.now) k name.now }
{
    let place = value_named(index, k, name)?;
    let most = count(index);
    match index.lasts.of(spot_of(place)) {
        None => value_within(index, most, k, name),
        Some(End::Never) => None,
        Some(End::At { spot, steps }) => {
            if steps < most {
                end_worth(index, place_at(spot))
            } else {
                value_within(index, most, k, name)
            }
        }
    }
}

// Whether the value is a number.
fn is_number(value: &AsnValue) -> bool
    ensures { result ≡ spec.is_number value.now }
{
    match value {
        AsnValue::Number(_, _) => true,
        AsnValue::True => false,
        AsnValue::False => false,
        AsnValue::Null => false,
        AsnValue::Ref(_) => false,
        AsnValue::Bits(_) => false,
        AsnValue::Hex(_) => false,
        AsnValue::Text(_) => false,
    }
}

/// Whether an identifier leads to a number.
#[tactic(auto, unfolding(crate::specs::Values::leads_to_number))]
pub fn leads_to_number(index: &Index, k: u32, name: &[u8]) -> bool
    ensures { result ≡ spec.leads_to_number (index_view index.now) k name.now }
{
    match value_of(index, k, name) {
        None => false,
        Some(worth) => is_number(worth.is),
    }
}
