ghost use Rattle.std.specs.Prelude.{◌≡◌, IfOk, Ok};
ghost use Rattle.acn_world.specs.Chained.{chain_view, constraints_view};
ghost use Rattle.acn_world.specs.Viewed.{world_view};
ghost use Rattle.acn_constraint.specs.Constraints as spec;
ghost use Rattle.acn_set_elements.specs.Stands as stands;
ghost use Rattle.acn_constraint.specs.Views.{Answers, opened_of, texts_of};

use crate::ConstraintFault;
use crate::along::{base_of, constraints_of, first_low, has_size, met};
use crate::ends::{OpenSet, TextSets, filled, opened, sized, text_sets};
use crate::evaluate::Reading;
use acn_asn_syntax::Constraint;
use acn_num::{BOTTOM, NoMemory, RangeSet, TOP};
use acn_set_elements::{NumberNames, all_stand};
use acn_world::{Chain, World};
use std::alloc::Global;

// Whether each constraint may stand where it stands.
fn all_here(
    alloc: Global,
    world: &World,
    chain: &Chain<'_>,
    constraints: &[(u32, &Constraint)],
) -> Result<bool, NoMemory>
    requires { constraints_view constraints.now ≡ spec.constraints_of (chain_view chain.now) }
    ensures { IfOk result (λ b. b ≡ stands.all_stand (world_view world.now) (spec.base_is (chain_view chain.now)) (spec.constraints_of (chain_view chain.now))) }
{
    all_stand(alloc, constraints, base_of(chain), world)
}

// The first number that is too low.
#[tactic(auto, unfolding(crate::specs::Constraints::first_low))]
fn low_of(
    alloc: Global,
    world: &World,
    chain: &Chain<'_>,
    constraints: &[(u32, &Constraint)],
) -> Result<Option<i128>, NoMemory>
    requires { constraints_view constraints.now ≡ spec.constraints_of (chain_view chain.now) }
    ensures { IfOk result (λ low. low ≡ spec.first_low (world_view world.now) (chain_view chain.now)) }
{
    let names = NumberNames::of(alloc, base_of(chain), constraints)?;
    Ok(first_low(constraints, world, &names))
}

// The fault of a number that is too low.
fn not_low(low: Option<i128>) -> Result<(), ConstraintFault>
    ensures { Answers (λ u. u) result (spec.unless_low low (Ok tt)) }
{
    match low {
        Some(number) => Err(ConstraintFault::TooWide { number }),
        None => Ok(()),
    }
}

// Whether each constraint may stand where it stands and no number is too low.
#[tactic(auto, unfolding(crate::specs::Constraints::judged))]
fn judge(
    alloc: Global,
    world: &World,
    chain: &Chain<'_>,
    constraints: &[(u32, &Constraint)],
) -> Result<(), ConstraintFault>
    requires { constraints_view constraints.now ≡ spec.constraints_of (chain_view chain.now) }
    ensures { Answers (λ u. u) result (spec.judged (world_view world.now) (chain_view chain.now) (Ok tt)) }
{
    if !all_here(alloc, world, chain, constraints)? {
        return Err(ConstraintFault::NotHere);
    }
    let low = low_of(alloc, world, chain, constraints)?;
    not_low(low)
}

// The numbers that the constraints leave of those of an INTEGER.
#[tactic(auto, unfolding(crate::specs::Constraints::numbers_of))]
fn numbers_of(
    alloc: Global,
    world: &World,
    chain: &Chain<'_>,
    constraints: &[(u32, &Constraint)],
) -> Result<RangeSet, NoMemory>
    requires { constraints_view constraints.now ≡ spec.constraints_of (chain_view chain.now) }
    ensures { IfOk result (λ s. s ≡ spec.numbers_of (world_view world.now) (chain_view chain.now)) }
{
    let all = RangeSet::one(alloc, BOTTOM, TOP)?;
    let names = NumberNames::of(alloc, base_of(chain), constraints)?;
    let reading = Reading::Numbers(&names);
    met(alloc, constraints, world, reading, all)
}

// The sizes that they leave.
#[tactic(auto, unfolding(crate::specs::Constraints::sizes_of))]
fn sizes_of(
    alloc: Global,
    world: &World,
    chain: &Chain<'_>,
    constraints: &[(u32, &Constraint)],
) -> Result<RangeSet, NoMemory>
    requires { constraints_view constraints.now ≡ spec.constraints_of (chain_view chain.now) }
    ensures { IfOk result (λ s. s ≡ spec.sizes_of (world_view world.now) (chain_view chain.now)) }
{
    let all = RangeSet::one(alloc, 0, TOP)?;
    met(alloc, constraints, world, Reading::Sizes, all)
}

// The characters that they leave.
#[tactic(auto, unfolding(crate::specs::Constraints::characters_of))]
fn characters_of(
    alloc: Global,
    world: &World,
    chain: &Chain<'_>,
    constraints: &[(u32, &Constraint)],
) -> Result<RangeSet, NoMemory>
    requires { constraints_view constraints.now ≡ spec.constraints_of (chain_view chain.now) }
    ensures { IfOk result (λ s. s ≡ spec.characters_of (world_view world.now) (chain_view chain.now)) }
{
    let all = RangeSet::one(alloc, 0, 127)?;
    met(alloc, constraints, world, Reading::Characters, all)
}

// The numbers that are left and their open ends.
fn range_left(
    alloc: Global,
    world: &World,
    chain: &Chain<'_>,
    constraints: &[(u32, &Constraint)],
) -> Result<OpenSet, ConstraintFault>
    requires { constraints_view constraints.now ≡ spec.constraints_of (chain_view chain.now) }
    ensures { Answers opened_of result (spec.range_left (world_view world.now) (chain_view chain.now)) }
{
    let numbers = numbers_of(alloc, world, chain, constraints)?;
    opened(alloc, &numbers)
}

// Whether a constraint says SIZE.
#[tactic(auto, unfolding(crate::specs::Constraints::has_size))]
fn is_sized(chain: &Chain<'_>, constraints: &[(u32, &Constraint)]) -> bool
    requires { constraints_view constraints.now ≡ spec.constraints_of (chain_view chain.now) }
    ensures { result ≡ spec.has_size (chain_view chain.now) }
{
    let _chain = chain;
    has_size(constraints)
}

// The sizes that are left, where SIZE is written.
fn size_left(
    alloc: Global,
    world: &World,
    chain: &Chain<'_>,
    constraints: &[(u32, &Constraint)],
) -> Result<Option<RangeSet>, ConstraintFault>
    requires { constraints_view constraints.now ≡ spec.constraints_of (chain_view chain.now) }
    ensures { Answers (λ s. s) result (spec.size_left (world_view world.now) (chain_view chain.now)) }
{
    let sizes = sizes_of(alloc, world, chain, constraints)?;
    sized(is_sized(chain, constraints), sizes)
}

// The characters that are left.
fn alphabet_left(
    alloc: Global,
    world: &World,
    chain: &Chain<'_>,
    constraints: &[(u32, &Constraint)],
) -> Result<RangeSet, ConstraintFault>
    requires { constraints_view constraints.now ≡ spec.constraints_of (chain_view chain.now) }
    ensures { Answers (λ s. s) result (spec.alphabet_left (world_view world.now) (chain_view chain.now)) }
{
    let characters = characters_of(alloc, world, chain, constraints)?;
    filled(characters)
}

// The sizes and the characters that are left.
fn text_left(
    alloc: Global,
    world: &World,
    chain: &Chain<'_>,
    constraints: &[(u32, &Constraint)],
) -> Result<TextSets, ConstraintFault>
    requires { constraints_view constraints.now ≡ spec.constraints_of (chain_view chain.now) }
    ensures { Answers texts_of result (spec.text_left (world_view world.now) (chain_view chain.now)) }
{
    let sizes = sizes_of(alloc, world, chain, constraints)?;
    let characters = characters_of(alloc, world, chain, constraints)?;
    text_sets(is_sized(chain, constraints), sizes, characters)
}

/// The numbers of an INTEGER with this chain. `NotHere` comes first, where an element doesn't stand on the type;
/// then `TooWide`, for the first written number below `-2^63`; then `Empty`, where no number is left.
#[tactic(auto, unfolding(crate::specs::Constraints::range_of))]
pub fn range_of(alloc: Global, world: &World, chain: &Chain<'_>) -> Result<OpenSet, ConstraintFault>
    ensures { Answers opened_of result (spec.range_of (world_view world.now) (chain_view chain.now)) }
{
    let constraints = constraints_of(alloc, chain)?;
    match judge(alloc, world, chain, constraints.items()) {
        Err(fault) => Err(fault),
        Ok(()) => range_left(alloc, world, chain, constraints.items()),
    }
}

/// The sizes of a string or list with this chain; none exactly where no SIZE is written. `NotHere` and `TooWide` are
/// tried as in `range_of`; then `Empty`, where no size is left, `Unbounded`, where the sizes have no greatest one, and
/// `SizeLimit`, where that one is over 65,536.
#[tactic(auto, unfolding(crate::specs::Constraints::size_of))]
pub fn size_of(
    alloc: Global,
    world: &World,
    chain: &Chain<'_>,
) -> Result<Option<RangeSet>, ConstraintFault>
    ensures { Answers (λ s. s) result (spec.size_of (world_view world.now) (chain_view chain.now)) }
{
    let constraints = constraints_of(alloc, chain)?;
    match judge(alloc, world, chain, constraints.items()) {
        Err(fault) => Err(fault),
        Ok(()) => size_left(alloc, world, chain, constraints.items()),
    }
}

/// The characters of a string with this chain. `NotHere` and `TooWide` are tried as in `range_of`; then `Empty`, where
/// no character is left.
#[tactic(auto, unfolding(crate::specs::Constraints::alphabet_of))]
pub fn alphabet_of(
    alloc: Global,
    world: &World,
    chain: &Chain<'_>,
) -> Result<RangeSet, ConstraintFault>
    ensures { Answers (λ s. s) result (spec.alphabet_of (world_view world.now) (chain_view chain.now)) }
{
    let constraints = constraints_of(alloc, chain)?;
    match judge(alloc, world, chain, constraints.items()) {
        Err(fault) => Err(fault),
        Ok(()) => alphabet_left(alloc, world, chain, constraints.items()),
    }
}

/// The sizes and the characters of an IA5String with this chain, which has to say SIZE. Each fault is looked for in both
/// before the next one is: `NotHere`, `TooWide`, `Empty`, `Unbounded`, also where no SIZE is written, and `SizeLimit`.
#[tactic(auto, unfolding(crate::specs::Constraints::text_of))]
pub fn text_of(alloc: Global, world: &World, chain: &Chain<'_>) -> Result<TextSets, ConstraintFault>
    ensures { Answers texts_of result (spec.text_of (world_view world.now) (chain_view chain.now)) }
{
    let constraints = constraints_of(alloc, chain)?;
    match judge(alloc, world, chain, constraints.items()) {
        Err(fault) => Err(fault),
        Ok(()) => text_left(alloc, world, chain, constraints.items()),
    }
}
