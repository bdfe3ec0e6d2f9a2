ghost use Rattle.std.specs.Prelude.{◌≡◌, ◌<◌, ◌^◌, map, option_map, find, IfOk, Some};
ghost use Rattle.acn_world.specs.Viewed.{world_view};
ghost use Rattle.acn_slots.specs.Slots as spec;
ghost use Rattle.acn_slots.specs.View.{frame_view, step_view, scope_view, bound_in, bound_view};

use crate::frame::{Frame, Step};
use crate::plain::PlainTypes;
use crate::rows::copied;
use crate::slots::{Lead, Slot};
use acn_num::{Name, NoMemory, Row};
use acn_world::World;
use std::alloc::Global;
use std::rc::Rc;

/// What a path at a place can begin with.
#[derive(Drop)]
pub struct Scope<'w> {
    /// The SEQUENCEs around, the innermost first.
    pub frames: Row<Frame<'w>>,
    /// The parameters, with the slots to which they are bound, kept once for all scopes with these; none where there are none.
    pub bound: Option<Rc<Row<(&'w Name, Slot)>, Global>>,
}

// The same slot again.
fn copied_slot(alloc: Global, slot: &Slot) -> Result<Slot, NoMemory>
    ensures { IfOk result (λ s. s ≡ slot.now) }
{
    Ok(Slot {
        path: copied(alloc, slot.path.items())?,
        sort: slot.sort,
    })
}

// How many names lead up to the first field that may be absent, when one field more is passed.
fn first_absent(before: Option<usize>, passed: usize, optional: bool) -> Option<usize>
    requires { passed < 2 ^ 63 }
    ensures { result ≡ spec.first_absent before passed optional }
{
    match before {
        Some(through) => Some(through),
        None => { if optional { Some(passed + 1) } else { None } }
    }
}

// Where a path leads by the slot of its last field and the first that may be absent.
fn lead_to(slot: Option<Slot>, absent: Option<usize>) -> Lead
    ensures { result ≡ spec.lead_to slot absent }
{
    match slot {
        None => Lead::Nowhere,
        Some(slot) => match absent {
            None => Lead::Slot(slot),
            Some(through) => Lead::Absent {
                through,
                sort: slot.sort,
            },
        },
    }
}

// The step to the field of this name, where something is entered that has it.
fn step_in<'w>(
    alloc: Global,
    world: &'w World,
    plain: &'w PlainTypes,
    inside: &Option<Frame<'w>>,
    name: &[u8],
) -> Result<Option<Step<'w>>, NoMemory>
    ensures { IfOk result (λ step. option_map step_view step ≡ spec.step_in (world_view world.now) (option_map frame_view inside.now) name.now) }
{
    match inside {
        None => Ok(None),
        Some(frame) => frame.step_at(alloc, world, plain, name),
    }
}

// Where names lead from a SEQUENCE on.
#[tactic(auto, using(crate::proofs::Along::resumed_is_led))]
fn lead_along<'w>(
    alloc: Global,
    world: &'w World,
    plain: &'w PlainTypes,
    from: &Frame<'w>,
    names: &[Name],
) -> Result<Lead, NoMemory>
    ensures { IfOk result (λ lead. lead ≡ spec.lead_of (spec.follow (world_view world.now) (Some (frame_view from.now)) names.now)) }
{
    let mut inside = Some(from.copy(alloc)?);
    let mut slot = None;
    let mut absent = None;
    for (i, name) in names.iter().enumerate() {
        let step = match step_in(alloc, world, plain, &inside, name.bytes())? {
            Some(step) => step,
            None => return Ok(Lead::Nowhere),
        };
        absent = first_absent(absent, i, step.optional);
        slot = step.slot;
        inside = step.inside;
    }
    Ok(lead_to(slot, absent))
}

// The slot to which the parameter of this name is bound.
fn slot_of<'a>(bound: &'a [(&'_ Name, Slot)], name: &[u8]) -> Option<&'a Slot>
    ensures { option_map (λ s. s.now) result ≡ spec.bound_slot (map bound_view bound.now) name.now }
{
    for (parameter, slot) in bound {
        if parameter.bytes() == name {
            return Some(slot);
        }
    }
    None
}

impl<'w> Scope<'w> {
    // The innermost SEQUENCE that has a field of this name.
    fn frame_with(&self, name: &[u8]) -> Option<&Frame<'w>>
        ensures { option_map (λ f. frame_view f.now) result ≡ find (spec.has_field name.now) (map frame_view self.now.frames) }
    {
        for frame in self.frames.items() {
            if frame.has_field(name) {
                return Some(frame);
            }
        }
        None
    }

    // The slot to which a parameter of this name is bound.
    fn bound_slot(&self, name: &[u8]) -> Option<&Slot>
        ensures { option_map (λ s. s.now) result ≡ spec.bound_slot (bound_in (option_map (λ b. b.value) self.now.bound)) name.now }
    {
        match &self.bound {
            None => None,
            Some(bound) => slot_of(bound.items(), name),
        }
    }

    // Where a parameter leads, which is one name alone.
    fn by_parameter(&self, alloc: Global, name: &[u8], more: &[Name]) -> Result<Lead, NoMemory>
        ensures { IfOk result (λ lead. lead ≡ spec.by_parameter (bound_in (option_map (λ b. b.value) self.now.bound)) name.now more.now) }
    {
        if !more.is_empty() {
            return Ok(Lead::Nowhere);
        }
        match self.bound_slot(name) {
            None => Ok(Lead::Nowhere),
            Some(slot) => Ok(Lead::Slot(copied_slot(alloc, slot)?)),
        }
    }
}

/// Where the names of a path lead. The first is looked up in the innermost SEQUENCE that has it, then among the parameters.
#[tactic(auto, unfolding(crate::specs::Slots::leads))]
pub fn leads<'w>(
    alloc: Global,
    world: &'w World,
    plain: &'w PlainTypes,
    scope: &Scope<'w>,
    names: &[Name],
) -> Result<Lead, NoMemory>
    ensures { IfOk result (λ lead. lead ≡ spec.leads (world_view world.now) (scope_view scope.now) names.now) }
{
    match names.split_first() {
        None => Ok(Lead::Nowhere),
        Some((name, more)) => match scope.frame_with(name.bytes()) {
            Some(frame) => lead_along(alloc, world, plain, frame, names),
            None => scope.by_parameter(alloc, name.bytes(), more),
        },
    }
}
