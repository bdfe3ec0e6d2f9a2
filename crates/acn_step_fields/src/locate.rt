//! The walk along a path.

ghost use Rattle.std.specs.Prelude.{◌≡◌, ◌<◌, suc, ◌∷◌, length, drop, option_map, is_some};
ghost use Rattle.acn_events.specs.Located.{behind, field_at, here, located};
ghost use Rattle.acn_grammar.specs.Tree as tree;
ghost use Rattle.acn_plan.specs.Back.{StepAt, root_of, node_at};
ghost use Rattle.acn_plan.specs.Made.{IsMade};
ghost use Rattle.acn_step_fields.specs.Sought.{located_inside};
ghost use Rattle.acn_tree.specs.Room.{HasRoom};

use crate::inner::{home_of, part_at};
use crate::seek::seek;
use acn_num::Path;
use acn_packet_laws::accepted_is_sound;
use acn_plan::{Plan, Step};
use acn_step_breach::step_at;

// Whether the slot is one of these.
fn holds(home: &[u32], slot: u32) -> bool
    ensures { result ≡ tree.holds home.now slot }
{
    for other in home {
        if *other == slot {
            return true;
        }
    }
    false
}

// The path goes on to the field of a slot that is at home in this node, if it is.
fn from_here(steps: &[Step], this: usize, step: &Step, slot: u32, field: &mut Path) -> bool
    requires made { IsMade steps.now }
    requires there { this < length steps.now }
    requires is { StepAt steps.now this step.now }
    requires room { HasRoom (length field.old) (node_at steps.now this) }
    ensures found { result ≡ is_some (here (node_at steps.now this) slot) }
    ensures path { field.new ≡ behind field.old (here (node_at steps.now this) slot) field.old }
{
    match home_of(&step.act) {
        Some(home) => {
            if holds(home, slot) {
                let _found = seek(steps, this + 1, step.next as usize, slot, field);
                true
            } else {
                false
            }
        }
        None => false,
    }
}

// The path goes on to the field of a slot that is asked at a path from this node on, the rest of
// `asked` behind so many steps.
#[cycle(locate)]
fn locate(
    steps: &[Step],
    this: usize,
    asked: &[u32],
    depth: usize,
    slot: u32,
    field: &mut Path,
) -> bool
    requires made { IsMade steps.now }
    requires there { this < length steps.now }
    requires room { HasRoom (length field.old) (node_at steps.now this) }
    ensures found { result ≡ is_some (located (node_at steps.now this) (drop depth asked.now) slot) }
    ensures path { field.new ≡ behind field.old (located (node_at steps.now this) (drop depth asked.now) slot) field.old }
{
    match asked.get(depth) {
        Some(number) => locate_from(steps, this, *number, asked, depth + 1, slot, field),
        None => false,
    }
}

// The same where the path has a step more.
#[cycle(locate)]
fn locate_from(
    steps: &[Step],
    this: usize,
    number: u32,
    asked: &[u32],
    depth: usize,
    slot: u32,
    field: &mut Path,
) -> bool
    requires made { IsMade steps.now }
    requires there { this < length steps.now }
    requires room { HasRoom (length field.old) (node_at steps.now this) }
    ensures found { result ≡ is_some (located (node_at steps.now this) (number ∷ drop depth asked.now) slot) }
    ensures path { field.new ≡ behind field.old (located (node_at steps.now this) (number ∷ drop depth asked.now) slot) field.old }
{
    let step = step_at(steps, this);
    if locate_inside(steps, this, step, number, asked, depth, slot, field) {
        return true;
    }
    from_here(steps, this, step, slot, field)
}

#[cycle(locate)]
fn locate_inside(
    steps: &[Step],
    this: usize,
    step: &Step,
    number: u32,
    asked: &[u32],
    depth: usize,
    slot: u32,
    field: &mut Path,
) -> bool
    requires made { IsMade steps.now }
    requires there { this < length steps.now }
    requires is { StepAt steps.now this step.now }
    requires room { HasRoom (length field.old) (node_at steps.now this) }
    ensures found { result ≡ is_some (located_inside (node_at steps.now this) number (drop depth asked.now) slot) }
    ensures path { field.new ≡ behind field.old (located_inside (node_at steps.now this) number (drop depth asked.now) slot) field.old }
{
    match part_at(steps, this, step, number) {
        Some(inside) => locate_step(steps, inside, number, asked, depth, slot, field),
        None => false,
    }
}

// One step of the path.
#[cycle(locate)]
fn locate_step(
    steps: &[Step],
    inside: usize,
    number: u32,
    asked: &[u32],
    depth: usize,
    slot: u32,
    field: &mut Path,
) -> bool
    requires made { IsMade steps.now }
    requires there { inside < length steps.now }
    requires room { HasRoom (suc (length field.old)) (node_at steps.now inside) }
    ensures found { result ≡ is_some (located (node_at steps.now inside) (drop depth asked.now) slot) }
    ensures path { field.new ≡ behind field.old (option_map (λ f. number ∷ f) (located (node_at steps.now inside) (drop depth asked.now) slot)) field.old }
{
    field.push(number);
    if locate(steps, inside, asked, depth, slot, field) {
        return true;
    }
    field.pop();
    false
}

/// The path of the field of a slot that is asked at a path of a value. Of the SEQUENCEs on the way
/// in which the slot is at home the innermost one counts; where it is at home in none of them, the
/// path is that of the root. It takes no memory.
pub fn field_of(plan: &Plan, asked: &Path, slot: u32, field: &mut Path)
    ensures { field.new ≡ field_at (root_of plan.now.steps) asked.now slot }
{
    accepted_is_sound();
    *field = Path::new();
    let steps = plan.steps();
    let asked = asked.steps();
    let _found = locate(steps, 0, asked, 0, slot, field);
}
