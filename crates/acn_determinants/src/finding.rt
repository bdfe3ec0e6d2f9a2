//! The walk over the fields of a SEQUENCE, and over those of the SEQUENCEs inside it.

ghost use Rattle.std.specs.Prelude.{◌≡◌, ◌≤◌, ℕ, suc, None, OnOk, IfOk, option_map, length};
ghost use Rattle.acn_grammar.specs.Grammar.{Fields};
ghost use Rattle.acn_grammar.specs.Slots.{first_of_two, number_leaf as leaf_that_is};
ghost use Rattle.acn_grammar.specs.View.{grammar_of, field_of, fields_view, with_field};
ghost use Rattle.acn_grammar.specs.declared.limits.TheConstants.{MOST_NODES};
ghost use Rattle.acn_determinants.specs.Spots.{noted_at, spot_of, here_or, under, spot_in, field_spot, Reached, FieldsReached};

use crate::found::{Found, Spot};
use crate::leaves::number_leaf;
use acn_grammar::{Body, Field, Node};
use acn_num::{NoMemory, Path, Row};
use std::alloc::Global;

// The field at a path.
fn spot_at<'t>(alloc: Global, path: &Path, node: &'t Node) -> Result<Spot<'t>, NoMemory>
    ensures { IfOk result (λ spot. spot_of spot ≡ record { steps = path.now; leaf = leaf_that_is (grammar_of node.now) }) }
{
    let steps = Vec::from_slice(alloc, path.steps())?;
    Ok(Spot {
        steps: Row::from_vec(steps),
        leaf: number_leaf(node),
    })
}

// Notes the field at a path, where it says a slot's number.
fn note<'t>(
    alloc: Global,
    node: &'t Node,
    slot: Option<u32>,
    path: &Path,
    found: &mut Found<'t>,
) -> Result<(), NoMemory>
    ensures { OnOk result ((s : ℕ) → noted_at found.new s ≡ first_of_two (noted_at found.old s) (here_or slot s (record { steps = path.now; leaf = leaf_that_is (grammar_of node.now) }) None)) }
{
    match slot {
        Some(slot) => {
            let spot = spot_at(alloc, path, node)?;
            found.note(slot, spot)
        }
        None => Ok(()),
    }
}

// Notes what is inside a node that stands at the path.
#[cycle(find)]
fn find_inside<'t>(
    alloc: Global,
    node: &'t Node,
    path: &mut Path,
    found: &mut Found<'t>,
) -> Result<(), NoMemory>
    requires { Reached (length path.old) (grammar_of node.now) }
    ensures noted { OnOk result ((s : ℕ) → noted_at found.new s ≡ first_of_two (noted_at found.old s) (option_map (under path.old) (spot_in (grammar_of node.now) s))) }
    ensures back { OnOk result (path.new ≡ path.old) }
{
    match &node.body {
        Body::Seq(seq) => find_fields(alloc, seq.fields.items(), path, found),
        Body::Num(_) => Ok(()),
        Body::Octets(_) => Ok(()),
        Body::Bits(_) => Ok(()),
        Body::Text(_) => Ok(()),
        Body::List(_, _) => Ok(()),
        Body::Choice(_) => Ok(()),
        Body::Contained(_, _) => Ok(()),
    }
}

// Notes a field of the SEQUENCE at the path, and what is inside it.
#[cycle(find)]
fn find_field<'t>(
    alloc: Global,
    field: &'t Field,
    step: u32,
    path: &mut Path,
    found: &mut Found<'t>,
) -> Result<(), NoMemory>
    requires { (fs : Fields) × FieldsReached (suc (length path.old)) (with_field (field_of field.now) fs) }
    ensures noted { OnOk result ((s : ℕ) (fs : Fields) → first_of_two (noted_at found.new s) (option_map (under path.old) (field_spot fs (suc step) s)) ≡ first_of_two (noted_at found.old s) (option_map (under path.old) (field_spot (with_field (field_of field.now) fs) step s))) }
    ensures back { OnOk result (path.new ≡ path.old) }
{
    path.push(step);
    match field {
        Field::Component { node, slot, .. } => {
            note(alloc, node, *slot, path, found)?;
            find_inside(alloc, node, path, found)?;
        }
        Field::Inserted { node, slot, .. } => {
            note(alloc, node, *slot, path, found)?;
        }
    }
    path.pop();
    Ok(())
}

/// Notes the fields of the SEQUENCE at the path that say slots' numbers, and those of the SEQUENCEs inside it.
#[cycle(find)]
pub fn find_fields<'t>(
    alloc: Global,
    fields: &'t [Field],
    path: &mut Path,
    found: &mut Found<'t>,
) -> Result<(), NoMemory>
    requires few { length fields.now ≤ MOST_NODES }
    requires reached { FieldsReached (suc (length path.old)) (fields_view fields.now) }
    ensures noted { OnOk result ((s : ℕ) → noted_at found.new s ≡ first_of_two (noted_at found.old s) (option_map (under path.old) (field_spot (fields_view fields.now) 0 s))) }
    ensures back { OnOk result (path.new ≡ path.old) }
{
    let mut step = 0u32;
    for field in fields {
        find_field(alloc, field, step, path, found)?;
        step += 1;
    }
    Ok(())
}
