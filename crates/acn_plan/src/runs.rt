//! Numbers of neighbouring fields that can be written as one word.

ghost use Rattle.std.specs.Prelude.{◌+◌, ◌^◌, ◌<◌, length, IfOk, IfSome};
ghost use Rattle.acn_bits.specs.declared.word.TheConstants.{WORD_BITS};
ghost use Rattle.acn_plan.specs.Runs as spec;

use crate::step::{Act, Place, Step};
use acn_bits::WORD_BITS;
use acn_cut::{Cut, Piece, cut_of};
use acn_grammar::Presence;
use acn_num::{NoMemory, Row};
use std::alloc::Global;

// Whether a field is a component, where it is always there and says no slot's number.
fn free_field(place: &Place) -> Option<bool>
    ensures { IfSome result (λ is_component. spec.IsFree place.now is_component) }
{
    match place {
        Place::Component { presence, slot, .. } => match presence {
            Presence::Always => match slot {
                Some(_) => None,
                None => Some(true),
            },
            _ => None,
        },
        Place::Inserted { slot, .. } => match slot {
            Some(_) => None,
            None => Some(false),
        },
        _ => None,
    }
}

// How the number of an act is written as a part of a word.
fn act_cut(act: &Act) -> Option<Cut>
    ensures cut { IfSome result (λ cut. spec.IsCutOf act.now cut) }
    ensures narrow { IfSome result (λ cut. cut.width < WORD_BITS) }
{
    match act {
        Act::Num(leaf) => {
            let cut = cut_of(leaf)?;
            if cut.width < WORD_BITS {
                Some(cut)
            } else {
                None
            }
        }
        _ => None,
    }
}

// How the number of step n is written beside others, where it can be so.
fn piece_of(n: usize, step: &Step) -> Option<Piece>
    requires { n < 2 ^ 32 }
    ensures { IfSome result (λ piece. spec.IsPieceOf n step.now piece) }
{
    if step.align != 1 || step.next as usize != n + 1 {
        return None;
    }
    let is_component = free_field(&step.place)?;
    let cut = act_cut(&step.act)?;
    Some(Piece {
        cut,
        is_component,
        slot: None,
    })
}

// The longest run of steps, of which the first has the number.
fn run_of(alloc: Global, number: usize, steps: &[Step]) -> Result<Row<Piece>, NoMemory>
    requires { number + length steps.now < 2 ^ 32 }
    ensures { IfOk result (λ run. spec.IsRun number steps.now run) }
{
    let mut run = Row::new(alloc);
    let mut width = 0u32;
    for (i, step) in steps.iter().enumerate() {
        let Some(piece) = piece_of(number + i, step) else {
            return Ok(run);
        };
        if piece.cut.width > WORD_BITS - width {
            return Ok(run);
        }
        width += piece.cut.width;
        run.push(piece)?;
    }
    Ok(run)
}

// The run that begins with the first step, unless it is among the `left` steps of one before it.
// One number alone isn't worth it.
fn next_run(
    alloc: Global,
    number: usize,
    steps: &[Step],
    left: &mut usize,
) -> Result<Row<Piece>, NoMemory>
    requires { number + length steps.now < 2 ^ 32 }
    ensures { IfOk result (λ run. spec.IsRun number steps.now run) }
{
    if *left > 0 {
        *left -= 1;
        return Ok(Row::new(alloc));
    }
    let run = run_of(alloc, number, steps)?;
    let count = run.items().len();
    if count < 2 {
        return Ok(Row::new(alloc));
    }
    *left = count - 1;
    Ok(run)
}

/// For each step the run that begins with it: numbers of neighbouring fields that are always there,
/// are no slot's and aren't aligned, whose codes make one word. It has no pieces where none begins:
/// where the step is in the run of one before it, or would be alone. It fails only where memory
/// runs out.
pub fn runs_of(alloc: Global, steps: &[Step]) -> Result<Row<Row<Piece>>, NoMemory>
    requires { length steps.now < 2 ^ 32 }
    ensures { IfOk result (λ runs. spec.AreRuns steps.now runs) }
{
    let mut runs = Row::new(alloc);
    let mut left = 0;
    for at in 0..steps.len() {
        let run = next_run(alloc, at, &steps[at..], &mut left)?;
        runs.push(run)?;
    }
    Ok(runs)
}
