//! Finding the fields that are read out of one word.

ghost use Rattle.std.specs.Prelude.{◌≡◌, ◌<◌, ◌≤◌, [], ◌∷◌, length, drop, IfOk, IfSome};
ghost use Rattle.acn_grammar.specs.Grammar.{Fields};
ghost use Rattle.acn_grammar.specs.View.{grammar_of, field_of, fields_view, with_field};
ghost use Rattle.acn_bits.specs.declared.word.TheConstants.{WORD_BITS};
ghost use Rattle.acn_cut.specs.Stretches as spec;

use crate::made::cut_of;
use crate::stretch::{Piece, Stretch};
use acn_bits::WORD_BITS;
use acn_grammar::{Body, Field, Node, Presence};
use acn_num::{NoMemory, Row};
use std::alloc::Global;

// How the number of a node is read among others, where it can be so: nothing is aligned, and its
// codes have some bits.
fn piece_of(node: &Node, is_component: bool, slot: Option<u32>) -> Option<Piece>
    ensures { IfSome result (λ piece. spec.IsPieceOf (grammar_of node.now) is_component slot piece) }
{
    if node.align != 1 {
        return None;
    }
    match &node.body {
        Body::Num(leaf) => {
            let cut = cut_of(leaf)?;
            if cut.width == 0 {
                return None;
            }
            Some(Piece {
                cut,
                is_component,
                slot,
            })
        }
        _ => None,
    }
}

// How the number of a field is read among others, where it is always there and can be so.
fn field_piece(field: &Field) -> Option<Piece>
    ensures { IfSome result (λ piece. (fs : Fields) → spec.IsRun (with_field (field_of field.now) fs) (piece ∷ []) fs) }
{
    match field {
        Field::Component {
            node,
            presence,
            slot,
            ..
        } => match presence {
            Presence::Always => piece_of(node, true, *slot),
            _ => None,
        },
        Field::Inserted { node, slot, .. } => piece_of(node, false, *slot),
    }
}

// The longest stretch at the front of fields.
fn stretch_of(alloc: Global, fields: &[Field]) -> Result<Stretch, NoMemory>
    ensures within { IfOk result (λ s. length s.pieces ≤ length fields.now) }
    ensures run { IfOk result (λ s. spec.IsStretch (fields_view fields.now) s (fields_view (drop (length s.pieces) fields.now))) }
{
    let mut pieces = Row::new(alloc);
    let mut width = 0u32;
    for field in fields {
        let Some(piece) = field_piece(field) else {
            return Ok(Stretch { pieces, width });
        };
        if piece.cut.width > WORD_BITS - width {
            return Ok(Stretch { pieces, width });
        }
        width += piece.cut.width;
        pieces.push(piece)?;
    }
    Ok(Stretch { pieces, width })
}

// No stretch.
fn nothing(alloc: Global) -> Stretch
    ensures pieces { result.pieces ≡ [] }
    ensures width { result.width ≡ 0 }
{
    Stretch {
        pieces: Row::new(alloc),
        width: 0,
    }
}

// The stretch that begins with the first field, unless it is among the `left` fields of one before
// it. One field alone isn't worth it.
fn next_stretch(alloc: Global, fields: &[Field], left: &mut usize) -> Result<Stretch, NoMemory>
    ensures { IfOk result (λ s. (rest : Fields) × spec.IsStretch (fields_view fields.now) s rest) }
{
    if *left > 0 {
        *left -= 1;
        return Ok(nothing(alloc));
    }
    let stretch = stretch_of(alloc, fields)?;
    let count = stretch.pieces.items().len();
    if count < 2 {
        return Ok(nothing(alloc));
    }
    *left = count - 1;
    Ok(stretch)
}

// For each field the stretch that begins with it, and whether one does.
fn all_stretches(alloc: Global, fields: &[Field]) -> Result<(Row<Stretch>, bool), NoMemory>
    ensures { IfOk result (λ all. spec.AreStretches (fields_view fields.now) all.0) }
{
    let mut stretches = Row::new(alloc);
    let mut left = 0;
    let mut some = false;
    for at in 0..fields.len() {
        let stretch = next_stretch(alloc, &fields[at..], &mut left)?;
        some = some || left > 0;
        stretches.push(stretch)?;
    }
    Ok((stretches, some))
}

/// For each field the stretch that begins with it. It has no pieces where none begins: where the
/// field is in the stretch of one before it, or would be alone. Where none begins with any field,
/// none is said. It fails only where memory runs out.
pub fn stretches_of(alloc: Global, fields: &[Field]) -> Result<Row<Stretch>, NoMemory>
    ensures { IfOk result (λ stretches. spec.AreStretches (fields_view fields.now) stretches) }
{
    let (stretches, some) = all_stretches(alloc, fields)?;
    if some {
        Ok(stretches)
    } else {
        Ok(Row::new(alloc))
    }
}
