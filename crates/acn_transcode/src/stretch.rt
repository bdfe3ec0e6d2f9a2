//! Fields that are read out of one word.

ghost use Rattle.std.specs.Prelude.{◌≡◌, ◌++◌, ◌∷◌, [], ℕ, List, Option, true, length, IfSome};
ghost use Rattle.acn_grammar.specs.Grammar.{Fields, Data, no_fields, record_of};
ghost use Rattle.acn_grammar.specs.ItemsNamed.{FormItemsNamed};
ghost use Rattle.acn_grammar.specs.View.{grammar_of, form_of, fields_view, places_of};
ghost use Rattle.acn_grammar.specs.declared.node.Body.TheVariants.{Seq as Seq_body};
ghost use Rattle.acn_cut.specs.Stretches.{AreStretches, IsRun, IsStretch};
ghost use Rattle.acn_lines.specs.Order.{IsFormOrder};
ghost use Rattle.acn_reads.specs.Decoded.{Fine, FormStands, FormRead};
ghost use Rattle.acn_reads.specs.Steps.{noted_by};
ghost use Rattle.acn_transcode.specs.Puts as spec;
ghost use Rattle.acn_transcode.specs.Puts.{Lays};
ghost use Rattle.acn_transcode.specs.declared.draft.Part.TheVariants.{Number};

use crate::draft::{Draft, Part};
use crate::leaves::note;
use crate::slots::forget;
use acn_bits::ReadCursor;
use acn_cut::{Piece, Stretch, Strip, read_piece};
use acn_grammar::{Field, Node, Seq};
use acn_lines::Order;

// Keeps the number of a field for its turn, where the field is a component.
#[inline(always)]
fn keep(piece: &Piece, x: &i128, parts: &mut Vec<Part>) -> bool
    ensures { result ≡ true → parts.new.items ≡ parts.old.items ++ spec.kept_of piece.now x.now }
{
    if piece.is_component {
        parts.push(Part::Number(*x)).is_ok()
    } else {
        true
    }
}

// Notes the number of a field where it is a slot's, and keeps it where the field is a component.
#[inline(always)]
fn lay_number(piece: &Piece, x: &i128, draft: &mut Draft) -> bool
    ensures kept { result ≡ true → spec.IsKept piece.now x.now draft.old draft.new }
{
    note(&mut draft.slots, piece.slot, x) && keep(piece, x, &mut draft.parts)
}

/// Passes the fields of a stretch, which are read out of one word, and keeps what they say.
#[inline(always)]
pub fn lay_stretch(stretch: &Stretch, cur: &mut ReadCursor<'_>, draft: &mut Draft) -> bool
    requires { (fs : Fields) × (rest : Fields) × IsStretch fs stretch.now rest }
    ensures { result ≡ true → (fs rest : Fields) → IsRun fs stretch.now.pieces rest → spec.LaysFields fs rest (length stretch.now.pieces) draft.old draft.new cur.old cur.new }
{
    let Ok(word) = cur.take(stretch.width) else {
        return false;
    };
    let mut strip = Strip {
        word,
        left: stretch.width,
    };
    for piece in stretch.pieces.items() {
        let Some(x) = read_piece(&mut strip, &piece.cut) else {
            return false;
        };
        if !lay_number(piece, &x, draft) {
            return false;
        }
    }
    true
}

/// The stretch that all fields make, where they make one.
#[inline(always)]
pub fn whole_of<'a>(stretches: &'a [Stretch], fields: &[Field]) -> Option<&'a Stretch>
    requires { AreStretches (fields_view fields.now) stretches.now }
    ensures { IfSome result (λ stretch. IsStretch (fields_view fields.now) stretch.now no_fields) }
{
    match stretches.first() {
        Some(stretch) => {
            let count = stretch.pieces.items().len();
            if count > 0 && count == fields.len() {
                Some(stretch)
            } else {
                None
            }
        }
        None => None,
    }
}

/// Passes a SEQUENCE whose fields are one stretch, and keeps what they say.
#[inline(always)]
pub fn lay_whole(
    seq: &Seq,
    order: &Order,
    stretch: &Stretch,
    root: &Node,
    cur: &mut ReadCursor<'_>,
    draft: &mut Draft,
) -> bool
    requires ready { (k : ℕ) × (around : List ℕ) × FormStands (grammar_of root.now) k (form_of (Seq_body seq.now)) draft.old.slots.items around }
    requires named { FormItemsNamed (form_of (Seq_body seq.now)) }
    requires fine { Fine (grammar_of root.now) draft.old.slots.items }
    requires order { IsFormOrder (form_of (Seq_body seq.now)) order.now }
    requires stretch { IsStretch (fields_view seq.now.fields) stretch.now no_fields }
    ensures laid { result ≡ true → (ds : List (Option Data)) × FormRead (grammar_of root.now) (form_of (Seq_body seq.now)) (record_of (places_of ds)) draft.old.slots.items draft.new.slots.items cur.old cur.new × Lays (fields_view seq.now.fields) no_fields ds draft.old draft.new }
{
    let Ok(_flags) = cur.window(order.flags) else {
        return false;
    };
    if !lay_stretch(stretch, cur, draft) {
        return false;
    }
    forget(seq.home.items(), &mut draft.slots);
    true
}
