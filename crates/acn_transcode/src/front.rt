//! The line of a packet.

ghost use Rattle.std.specs.Prelude.{◌≡◌, ◌≤◌, ◌++◌, ◌∷◌, [], ℕ, List, true, false, None, IfSome, length};
ghost use Rattle.serde_json.specs.Written.{compact_text};
ghost use Rattle.acn_num.specs.Bits.{bits};
ghost use Rattle.acn_grammar.specs.Front.{Front};
ghost use Rattle.acn_grammar.specs.Grammar.{Data};
ghost use Rattle.acn_grammar.specs.ItemsNamed.{ItemsNamed, FormItemsNamed};
ghost use Rattle.acn_grammar.specs.View.{grammar_of, form_of};
ghost use Rattle.acn_grammar.specs.declared.node.Body.TheVariants.{Seq as Seq_body};
ghost use Rattle.acn_json.specs.Kept.{Kept};
ghost use Rattle.acn_json.specs.Lines.{json_of, form_json, line_of};
ghost use Rattle.acn_lines.specs.Order.{IsNodeOrder, IsFormOrder};
ghost use Rattle.acn_packet_laws.specs.Laws.{IsAccepted};
ghost use Rattle.acn_reads.specs.Decoded.{Fine, NodeStands, FormStands, NodeRead, FormRead};
ghost use Rattle.acn_reads.specs.declared.answers.TheConstants.{MOST_BYTES};

use crate::draft::Draft;
use crate::members::put_members;
use crate::paddings::pad;
use crate::walk::{lay_sequence, put_body};
use acn_bits::ReadCursor;
use acn_grammar::{Body, Node, Seq};
use acn_json::{put, put_octet};
use acn_lines::Order;
use acn_packet_laws::accepted_is_sound;

// Puts the object that a packet is. Its members go to the text as they are put in their turn.
#[tactic(auto, using(crate::proofs::Keeping::kept_same))]
fn put_object(
    seq: &Seq,
    order: &Order,
    root: &Node,
    cur: &mut ReadCursor<'_>,
    draft: &mut Draft,
    text: &mut Vec<u8>,
) -> bool
    requires ready { (k : ℕ) × (around : List ℕ) × FormStands (grammar_of root.now) k (form_of (Seq_body seq.now)) draft.old.slots.items around }
    requires named { FormItemsNamed (form_of (Seq_body seq.now)) }
    requires fine { Fine (grammar_of root.now) draft.old.slots.items }
    requires order { IsFormOrder (form_of (Seq_body seq.now)) order.now }
    requires none { draft.old.parts.items ≡ [] }
    ensures put { result ≡ true → (d : Data) × FormRead (grammar_of root.now) (form_of (Seq_body seq.now)) d draft.old.slots.items draft.new.slots.items cur.old cur.new × (text.new.items ≡ text.old.items ++ compact_text (form_json (form_of (Seq_body seq.now)) d)) }
    ensures kept { result ≡ false → Kept text.old.items text.new.items }
{
    if !lay_sequence(seq, order, root, cur, draft) {
        return false;
    }
    put_members(
        order.turns.items(),
        seq.fields.items(),
        &draft.parts,
        &draft.text,
        text,
    )
}

// Puts a value of any form, which stands in the draft before.
#[tactic(auto, using(crate::proofs::Keeping::kept_same))]
fn put_any(
    body: &Body,
    order: &Order,
    root: &Node,
    cur: &mut ReadCursor<'_>,
    draft: &mut Draft,
    text: &mut Vec<u8>,
) -> bool
    requires ready { (k : ℕ) × (around : List ℕ) × FormStands (grammar_of root.now) k (form_of body.now) draft.old.slots.items around }
    requires named { FormItemsNamed (form_of body.now) }
    requires fine { Fine (grammar_of root.now) draft.old.slots.items }
    requires order { IsFormOrder (form_of body.now) order.now }
    requires empty { draft.old.text.items ≡ [] }
    ensures put { result ≡ true → (d : Data) × FormRead (grammar_of root.now) (form_of body.now) d draft.old.slots.items draft.new.slots.items cur.old cur.new × (text.new.items ≡ text.old.items ++ compact_text (form_json (form_of body.now) d)) }
    ensures kept { result ≡ false → Kept text.old.items text.new.items }
{
    if !put_body(body, order, root, cur, draft) {
        return false;
    }
    put(&draft.text, text).is_ok()
}

// Puts the value that a packet is.
fn put_form(
    body: &Body,
    order: &Order,
    root: &Node,
    cur: &mut ReadCursor<'_>,
    draft: &mut Draft,
    text: &mut Vec<u8>,
) -> bool
    requires ready { (k : ℕ) × (around : List ℕ) × FormStands (grammar_of root.now) k (form_of body.now) draft.old.slots.items around }
    requires named { FormItemsNamed (form_of body.now) }
    requires fine { Fine (grammar_of root.now) draft.old.slots.items }
    requires order { IsFormOrder (form_of body.now) order.now }
    requires empty { draft.old.text.items ≡ [] }
    requires none { draft.old.parts.items ≡ [] }
    ensures put { result ≡ true → (d : Data) × FormRead (grammar_of root.now) (form_of body.now) d draft.old.slots.items draft.new.slots.items cur.old cur.new × (text.new.items ≡ text.old.items ++ compact_text (form_json (form_of body.now) d)) }
    ensures kept { result ≡ false → Kept text.old.items text.new.items }
{
    match body {
        Body::Seq(seq) => put_object(seq, order, root, cur, draft, text),
        _ => put_any(body, order, root, cur, draft, text),
    }
}

// Puts the value of a packet, behind its padding.
#[tactic(auto, using(crate::proofs::Keeping::kept_same))]
fn put_packet(
    root: &Node,
    order: &Order,
    cur: &mut ReadCursor<'_>,
    draft: &mut Draft,
    text: &mut Vec<u8>,
) -> bool
    requires ready { (k : ℕ) × (around : List ℕ) × NodeStands (grammar_of root.now) k (grammar_of root.now) draft.old.slots.items around }
    requires named { ItemsNamed (grammar_of root.now) }
    requires fine { Fine (grammar_of root.now) draft.old.slots.items }
    requires order { IsNodeOrder (grammar_of root.now) order.now }
    requires empty { draft.old.text.items ≡ [] }
    requires none { draft.old.parts.items ≡ [] }
    ensures put { result ≡ true → (d : Data) × NodeRead (grammar_of root.now) (grammar_of root.now) d draft.old.slots.items draft.new.slots.items cur.old cur.new × (text.new.items ≡ text.old.items ++ compact_text (json_of (grammar_of root.now) d)) }
    ensures kept { result ≡ false → Kept text.old.items text.new.items }
{
    match pad(cur, root.align) {
        Ok(()) => put_form(&root.body, order, root, cur, draft, text),
        Err(_) => false,
    }
}

// Puts the value of a packet, with a line feed.
fn put_line(
    root: &Node,
    order: &Order,
    cur: &mut ReadCursor<'_>,
    draft: &mut Draft,
    text: &mut Vec<u8>,
) -> bool
    requires ready { (k : ℕ) × (around : List ℕ) × NodeStands (grammar_of root.now) k (grammar_of root.now) draft.old.slots.items around }
    requires named { ItemsNamed (grammar_of root.now) }
    requires fine { Fine (grammar_of root.now) draft.old.slots.items }
    requires order { IsNodeOrder (grammar_of root.now) order.now }
    requires empty { draft.old.text.items ≡ [] }
    requires none { draft.old.parts.items ≡ [] }
    ensures put { result ≡ true → (d : Data) × NodeRead (grammar_of root.now) (grammar_of root.now) d draft.old.slots.items draft.new.slots.items cur.old cur.new × (text.new.items ≡ text.old.items ++ (line_of (grammar_of root.now) d ++ 10 ∷ [])) }
    ensures kept { result ≡ false → Kept text.old.items text.new.items }
{
    if !put_packet(root, order, cur, draft, text) {
        return false;
    }
    put_octet(b'\n', text).is_ok()
}

/// Puts the line of the packet at the front of the bytes behind a text, with a line feed, and
/// answers the number of the packet's bits, where it is sure that a packet is there. What stands
/// behind these bits isn't looked at.
///
/// None says nothing of the bytes: no packet may be at their front, or memory may be wanting. Then
/// the text is as it was.
pub fn put_front(
    root: &Node,
    order: &Order,
    bytes: &[u8],
    draft: &mut Draft,
    text: &mut Vec<u8>,
) -> Option<u64>
    requires accepted { IsAccepted (grammar_of root.now) }
    requires named { ItemsNamed (grammar_of root.now) }
    requires order { IsNodeOrder (grammar_of root.now) order.now }
    requires few { length bytes.now ≤ MOST_BYTES }
    ensures put { IfSome result (λ n. (d : Data) × Front (grammar_of root.now) (bits bytes.now) d n × (text.new.items ≡ text.old.items ++ (line_of (grammar_of root.now) d ++ 10 ∷ []))) }
    ensures kept { result ≡ None → text.new.items ≡ text.old.items }
{
    accepted_is_sound();
    draft.clear();
    let mark = text.len();
    let mut cur = ReadCursor::new(bytes, 8 * bytes.len() as u64);
    if !put_line(root, order, &mut cur, draft, text) {
        text.truncate(mark);
        return None;
    }
    Some(cur.at())
}
