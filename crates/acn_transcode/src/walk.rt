//! The walk over a tree.

ghost use Rattle.std.specs.Prelude.{◌≡◌, ◌<◌, ◌≤◌, ◌+◌, ◌^◌, ℕ, suc, ◌∷◌, [], ◌++◌, List, Bool, Option, None, Some, true, false, IsTrue, IfSome, length};
ghost use Rattle.serde_json.specs.Written.{compact_text, members_text};
ghost use Rattle.acn_grammar.specs.Fails.{Here, flags_behind, presence_count};
ghost use Rattle.acn_grammar.specs.Grammar.{Grammar, Fields, Data, component, no_fields, list, contained, inserted, record_of};
ghost use Rattle.acn_grammar.specs.ItemsNamed.{ItemsNamed, FormItemsNamed, FieldsItemsNamed, AlternativesItemsNamed, field_items_named};
ghost use Rattle.acn_grammar.specs.View.{grammar_of, form_of, field_of, fields_view, with_field, alternatives_view, places_of};
ghost use Rattle.acn_grammar.specs.declared.node.Body.TheVariants.{Choice as Choice_body, Seq as Seq_body};
ghost use Rattle.acn_grammar.specs.declared.node.Presence.TheVariants.{Bit};
ghost use Rattle.acn_json.specs.Lines.{json_of, form_json, alternative_json};
ghost use Rattle.acn_cut.specs.Stretches.{AreStretches};
ghost use Rattle.acn_lines.specs.Order as order_spec;
ghost use Rattle.acn_lines.specs.declared.order.Order.{out-Order};
ghost use Rattle.acn_num.specs.declared.limits.TheConstants.{MOST_SIZE};
ghost use Rattle.acn_reads.specs.Decoded.{Fine, NodeStands, FormStands, FieldsStand, InnerStands, CasesStand, NodeRead, FormRead, Turn, RunTurn};
ghost use Rattle.acn_reads.specs.Choices.{grammar_at};
ghost use Rattle.acn_reads.specs.Ends.{EndedRead};
ghost use Rattle.acn_reads.specs.Present.{BitThere, first_bit, there_now};
ghost use Rattle.acn_transcode.specs.Puts as spec;
ghost use Rattle.acn_transcode.specs.Puts.{Puts, Lays};

use crate::draft::{Draft, Part, Span};
use crate::leaves::{note, note_number, number, put_leaf};
use crate::members::put_members;
use crate::paddings::pad;
use crate::slots::forget;
use crate::stretch::{lay_stretch, lay_whole, whole_of};
use acn_bits::ReadCursor;
use acn_cut::Stretch;
use acn_grammar::{Alternative, Body, Choice, Field, Node, Pattern, Presence, Seq, Sizing};
use acn_json::{put_comma, put_key, put_octet};
use acn_lines::Order;
use acn_reads::{is_ended, is_there, most_of, pass_end, pattern_of, pick, stands};
use acn_string_lines::{put_bits, put_octets, put_text, size};
use std::mem::swap;

// Puts the value of a node, which is passed.
#[cycle(put)]
fn put_node(
    node: &Node,
    order: &Order,
    root: &Node,
    cur: &mut ReadCursor<'_>,
    draft: &mut Draft,
) -> bool
    requires ready { (k : ℕ) × (around : List ℕ) × NodeStands (grammar_of root.now) k (grammar_of node.now) draft.old.slots.items around }
    requires named { ItemsNamed (grammar_of node.now) }
    requires fine { Fine (grammar_of root.now) draft.old.slots.items }
    requires order { order_spec.IsNodeOrder (grammar_of node.now) order.now }
    ensures put { result ≡ true → (d : Data) × NodeRead (grammar_of root.now) (grammar_of node.now) d draft.old.slots.items draft.new.slots.items cur.old cur.new × Puts (compact_text (json_of (grammar_of node.now) d)) draft.old draft.new }
{
    match pad(cur, node.align) {
        Ok(()) => put_body(&node.body, order, root, cur, draft),
        Err(_) => false,
    }
}

/// Puts the value of a form, which is passed.
#[cycle(put)]
pub fn put_body(
    body: &Body,
    order: &Order,
    root: &Node,
    cur: &mut ReadCursor<'_>,
    draft: &mut Draft,
) -> bool
    requires ready { (k : ℕ) × (around : List ℕ) × FormStands (grammar_of root.now) k (form_of body.now) draft.old.slots.items around }
    requires named { FormItemsNamed (form_of body.now) }
    requires fine { Fine (grammar_of root.now) draft.old.slots.items }
    requires order { order_spec.IsFormOrder (form_of body.now) order.now }
    ensures put { result ≡ true → (d : Data) × FormRead (grammar_of root.now) (form_of body.now) d draft.old.slots.items draft.new.slots.items cur.old cur.new × Puts (compact_text (form_json (form_of body.now) d)) draft.old draft.new }
{
    match body {
        Body::Num(leaf) => put_leaf(leaf, order, None, cur, draft),
        Body::Octets(sizing) => put_octets(cur, sizing, &draft.slots, &mut draft.text),
        Body::Bits(sizing) => put_bits(cur, sizing, &draft.slots, &mut draft.text),
        Body::Text(leaf) => put_text(cur, leaf, &draft.slots, &mut draft.aside, &mut draft.text),
        Body::Seq(seq) => put_sequence(seq, order, root, cur, draft),
        Body::List(sizing, element) => put_list(element.get(), sizing, order, root, cur, draft),
        Body::Choice(choice) => put_choice(choice, order, root, cur, draft),
        Body::Contained(sizing, content) => {
            put_contained(content.get(), sizing, order, root, cur, draft)
        }
    }
}

// Puts an object. The texts of its members, but those of numbers, are put in the order of the
// packet, and wait for their turn.
#[cycle(put)]
fn put_sequence(
    seq: &Seq,
    order: &Order,
    root: &Node,
    cur: &mut ReadCursor<'_>,
    draft: &mut Draft,
) -> bool
    requires ready { (k : ℕ) × (around : List ℕ) × FormStands (grammar_of root.now) k (form_of (Seq_body seq.now)) draft.old.slots.items around }
    requires named { FormItemsNamed (form_of (Seq_body seq.now)) }
    requires fine { Fine (grammar_of root.now) draft.old.slots.items }
    requires order { order_spec.IsFormOrder (form_of (Seq_body seq.now)) order.now }
    ensures put { result ≡ true → (d : Data) × FormRead (grammar_of root.now) (form_of (Seq_body seq.now)) d draft.old.slots.items draft.new.slots.items cur.old cur.new × Puts (compact_text (form_json (form_of (Seq_body seq.now)) d)) draft.old draft.new }
{
    let mark = draft.aside.len();
    let first = draft.parts.len();
    swap(&mut draft.text, &mut draft.aside);
    if !lay_sequence(seq, order, root, cur, draft) {
        return false;
    }
    swap(&mut draft.text, &mut draft.aside);
    if !put_members(
        order.turns.items(),
        seq.fields.items(),
        &draft.parts[first..],
        &draft.aside,
        &mut draft.text,
    ) {
        return false;
    }
    draft.aside.truncate(mark);
    draft.parts.truncate(first);
    true
}

/// Puts the values of the components of a SEQUENCE, which is passed, one behind the other, but for
/// numbers, and notes where they stand, and the numbers.
#[inline(always)]
#[cycle(put)]
pub fn lay_sequence(
    seq: &Seq,
    order: &Order,
    root: &Node,
    cur: &mut ReadCursor<'_>,
    draft: &mut Draft,
) -> bool
    requires ready { (k : ℕ) × (around : List ℕ) × FormStands (grammar_of root.now) k (form_of (Seq_body seq.now)) draft.old.slots.items around }
    requires named { FormItemsNamed (form_of (Seq_body seq.now)) }
    requires fine { Fine (grammar_of root.now) draft.old.slots.items }
    requires order { order_spec.IsFormOrder (form_of (Seq_body seq.now)) order.now }
    ensures laid { result ≡ true → (ds : List (Option Data)) × FormRead (grammar_of root.now) (form_of (Seq_body seq.now)) (record_of (places_of ds)) draft.old.slots.items draft.new.slots.items cur.old cur.new × Lays (fields_view seq.now.fields) no_fields ds draft.old draft.new }
{
    match whole_of(order.stretches.items(), seq.fields.items()) {
        Some(stretch) => lay_whole(seq, order, stretch, root, cur, draft),
        None => lay_parts(seq, order, root, cur, draft),
    }
}

// The same of a SEQUENCE that isn't one stretch.
#[cycle(put)]
fn lay_parts(
    seq: &Seq,
    order: &Order,
    root: &Node,
    cur: &mut ReadCursor<'_>,
    draft: &mut Draft,
) -> bool
    requires ready { (k : ℕ) × (around : List ℕ) × FormStands (grammar_of root.now) k (form_of (Seq_body seq.now)) draft.old.slots.items around }
    requires named { FormItemsNamed (form_of (Seq_body seq.now)) }
    requires fine { Fine (grammar_of root.now) draft.old.slots.items }
    requires order { order_spec.IsFormOrder (form_of (Seq_body seq.now)) order.now }
    ensures laid { result ≡ true → (ds : List (Option Data)) × FormRead (grammar_of root.now) (form_of (Seq_body seq.now)) (record_of (places_of ds)) draft.old.slots.items draft.new.slots.items cur.old cur.new × Lays (fields_view seq.now.fields) no_fields ds draft.old draft.new }
{
    let fields = seq.fields.items();
    let Ok(window) = cur.window(order.flags) else {
        return false;
    };
    let mut flags = window;
    if !put_fields(
        fields,
        order.inside.items(),
        order.stretches.items(),
        root,
        &mut flags,
        cur,
        draft,
    ) {
        return false;
    }
    forget(seq.home.items(), &mut draft.slots);
    true
}

// Puts the values of the fields' components one behind the other, but for numbers, and notes where
// they stand, and the numbers.
#[inline(always)]
#[cycle(put)]
fn put_fields(
    fields: &[Field],
    orders: &[Order],
    stretches: &[Stretch],
    root: &Node,
    flags: &mut ReadCursor<'_>,
    cur: &mut ReadCursor<'_>,
    draft: &mut Draft,
) -> bool
    requires bits { presence_count (fields_view fields.now) ≡ length flags.old.rest }
    requires ready { (k : ℕ) × (around : List ℕ) × FieldsStand (grammar_of root.now) k (fields_view fields.now) draft.old.slots.items around }
    requires named { FieldsItemsNamed (fields_view fields.now) }
    requires fine { Fine (grammar_of root.now) draft.old.slots.items }
    requires orders { order_spec.AreFieldOrders (fields_view fields.now) orders.now }
    requires stretches { AreStretches (fields_view fields.now) stretches.now }
    ensures put { result ≡ true → (ds : List (Option Data)) × ((here : Here) → Turn (grammar_of root.now) here cur.old.origin 0 (length fields.now) (fields_view fields.now) no_fields ds draft.old.slots.items draft.new.slots.items flags.old.rest flags.new.rest cur.old cur.new) × Lays (fields_view fields.now) no_fields ds draft.old draft.new }
{
    if stretches.is_empty() {
        put_each_field(fields, orders, root, flags, cur, draft)
    } else {
        put_stretches(fields, orders, stretches, root, flags, cur, draft)
    }
}

// Puts the values of the fields' components, field by field.
#[cycle(put)]
fn put_each_field(
    fields: &[Field],
    orders: &[Order],
    root: &Node,
    flags: &mut ReadCursor<'_>,
    cur: &mut ReadCursor<'_>,
    draft: &mut Draft,
) -> bool
    requires bits { presence_count (fields_view fields.now) ≡ length flags.old.rest }
    requires ready { (k : ℕ) × (around : List ℕ) × FieldsStand (grammar_of root.now) k (fields_view fields.now) draft.old.slots.items around }
    requires named { FieldsItemsNamed (fields_view fields.now) }
    requires fine { Fine (grammar_of root.now) draft.old.slots.items }
    requires orders { order_spec.AreFieldOrders (fields_view fields.now) orders.now }
    ensures put { result ≡ true → (ds : List (Option Data)) × ((here : Here) → Turn (grammar_of root.now) here cur.old.origin 0 (length fields.now) (fields_view fields.now) no_fields ds draft.old.slots.items draft.new.slots.items flags.old.rest flags.new.rest cur.old cur.new) × Lays (fields_view fields.now) no_fields ds draft.old draft.new }
{
    for (k, field) in fields.iter().enumerate() {
        if !put_field(field, &orders[k], root, flags, cur, draft) {
            return false;
        }
    }
    true
}

// Puts the values of the fields' components, those of a stretch at once.
#[cycle(put)]
fn put_stretches(
    fields: &[Field],
    orders: &[Order],
    stretches: &[Stretch],
    root: &Node,
    flags: &mut ReadCursor<'_>,
    cur: &mut ReadCursor<'_>,
    draft: &mut Draft,
) -> bool
    requires bits { presence_count (fields_view fields.now) ≡ length flags.old.rest }
    requires ready { (k : ℕ) × (around : List ℕ) × FieldsStand (grammar_of root.now) k (fields_view fields.now) draft.old.slots.items around }
    requires named { FieldsItemsNamed (fields_view fields.now) }
    requires fine { Fine (grammar_of root.now) draft.old.slots.items }
    requires orders { order_spec.AreFieldOrders (fields_view fields.now) orders.now }
    requires stretches { AreStretches (fields_view fields.now) stretches.now }
    ensures put { result ≡ true → (ds : List (Option Data)) × ((here : Here) → Turn (grammar_of root.now) here cur.old.origin 0 (length fields.now) (fields_view fields.now) no_fields ds draft.old.slots.items draft.new.slots.items flags.old.rest flags.new.rest cur.old cur.new) × Lays (fields_view fields.now) no_fields ds draft.old draft.new }
{
    let mut k = 0;
    while k < fields.len() {
        if k < stretches.len() {
            let stretch = &stretches[k];
            let count = stretch.pieces.items().len();
            if count > 0 {
                if !lay_stretch(stretch, cur, draft) {
                    return false;
                }
                k += count;
                continue;
            }
        }
        if !put_field(&fields[k], &orders[k], root, flags, cur, draft) {
            return false;
        }
        k += 1;
    }
    true
}

#[inline(always)]
#[cycle(put)]
fn put_field(
    field: &Field,
    order: &Order,
    root: &Node,
    flags: &mut ReadCursor<'_>,
    cur: &mut ReadCursor<'_>,
    draft: &mut Draft,
) -> bool
    requires ready { (k : ℕ) × (around : List ℕ) × (fs : Fields) × FieldsStand (grammar_of root.now) k (with_field (field_of field.now) fs) draft.old.slots.items around × (presence_count (with_field (field_of field.now) fs) ≡ length flags.old.rest) }
    requires named { IsTrue (field_items_named (field_of field.now)) }
    requires fine { Fine (grammar_of root.now) draft.old.slots.items }
    requires order { order_spec.IsFieldOrder (field_of field.now) order.now }
    ensures put { result ≡ true → (done : List (Option Data)) × ((here : Here) (k : ℕ) (fs : Fields) → Turn (grammar_of root.now) here cur.old.origin k (suc k) (with_field (field_of field.now) fs) fs done draft.old.slots.items draft.new.slots.items flags.old.rest flags.new.rest cur.old cur.new) × ((fs : Fields) → Lays (with_field (field_of field.now) fs) fs done draft.old draft.new) }
{
    match field {
        Field::Component {
            node,
            presence,
            slot,
            ..
        } => put_component(node, presence, *slot, order, root, flags, cur, draft),
        Field::Inserted { node, slot, .. } => pass_inserted(node, *slot, order, root, cur, draft),
    }
}

// Whether the next bit is set, which is passed.
fn is_set(flags: &mut ReadCursor<'_>) -> bool
    requires { BitThere Bit flags.old.rest }
    ensures there { result ≡ first_bit flags.old.rest }
    ensures flags { flags.new.rest ≡ flags_behind Bit flags.old.rest }
{
    flags.take(1).unwrap_or(0) == 1
}

// Whether a component is there. Its bit is passed, where it has one. Most are always there.
#[inline(always)]
fn is_here(presence: &Presence, flags: &mut ReadCursor<'_>, numbers: &[(u32, i128)]) -> bool
    requires { BitThere presence.now flags.old.rest }
    ensures there { result ≡ there_now presence.now numbers.now flags.old.rest }
    ensures flags { flags.new.rest ≡ flags_behind presence.now flags.old.rest }
{
    match presence {
        Presence::Always => true,
        Presence::Bit => is_set(flags),
        Presence::When(_) => is_there(presence, flags, numbers),
    }
}

#[inline(always)]
#[cycle(put)]
fn put_component(
    node: &Node,
    presence: &Presence,
    slot: Option<u32>,
    order: &Order,
    root: &Node,
    flags: &mut ReadCursor<'_>,
    cur: &mut ReadCursor<'_>,
    draft: &mut Draft,
) -> bool
    requires ready { (k : ℕ) × (around : List ℕ) × (fs : Fields) × FieldsStand (grammar_of root.now) k (component [] (grammar_of node.now) presence.now None slot fs) draft.old.slots.items around × (presence_count (component [] (grammar_of node.now) presence.now None slot fs) ≡ length flags.old.rest) }
    requires named { ItemsNamed (grammar_of node.now) }
    requires fine { Fine (grammar_of root.now) draft.old.slots.items }
    requires order { order_spec.IsNodeOrder (grammar_of node.now) order.now }
    ensures put { result ≡ true → (d : Option Data) × ((here : Here) (k : ℕ) (name : List ℕ) (default : Option (List ℕ)) (fs : Fields) → Turn (grammar_of root.now) here cur.old.origin k (suc k) (component name (grammar_of node.now) presence.now default slot fs) fs (d ∷ []) draft.old.slots.items draft.new.slots.items flags.old.rest flags.new.rest cur.old cur.new) × ((name : List ℕ) (default : Option (List ℕ)) (fs : Fields) → Lays (component name (grammar_of node.now) presence.now default slot fs) fs (d ∷ []) draft.old draft.new) }
{
    if is_here(presence, flags, &draft.slots) {
        match lay_present(node, slot, order, root, cur, draft) {
            Some(part) => draft.parts.push(part).is_ok(),
            None => false,
        }
    } else {
        draft.parts.push(Part::Away).is_ok()
    }
}

// A component that is there: its text, or its number, which is noted where it is a slot's. For a
// number no walk is begun, since nothing stands inside it.
#[inline(always)]
#[cycle(put)]
fn lay_present(
    node: &Node,
    slot: Option<u32>,
    order: &Order,
    root: &Node,
    cur: &mut ReadCursor<'_>,
    draft: &mut Draft,
) -> Option<Part>
    requires ready { (k : ℕ) × (around : List ℕ) × NodeStands (grammar_of root.now) k (grammar_of node.now) draft.old.slots.items around }
    requires named { ItemsNamed (grammar_of node.now) }
    requires fine { Fine (grammar_of root.now) draft.old.slots.items }
    requires order { order_spec.IsNodeOrder (grammar_of node.now) order.now }
    ensures laid { IfSome result (λ part. (d : Data) × spec.PresentRead (grammar_of root.now) (grammar_of node.now) slot d draft.old.slots.items draft.new.slots.items cur.old cur.new × spec.Shows (grammar_of node.now) part d draft.old draft.new) }
{
    match (&node.body, slot) {
        (Body::Num(leaf), slot) => match pad(cur, node.align) {
            Ok(()) => match note_number(leaf, order, slot, cur, &mut draft.slots) {
                Some(x) => Some(Part::Number(x)),
                None => None,
            },
            Err(_) => None,
        },
        (_, None) => {
            let from = draft.text.len();
            if !put_node(node, order, root, cur, draft) {
                return None;
            }
            Some(Part::Text(Span {
                from,
                to: draft.text.len(),
            }))
        }
        (_, Some(_)) => None,
    }
}

// Passes a field that ACN inserts, and notes its number where it is a slot's.
#[inline(always)]
fn pass_inserted(
    node: &Node,
    slot: Option<u32>,
    order: &Order,
    root: &Node,
    cur: &mut ReadCursor<'_>,
    draft: &mut Draft,
) -> bool
    requires ready { (k : ℕ) × (around : List ℕ) × (fs : Fields) × FieldsStand (grammar_of root.now) k (inserted [] (grammar_of node.now) slot fs) draft.old.slots.items around }
    requires named { ItemsNamed (grammar_of node.now) }
    requires fine { Fine (grammar_of root.now) draft.old.slots.items }
    requires order { order_spec.IsInsertedOrder (grammar_of node.now) order.now }
    ensures turn { result ≡ true → (here : Here) (k : ℕ) (name : List ℕ) (fs : Fields) (flags : List Bool) → Turn (grammar_of root.now) here cur.old.origin k (suc k) (inserted name (grammar_of node.now) slot fs) fs [] draft.old.slots.items draft.new.slots.items flags flags cur.old cur.new }
    ensures none { result ≡ true → Puts [] draft.old draft.new }
{
    match &node.body {
        Body::Num(leaf) => match pad(cur, node.align) {
            Ok(()) => match number(cur, leaf, &order.cut) {
                Some(x) => note(&mut draft.slots, slot, &x),
                None => false,
            },
            Err(_) => false,
        },
        _ => false,
    }
}

// Puts an array.
#[cycle(put)]
fn put_list(
    node: &Node,
    sizing: &Sizing,
    order: &Order,
    root: &Node,
    cur: &mut ReadCursor<'_>,
    draft: &mut Draft,
) -> bool
    requires ready { (k : ℕ) × (around : List ℕ) × FormStands (grammar_of root.now) k (list sizing.now (grammar_of node.now)) draft.old.slots.items around }
    requires named { ItemsNamed (grammar_of node.now) }
    requires fine { Fine (grammar_of root.now) draft.old.slots.items }
    requires order { order_spec.IsNodeOrder (grammar_of node.now) order.now }
    ensures put { result ≡ true → (d : Data) × FormRead (grammar_of root.now) (list sizing.now (grammar_of node.now)) d draft.old.slots.items draft.new.slots.items cur.old cur.new × Puts (compact_text (form_json (list sizing.now (grammar_of node.now)) d)) draft.old draft.new }
{
    if put_octet(b'[', &mut draft.text).is_err() {
        return false;
    }
    if is_ended(&sizing.rule) {
        if !put_elements(
            pattern_of(&sizing.rule),
            sizing,
            node,
            order,
            root,
            cur,
            draft,
        ) {
            return false;
        }
    } else {
        let Some(n) = size(cur, sizing, &draft.slots) else {
            return false;
        };
        if !put_run(n, node, order, root, cur, draft) {
            return false;
        }
    }
    put_octet(b']', &mut draft.text).is_ok()
}

// So many elements.
#[cycle(put)]
fn put_run(
    n: u64,
    node: &Node,
    order: &Order,
    root: &Node,
    cur: &mut ReadCursor<'_>,
    draft: &mut Draft,
) -> bool
    requires few { n ≤ MOST_SIZE }
    requires ready { (k : ℕ) × (around : List ℕ) × InnerStands (grammar_of root.now) k (grammar_of node.now) draft.old.slots.items around }
    requires named { ItemsNamed (grammar_of node.now) }
    requires fine { Fine (grammar_of root.now) draft.old.slots.items }
    requires order { order_spec.IsNodeOrder (grammar_of node.now) order.now }
    ensures put { result ≡ true → (ds : List Data) × (length ds ≡ n) × ((here : Here) → RunTurn (grammar_of root.now) here cur.old.origin (grammar_of node.now) 0 ds draft.old.slots.items draft.new.slots.items cur.old cur.new) × spec.PutsItems (grammar_of node.now) ds draft.old draft.new }
{
    for i in 0..n {
        if put_comma(i > 0, &mut draft.text).is_err() || !put_node(node, order, root, cur, draft) {
            return false;
        }
    }
    true
}

// Elements up to the pattern, which is passed.
#[cycle(put)]
fn put_elements(
    end: &Pattern,
    sizing: &Sizing,
    node: &Node,
    order: &Order,
    root: &Node,
    cur: &mut ReadCursor<'_>,
    draft: &mut Draft,
) -> bool
    requires ready { (k : ℕ) × (around : List ℕ) × InnerStands (grammar_of root.now) k (grammar_of node.now) draft.old.slots.items around }
    requires named { ItemsNamed (grammar_of node.now) }
    requires fine { Fine (grammar_of root.now) draft.old.slots.items }
    requires order { order_spec.IsNodeOrder (grammar_of node.now) order.now }
    ensures put { result ≡ true → (ds : List Data) × EndedRead (grammar_of root.now) false [] cur.old.origin (grammar_of node.now) end.now sizing.now ds draft.old.slots.items draft.new.slots.items cur.old cur.new × spec.PutsItems (grammar_of node.now) ds draft.old draft.new }
{
    let most = most_of(sizing);
    for i in 0..most {
        if stands(cur, end) {
            return pass_end(cur, end, sizing, i, false, 0).is_ok();
        }
        if put_comma(i > 0, &mut draft.text).is_err() || !put_node(node, order, root, cur, draft) {
            return false;
        }
    }
    stands(cur, end) && pass_end(cur, end, sizing, most, false, 0).is_ok()
}

// Puts the object of the alternative that is there.
#[cycle(put)]
fn put_choice(
    choice: &Choice,
    order: &Order,
    root: &Node,
    cur: &mut ReadCursor<'_>,
    draft: &mut Draft,
) -> bool
    requires ready { (k : ℕ) × (around : List ℕ) × FormStands (grammar_of root.now) k (form_of (Choice_body choice.now)) draft.old.slots.items around }
    requires named { FormItemsNamed (form_of (Choice_body choice.now)) }
    requires fine { Fine (grammar_of root.now) draft.old.slots.items }
    requires order { order_spec.IsFormOrder (form_of (Choice_body choice.now)) order.now }
    ensures put { result ≡ true → (d : Data) × FormRead (grammar_of root.now) (form_of (Choice_body choice.now)) d draft.old.slots.items draft.new.slots.items cur.old cur.new × Puts (compact_text (form_json (form_of (Choice_body choice.now)) d)) draft.old draft.new }
{
    let alternatives = choice.alternatives.items();
    match pick(
        cur,
        alternatives,
        &choice.rule,
        &draft.slots,
        root,
        false,
        0,
    ) {
        Ok(i) => put_alternative(alternatives, i, order.inside.items(), root, cur, draft),
        Err(_) => false,
    }
}

#[cycle(put)]
fn put_alternative(
    alternatives: &[Alternative],
    i: u32,
    orders: &[Order],
    root: &Node,
    cur: &mut ReadCursor<'_>,
    draft: &mut Draft,
) -> bool
    requires there { i < length alternatives.now }
    requires ready { (k : ℕ) × (around : List ℕ) × CasesStand (grammar_of root.now) k (alternatives_view alternatives.now) draft.old.slots.items around }
    requires named { AlternativesItemsNamed (alternatives_view alternatives.now) }
    requires fine { Fine (grammar_of root.now) draft.old.slots.items }
    requires orders { order_spec.AreAlternativeOrders (alternatives_view alternatives.now) orders.now }
    ensures put { result ≡ true → (d : Data) × ((g : Grammar) → grammar_at (alternatives_view alternatives.now) i ≡ Some g → NodeRead (grammar_of root.now) g d draft.old.slots.items draft.new.slots.items cur.old cur.new) × Puts (123 ∷ members_text false (alternative_json (alternatives_view alternatives.now) i d)) draft.old draft.new }
{
    match alternatives.get(i as usize) {
        Some(alternative) => {
            if put_octet(b'{', &mut draft.text).is_err()
                || put_key(alternative.name.bytes(), &mut draft.text).is_err()
                || !put_node(&alternative.node, &orders[i as usize], root, cur, draft)
            {
                return false;
            }
            put_octet(b'}', &mut draft.text).is_ok()
        }
        None => false,
    }
}

// Puts the value inside contents, whose octets are passed.
#[cycle(put)]
fn put_contained(
    node: &Node,
    sizing: &Sizing,
    order: &Order,
    root: &Node,
    cur: &mut ReadCursor<'_>,
    draft: &mut Draft,
) -> bool
    requires ready { (k : ℕ) × (around : List ℕ) × FormStands (grammar_of root.now) k (contained sizing.now (grammar_of node.now)) draft.old.slots.items around }
    requires named { ItemsNamed (grammar_of node.now) }
    requires fine { Fine (grammar_of root.now) draft.old.slots.items }
    requires order { order_spec.IsNodeOrder (grammar_of node.now) order.now }
    ensures put { result ≡ true → (d : Data) × FormRead (grammar_of root.now) (contained sizing.now (grammar_of node.now)) d draft.old.slots.items draft.new.slots.items cur.old cur.new × Puts (compact_text (json_of (grammar_of node.now) d)) draft.old draft.new }
{
    let Some(n) = size(cur, sizing, &draft.slots) else {
        return false;
    };
    match cur.window(8 * n) {
        Ok(window) => {
            let mut window = window;
            put_node(node, order, root, &mut window, draft) && window.left() < 8
        }
        Err(_) => false,
    }
}
