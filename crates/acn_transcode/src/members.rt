//! The members of an object, in their turn.

ghost use Rattle.std.specs.Prelude.{◌≡◌, ◌++◌, ◌∷◌, ℕ, List, Option, Some, None, IsTrue, IfSome, OnOk, OnErr, ◌+◌, ◌≤◌, length, take, drop, true, false};
ghost use Rattle.serde_json.specs.Data.{Members, no_members};
ghost use Rattle.serde_json.specs.Written.{comma_if, compact_text, members_text};
ghost use Rattle.acn_num.specs.Ranges.{In};
ghost use Rattle.acn_grammar.specs.Code.{NumberOf};
ghost use Rattle.acn_grammar.specs.Grammar.{Data, num, no_places};
ghost use Rattle.acn_grammar.specs.ItemsNamed.{FormItemsNamed};
ghost use Rattle.acn_grammar.specs.Leaves.{num_fine};
ghost use Rattle.acn_grammar.specs.View.{field_of, fields_view};
ghost use Rattle.acn_json.specs.Kept.{Kept};
ghost use Rattle.acn_json.specs.Lines.{num_json};
ghost use Rattle.acn_lines.specs.Keys.{IsShort, AreShort};
ghost use Rattle.acn_lines.specs.Order as order_spec;
ghost use Rattle.acn_lines.specs.declared.keys.TheConstants.{MOST_KEY};
ghost use Rattle.acn_reads.specs.Decoded.{placed};
ghost use Rattle.acn_transcode.specs.Puts as spec;

use crate::draft::{Part, Span};
use crate::leaves::{put_any_value, short_value};
use crate::short::{Short, put_over};
use acn_grammar::{Body, Field, NumLeaf};
use acn_json::{put, put_octet};
use acn_lines::{KEY_ROOM, ShortKey, Turn};
use acn_num::NoMemory;

// What stands at a span of a text.
fn cut_out<'a>(aside: &'a [u8], span: &Span) -> &'a [u8]
    requires rises { span.now.from ≤ span.now.to }
    requires within { span.now.to ≤ length aside.now }
    ensures { result.now ≡ spec.cut_out aside.now span.now }
{
    &aside[span.from..span.to]
}

// Puts a comma and a short key with its colon: all its octets at once, of which those that aren't
// meant are taken back.
#[inline(always)]
fn put_short_key(short: &ShortKey, text: &mut Vec<u8>) -> Result<(), NoMemory>
    requires few { short.now.count ≤ MOST_KEY }
    ensures added { OnOk result (text.new.items ≡ text.old.items ++ take short.now.count short.now.octets) }
    ensures kept { OnErr result (Kept text.old.items text.new.items) }
{
    put(&short.octets, text)?;
    text.truncate(text.len() - (KEY_ROOM - short.count));
    Ok(())
}

// Puts a comma, a short key with its colon, and a short value. Room for both is made once.
#[inline(always)]
fn put_both(key: &ShortKey, value: &Short, text: &mut Vec<u8>) -> Result<(), NoMemory>
    requires key { key.now.count ≤ MOST_KEY }
    requires value { value.now.count ≤ 8 }
    ensures added { OnOk result (text.new.items ≡ text.old.items ++ take key.now.count key.now.octets ++ take value.now.count value.now.octets) }
    ensures kept { OnErr result (Kept text.old.items text.new.items) }
{
    put(&key.octets, text)?;
    let at = text.len() - (KEY_ROOM - key.count);
    put_over(text.as_mut_slice(), at, &value.octets);
    text.truncate(at + value.count);
    Ok(())
}

// Puts a comma and a key with its colon, which may be of any length.
#[inline(never)]
fn put_any_key(key: &[u8], text: &mut Vec<u8>) -> Result<(), NoMemory>
    ensures added { OnOk result (text.new.items ≡ text.old.items ++ comma_if true ++ key.now) }
    ensures kept { OnErr result (Kept text.old.items text.new.items) }
{
    put_octet(b',', text)?;
    put(key, text)
}

// Puts a comma and the key of a turn with its colon.
#[inline(always)]
fn put_key_of(turn: &Turn, text: &mut Vec<u8>) -> Result<(), NoMemory>
    requires short { IsShort turn.now }
    ensures added { OnOk result (text.new.items ≡ text.old.items ++ comma_if true ++ turn.now.key) }
    ensures kept { OnErr result (Kept text.old.items text.new.items) }
{
    match &turn.short {
        Some(short) => put_short_key(short, text),
        None => put_any_key(turn.key.items(), text),
    }
}

// Puts the key of a turn, behind a comma, and its value.
fn put_pair(turn: &Turn, value: &[u8], text: &mut Vec<u8>) -> Result<(), NoMemory>
    requires short { IsShort turn.now }
    ensures added { OnOk result (text.new.items ≡ text.old.items ++ comma_if true ++ turn.now.key ++ value.now) }
    ensures kept { OnErr result (Kept text.old.items text.new.items) }
{
    put_key_of(turn, text)?;
    put(value, text)
}

// Puts the key of a turn, behind a comma, and the value of a leaf's number.
#[inline(always)]
fn put_keyed(turn: &Turn, leaf: &NumLeaf, x: &i128, text: &mut Vec<u8>) -> Result<(), NoMemory>
    requires short { IsShort turn.now }
    requires fine { IsTrue (num_fine leaf.now) }
    requires named { FormItemsNamed (num leaf.now) }
    requires permitted { In leaf.now.set x.now }
    ensures added { OnOk result ((d : Data) × NumberOf leaf.now.kind d x.now × (text.new.items ≡ text.old.items ++ comma_if true ++ turn.now.key ++ compact_text (num_json leaf.now.kind leaf.now.items.items d))) }
    ensures kept { OnErr result (Kept text.old.items text.new.items) }
{
    let value = short_value(leaf, x);
    match (&turn.short, value) {
        (Some(key), Some(value)) => put_both(key, &value, text),
        (_, _) => {
            put_key_of(turn, text)?;
            put_any_value(leaf, x, text)
        }
    }
}

// Puts the key of a turn, behind a comma, and the value of its field's number.
#[tactic(auto, using(crate::proofs::Keeping::kept_same))]
#[inline(always)]
fn put_numbered(turn: &Turn, field: &Field, x: &i128, text: &mut Vec<u8>) -> bool
    requires short { IsShort turn.now }
    requires number { (d : Data) × spec.IsFieldNumber (field_of field.now) x.now d }
    ensures put { result ≡ true → (d : Data) → spec.IsFieldNumber (field_of field.now) x.now d → text.new.items ≡ text.old.items ++ comma_if true ++ turn.now.key ++ compact_text (order_spec.field_json (field_of field.now) d) }
    ensures kept { Kept text.old.items text.new.items }
{
    match field {
        Field::Component { node, .. } => match &node.body {
            Body::Num(leaf) => put_keyed(turn, leaf, x, text).is_ok(),
            _ => false,
        },
        Field::Inserted { .. } => false,
    }
}

// Puts the member of a turn behind a comma, if it is there. The answer says whether all was put.
#[tactic(auto, using(crate::proofs::Keeping::kept_same))]
#[inline(always)]
fn put_member(
    turn: &Turn,
    fields: &[Field],
    parts: &[Part],
    aside: &[u8],
    text: &mut Vec<u8>,
) -> bool
    requires short { IsShort turn.now }
    requires laid { (ds : List (Option Data)) × spec.AreLaid aside.now (fields_view fields.now) parts.now ds × order_spec.HasKey (order_spec.field_at (fields_view fields.now) turn.now.field) turn.now.key × (turn.now.place ≡ order_spec.place_of (fields_view fields.now) turn.now.field) }
    ensures put { result ≡ true → (ds : List (Option Data)) → spec.AreLaid aside.now (fields_view fields.now) parts.now ds → order_spec.HasKey (order_spec.field_at (fields_view fields.now) turn.now.field) turn.now.key → turn.now.place ≡ order_spec.place_of (fields_view fields.now) turn.now.field → (ms : Members) → text.new.items ++ members_text true ms ≡ text.old.items ++ members_text true (order_spec.member_at (order_spec.field_at (fields_view fields.now) turn.now.field) (order_spec.place_at (placed ds no_places) turn.now.place) ms) }
    ensures kept { Kept text.old.items text.new.items }
{
    match parts.get(turn.place) {
        Some(Part::Text(span)) => put_pair(turn, cut_out(aside, span), text).is_ok(),
        Some(Part::Number(x)) => match fields.get(turn.field) {
            Some(field) => put_numbered(turn, field, x, text),
            None => false,
        },
        Some(Part::Away) => true,
        None => false,
    }
}

// Makes an object of the members that stand behind a mark, each behind a comma.
fn enclose(mark: usize, text: &mut Vec<u8>) -> bool
    requires { mark ≤ length text.old.items }
    ensures put { result ≡ true → (old : List ℕ) (ms : Members) → mark ≡ length old → text.old.items ++ members_text true no_members ≡ old ++ members_text true ms → text.new.items ≡ old ++ 123 ∷ members_text false ms }
    ensures kept { result ≡ false → (old : List ℕ) → mark ≡ length old → Kept old text.old.items → Kept old text.new.items }
{
    if mark == text.len() {
        return put(b"{}", text).is_ok();
    }
    text[mark] = b'{';
    put_octet(b'}', text).is_ok()
}

/// Puts the object of these turns, of whose components these parts are kept and whose texts stand
/// aside. Where that fails, what stood in the text still stands in front.
#[tactic(auto, using(crate::proofs::Keeping::kept_same, crate::proofs::Keeping::kept_twice))]
#[inline(always)]
pub fn put_members(
    turns: &[Turn],
    fields: &[Field],
    parts: &[Part],
    aside: &[u8],
    text: &mut Vec<u8>,
) -> bool
    requires short { AreShort turns.now }
    requires laid { (ds : List (Option Data)) × spec.AreLaid aside.now (fields_view fields.now) parts.now ds × order_spec.AreKeyed (fields_view fields.now) turns.now × order_spec.ArePlaced (fields_view fields.now) turns.now }
    ensures put { result ≡ true → (ds : List (Option Data)) → spec.AreLaid aside.now (fields_view fields.now) parts.now ds → order_spec.AreKeyed (fields_view fields.now) turns.now → order_spec.ArePlaced (fields_view fields.now) turns.now → text.new.items ≡ text.old.items ++ 123 ∷ members_text false (order_spec.in_order (fields_view fields.now) turns.now (placed ds no_places)) }
    ensures kept { result ≡ false → Kept text.old.items text.new.items }
{
    let mark = text.len();
    for turn in turns {
        if !put_member(turn, fields, parts, aside, text) {
            return false;
        }
    }
    enclose(mark, text)
}
