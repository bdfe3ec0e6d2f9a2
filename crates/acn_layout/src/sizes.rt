//! Sizes, and nodes with parts.

ghost use Rattle.std.specs.Prelude.{◌≡◌, [], ◌∷◌, ◌++◌, Some, codes};
ghost use Rattle.std.specs.Fmt.{decimal};
ghost use Rattle.std.specs.List.{concat};
ghost use Rattle.std.specs.Ordering.{int_eq};
ghost use Rattle.acn_num.specs.Ranges.{least as least_of, greatest as greatest_of};
ghost use Rattle.acn_report.specs.Digits.{hex_text};
ghost use Rattle.acn_report.specs.Slots.{slot_names};
ghost use Rattle.acn_grammar.specs.View.{form_of, fields_view};
ghost use Rattle.acn_layout.specs.Codings.{characters_text, choice_text, extent_text, fields_text, form_text, rule_text, sizes_text, sizing_text, width_text};
ghost use Rattle.acn_print.specs.Printing.{Prints};
ghost use Rattle.acn_tree.specs.Room.{field_count};

use crate::coding::{put_leaf, put_pattern, put_width};
use acn_num::RangeSet;
use acn_outside::{Failed, Sink};
use acn_print::{Piece, put_piece};
use acn_report::{Part, put_parts};
use acn_tree::{Body, ChoiceRule, Field, Pattern, SizeRule, Sizing, TextLeaf, Tree};

fn is_same(low: &i128, high: &i128) -> bool
    ensures { result ≡ int_eq low.now high.now }
{
    *low == *high
}

fn put_between<'a, O: Sink>(out: &mut O, low: &'a i128, high: &'a i128) -> Result<(), Failed>
    ensures { Prints (sizes_text (Some low.now) (Some high.now)) (O.taken out.old, O.faults out.old) (O.taken out.new, O.faults out.new) result }
{
    if is_same(low, high) {
        return put_parts(out, &[Part::Number(low)]);
    }
    put_parts(
        out,
        &[Part::Number(low), Part::Text(".."), Part::Number(high)],
    )
}

// One size, or the least and the greatest.
fn put_sizes<'a, O: Sink>(
    out: &mut O,
    least: &'a Option<i128>,
    greatest: &'a Option<i128>,
) -> Result<(), Failed>
    ensures { Prints (sizes_text least.now greatest.now) (O.taken out.old, O.faults out.old) (O.taken out.new, O.faults out.new) result }
{
    match least {
        Some(low) => match greatest {
            Some(high) => put_between(out, low, high),
            None => put_piece(out, &Piece::Text("-")),
        },
        None => put_piece(out, &Piece::Text("-")),
    }
}

fn put_prefix<O: Sink>(out: &mut O, sizes: &RangeSet) -> Result<(), Failed>
    ensures { Prints (codes "size " ++ sizes_text (least_of sizes.now) (greatest_of sizes.now)) (O.taken out.old, O.faults out.old) (O.taken out.new, O.faults out.new) result }
{
    let least = sizes.least();
    let greatest = sizes.greatest();
    put_piece(out, &Piece::Text("size "))?;
    put_sizes(out, &least, &greatest)
}

fn put_sizing<'a, O: Sink>(out: &mut O, tree: &'a Tree, sizing: &'a Sizing) -> Result<(), Failed>
    ensures { Prints (sizing_text tree.now sizing.now) (O.taken out.old, O.faults out.old) (O.taken out.new, O.faults out.new) result }
{
    match &sizing.rule {
        SizeRule::Prefix { .. } => put_prefix(out, &sizing.sizes),
        SizeRule::Slot(slot) => put_slot(out, tree, "size ", *slot),
        SizeRule::Ended(pattern) => put_pattern(out, "ended ", pattern),
    }
}

// The determinant behind a word.
fn put_slot<'a, O: Sink>(
    out: &mut O,
    tree: &'a Tree,
    word: &'a str,
    slot: u32,
) -> Result<(), Failed>
    ensures { Prints (concat (word.now ∷ slot_names tree.now slot ∷ [])) (O.taken out.old, O.faults out.old) (O.taken out.new, O.faults out.new) result }
{
    put_parts(out, &[Part::Text(word), Part::SlotNames(tree, slot)])
}

fn put_terminator<'a, O: Sink>(out: &mut O, end: &'a Pattern) -> Result<(), Failed>
    ensures { Prints (concat (codes "ended " ∷ hex_text end.now ∷ [])) (O.taken out.old, O.faults out.old) (O.taken out.new, O.faults out.new) result }
{
    put_parts(out, &[Part::Text("ended "), Part::Hex(end.bits())])
}

// The sizes of a text, or its terminator.
fn put_extent<'a, O: Sink>(
    out: &mut O,
    tree: &'a Tree,
    sized: &'a Sizing,
    ended: &'a Option<Pattern>,
) -> Result<(), Failed>
    ensures { Prints (extent_text tree.now sized.now ended.now) (O.taken out.old, O.faults out.old) (O.taken out.new, O.faults out.new) result }
{
    match ended {
        Some(end) => put_terminator(out, end),
        None => put_sizing(out, tree, sized),
    }
}

fn put_characters<'a, O: Sink>(
    out: &mut O,
    tree: &'a Tree,
    leaf: &'a TextLeaf,
) -> Result<(), Failed>
    ensures { Prints (characters_text tree.now leaf.now) (O.taken out.old, O.faults out.old) (O.taken out.new, O.faults out.new) result }
{
    put_extent(out, tree, &leaf.sized, &leaf.ended)?;
    put_width(out, " chars ", leaf.width)
}

// How many fields there are, inserted ones included.
fn put_fields<O: Sink>(out: &mut O, fields: &[Field]) -> Result<(), Failed>
    ensures { Prints (fields_text (field_count (fields_view fields.now))) (O.taken out.old, O.faults out.old) (O.taken out.new, O.faults out.new) result }
{
    put_parts(
        out,
        &[Part::Text("fields "), Part::Count(fields.len() as u64)],
    )
}

fn put_choice<'a, O: Sink>(out: &mut O, tree: &'a Tree, rule: ChoiceRule) -> Result<(), Failed>
    ensures { Prints (choice_text tree.now rule) (O.taken out.old, O.faults out.old) (O.taken out.new, O.faults out.new) result }
{
    match rule {
        ChoiceRule::Index(width) => put_width(out, "index ", width),
        ChoiceRule::Tests => put_piece(out, &Piece::Text("conditions")),
        ChoiceRule::Item(slot) => put_slot(out, tree, "item ", slot),
    }
}

/// Prints how a node is written in bits.
pub fn put_form<'a, O: Sink>(out: &mut O, tree: &'a Tree, body: &'a Body) -> Result<(), Failed>
    ensures { Prints (form_text tree.now (form_of body.now)) (O.taken out.old, O.faults out.old) (O.taken out.new, O.faults out.new) result }
{
    match body {
        Body::Num(leaf) => put_leaf(out, leaf),
        Body::Octets(sizing) => put_sizing(out, tree, sizing),
        Body::Bits(sizing) => put_sizing(out, tree, sizing),
        Body::Text(leaf) => put_characters(out, tree, leaf),
        Body::Seq(seq) => put_fields(out, seq.fields.items()),
        Body::List(sizing, _) => put_sizing(out, tree, sizing),
        Body::Choice(choice) => put_choice(out, tree, choice.rule),
        Body::Contained(sizing, _) => put_sizing(out, tree, sizing),
    }
}
