ghost use Rattle.std.specs.Prelude.{◌≡◌, nat_eq, ◌&&◌, ◌<◌, true, Some, ◌-◌, map, pos, length};
ghost use Rattle.std.specs.List.{flat_map, list_all, list_any};
ghost use Rattle.acn_num.specs.Ranges.{count};
ghost use Rattle.std.specs.Ordering.{int_eq};
ghost use Rattle.acn_grammar.specs.Asks.{same_name};
ghost use Rattle.acn_grammar.specs.Images as images;
ghost use Rattle.acn_grammar.specs.Leaves as leaves;

use crate::item_blocks::{item_names_differ, item_numbers_differ};
use crate::number_rules::{
    begins_below_zero, can_be_little, can_write, coding_fine, has_size, is_number, is_range,
    is_signed_text, takes,
};
use crate::size_rules::{apart, in_order};
use crate::table_rules::{ends, image_ends, lines_map, widen};
use acn_grammar::{Items, NumCoding, NumKind, NumLeaf, Table};
use acn_num::{Name, RangeSet};

/// Whether the two names are the same.
pub fn same_text(a: &[u8], b: &[u8]) -> bool
    ensures { result ≡ same_name a.now b.now }
{
    a == b
}

fn no_items(items: &Items) -> bool
    ensures { result ≡ leaves.no_items items.now }
{
    items.items.items().is_empty() && !items.values
}

// Whether the greatest number of an INTEGER is one that the coding can have.
fn is_below(coding: &NumCoding, low: &i128, high: &i128) -> bool
    ensures { result ≡ leaves.is_below coding.now low.now high.now }
{
    match coding {
        NumCoding::CountedSigned => *high < 1 << 63,
        _ => *high < 1 << 63 || (0 <= *low && *high < 1 << 64),
    }
}

fn integer_set_fine(coding: &NumCoding, set: &RangeSet) -> bool
    ensures { result ≡ leaves.integer_set_fine coding.now (images.ends set.now) }
{
    match ends(set.ranges()) {
        Some((low, high)) => -(1i128 << 63) <= low && is_below(coding, &low, &high),
        None => false,
    }
}

fn enumerated_set_fine(leaf: &NumLeaf) -> bool
    requires { 0 < length leaf.now.items.items }
    ensures { result ≡ (leaves.is_range (pos 0) (pos (length leaf.now.items.items - 1)) leaf.now.set && leaves.items_fine leaf.now.coding leaf.now.items) }
{
    let items = leaf.items.items.items();
    is_range(&0, &((items.len() - 1) as i128), &leaf.set)
        && item_names_differ(items)
        && item_numbers_differ(items)
}

// Whether items and set are ones that the kind can have.
fn set_fine(leaf: &NumLeaf) -> bool
    ensures { result ≡ leaves.set_fine leaf.now.kind leaf.now.coding leaf.now.items leaf.now.table leaf.now.set }
{
    match leaf.kind {
        NumKind::Integer => {
            in_order(&leaf.set)
                && integer_set_fine(&leaf.coding, &leaf.set)
                && no_items(&leaf.items)
        }
        NumKind::Boolean => is_range(&0, &1, &leaf.set) && no_items(&leaf.items),
        NumKind::Null => is_range(&0, &0, &leaf.set) && no_items(&leaf.items),
        NumKind::Enumerated => {
            if leaf.items.items.items().is_empty() {
                false
            } else {
                enumerated_set_fine(leaf)
            }
        }
    }
}

fn only_integer(kind: NumKind, table: &Option<Table>) -> bool
    ensures { result ≡ leaves.only_integer kind table.now }
{
    match (kind, table) {
        (NumKind::Integer, _) => true,
        (_, None) => true,
        (_, Some(_)) => false,
    }
}

// Whether the coding can have a table of these lines.
fn table_lines_fine(coding: &NumCoding, set: &RangeSet, lines: &[(i128, i128, i128)]) -> bool
    ensures { result ≡ (leaves.has_size coding.now && (list_all leaves.line_fine lines.now && (leaves.all_differ leaves.share lines.now && nat_eq (count (flat_map (λ r. flat_map (images.clipped r) lines.now) set.now)) (count set.now)))) }
{
    has_size(coding) && lines_map(set, lines)
}

fn table_fine(coding: &NumCoding, set: &RangeSet, table: &Option<Table>) -> bool
    ensures { result ≡ leaves.table_fine coding.now set.now table.now }
{
    match table {
        None => true,
        Some(table) => table_lines_fine(coding, set, table.lines.items()),
    }
}

// The least and the greatest number of the items.
fn item_ends(items: &[(Name, i128)]) -> Option<(i128, i128)>
    ensures { result ≡ images.ends (map (λ named. (named.1, named.1)) items.now) }
{
    let mut wide = None;
    for item in items {
        wide = widen(&wide, &item.1, &item.1);
    }
    wide
}

// The least and the greatest number that the leaf writes.
fn written_ends(leaf: &NumLeaf) -> Option<(i128, i128)>
    requires { leaves.table_fine leaf.now.coding leaf.now.set leaf.now.table ≡ true }
    ensures { result ≡ images.written_ends leaf.now }
{
    if leaf.items.values {
        return item_ends(leaf.items.items.items());
    }
    match &leaf.table {
        None => ends(leaf.set.ranges()),
        Some(table) => image_ends(leaf.set.ranges(), table.lines.items()),
    }
}

fn values_fine(values: bool, coding: &NumCoding, low: &i128, high: &i128) -> bool
    ensures { result ≡ leaves.values_fine values coding.now (Some (low.now, high.now)) }
{
    match coding {
        NumCoding::Range { .. } => {
            !values || (is_number(low) && is_number(high) && apart(low, high) < 1 << 64)
        }
        _ => true,
    }
}

// Whether the coding can write the numbers that the leaf writes.
fn written_fine(leaf: &NumLeaf) -> bool
    requires coding { leaves.coding_fine leaf.now.coding ≡ true }
    requires table { leaves.table_fine leaf.now.coding leaf.now.set leaf.now.table ≡ true }
    ensures { result ≡ (leaves.values_fine leaf.now.items.values leaf.now.coding (images.written_ends leaf.now) && leaves.can_write_all leaf.now.coding (images.written_ends leaf.now)) }
{
    match written_ends(leaf) {
        Some((low, high)) => {
            values_fine(leaf.items.values, &leaf.coding, &low, &high)
                && can_write(&leaf.coding, &low, &high)
        }
        None => false,
    }
}

// Whether kind, coding, widths and patterns go together.
fn coded_fine(leaf: &NumLeaf) -> bool
    ensures { result ≡ (leaves.takes leaf.now.kind leaf.now.coding && (leaves.coding_fine leaf.now.coding && (leaves.implies leaf.now.little (leaves.can_be_little leaf.now.coding) && leaves.implies (leaves.is_signed_text leaf.now.coding) (leaves.begins_below_zero leaf.now.set)))) }
{
    takes(leaf.kind, &leaf.coding)
        && coding_fine(&leaf.coding)
        && (!leaf.little || can_be_little(&leaf.coding))
        && (!is_signed_text(&leaf.coding) || begins_below_zero(&leaf.set))
}

// Whether set, items and table are ones that kind and coding can have.
fn numbers_fine(leaf: &NumLeaf) -> bool
    ensures { result ≡ (leaves.set_fine leaf.now.kind leaf.now.coding leaf.now.items leaf.now.table leaf.now.set && (leaves.only_integer leaf.now.kind leaf.now.table && leaves.table_fine leaf.now.coding leaf.now.set leaf.now.table)) }
{
    set_fine(leaf)
        && only_integer(leaf.kind, &leaf.table)
        && table_fine(&leaf.coding, &leaf.set, &leaf.table)
}

/// Whether the leaf of a number is well formed.
pub fn num_fine(leaf: &NumLeaf) -> bool
    ensures { result ≡ leaves.num_fine leaf.now }
{
    if coded_fine(leaf) {
        if numbers_fine(leaf) {
            written_fine(leaf)
        } else {
            false
        }
    } else {
        false
    }
}
