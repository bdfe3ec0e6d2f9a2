ghost use Rattle.std.specs.Prelude.{◌≡◌, ℕ, ◌<◌, ◌^◌, ℤ, ◌+ℤ◌, ◌-ℤ◌, IfSome, IfNone, IsTrue, ◌↔◌, MatchBool, true, length};
ghost use Rattle.acn_num.specs.Ranges.{In, has};
ghost use Rattle.acn_num.specs.Ranges as ranges;
ghost use Rattle.acn_grammar.specs.Code.{on_line, image_in, image_of, item_number};
ghost use Rattle.acn_grammar.specs.LeafFails.{NoneHas};
ghost use Rattle.acn_grammar.specs.Leaves.{all_differ, share};
ghost use Rattle.acn_ints.specs.Limits.{IsNear, AreNear, IsNearTable, IsApartTable};

use acn_grammar::NumLeaf;
use acn_num::{Name, RangeSet};

type Line = (i128, i128, i128);

/// So many lines of a table, or ranges of a set, are gone along, one by one.
const FEW: usize = 8;

/// An order of lines, by which one of them is looked for by halves.
#[derive(Clone, Copy)]
enum Order {
    RisingKeys,
    RisingImages,
    FallingImages,
}

/// Whether the number lies in the range.
fn is_in(range: &(i128, i128), x: &i128) -> bool
    ensures { result ≡ ranges.is_in x.now range.now }
{
    range.0 <= *x && *x <= range.1
}

/// Whether the number is a key of the line.
fn is_on(line: &Line, x: &i128) -> bool
    ensures { result ≡ on_line line.now x.now }
{
    line.0 <= *x && *x <= line.1
}

/// The number in the place of another one, counted from two ends.
pub fn moved(x: &i128, from: &i128, to: &i128) -> i128
    requires x { IsNear x.now }
    requires from { IsNear from.now }
    requires to { IsNear to.now }
    ensures { result ≡ to.now +ℤ (x.now -ℤ from.now) }
{
    *to + (*x - *from)
}

/// Whether a line stands before the one with this number, where lines are in this order.
fn is_before(order: Order, line: &Line, x: &i128) -> bool
    requires from { IsNear line.now.0 }
    requires last { IsNear line.now.1 }
    requires to { IsNear line.now.2 }
{
    match order {
        Order::RisingKeys => line.1 < *x,
        Order::RisingImages => moved(&line.1, &line.0, &line.2) < *x,
        Order::FallingImages => *x < line.2,
    }
}

/// The place of the first range that doesn't end before the number.
fn range_place(ranges: &[(i128, i128)], x: &i128) -> usize {
    let mut low = 0;
    let mut high = ranges.len();
    while low < high {
        let middle = low + (high - low) / 2;
        if ranges[middle].1 < *x {
            low = middle + 1;
        } else {
            high = middle;
        }
    }
    low
}

/// Whether the number is permitted. Among many ranges its own is looked for by halves first.
fn is_permitted(set: &RangeSet, x: &i128) -> bool
    ensures { result ≡ has set.now x.now }
{
    let ranges = set.ranges();
    if FEW < ranges.len() {
        let at = range_place(ranges, x);
        if at < ranges.len() && is_in(&ranges[at], x) {
            return true;
        }
    }
    set.holds(*x)
}

/// The place of the line with this number, where lines are in this order.
fn place_of(order: Order, lines: &[Line], x: &i128) -> usize
    requires { AreNear lines.now }
{
    let mut low = 0;
    let mut high = lines.len();
    while low < high {
        let middle = low + (high - low) / 2;
        if is_before(order, &lines[middle], x) {
            low = middle + 1;
        } else {
            high = middle;
        }
    }
    low
}

/// The image of a number, for which lines are gone along.
fn image_along(lines: &[Line], x: &i128) -> Option<i128>
    requires lines { AreNear lines.now }
    requires x { IsNear x.now }
    ensures { result ≡ image_in lines.now x.now }
{
    for line in lines {
        if is_on(line, x) {
            return Some(moved(x, &line.0, &line.2));
        }
    }
    None
}

/// The image of a number, whose line is looked for by halves first.
fn image_under(lines: &[Line], x: &i128) -> Option<i128>
    requires lines { AreNear lines.now }
    requires apart { all_differ share lines.now ≡ true }
    requires x { IsNear x.now }
    ensures { result ≡ image_in lines.now x.now }
{
    if FEW < lines.len() {
        let at = place_of(Order::RisingKeys, lines, x);
        if at < lines.len() && is_on(&lines[at], x) {
            return Some(moved(x, &lines[at].0, &lines[at].2));
        }
    }
    image_along(lines, x)
}

/// The order of images that rise or fall from line to line.
fn order_of_images(lines: &[Line]) -> Order {
    match (lines.first(), lines.last()) {
        (Some(first), Some(last)) if last.2 < first.2 => Order::FallingImages,
        _ => Order::RisingImages,
    }
}

/// The permitted number with this image under a table of many lines, if these are in order by their images.
fn key_by_halves(lines: &[Line], set: &RangeSet, image: &i128) -> Option<i128>
    requires lines { AreNear lines.now }
    requires apart { all_differ share lines.now ≡ true }
    requires image { IsNear image.now }
    ensures { IfSome result (λ x. In set.now x × (image_in lines.now x ≡ Some image.now)) }
{
    if lines.len() <= FEW {
        return None;
    }
    let at = place_of(order_of_images(lines), lines, image);
    if at < lines.len() {
        let x = moved(image, &lines[at].2, &lines[at].0);
        if is_key(lines, &lines[at], set, &x, image) {
            return Some(x);
        }
    }
    None
}

/// The permitted number with this image under a table, for which lines are gone along.
fn key_along(lines: &[Line], set: &RangeSet, image: &i128) -> Option<i128>
    requires lines { AreNear lines.now }
    requires apart { all_differ share lines.now ≡ true }
    requires image { IsNear image.now }
    ensures some { IfSome result (λ x. In set.now x × (image_in lines.now x ≡ Some image.now)) }
    ensures none { IfNone result ((x : ℤ) → In set.now x → image_in lines.now x ≡ Some image.now → ⊥) }
{
    for line in lines {
        let x = moved(image, &line.2, &line.0);
        if is_key(lines, line, set, &x, image) {
            return Some(x);
        }
    }
    None
}

/// The permitted number with this image under a table.
fn key_of(lines: &[Line], set: &RangeSet, image: &i128) -> Option<i128>
    requires lines { AreNear lines.now }
    requires apart { all_differ share lines.now ≡ true }
    requires image { IsNear image.now }
    ensures some { IfSome result (λ x. In set.now x × (image_in lines.now x ≡ Some image.now)) }
    ensures none { IfNone result ((x : ℤ) → In set.now x → image_in lines.now x ≡ Some image.now → ⊥) }
{
    match key_by_halves(lines, set, image) {
        Some(x) => Some(x),
        None => key_along(lines, set, image),
    }
}

/// Whether the number is a permitted key of the line, and has this image.
fn is_key(lines: &[Line], line: &Line, set: &RangeSet, x: &i128, image: &i128) -> bool
    requires lines { AreNear lines.now }
    requires apart { all_differ share lines.now ≡ true }
    requires from { IsNear line.now.0 }
    requires to { IsNear line.now.1 }
    ensures { MatchBool result (In set.now x.now × (image_in lines.now x.now ≡ Some image.now)) (on_line line.now x.now ≡ true → In set.now x.now → image_in lines.now x.now ≡ Some image.now → ⊥) }
{
    if is_on(line, x) {
        has_image(lines, x, image) && is_permitted(set, x)
    } else {
        false
    }
}

/// Whether a number has this image.
fn has_image(lines: &[Line], x: &i128, image: &i128) -> bool
    requires lines { AreNear lines.now }
    requires apart { all_differ share lines.now ≡ true }
    requires x { IsNear x.now }
    ensures { IsTrue result ↔ (image_in lines.now x.now ≡ Some image.now) }
{
    match image_under(lines, x) {
        Some(y) => y == *image,
        None => false,
    }
}

/// The permitted item with this number.
fn item_of(items: &[(Name, i128)], set: &RangeSet, image: &i128) -> Option<i128>
    ensures some { IfSome result (λ x. In set.now x × (item_number items.now x ≡ Some image.now)) }
    ensures none { IfNone result ((x : ℤ) → In set.now x → item_number items.now x ≡ Some image.now → ⊥) }
{
    for (i, item) in items.iter().enumerate() {
        if item.1 == *image && set.holds(i as i128) {
            return Some(i as i128);
        }
    }
    None
}

/// How many items there are.
pub fn item_count(items: &[(Name, i128)]) -> usize
    ensures count { result ≡ length items.now }
    ensures small { length items.now < 2 ^ 64 }
{
    items.len()
}

/// The permitted number that is written so.
pub fn number_of(leaf: &NumLeaf, image: &i128) -> Option<i128>
    requires table { IsNearTable leaf.now.table }
    requires apart { IsApartTable leaf.now.table }
    requires image { IsNear image.now }
    ensures some { IfSome result (λ x. In leaf.now.set x × (image_of leaf.now x ≡ Some image.now)) }
    ensures none { IfNone result (NoneHas leaf.now image.now) }
{
    if leaf.items.values {
        return item_of(leaf.items.items.items(), &leaf.set, image);
    }
    match &leaf.table {
        Some(table) => key_of(table.lines.items(), &leaf.set, image),
        None => {
            if is_permitted(&leaf.set, image) {
                Some(*image)
            } else {
                None
            }
        }
    }
}

/// The number of an item.
fn item_at(items: &[(Name, i128)], x: &i128) -> Option<i128>
    ensures { result ≡ item_number items.now x.now }
{
    if *x < 0 {
        return None;
    }
    if *x >= items.len() as i128 {
        return None;
    }
    Some(items[*x as usize].1)
}

/// What is written for a number.
pub fn image(leaf: &NumLeaf, x: &i128) -> Option<i128>
    requires table { IsNearTable leaf.now.table }
    requires apart { IsApartTable leaf.now.table }
    requires x { IsNear x.now }
    ensures { result ≡ image_of leaf.now x.now }
{
    if leaf.items.values {
        return item_at(leaf.items.items.items(), x);
    }
    match &leaf.table {
        Some(table) => image_under(table.lines.items(), x),
        None => Some(*x),
    }
}
