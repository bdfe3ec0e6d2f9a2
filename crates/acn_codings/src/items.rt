ghost use Rattle.std.specs.Prelude.{◌≡◌, ◌≤ℤ◌, ◌<◌, IfOk, IfSome, length, pos};
ghost use Rattle.acn_num.specs.Ranges.{top};
ghost use Rattle.acn_codings.specs.Drawing as drawing;
ghost use Rattle.acn_codings.specs.Items as spec;

use crate::drawing::{Undrawn, draw};
use acn_asn_syntax::Item;
use acn_num::{NoMemory, RangeSet, Row, TOP, greater};
use acn_set_elements::signed;
use std::alloc::Global;

// The number that an item has written.
fn written(item: &Item) -> Option<i128>
    ensures is { result ≡ spec.written item.now }
    ensures small { IfSome result (λ x. x ≤ℤ top) }
{
    match item.number {
        None => None,
        Some((negative, digits)) => Some(signed(negative, digits)),
    }
}

// The number that an item has written alone, where it is one from 0.
fn alone(alloc: Global, item: &Item) -> Result<RangeSet, NoMemory>
    ensures { IfOk result (λ s. s ≡ spec.alone (spec.written item.now)) }
{
    match written(item) {
        None => Ok(RangeSet::empty(alloc)),
        Some(x) => RangeSet::between(alloc, *greater(&0, &x), x),
    }
}

// The whole numbers from 0 that no item has written.
#[tactic(auto, unfolding(crate::specs::Items::free))]
fn free(alloc: Global, items: &[Item]) -> Result<RangeSet, NoMemory>
    ensures { IfOk result (λ s. s ≡ spec.free items.now) }
{
    let mut used = Vec::new(alloc);
    for item in items {
        used.push(alone(alloc, item)?)?;
    }
    let used = RangeSet::empty(alloc).union_all(alloc, &used)?;
    RangeSet::one(alloc, 0, TOP)?.except(alloc, &used)
}

// The number of an item: the one that it has written, or else the next of those that are drawn.
fn number_of<'s>(unused: Undrawn<'s>, written: Option<i128>) -> (i128, Undrawn<'s>)
    ensures number { result.0 ≡ drawing.number_drawn (drawing.undrawn_view unused.entry) written }
    ensures left { drawing.undrawn_view result.1 ≡ drawing.left_behind (drawing.undrawn_view unused.entry) written }
{
    match written {
        None => draw(unused),
        Some(x) => (x, unused),
    }
}

// The number of each item, where those without one draw theirs.
fn numbers_drawn(
    alloc: Global,
    unused: &[(i128, i128)],
    items: &[Item],
) -> Result<Row<i128>, NoMemory>
    ensures { IfOk result (λ xs. xs ≡ drawing.numbers_drawn unused.now items.now) }
{
    let mut left = Undrawn {
        begun: None,
        behind: unused,
    };
    let mut numbers = Row::new(alloc);
    for item in items {
        let (number, behind) = number_of(left, written(item));
        numbers.push(number)?;
        left = behind;
    }
    Ok(numbers)
}

/// The number of each item of an enumeration: items without one take, in the order of the text, the least whole numbers
/// from 0 that no item has written. (X.680, 20.3.)
#[tactic(auto, using(crate::proofs::Drawn::all_drawn))]
pub fn numbers_of(alloc: Global, items: &[Item]) -> Result<Row<i128>, NoMemory>
    ensures { IfOk result (λ xs. xs ≡ spec.numbers_of items.now) }
{
    let unused = free(alloc, items)?;
    numbers_drawn(alloc, unused.ranges(), items)
}
