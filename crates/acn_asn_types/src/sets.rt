//! Sets. The depth is how many sets there may still be in one another.

ghost use Rattle.std.specs.Prelude.{◌≡◌};
ghost use Rattle.acn_cursor.specs.Steps.{Reads, many, ReadsFreely};
ghost use Rattle.acn_asn_types.specs.Sets as spec;

use crate::values::value;
use acn_asn_syntax::{AsnRange, AsnValue, Element, Meet, Part, Set};
use acn_cursor::{Cursor, Stop};
use acn_lex::Kind;
use acn_num::{Boxed, Row};
use std::alloc::Global;

#[tactic(auto, unfolding(crate::specs::Sets::end))]
fn end(alloc: Global, cursor: &mut Cursor<'_>, none: &[u8]) -> Result<Option<AsnValue>, Stop>
    ensures { Reads (spec.end none.now cursor.old) result cursor.new }
{
    if cursor.eat(Kind::Word, none) {
        return Ok(None);
    }
    Ok(Some(value(alloc, cursor)?))
}

#[tactic(auto, unfolding(crate::specs::Sets::range_from))]
fn range_from(
    alloc: Global,
    cursor: &mut Cursor<'_>,
    low: Option<AsnValue>,
    low_out: bool,
) -> Result<Element, Stop>
    ensures { Reads (spec.range_from low low_out cursor.old) result cursor.new }
{
    let high_out = cursor.eat(Kind::Mark, b"<");
    let high = end(alloc, cursor, b"MAX")?;
    Ok(Element::Range(AsnRange {
        low,
        low_out,
        high,
        high_out,
    }))
}

/// A value or a range.
#[tactic(auto, unfolding(crate::specs::Sets::plain))]
fn plain(alloc: Global, cursor: &mut Cursor<'_>) -> Result<Element, Stop>
    ensures { Reads (spec.plain cursor.old) result cursor.new }
{
    let low = end(alloc, cursor, b"MIN")?;
    let low_out = cursor.eat(Kind::Mark, b"<");
    if cursor.eat(Kind::Mark, b"..") {
        return range_from(alloc, cursor, low, low_out);
    }
    match low {
        Some(value) => {
            if low_out {
                Err(cursor.refuse())
            } else {
                Ok(Element::Value(value))
            }
        }
        None => Err(cursor.refuse()),
    }
}

/// The mark between two parts, and whether it is a word.
#[tactic(auto, unfolding(crate::specs::Sets::mark_at))]
fn mark_at(cursor: &mut Cursor<'_>, sign: &[u8], written: &[u8]) -> Result<bool, Stop>
    ensures { ReadsFreely (spec.mark_at sign.now written.now cursor.old) result cursor.new }
{
    if cursor.eat(Kind::Word, written) {
        return Ok(true);
    }
    cursor.expect(Kind::Mark, sign)?;
    Ok(false)
}

fn has_mark(cursor: &Cursor<'_>, sign: &[u8], written: &[u8]) -> bool
    ensures { result ≡ spec.has_mark sign.now written.now cursor.now }
{
    cursor.sees(Kind::Word, written) || cursor.sees(Kind::Mark, sign)
}

#[tactic(auto, unfolding(crate::specs::Sets::part_mark))]
fn part_mark(cursor: &mut Cursor<'_>) -> Result<bool, Stop>
    ensures { ReadsFreely (spec.part_mark cursor.old) result cursor.new }
{
    mark_at(cursor, b"^", b"INTERSECTION")
}

#[tactic(auto, unfolding(crate::specs::Sets::has_part_mark))]
fn has_part_mark(cursor: &Cursor<'_>) -> bool
    ensures { result ≡ spec.has_part_mark cursor.now }
{
    has_mark(cursor, b"^", b"INTERSECTION")
}

#[tactic(auto, unfolding(crate::specs::Sets::meet_mark))]
fn meet_mark(cursor: &mut Cursor<'_>) -> Result<bool, Stop>
    ensures { ReadsFreely (spec.meet_mark cursor.old) result cursor.new }
{
    mark_at(cursor, b"|", b"UNION")
}

#[tactic(auto, unfolding(crate::specs::Sets::has_meet_mark))]
fn has_meet_mark(cursor: &Cursor<'_>) -> bool
    ensures { result ≡ spec.has_meet_mark cursor.now }
{
    has_mark(cursor, b"|", b"UNION")
}

#[cycle(sets)]
pub fn set(alloc: Global, depth: usize, cursor: &mut Cursor<'_>) -> Result<Set, Stop>
    ensures { Reads (spec.set_at depth cursor.old) result cursor.new }
{
    if depth == 0 {
        return Err(cursor.refuse());
    }
    set_in(alloc, depth - 1, cursor)
}

#[cycle(sets)]
#[tactic(auto, unfolding(crate::specs::Sets::set_in))]
fn set_in(alloc: Global, depth: usize, cursor: &mut Cursor<'_>) -> Result<Set, Stop>
    ensures { Reads (spec.set_in (spec.set_at depth) cursor.old) result cursor.new }
{
    if cursor.eat(Kind::Word, b"ALL") {
        all_except(alloc, depth, cursor)
    } else {
        union(alloc, depth, cursor)
    }
}

#[cycle(sets)]
#[tactic(auto, unfolding(crate::specs::Sets::all_except))]
fn all_except(alloc: Global, depth: usize, cursor: &mut Cursor<'_>) -> Result<Set, Stop>
    ensures { Reads (spec.all_except (spec.set_at depth) cursor.old) result cursor.new }
{
    cursor.expect(Kind::Word, b"EXCEPT")?;
    let element = element(alloc, depth, cursor)?;
    Ok(Set::AllExcept(element))
}

#[cycle(sets)]
#[tactic(auto, unfolding(crate::specs::Sets::union))]
fn union(alloc: Global, depth: usize, cursor: &mut Cursor<'_>) -> Result<Set, Stop>
    ensures { Reads (spec.union (spec.set_at depth) cursor.old) result cursor.new }
{
    let first = meet(alloc, depth, cursor)?;
    let more = more_meets(alloc, depth, cursor)?;
    Ok(Set::Union(first, more))
}

#[cycle(sets)]
fn more_meets(
    alloc: Global,
    depth: usize,
    cursor: &mut Cursor<'_>,
) -> Result<Row<(bool, Meet)>, Stop>
    ensures { Reads (many spec.has_meet_mark (spec.next_meet (spec.set_at depth)) cursor.old) result cursor.new }
{
    let mut meets = Row::new(alloc);
    for _ in 0..cursor.left() {
        if !has_meet_mark(cursor) {
            return Ok(meets);
        }
        let next = next_meet(alloc, depth, cursor)?;
        meets.push(next)?;
    }
    Ok(meets)
}

#[cycle(sets)]
#[tactic(auto, unfolding(crate::specs::Sets::next_meet))]
fn next_meet(alloc: Global, depth: usize, cursor: &mut Cursor<'_>) -> Result<(bool, Meet), Stop>
    ensures { Reads (spec.next_meet (spec.set_at depth) cursor.old) result cursor.new }
{
    let is_word = meet_mark(cursor)?;
    let meet = meet(alloc, depth, cursor)?;
    Ok((is_word, meet))
}

#[cycle(sets)]
#[tactic(auto, unfolding(crate::specs::Sets::meet))]
fn meet(alloc: Global, depth: usize, cursor: &mut Cursor<'_>) -> Result<Meet, Stop>
    ensures { Reads (spec.meet (spec.set_at depth) cursor.old) result cursor.new }
{
    let first = part(alloc, depth, cursor)?;
    let more = more_parts(alloc, depth, cursor)?;
    Ok(Meet { first, more })
}

#[cycle(sets)]
fn more_parts(
    alloc: Global,
    depth: usize,
    cursor: &mut Cursor<'_>,
) -> Result<Row<(bool, Part)>, Stop>
    ensures { Reads (many spec.has_part_mark (spec.next_part (spec.set_at depth)) cursor.old) result cursor.new }
{
    let mut parts = Row::new(alloc);
    for _ in 0..cursor.left() {
        if !has_part_mark(cursor) {
            return Ok(parts);
        }
        let next = next_part(alloc, depth, cursor)?;
        parts.push(next)?;
    }
    Ok(parts)
}

#[cycle(sets)]
#[tactic(auto, unfolding(crate::specs::Sets::next_part))]
fn next_part(alloc: Global, depth: usize, cursor: &mut Cursor<'_>) -> Result<(bool, Part), Stop>
    ensures { Reads (spec.next_part (spec.set_at depth) cursor.old) result cursor.new }
{
    let is_word = part_mark(cursor)?;
    let part = part(alloc, depth, cursor)?;
    Ok((is_word, part))
}

#[cycle(sets)]
#[tactic(auto, unfolding(crate::specs::Sets::part))]
fn part(alloc: Global, depth: usize, cursor: &mut Cursor<'_>) -> Result<Part, Stop>
    ensures { Reads (spec.part (spec.set_at depth) cursor.old) result cursor.new }
{
    let element = element(alloc, depth, cursor)?;
    let but = but(alloc, depth, cursor)?;
    Ok(Part { element, but })
}

#[cycle(sets)]
#[tactic(auto, unfolding(crate::specs::Sets::but_at))]
fn but(alloc: Global, depth: usize, cursor: &mut Cursor<'_>) -> Result<Option<Element>, Stop>
    ensures { Reads (spec.but_at (spec.set_at depth) cursor.old) result cursor.new }
{
    if !cursor.eat(Kind::Word, b"EXCEPT") {
        return Ok(None);
    }
    let element = element(alloc, depth, cursor)?;
    Ok(Some(element))
}

#[cycle(sets)]
#[tactic(auto, unfolding(crate::specs::Sets::element_at))]
fn element(alloc: Global, depth: usize, cursor: &mut Cursor<'_>) -> Result<Element, Stop>
    ensures { Reads (spec.element_at (spec.set_at depth) cursor.old) result cursor.new }
{
    if cursor.eat(Kind::Word, b"SIZE") {
        return Ok(Element::SizeOf(group(alloc, depth, cursor)?));
    }
    if cursor.eat(Kind::Word, b"FROM") {
        return Ok(Element::From(group(alloc, depth, cursor)?));
    }
    if cursor.sees(Kind::Mark, b"(") {
        inner(alloc, depth, cursor)
    } else {
        plain(alloc, cursor)
    }
}

#[cycle(sets)]
#[tactic(auto, unfolding(crate::specs::Sets::inner_at))]
fn inner(alloc: Global, depth: usize, cursor: &mut Cursor<'_>) -> Result<Element, Stop>
    ensures { Reads (spec.inner_at (spec.set_at depth) cursor.old) result cursor.new }
{
    Ok(Element::Inner(group(alloc, depth, cursor)?))
}

/// A set in parentheses.
#[cycle(sets)]
#[tactic(auto, unfolding(crate::specs::Sets::group))]
fn group(alloc: Global, depth: usize, cursor: &mut Cursor<'_>) -> Result<Boxed<Set>, Stop>
    ensures { Reads (spec.group (spec.set_at depth) cursor.old) result cursor.new }
{
    cursor.expect(Kind::Mark, b"(")?;
    let set = Boxed::new(alloc, set(alloc, depth, cursor)?)?;
    cursor.expect(Kind::Mark, b")")?;
    Ok(set)
}
