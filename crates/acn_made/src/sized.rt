//! The sizes of a string, a list or contained octets, with what says the size.

ghost use Rattle.std.specs.Prelude.{◌≡◌, Some, IfOk};
ghost use Rattle.acn_grammar.specs.Interval.{size_of};
ghost use Rattle.acn_num.specs.Ranges.{least};
ghost use Rattle.acn_world.specs.Viewed.{world_view};
ghost use Rattle.acn_sites.specs.View.{site_view};
ghost use Rattle.acn_written.specs.Sizes as sizes;
ghost use Rattle.acn_made.specs.Sized as spec;

use crate::named::determinant_by;
use acn_grammar::{Pattern, SizeRule, Sizing, TextLeaf};
use acn_homes::Homes;
use acn_leaves::{characters_written, high_end, low_end, range_width};
use acn_num::{MOST_SIZE, NoMemory, RangeSet};
use acn_sites::{AttrKind, Site};
use acn_slots::PlainTypes;
use acn_world::World;
use acn_written::{characters_at, ended_by, sizes_at, written_sizes};
use std::alloc::Global;

// A size, held from 0 to the greatest that is permitted.
fn held(x: &i128) -> u64
    ensures { result ≡ size_of (Some x.now) }
{
    if *x < 0 {
        0
    } else if *x > i128::from(MOST_SIZE) {
        u64::from(MOST_SIZE)
    } else {
        *x as u64
    }
}

// The least size.
fn least_size(sizes: &RangeSet) -> u64
    ensures { result ≡ size_of (least sizes.now) }
{
    match sizes.least() {
        None => 0,
        Some(size) => held(&size),
    }
}

// The size in front, as a range over the sizes.
fn in_front(sizes: &RangeSet) -> SizeRule
    ensures { result ≡ spec.in_front sizes.now }
{
    SizeRule::Prefix {
        low: least_size(sizes),
        width: range_width(&low_end(sizes), &high_end(sizes)),
    }
}

// What says the size: a slot, or else the size in front.
fn said_by(slot: Option<u32>, sizes: &RangeSet) -> SizeRule
    ensures { result ≡ spec.said_by slot sizes.now }
{
    match slot {
        Some(slot) => SizeRule::Slot(slot),
        None => in_front(sizes),
    }
}

// The same of a list, which a pattern may end.
fn ended_or(end: Option<Pattern>, rule: SizeRule) -> SizeRule
    ensures { result ≡ spec.ended_or end rule }
{
    match end {
        Some(end) => SizeRule::Ended(end),
        None => rule,
    }
}

// The same of a text, which a terminator may end.
fn terminated_or(end: &Option<Pattern>, rule: SizeRule) -> SizeRule
    ensures { result ≡ spec.terminated_or end.now rule }
{
    match end {
        Some(_) => SizeRule::Prefix { low: 0, width: 0 },
        None => rule,
    }
}

// The permitted sizes.
fn sizes_of(alloc: Global, world: &World, site: &Site<'_>) -> Result<RangeSet, NoMemory>
    ensures { IfOk result (λ permitted. permitted ≡ sizes.sizes_at (world_view world.now) (site_view site.now)) }
{
    let written = written_sizes(alloc, world, site)?;
    sizes_at(alloc, world, site, written)
}

/// The sizes of an OCTET STRING, of contained octets or of a BIT STRING, with what says the size.
pub fn sizing_at<'w>(
    alloc: Global,
    world: &'w World,
    plain: &'w PlainTypes,
    homes: &Homes<'_>,
    site: &Site<'w>,
) -> Result<Sizing, NoMemory>
    ensures { IfOk result (λ sizing. sizing ≡ spec.sizing_at (world_view world.now) homes.now (site_view site.now)) }
{
    let slot = determinant_by(alloc, world, plain, homes, AttrKind::Size, site)?;
    let sizes = sizes_of(alloc, world, site)?;
    let rule = said_by(slot, &sizes);
    Ok(Sizing { sizes, rule })
}

/// The same of a list.
pub fn list_sizing_at<'w>(
    alloc: Global,
    world: &'w World,
    plain: &'w PlainTypes,
    homes: &Homes<'_>,
    site: &Site<'w>,
) -> Result<Sizing, NoMemory>
    ensures { IfOk result (λ sizing. sizing ≡ spec.list_sizing_at (world_view world.now) homes.now (site_view site.now)) }
{
    let sizing = sizing_at(alloc, world, plain, homes, site)?;
    let rule = ended_or(ended_by(site), sizing.rule);
    Ok(Sizing {
        sizes: sizing.sizes,
        rule,
    })
}

// The same of a text with this terminator, or without one.
fn text_sizing<'w>(
    alloc: Global,
    world: &'w World,
    plain: &'w PlainTypes,
    homes: &Homes<'_>,
    site: &Site<'w>,
    end: &Option<Pattern>,
) -> Result<Sizing, NoMemory>
    ensures { IfOk result (λ sizing. sizing ≡ spec.text_sizing (world_view world.now) homes.now (site_view site.now) end.now) }
{
    let sizing = sizing_at(alloc, world, plain, homes, site)?;
    let rule = terminated_or(end, sizing.rule);
    Ok(Sizing {
        sizes: sizing.sizes,
        rule,
    })
}

/// The leaf of an IA5String.
pub fn text_at<'w>(
    alloc: Global,
    world: &'w World,
    plain: &'w PlainTypes,
    homes: &Homes<'_>,
    site: &Site<'w>,
) -> Result<TextLeaf, NoMemory>
    ensures { IfOk result (λ leaf. leaf ≡ spec.text_at (world_view world.now) homes.now (site_view site.now)) }
{
    let ended = ended_by(site);
    let sized = text_sizing(alloc, world, plain, homes, site, &ended)?;
    let alphabet = characters_at(alloc, world, site)?;
    let characters = characters_written(site, &alphabet);
    Ok(TextLeaf {
        sized,
        ended,
        alphabet,
        width: characters.width,
        indexed: characters.indexed,
    })
}
