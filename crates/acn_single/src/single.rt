//! What keeps a tree from being single: the least reason, at the first node that shows it.

ghost use Rattle.std.specs.Prelude.{◌≡◌, map, option_map, IfOk, MatchOption};
ghost use Rattle.acn_extreme_laws.specs.Facts as spec;
ghost use Rattle.acn_extreme_laws.specs.Facts.{first_unsingle as first_of};
ghost use Rattle.acn_extreme_laws.specs.Single.{Single};
ghost use Rattle.acn_packet_laws.specs.Laws.{IsAccepted};
ghost use Rattle.acn_single.specs.Found.{IsFirstReason};
ghost use Rattle.acn_single.specs.Lines as seen;
ghost use Rattle.acn_single.specs.Lines.{CanList, line_of, reason_of};
ghost use Rattle.acn_grammar.specs.View.{grammar_of};

use crate::lines::{Line, Place, list_node, plain};
use crate::slots::Slots;
use crate::uses::is_used_twice;
use acn_extreme_laws::{Why, first_unsingle_is_found};
use acn_num::{NoMemory, Path};
use acn_packet_laws::accepted_is_sound;
use acn_tree::Node;
use std::alloc::Global;

/// A reason why a tree isn't single, and the path of the first node that shows it.
#[derive(Drop)]
pub struct Reason {
    pub why: Why,
    pub at: Path,
}

// Whether the slot, where there is one, is used more than once.
fn used_twice(lines: &[Line<'_>], slot: Option<u32>) -> bool
    ensures { result ≡ seen.used_twice (map line_of lines.now) slot }
{
    match slot {
        None => false,
        Some(slot) => is_used_twice(slot, lines),
    }
}

// Whether a node shows the reason.
fn shows(lines: &[Line<'_>], why: Why, line: &Line<'_>) -> bool
    ensures { result ≡ seen.shows (map line_of lines.now) why (line_of line.now) }
{
    match why {
        Why::TwoUses => used_twice(lines, line.tag.slot),
        Why::ThroughAList => line.through,
        Why::CountNotPermitted => line.uncounted,
        Why::TerminatorAlone => line.alone,
        Why::OfAComponent => line.tag.own.is_some(),
    }
}

// The path of the first node that shows the reason.
fn first_by(lines: &[Line<'_>], why: Why) -> Option<Path>
    ensures { result ≡ seen.first_by (map line_of lines.now) why }
{
    for line in lines {
        if shows(lines, why, line) {
            return Some(line.path.copy());
        }
    }
    None
}

// The reason where some node shows it, else what is found of the others.
fn or_first(why: Why, at: Option<Path>, rest: Option<Reason>) -> Option<Reason>
    ensures { option_map reason_of result ≡ spec.or_first why at (option_map reason_of rest) }
{
    match at {
        Some(at) => Some(Reason { why, at }),
        None => rest,
    }
}

// The reasons behind the first two.
fn of_leaves(lines: &[Line<'_>]) -> Option<Reason>
    ensures { option_map reason_of result ≡ seen.of_leaves (map line_of lines.now) }
{
    let own = or_first(Why::OfAComponent, first_by(lines, Why::OfAComponent), None);
    let alone = or_first(
        Why::TerminatorAlone,
        first_by(lines, Why::TerminatorAlone),
        own,
    );
    let count = first_by(lines, Why::CountNotPermitted);
    or_first(Why::CountNotPermitted, count, alone)
}

// The least reason that a node shows, at the first that shows it.
fn first_among(lines: &[Line<'_>]) -> Option<Reason>
    ensures { option_map reason_of result ≡ seen.first_among (map line_of lines.now) }
{
    let through = first_by(lines, Why::ThroughAList);
    let rest = or_first(Why::ThroughAList, through, of_leaves(lines));
    or_first(Why::TwoUses, first_by(lines, Why::TwoUses), rest)
}

// The least reason, at the first node that shows it, as the pass over the nodes finds it.
fn first_reason(alloc: Global, slots: &Slots<'_>) -> Result<Option<Reason>, NoMemory>
    requires { CanList 0 (grammar_of slots.now.root.now) }
    ensures { IfOk result (λ found. option_map reason_of found ≡ first_of (grammar_of slots.now.root.now)) }
{
    let path = Path::new();
    let place = Place {
        path: &path,
        around: &[],
        barred: &[],
    };
    let mut lines = Vec::new(alloc);
    list_node(alloc, slots.root, place, plain(), slots, &mut lines)?;
    Ok(first_among(lines.as_slice()))
}

/// What keeps an accepted tree from being single, so that a shortest and a longest packet could be put together part by part: the least
/// reason that some node shows, and the path of the first node in preorder that shows it. None where nothing does: each determinant serves
/// one use. `NoMemory` comes where memory runs out alone. (This profile's own.)
pub fn first_unsingle(alloc: Global, root: &Node) -> Result<Option<Reason>, NoMemory>
    requires { IsAccepted (grammar_of root.now) }
    ensures { IfOk result (λ found. MatchOption found (Single (grammar_of root.now)) (IsFirstReason (grammar_of root.now))) }
{
    accepted_is_sound();
    first_unsingle_is_found();
    first_reason(alloc, &Slots { root })
}
