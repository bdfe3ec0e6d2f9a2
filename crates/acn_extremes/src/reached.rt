//! The shortest and the longest packet.

ghost use Rattle.std.specs.Prelude.{IfOk, IfErr, MatchOption, option_map};
ghost use Rattle.acn_extreme_laws.specs.Single.{Single};
ghost use Rattle.acn_extremes.specs.Extreme.{AreEnds, EachIsRefused, IsWhyNot};
ghost use Rattle.acn_extremes.specs.Told.{AreBoth, BestEnds};
ghost use Rattle.acn_extremes.specs.Ways.{value_way, CanMake};
ghost use Rattle.acn_grammar.specs.View.{grammar_of};
ghost use Rattle.acn_packet_laws.specs.Laws.{IsAccepted};

use crate::answer::{Ends, ExtremesFault};
use crate::best::best_node;
use crate::ways::Way;
use acn_check::Checked;
use acn_extreme_laws::{Side, best_is_extreme, best_is_written, no_best_is_refused};
use acn_num::NoMemory;
use acn_packet_laws::accepted_is_sound;
use acn_single::{Slots, first_unsingle};
use acn_tree::{Node, Value};
use std::alloc::Global;

// Both values, where there are both.
fn both_ends(shortest: Option<Way<Value>>, longest: Option<Way<Value>>) -> Option<Ends>
    ensures { AreBoth (option_map value_way shortest) (option_map value_way longest) result }
{
    match shortest {
        None => None,
        Some(least) => match longest {
            None => None,
            Some(greatest) => Some(Ends {
                least: least.end,
                least_value: least.made,
                greatest: greatest.end,
                greatest_value: greatest.made,
            }),
        },
    }
}

// The best values on both sides.
fn best_ends(alloc: Global, slots: &Slots<'_>) -> Result<Option<Ends>, NoMemory>
    requires { CanMake (grammar_of slots.now.root.now) }
    ensures { IfOk result (BestEnds (grammar_of slots.now.root.now)) }
{
    let shortest = best_node(alloc, slots.root, slots, Side::Shortest, 0)?;
    let longest = best_node(alloc, slots.root, slots, Side::Longest, 0)?;
    Ok(both_ends(shortest, longest))
}

// The same of a root.
fn root_extremes(alloc: Global, root: &Node) -> Result<Option<Ends>, ExtremesFault>
    requires { IsAccepted (grammar_of root.now) }
    ensures single { IfOk result (λ _. Single (grammar_of root.now)) }
    ensures fault { IfErr result (IsWhyNot (grammar_of root.now)) }
    ensures ends { IfOk result (λ found. MatchOption found (EachIsRefused (grammar_of root.now)) (AreEnds (grammar_of root.now))) }
{
    accepted_is_sound();
    best_is_extreme();
    best_is_written();
    no_best_is_refused();
    match first_unsingle(alloc, root)? {
        Some(reason) => Err(ExtremesFault::NotSingle {
            at: reason.at,
            why: reason.why,
        }),
        None => Ok(best_ends(alloc, &Slots { root })?),
    }
}

/// A shortest and a longest packet of an accepted tree in which each determinant serves one use: two values, and how many bits each is
/// written in. No value has a packet, written or read, with fewer bits or with more. None comes exactly where each value of the tree's
/// form is refused. `NotSingle` comes exactly where determinants don't serve one use each, or something else in the tree keeps packets
/// from being put together part by part (`Why`); the numbers are then not told, though `bounds` holds. `NoMemory` comes where memory runs
/// out, and where the index of an item has more than 32 bits. (This profile's own.)
pub fn extremes(alloc: Global, checked: &Checked) -> Result<Option<Ends>, ExtremesFault>
    ensures single { IfOk result (λ _. Single (grammar_of checked.now.tree.root)) }
    ensures fault { IfErr result (IsWhyNot (grammar_of checked.now.tree.root)) }
    ensures ends { IfOk result (λ found. MatchOption found (EachIsRefused (grammar_of checked.now.tree.root)) (AreEnds (grammar_of checked.now.tree.root))) }
{
    let tree = checked.tree();
    let root = tree.root();
    root_extremes(alloc, root)
}
