//! An older tree against a newer one.

ghost use Rattle.std.specs.Prelude.{◌≡◌, ℕ, ℤ, List, Option, map, IfOk, Ok};
ghost use Rattle.acn_compare.specs.Accepts.{Answering, Accepts, FirstDifference, answering, placed};
ghost use Rattle.acn_compare.specs.Judging.{place_of, IsFound, Says};
ghost use Rattle.acn_compare.specs.Laws.{ReadsAlike};
ghost use Rattle.acn_compare.specs.Tests.{Tells};
ghost use Rattle.acn_grammar.specs.Tree.{IsTree};
ghost use Rattle.acn_grammar.specs.View.{grammar_of};

use crate::answer::{Answer, Reason};
use crate::judge::{Difference, first_reason};
use crate::laws::{lines_are_alike, old_packets_are_read};
use crate::places::{Place, list_places};
use crate::slots::answering_slots;
use acn_check::Checked;
use acn_num::{NoMemory, Path};
use acn_packet_laws::spelled_values_meet;
use acn_tree::Node;
use std::alloc::Global;

/// The first place at which two trees differ, and what differs there.
#[derive(Drop)]
pub struct Found {
    pub path: Path,
    pub difference: Difference,
}

#[tactic(auto, using(crate::proofs::Finding::first_here, crate::proofs::Finding::agree_next))]
fn first_found(
    alloc: Global,
    places: &[Place<'_>],
    slots: &[Option<u32>],
) -> Result<Option<Found>, NoMemory>
    ensures { (by : Answering) → Tells by slots.now → IfOk result (IsFound by (map place_of places.now)) }
{
    for place in places {
        match first_reason(alloc, place.old, place.new, slots)? {
            Some(difference) => {
                return Ok(Some(Found {
                    path: place.path.copy(),
                    difference,
                }));
            }
            None => {}
        }
    }
    Ok(None)
}

// The nodes at the same places of two.
fn all_places<'t>(alloc: Global, old: &'t Node, new: &'t Node) -> Result<Vec<Place<'t>>, NoMemory>
    requires { IsTree (grammar_of old.now) }
    ensures { IfOk result (λ all. map place_of all.items ≡ placed (grammar_of old.now) (grammar_of new.now)) }
{
    let path = Path::new();
    let mut places = Vec::new(alloc);
    list_places(old, new, &mut places, None, None, &path)?;
    Ok(places)
}

// The first place at which two nodes differ, or something inside them.
fn find_first(alloc: Global, old: &Node, new: &Node) -> Result<Option<Found>, NoMemory>
    requires { IsTree (grammar_of old.now) }
    ensures { IfOk result (IsFound (answering (placed (grammar_of old.now) (grammar_of new.now))) (placed (grammar_of old.now) (grammar_of new.now))) }
{
    let places = all_places(alloc, old, new)?;
    let rows = places.as_slice();
    let slots = answering_slots(alloc, rows)?;
    let table = slots.as_slice();
    first_found(alloc, rows, table)
}

fn answered(alloc: Global, old: &Node, new: &Node) -> Result<Answer, NoMemory>
    requires { IsTree (grammar_of old.now) }
    ensures { IfOk result (Says (grammar_of old.now) (grammar_of new.now)) }
{
    match find_first(alloc, old, new)? {
        None => Ok(Answer::Yes),
        Some(found) => Ok(Answer::No {
            at: found.path,
            reason: found.difference.reason,
            number: found.difference.number,
        }),
    }
}

/// Whether the newer tree reads all that packets of the older one say, or the first node of the older tree in preorder at which something
/// stands in the way, with the first of the reasons that hold there. Yes comes exactly where no reason holds at any node. Then each packet
/// of the older tree is read under the newer one as the same value, whatever follows it, and has the same line. No says nothing of
/// packets. (This profile's own.)
pub fn compare(alloc: Global, old: &Checked, new: &Checked) -> Result<Answer, NoMemory>
    ensures yes { result ≡ Ok Answer.Yes → Accepts (grammar_of old.now.tree.root) (grammar_of new.now.tree.root) }
    ensures no { (at : List ℕ) (reason : Reason) (number : Option ℤ) → result ≡ Ok (Answer.No at reason number) → FirstDifference (grammar_of old.now.tree.root) (grammar_of new.now.tree.root) at reason number }
    ensures read { result ≡ Ok Answer.Yes → ReadsAlike (grammar_of old.now.tree.root) (grammar_of new.now.tree.root) }
{
    old_packets_are_read();
    lines_are_alike();
    spelled_values_meet();
    let older = old.tree();
    let newer = new.tree();
    let first = older.root();
    let second = newer.root();
    answered(alloc, first, second)
}
