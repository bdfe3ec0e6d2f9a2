ghost use Rattle.std.specs.Prelude.{◌≡◌, ◌≤◌, length, true, map, IfOk, IfErr, MatchResult};
ghost use Rattle.std.specs.List.{list_all, flat_map};
ghost use Rattle.acn_packet_laws.specs.Laws.{IsAccepted};
ghost use Rattle.acn_grammar.specs.Leaves.{num_fine};
ghost use Rattle.acn_grammar.specs.Tree.{IsTree};
ghost use Rattle.acn_grammar.specs.View.{grammar_of};
ghost use Rattle.acn_check.specs.Checked.{HasNoFault, IsFirstFault, PacketsTellTheirValue, PacketsLieWithinBounds, NodesAreSound};
ghost use Rattle.acn_check.specs.Facts.{facts_of, Fit};
ghost use Rattle.acn_check.specs.First as spec;
ghost use Rattle.acn_check.specs.First.{Told, first_of};
ghost use Rattle.acn_check.specs.Order as order;
ghost use Rattle.acn_check.specs.Order.{lines_of, first_fault};
ghost use Rattle.acn_check.specs.Program.{det_of, tally_of, FewCases, IsTold};

use crate::checked::Checked;
use crate::choices::{all_have_items, none_mixed};
use crate::dets::{Det, list_dets};
use crate::ends::all_ends_told;
use crate::lines::{Line, list_node, plain};
use crate::named::{all_right_kind, none_behind};
use crate::overlaps::none_overlap;
use crate::places::{all_clear, few_open};
use crate::slots::{all_have_few, all_have_width, all_used};
use crate::tallies::{Tally, count_uses};
use acn_grammar::{MOST_PACKET_BITS, MOST_VALUES};
use acn_num::{NoMemory, Path};
use acn_packet_laws::{
    accepted_is_sound, bounds_hold, no_fault_without_a_first, packets_are_prefix_free,
    widths_are_lengths,
};
use acn_tree::{CheckFault, Tree, interval, value_count};
use std::alloc::Global;

fn is_short(tree: &Tree) -> Result<(), CheckFault>
    ensures told { Told (spec.long (grammar_of tree.now.root)) result }
    ensures exact { IfErr result IsTold }
{
    let bits = interval(tree).greatest;
    if bits > MOST_PACKET_BITS {
        return Err(CheckFault::TooLong { bits });
    }
    Ok(())
}

fn has_few_values(tree: &Tree) -> Result<(), CheckFault>
    ensures told { Told (spec.many_values (grammar_of tree.now.root)) result }
    ensures exact { IfErr result IsTold }
{
    let count = value_count(tree);
    if count > MOST_VALUES {
        return Err(CheckFault::TooManyValues { count });
    }
    Ok(())
}

// The faults 1 to 4, which concern determinants and what they choose.
fn can_be_read(alloc: Global, lines: &[Line], dets: &[Det]) -> Result<(), CheckFault>
    requires fine { list_all (λ d. num_fine d.leaf) (map det_of dets.now) ≡ true }
    requires few { FewCases (map facts_of lines.now) }
    ensures { Told (order.unreadable (map det_of dets.now) (map facts_of lines.now)) result }
{
    none_behind(lines, dets)?;
    all_right_kind(lines, dets)?;
    all_have_width(lines, dets)?;
    none_overlap(alloc, lines, dets)
}

// The faults 5 to 8, which concern conditions and uses.
fn is_clear(
    alloc: Global,
    lines: &[Line],
    dets: &[Det],
    tallies: &[Tally],
) -> Result<(), CheckFault>
    requires { FewCases (map facts_of lines.now) }
    ensures { Told (order.dubious (map det_of dets.now) (map tally_of tallies.now) (map facts_of lines.now)) result }
{
    all_clear(lines)?;
    all_used(lines, tallies)?;
    all_have_items(alloc, lines, dets)?;
    none_mixed(lines)
}

// The faults 9 to 13, which concern limits and the patterns that end lists.
fn is_within_limits(tree: &Tree, lines: &[Line], tallies: &[Tally]) -> Result<(), CheckFault>
    requires fit { Fit (map facts_of lines.now) }
    requires leads { list_all spec.leads_fine (map facts_of lines.now) ≡ true }
    ensures told { Told (order.beyond (grammar_of tree.now.root) (map facts_of lines.now) (first_of (spec.many_conditions (map tally_of tallies.now)) 0 (map facts_of lines.now))) result }
    ensures exact { IfErr result IsTold }
{
    is_short(tree)?;
    few_open(lines)?;
    all_have_few(lines, tallies)?;
    has_few_values(tree)?;
    all_ends_told(lines)
}

// The nodes of the tree in preorder.
fn list_lines<'t>(alloc: Global, tree: &'t Tree) -> Result<Vec<Line<'t>>, NoMemory>
    ensures { IfOk result (λ lines. map facts_of lines.items ≡ lines_of (grammar_of tree.now.root)) }
{
    let mut lines = Vec::new(alloc);
    list_node(tree.root(), &mut lines, plain(), &Path::new(), 0)?;
    Ok(lines)
}

// All faults, in the order of their numbers.
fn judge(
    alloc: Global,
    tree: &Tree,
    lines: &[Line],
    dets: &[Det],
    tallies: &[Tally],
) -> Result<(), CheckFault>
    requires formed { IsTree (grammar_of tree.now.root) }
    requires lines { map facts_of lines.now ≡ lines_of (grammar_of tree.now.root) }
    requires dets { map det_of dets.now ≡ spec.dets 0 (map facts_of lines.now) }
    requires tallies { map tally_of tallies.now ≡ spec.tallied (spec.no_tallies (length dets.now)) (flat_map spec.uses_of (map facts_of lines.now)) }
    ensures { Told (first_fault (grammar_of tree.now.root)) result }
{
    can_be_read(alloc, lines, dets)?;
    is_clear(alloc, lines, dets, tallies)?;
    is_within_limits(tree, lines, tallies)
}

fn find_fault(alloc: Global, tree: &Tree) -> Result<(), CheckFault>
    ensures { Told (first_fault (grammar_of tree.now.root)) result }
{
    let lines = list_lines(alloc, tree)?;
    let dets = list_dets(alloc, &lines)?;
    let tallies = count_uses(alloc, &lines, dets.len())?;
    judge(alloc, tree, &lines, &dets, &tallies)
}

/// Tells whether the packets of a tree can be decoded: Ok gives the tree as one that was checked. Otherwise the
/// tree comes back with its first fault, by the number of the fault, then by its first node in preorder, then by
/// the use at that node, and by alternatives. The rules are this profile's own.
///
/// 1. `Forward`: a use of a slot whose field stands behind the user.
/// 2. `DetKind`: a size or a condition with `==` on other than INTEGER, a flag on other than BOOLEAN, a
///    `determinant` on other than ENUMERATED.
/// 3. `DetWidth`: an inserted slot whose codes don't all have one width, or one over `MOST_DETERMINANT_BITS`.
/// 4. `Overlap`: two alternatives of a CHOICE without `determinant` that both have conditions, all of which hold
///    under the permitted numbers that are given.
/// 5. `AbsentUnclear`: a component with more than one condition.
/// 6. `Unused`: an inserted field other than NULL without a use.
/// 7. `NoItem`: an alternative whose name no item of the determinant has.
/// 8. `MixedChoice`: conditions on some alternatives and none on others, or conditions beside a `determinant`.
/// 9. `TooLong`: more than `MOST_PACKET_BITS`.
/// 10. `TooManyOpen`: more than `MOST_OPEN_SLOTS` slots at home on the path to a node, itself included.
/// 11. `TooManyConditions`: more than `MOST_CONDITIONS` conditions with `==` on a slot.
/// 12. `TooManyValues`: more than `MOST_VALUES` values in a packet.
/// 13. `TerminatorAmbiguous`: a list that is ended by a pattern, whose elements don't begin with a number in plain
///    bits, at least as many as the pattern has, of which no code begins with the pattern.
///
/// `NoMemory` comes where memory runs out, and where a count of conditions has more than 32 bits.
pub fn check(alloc: Global, tree: Tree) -> Result<Checked, (Tree, CheckFault)>
    ensures kept { IfOk result (λ checked. checked.tree ≡ tree) }
    ensures sound { IfOk result (λ checked. IsAccepted (grammar_of tree.root)) }
    ensures prefix { IfOk result (λ checked. PacketsTellTheirValue (grammar_of tree.root)) }
    ensures lengths { IfOk result (λ checked. PacketsLieWithinBounds (grammar_of tree.root)) }
    ensures nodes { IfOk result (λ checked. NodesAreSound (grammar_of tree.root)) }
    ensures back { IfErr result (λ pair. pair.0 ≡ tree) }
    ensures fault { IfErr result (λ pair. IsFirstFault (grammar_of tree.root) pair.1) }
{
    no_fault_without_a_first();
    packets_are_prefix_free();
    bounds_hold();
    accepted_is_sound();
    widths_are_lengths();
    match find_fault(alloc, &tree) {
        Ok(()) => Ok(Checked::of(tree)),
        Err(fault) => Err((tree, fault)),
    }
}
