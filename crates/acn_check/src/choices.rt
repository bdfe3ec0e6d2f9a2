//! Faults of a CHOICE by itself: an alternative without an item, conditions on some alternatives alone.
ghost use Rattle.std.specs.Prelude.{◌≡◌, ◌≤◌, ℕ, ℤ, List, [], length, map, not, slice_get, IfOk};
ghost use Rattle.std.specs.List.{list_any};
ghost use Rattle.acn_firsts.specs.Placed.{noted_all};
ghost use Rattle.acn_grammar.specs.Tree.{has_tests};
ghost use Rattle.acn_check.specs.Facts.{facts_of};
ghost use Rattle.acn_check.specs.First as spec;
ghost use Rattle.acn_check.specs.First.{Told, first_of};
ghost use Rattle.acn_check.specs.Program.{det_of, cases_of, AreFew, FewCases};
ghost use Rattle.acn_grammar.specs.declared.limits.TheConstants.{MOST_NODES};

use crate::dets::{Det, det_of_slot};
use crate::lines::Line;
use acn_firsts::Firsts;
use acn_num::{Name, NoMemory, Path};
use acn_tree::{Alternative, Body, CheckFault, ChoiceRule};
use std::alloc::Global;

// The names of the items.
#[tactic(auto, unfolding(acn_firsts::specs::Placed::noted_all))]
fn item_names(alloc: Global, items: &[(Name, i128)]) -> Result<Firsts, NoMemory>
    ensures { IfOk result (λ names. names ≡ noted_all [] (map (λ item. (item.0, 0)) items.now)) }
{
    let mut names = Firsts::new(alloc);
    for item in items {
        names.note(alloc, item.0.bytes(), 0)?;
    }
    Ok(names)
}

// Whether the name is among those of the items.
fn is_item(names: &Firsts, name: &[u8]) -> bool
    ensures { (items : List (List ℕ × ℤ)) → names.now ≡ noted_all [] (map (λ item. (item.0, 0)) items) → result ≡ spec.is_item items name.now }
{
    names.get(name).is_some()
}

// The items of the slot's enumeration.
fn items_of<'d>(dets: &'d [Det], slot: u32) -> &'d [(Name, i128)]
    ensures { result.now ≡ spec.items_in (slice_get (map det_of dets.now) slot) }
{
    match det_of_slot(dets, slot) {
        None => &[],
        Some(det) => det.leaf.items.items.items(),
    }
}

fn each_is_named(
    names: &Firsts,
    path: &Path,
    alternatives: &[Alternative],
) -> Result<(), CheckFault>
    requires { length alternatives.now ≤ MOST_NODES }
    ensures { (items : List (List ℕ × ℤ)) → names.now ≡ noted_all [] (map (λ item. (item.0, 0)) items) → Told (spec.first_without items path.now (cases_of alternatives.now)) result }
{
    for (at, alternative) in alternatives.iter().enumerate() {
        if !is_item(names, alternative.name.bytes()) {
            return Err(CheckFault::NoItem {
                choice: path.copy(),
                alternative: at as u32,
            });
        }
    }
    Ok(())
}

fn each_is_item(
    alloc: Global,
    items: &[(Name, i128)],
    path: &Path,
    alternatives: &[Alternative],
) -> Result<(), CheckFault>
    requires { length alternatives.now ≤ MOST_NODES }
    ensures { Told (spec.first_without items.now path.now (cases_of alternatives.now)) result }
{
    let names = item_names(alloc, items)?;
    each_is_named(&names, path, alternatives)
}

fn line_has_items(alloc: Global, line: &Line, dets: &[Det]) -> Result<(), CheckFault>
    requires { AreFew (facts_of line.now) }
    ensures { Told (spec.without_item (map det_of dets.now) (facts_of line.now).path (facts_of line.now).form) result }
{
    match line.body {
        Body::Choice(choice) => match choice.rule {
            ChoiceRule::Item(slot) => each_is_item(
                alloc,
                items_of(dets, slot),
                &line.path,
                choice.alternatives.items(),
            ),
            ChoiceRule::Index(_) | ChoiceRule::Tests => Ok(()),
        },
        _ => Ok(()),
    }
}

/// Refuses the first alternative whose name no item of its CHOICE's determinant has.
pub fn all_have_items(alloc: Global, lines: &[Line], dets: &[Det]) -> Result<(), CheckFault>
    requires { FewCases (map facts_of lines.now) }
    ensures { Told (first_of (spec.no_item_at (map det_of dets.now)) 0 (map facts_of lines.now)) result }
{
    for line in lines {
        line_has_items(alloc, line, dets)?;
    }
    Ok(())
}

fn some_have_tests(alternatives: &[Alternative]) -> bool
    ensures { result ≡ list_any has_tests (cases_of alternatives.now) }
{
    for alternative in alternatives {
        if !alternative.tests.items().is_empty() {
            return true;
        }
    }
    false
}

fn some_have_none(alternatives: &[Alternative]) -> bool
    ensures { result ≡ list_any (λ c. not (has_tests c)) (cases_of alternatives.now) }
{
    for alternative in alternatives {
        if alternative.tests.items().is_empty() {
            return true;
        }
    }
    false
}

fn is_by_item(rule: ChoiceRule) -> bool
    ensures { result ≡ spec.by_item rule }
{
    match rule {
        ChoiceRule::Item(_) => true,
        ChoiceRule::Index(_) | ChoiceRule::Tests => false,
    }
}

fn line_is_pure(line: &Line) -> Result<(), CheckFault>
    ensures { Told (spec.mixed_in (facts_of line.now).path (facts_of line.now).form) result }
{
    if let Body::Choice(choice) = line.body
        && some_have_tests(choice.alternatives.items())
        && (is_by_item(choice.rule) || some_have_none(choice.alternatives.items()))
    {
        return Err(CheckFault::MixedChoice {
            choice: line.path.copy(),
        });
    }
    Ok(())
}

/// Refuses the first CHOICE in which some alternatives have conditions and some none, or conditions stand
/// beside a determinant.
pub fn none_mixed(lines: &[Line]) -> Result<(), CheckFault>
    ensures { Told (first_of spec.mixed_at 0 (map facts_of lines.now)) result }
{
    for line in lines {
        line_is_pure(line)?;
    }
    Ok(())
}
