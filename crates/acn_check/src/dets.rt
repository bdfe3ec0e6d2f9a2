ghost use Rattle.std.specs.Prelude.{◌≡◌, [], map, option_map, slice_get, IfOk, OnOk, ◌++◌};
ghost use Rattle.std.specs.List.{cons_option};
ghost use Rattle.acn_grammar.specs.View.{form_of};
ghost use Rattle.acn_check.specs.Facts.{facts_of};
ghost use Rattle.acn_check.specs.First as spec;
ghost use Rattle.acn_check.specs.Program.{det_of};

use crate::lines::Line;
use acn_num::{NoMemory, Path};
use acn_tree::{Body, NumLeaf};
use std::alloc::Global;

/// The inserted field of a slot: its number in preorder, its path and its leaf.
#[derive(Drop)]
pub struct Det<'t> {
    pub at: usize,
    pub path: Path,
    pub leaf: &'t NumLeaf,
}

fn leaf_in(body: &Body) -> Option<&NumLeaf>
    ensures { option_map (λ leaf. leaf.now) result ≡ spec.leaf_in (form_of body.now) }
{
    match body {
        Body::Num(leaf) => Some(leaf),
        _ => None,
    }
}

fn det_here<'t>(line: &Line<'t>, at: usize) -> Option<Det<'t>>
    ensures { option_map det_of result ≡ spec.det_here at (facts_of line.now) }
{
    match line.tag.slot {
        None => None,
        Some(_) => match leaf_in(line.body) {
            None => None,
            Some(leaf) => Some(Det {
                at,
                path: line.path.copy(),
                leaf,
            }),
        },
    }
}

fn add_det<'t>(dets: &mut Vec<Det<'t>>, line: &Line<'t>, at: usize) -> Result<(), NoMemory>
    ensures { OnOk result (map det_of dets.new.items ≡ map det_of dets.old.items ++ cons_option (spec.det_here at (facts_of line.now)) []) }
{
    if let Some(det) = det_here(line, at) {
        dets.push(det)?;
    }
    Ok(())
}

/// The inserted fields of the slots, in preorder: in a well-formed tree that is the order of their numbers.
pub fn list_dets<'t>(alloc: Global, lines: &[Line<'t>]) -> Result<Vec<Det<'t>>, NoMemory>
    ensures { IfOk result (λ dets. map det_of dets.items ≡ spec.dets 0 (map facts_of lines.now)) }
{
    let mut dets = Vec::new(alloc);
    for (at, line) in lines.iter().enumerate() {
        add_det(&mut dets, line, at)?;
    }
    Ok(dets)
}

/// The inserted field of the slot, where there is one.
pub fn det_of_slot<'d, 't>(dets: &'d [Det<'t>], slot: u32) -> Option<&'d Det<'t>>
    ensures { option_map (λ d. det_of d.now) result ≡ slice_get (map det_of dets.now) slot }
{
    dets.get(slot as usize)
}
