//! The tree of a case.

use acn_case_trees::{Built, Sheet};
use acn_check::{Checked, check};
use acn_num::{Boxed, NoMemory};
use acn_tree::Tree;
use std::alloc::Global;

/// The tree of the lines, or why there is none.
pub fn tree_of(
    alloc: Global,
    sheet: &Sheet,
    parts: &[&str],
) -> Result<Result<Boxed<Tree>, &'static str>, NoMemory> {
    match sheet.built(alloc, parts)? {
        Built::Tree(tree) => Ok(Ok(tree)),
        Built::NoTree => Ok(Err("no tree")),
        Built::Unknown => Ok(Err("not understood")),
    }
}

// The tree, if it is accepted.
fn checked(
    alloc: Global,
    tree: Boxed<Tree>,
) -> Result<Result<Boxed<Checked>, &'static str>, NoMemory> {
    match check(alloc, tree.into_inner()) {
        Ok(checked) => Ok(Ok(Boxed::new(alloc, checked)?)),
        Err(_) => Ok(Err("not accepted")),
    }
}

/// The tree of the lines, which is accepted, or why there is none.
pub fn accepted(
    alloc: Global,
    sheet: &Sheet,
    parts: &[&str],
) -> Result<Result<Boxed<Checked>, &'static str>, NoMemory> {
    match tree_of(alloc, sheet, parts)? {
        Ok(tree) => checked(alloc, tree),
        Err(why) => Ok(Err(why)),
    }
}
