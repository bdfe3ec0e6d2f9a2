//! Trees that are accepted.

use acn_check::{Checked, check};
use acn_num::{Boxed, NoMemory};
use acn_tree::Tree;
use std::alloc::Global;

/// The tree, if it is accepted.
pub fn accepted(alloc: Global, tree: Boxed<Tree>) -> Result<Option<Boxed<Checked>>, NoMemory> {
    match check(alloc, tree.into_inner()) {
        Ok(checked) => Ok(Some(Boxed::new(alloc, checked)?)),
        Err(_) => Ok(None),
    }
}
