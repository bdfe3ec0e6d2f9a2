//! Who is told how far the work is.

use crate::summary::Summary;

/// Who is told what came of the values so far, each time that one more was made. It answers nothing,
/// so nothing of the work depends on it.
pub trait Watch {
    /// This is what came of the values so far.
    fn made(&self, so_far: &Summary);
}

/// Nobody is told.
#[derive(Clone, Copy)]
pub struct Unwatched;

impl Watch for Unwatched {
    fn made(&self, _so_far: &Summary) {}
}
