ghost use Rattle.std.specs.Prelude.{◌≡◌, ◌<◌, [], ◌∷◌, ◌++◌, length, MatchOption};
ghost use Rattle.acn_num.specs.declared.limits.TheConstants.{MOST_STEPS};

use crate::limits::MOST_STEPS;
use arrayvec::ArrayVec;
use std::marker::Model;

/// A path of child numbers from the root of a tree, which contracts see as the list of its steps, at most
/// `MOST_STEPS`.
#[derive(Drop)]
pub struct Path {
    steps: ArrayVec<u32, MOST_STEPS>,
}

impl Model for Path {
    ghost use Rattle.std.specs.Prelude.{List, ℕ, length, ◌≤◌};
    ghost use Rattle.acn_num.specs.declared.limits.TheConstants.{MOST_STEPS};

    ghost Value = { List ℕ };

    ghost view = { λ path. path.steps.items };

    ghost invariant = { λ path. length path.steps.items ≤ MOST_STEPS };
}

impl Path {
    /// The path of the root, without steps.
    pub fn new() -> Path
        ensures { result ≡ [] }
    {
        Path {
            steps: ArrayVec::new(),
        }
    }

    /// Adds a step at the end.
    pub fn push(&mut self, step: u32)
        requires { length self.old < MOST_STEPS }
        ensures { self.new ≡ self.old ++ step ∷ [] }
    {
        self.steps.push(step);
    }

    /// Takes the last step away. None comes exactly where there is no step.
    pub fn pop(&mut self) -> Option<u32>
        ensures { MatchOption result (self.old ≡ [] × self.new ≡ []) (λ step. self.old ≡ self.new ++ step ∷ []) }
    {
        self.steps.pop()
    }

    /// The steps, in order.
    pub fn steps(&self) -> &[u32]
        ensures { result.now ≡ self.now }
    {
        self.steps.as_slice()
    }

    /// The same path again.
    pub fn copy(&self) -> Path
        ensures { result ≡ self.now }
    {
        let mut path = Path::new();
        for step in self.steps.as_slice() {
            path.push(*step);
        }
        path
    }
}
