ghost use Rattle.std.specs.Prelude.{◌≡◌};
ghost use Rattle.acn_plan.specs.Made.{IsMade};

use crate::step::Step;
use crate::steps::Steps;
use acn_grammar::Bounds;

/// A tree that can be decoded as a flat list of steps, one for each node in preorder, with the bounds of its packets. Contracts see
/// both. `compile` alone makes one.
#[derive(Drop)]
pub struct Plan {
    steps: Steps,
    bounds: Bounds,

    ghost made: { IsMade steps },
}

impl Plan {
    // The plan of steps that were made.
    pub(crate) fn of(steps: Steps, bounds: Bounds) -> Plan
        requires { IsMade steps }
        ensures steps { result.steps ≡ steps }
        ensures bounds { result.bounds ≡ bounds }
    {
        Plan { steps, bounds }
    }

    /// The steps, which are those of a root that can be decoded. It takes no memory.
    pub fn steps(&self) -> &[Step]
        ensures same { result.now ≡ self.now.steps }
        ensures made { IsMade result.now }
    {
        self.steps.items()
    }

    /// The steps with the runs of numbers that can be written as one word. It takes no memory.
    pub fn with_runs(&self) -> &Steps
        ensures same { result.now ≡ self.now.steps }
        ensures made { IsMade result.now }
    {
        &self.steps
    }

    /// The least number of bits that a packet has, with no padding behind it. It takes no memory.
    pub fn least(&self) -> u64
        ensures { result ≡ self.now.bounds.least }
    {
        self.bounds.least
    }

    /// The greatest number of bits that a packet has, with no padding behind it. It takes no memory.
    pub fn greatest(&self) -> u64
        ensures { result ≡ self.now.bounds.greatest }
    {
        self.bounds.greatest
    }
}
