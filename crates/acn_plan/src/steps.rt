ghost use Rattle.std.specs.Prelude.{◌≡◌, ◌^◌, ◌<◌, drop, length, IfOk};
ghost use Rattle.acn_plan.specs.Back.{StepAt};
ghost use Rattle.acn_plan.specs.Runs.{IsRun};

use crate::runs::runs_of;
use crate::step::Step;
use acn_cut::Piece;
use acn_num::{NoMemory, Row};
use std::alloc::Global;
use std::marker::Model;

/// The steps of a plan, and the runs of numbers that can be written as one word. Contracts see it
/// as the list of steps. (This profile's own.)
#[derive(Drop)]
pub struct Steps {
    steps: Row<Step>,
    // for each step the run that begins with it
    runs: Row<Row<Piece>>,
}

impl Model for Steps {
    ghost use Rattle.std.specs.Prelude.{List};
    ghost use Rattle.acn_plan.specs.declared.step.Step.{Step};
    ghost use Rattle.acn_plan.specs.Runs.{AreRuns};

    ghost Value = { List Step };

    ghost view = { λ s. s.steps };

    ghost invariant = { λ s. AreRuns s.steps s.runs };
}

impl Steps {
    // The steps with their runs.
    pub(crate) fn new(alloc: Global, steps: Row<Step>) -> Result<Steps, NoMemory>
        requires { length steps < 2 ^ 32 }
        ensures { IfOk result (λ all. all ≡ steps) }
    {
        let runs = runs_of(alloc, steps.items())?;
        Ok(Steps { steps, runs })
    }

    /// The steps. It takes no memory.
    pub fn items(&self) -> &[Step]
        ensures { result.now ≡ self.now }
    {
        self.steps.items()
    }

    /// A step. It takes no memory.
    pub fn at(&self, number: usize) -> &Step
        requires { number < length self.now }
        ensures { StepAt self.now number result.now }
    {
        &self.steps.items()[number]
    }

    /// The run that begins with a step: numbers of neighbouring fields that are always there, are no
    /// slot's and aren't aligned, whose codes make one word. No pieces where none begins. It takes
    /// no memory.
    pub fn run(&self, number: usize) -> &[Piece]
        ensures { IsRun number (drop number self.now) result.now }
    {
        match self.runs.items().get(number) {
            Some(run) => run.items(),
            None => &[],
        }
    }
}
