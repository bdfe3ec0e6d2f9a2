//! Laws of steps, for the crates that walk over them.

ghost use Rattle.acn_plan.specs.Laws.{StepsSayTheirRoot, StepsTellTheirRoot, StepsAreNested, StepsAreItemed, StepsListTheirCases};

/// The steps of a root, read back as a tree, are that root.
pub fn steps_say_their_root()
    ensures { StepsSayTheirRoot }
{}

/// At most one root has a given list of steps.
pub fn steps_tell_their_root()
    ensures { StepsTellTheirRoot }
{}

/// Each step of a root ends behind its own number and within the list, and what it holds stands behind it.
pub fn steps_are_nested()
    ensures { StepsAreNested }
{}

/// In the steps of a root each alternative has the item of its name, where the number of a slot says which alternative is there.
pub fn steps_are_itemed()
    ensures { StepsAreItemed }
{}

/// In the steps of a root each CHOICE has the numbers of the steps of its alternatives.
pub fn steps_list_their_cases()
    ensures { StepsListTheirCases }
{}
