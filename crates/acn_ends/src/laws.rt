ghost use Rattle.acn_ends.specs.Laws.{EndsAreUnique, EndlessWaysHaveNoEnd};

/// The steps from a place end at one place, after one number of steps.
pub fn ends_are_unique()
    ensures { EndsAreUnique }
{}

/// A place to which its own steps lead back has no end.
pub fn endless_ways_have_no_end()
    ensures { EndlessWaysHaveNoEnd }
{}
