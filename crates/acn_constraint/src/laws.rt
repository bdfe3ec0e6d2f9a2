ghost use Rattle.acn_constraint.specs.Permits.{SetsHoldWhatTheyPermit};

/// The set to which a constraint is evaluated holds exactly the numbers that it permits (X.680 clause 50).
pub fn sets_hold_what_they_permit()
    ensures { SetsHoldWhatTheyPermit }
{}
