ghost use Rattle.acn_open_slots.specs.Noted.{APlaceIsFree};

/// Fewer numbers are noted than there are slots at home round the place, where one of these has no number yet.
pub fn a_place_is_free()
    ensures { APlaceIsFree }
{}
