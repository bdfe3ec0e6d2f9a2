ghost use Rattle.acn_json.specs.RoundTrip.{LinesGiveTheValue};

/// The line of a value of a well-formed tree gives the value back, where names are UTF-8, whole numbers are from -2^63 to
/// 2^64 - 1, and characters are at most 127.
pub fn lines_give_the_value()
    ensures { LinesGiveTheValue }
{}
