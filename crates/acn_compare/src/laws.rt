ghost use Rattle.acn_compare.specs.Laws.{DifferencesExclude, LinesAreAlike, OldPacketsAreRead, OneFirstDifference};
ghost use Rattle.acn_compare.specs.Rows.{AGreaterSizeIsAccepted, ASmallerSizeIsNot};

use acn_packet_laws::accepted_is_sound;

/// A packet of a grammar is a packet of each grammar that accepts it.
pub fn old_packets_are_read()
    ensures { OldPacketsAreRead }
{
    accepted_is_sound();
}

/// The line of a value is the same under each grammar that accepts it.
pub fn lines_are_alike()
    ensures { LinesAreAlike }
{}

/// A size that the older grammar permits is permitted.
pub fn a_greater_size_is_accepted()
    ensures { AGreaterSizeIsAccepted }
{}

/// One that isn't is named with the least such size.
pub fn a_smaller_size_is_not()
    ensures { ASmallerSizeIsNot }
{}

/// Where there is a first difference, a grammar isn't accepted.
pub fn differences_exclude()
    ensures { DifferencesExclude }
{}

/// One difference comes first.
pub fn one_first_difference()
    ensures { OneFirstDifference }
{}
