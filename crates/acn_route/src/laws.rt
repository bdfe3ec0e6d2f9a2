ghost use Rattle.acn_route.specs.Laws.{OneLine, OneSpace};

use acn_packet_laws::{fronts_exclude_failures, one_failure, one_front};

/// Bytes are space packets, and perhaps the beginning of one, in one way at most.
pub fn one_space()
    ensures { OneSpace }
{}

/// A packet has one line at most: its tree and its octets tell it.
pub fn one_line()
    ensures { OneLine }
{
    one_front();
    fronts_exclude_failures();
    one_failure();
}
