ghost use Rattle.acn_event_limits.specs.Laws.{LargestTablesHaveRoom};

use acn_events::events_are_in_order;
use acn_packet_laws::{accepted_is_sound, no_fault_without_a_first};

/// The events of a value of an accepted tree never stop because the largest table is full.
pub fn largest_tables_have_room()
    ensures { LargestTablesHaveRoom }
{
    accepted_is_sound();
    no_fault_without_a_first();
    events_are_in_order();
}
