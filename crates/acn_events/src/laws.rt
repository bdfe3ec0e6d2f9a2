ghost use Rattle.acn_events.specs.Laws.{EventsAreInOrder, EventsAsk, EventsWriteThePacket, RunsAreWritable, RunsJoin, StopsAreRefusals, StopsKeepWhatIsLater, StopsPassTheirHoles};

use acn_packet_laws::{
    accepted_is_sound, each_occurrence_asks, each_value_is_written_or_refused,
    fields_tell_their_slots, known_behind, widths_are_lengths,
};

/// Events run one behind another.
pub fn runs_join()
    ensures { RunsJoin }
{}

/// The events of a value ask of each slot what the value asks of it.
pub fn events_ask()
    ensures { EventsAsk }
{}

/// The events of a value come in good order.
pub fn events_are_in_order()
    ensures { EventsAreInOrder }
{
    accepted_is_sound();
    known_behind();
}

/// A value whose events run can be written.
pub fn runs_are_writable()
    ensures { RunsAreWritable }
{
    accepted_is_sound();
    known_behind();
    each_occurrence_asks();
    fields_tell_their_slots();
    each_value_is_written_or_refused();
    events_are_in_order();
}

/// Where the events of a value that meets its constraints stop, the value is refused for that.
pub fn stops_are_refusals()
    ensures { StopsAreRefusals }
{
    accepted_is_sound();
    known_behind();
    each_occurrence_asks();
    fields_tell_their_slots();
    widths_are_lengths();
    events_are_in_order();
}

/// Where the events of a value have run, its packet stands at the front of the buffer.
pub fn events_write_the_packet()
    ensures { EventsWriteThePacket }
{
    accepted_is_sound();
    events_are_in_order();
}

/// Where the events of a value stop, each hole that is open lies behind the writer.
pub fn stops_pass_their_holes()
    ensures { StopsPassTheirHoles }
{
    events_are_in_order();
}

/// Where the events of a value stop, the writer stands within the bits that the value has, and what is behind it is as before.
pub fn stops_keep_what_is_later()
    ensures { StopsKeepWhatIsLater }
{
    events_are_in_order();
}
