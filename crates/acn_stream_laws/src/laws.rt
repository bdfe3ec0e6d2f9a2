ghost use Rattle.acn_stream_laws.specs.Laws.{LinesAreEncoded, OnePackets, OneRecording, RecordingsAreDecoded, RecordingsAreShown, RefusedLinesAreNamed, StuckRecordingsAreRefused};

use acn_packet_laws::{
    bounds_hold, each_value_is_written_or_refused, failures_rest_on_bits, fronts_exclude_failures,
    no_fault_without_a_first, one_refusal, one_writing, packets_are_prefix_free,
    reaches_lie_inside, refused_is_not_spelled,
};

/// Bytes are a recording of at most one list of values, where each packet has a bit.
pub fn one_recording()
    ensures { OneRecording }
{
    packets_are_prefix_free();
    no_fault_without_a_first();
    bounds_hold();
}

/// An input that is a recording within the limit is decoded whole, unless a read or a write fails or memory runs out: none of its
/// packets is refused.
pub fn recordings_are_decoded()
    ensures { RecordingsAreDecoded }
{
    packets_are_prefix_free();
    no_fault_without_a_first();
    bounds_hold();
    failures_rest_on_bits();
    fronts_exclude_failures();
    reaches_lie_inside();
}

/// Of an input that is a recording within the limit all packets are shown, whatever is shown of each, unless a read or a write fails or
/// memory runs out: none of them is refused.
pub fn recordings_are_shown()
    ensures { RecordingsAreShown }
{
    packets_are_prefix_free();
    no_fault_without_a_first();
    bounds_hold();
    failures_rest_on_bits();
    fronts_exclude_failures();
    reaches_lie_inside();
}

/// Of an input within the limit that is packets and something behind them that no packet begins that one is refused, and none before
/// it, unless a read or a write fails or memory runs out.
pub fn stuck_recordings_are_refused()
    ensures { StuckRecordingsAreRefused }
{
    packets_are_prefix_free();
    no_fault_without_a_first();
    bounds_hold();
    failures_rest_on_bits();
    fronts_exclude_failures();
    reaches_lie_inside();
}

/// An input of lines within the limit that give values, none of which is refused, is encoded whole, unless a read or a write fails or
/// memory runs out: none of its lines is refused.
pub fn lines_are_encoded()
    ensures { LinesAreEncoded }
{
    each_value_is_written_or_refused();
}

/// Of an input of lines within the limit in which a line has too many bytes, gives no value, or gives one that is refused, the first
/// such line is named, with the reason, unless a read or a write fails or memory runs out.
pub fn refused_lines_are_named()
    ensures { RefusedLinesAreNamed }
{
    each_value_is_written_or_refused();
    refused_is_not_spelled();
    one_refusal();
}

/// A list of values has at most one list of packets.
pub fn one_packets()
    ensures { OnePackets }
{
    one_writing();
}
