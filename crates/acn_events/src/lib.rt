//! What is known of the events by which a value is written in place.
#![tactic(auto)]

mod laws;

pub use laws::{
    events_are_in_order, events_ask, events_write_the_packet, runs_are_writable, runs_join,
    stops_are_refusals, stops_keep_what_is_later, stops_pass_their_holes,
};
