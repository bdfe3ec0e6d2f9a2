//! What is read from streams and written to them where nothing is at fault.
#![tactic(auto)]

mod laws;

pub use laws::{
    lines_are_encoded, one_packets, one_recording, recordings_are_decoded, recordings_are_shown,
    refused_lines_are_named, stuck_recordings_are_refused,
};
