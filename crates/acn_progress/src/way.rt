//! Which way a run converts.

ghost use Rattle.std.specs.Prelude.{◌≡◌, map, option_map, string_bytes};
ghost use Rattle.acn_progress.specs.Ways as spec;
ghost use Rattle.acn_words.specs.Requests.{request_in};

use acn_words::{Request, read_words};

/// Which way a run converts its input, or that it makes values.
#[derive(Clone, Copy, PartialEq, Eq)]
pub enum Way {
    /// Lines become packets.
    Encoding,
    /// Packets become lines, one each.
    Decoding,
    /// Packets become lines, several each.
    Explaining,
    /// Values are made, written and read again.
    Working,
}

/// The way of a run over these words. None comes where it neither converts an input nor makes values.
pub fn way_of(words: &[String]) -> Option<Way>
    ensures { result ≡ spec.way_of (request_in (map string_bytes words.now)) }
{
    match read_words(words) {
        Some(Request::Encode { .. }) => Some(Way::Encoding),
        Some(Request::Decode { .. }) => Some(Way::Decoding),
        Some(Request::Route { .. }) => Some(Way::Decoding),
        Some(Request::Explain { .. }) => Some(Way::Explaining),
        Some(Request::Check { .. }) => None,
        Some(Request::Bounds { .. }) => None,
        Some(Request::Layout { .. }) => None,
        Some(Request::Compare { .. }) => None,
        Some(Request::Extremes { .. }) => None,
        Some(Request::Work { .. }) => Some(Way::Working),
        None => None,
    }
}
