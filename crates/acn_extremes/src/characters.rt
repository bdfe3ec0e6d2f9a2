//! The characters of which texts are made.

ghost use Rattle.std.specs.Prelude.{◌≡◌, pos, true};
ghost use Rattle.acn_num.specs.Ranges.{all_within};
ghost use Rattle.acn_extreme_laws.specs.Best as best;

use acn_num::RangeSet;
use acn_single::{least_character, other_character};
use acn_terminators::first_end;
use acn_tree::Pattern;

// Whether one such character in front of the terminator doesn't end the text too early.
fn can_stand(end: &Pattern, character: u8) -> bool
    ensures { result ≡ best.can_stand end.now character }
{
    first_end(end, &[character]).is_none()
}

/// The least character of the alphabet of which texts with this terminator can be made, where there is one.
pub fn character_by(end: &Option<Pattern>, alphabet: &RangeSet) -> u8
    requires { all_within (pos 0) (pos 127) alphabet.now ≡ true }
    ensures { result ≡ best.character_by end.now alphabet.now }
{
    let least = least_character(alphabet);
    match end {
        None => least,
        Some(end) => {
            if can_stand(end, least) {
                least
            } else {
                other_character(end, alphabet)
            }
        }
    }
}
