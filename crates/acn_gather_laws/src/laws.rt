//! The law.

ghost use Rattle.acn_gather_laws.specs.CanGather.{SoundValuesCanBeGathered};

use acn_packet_laws::known_behind;

/// A value of a sound node that meets its constraints, and isn't longer than the limit that lengths are held down to, can be gathered.
pub fn sound_values_can_be_gathered()
    ensures { SoundValuesCanBeGathered }
{
    known_behind();
}
