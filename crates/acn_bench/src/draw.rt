ghost use Rattle.std.specs.Prelude.{◌≡◌, ◌+◌, ◌*◌, ◌/◌, ◌%◌, ◌^◌};

/// A generator of numbers, which gives the same ones at each run: a linear congruence whose upper halves are drawn.
#[derive(Clone, Drop)]
pub struct Draw {
    state: u64,
}

impl Draw {
    /// The generator at its start.
    pub fn new() -> Draw {
        Draw {
            state: 1442695040888963407,
        }
    }

    /// The next number, of 32 bits.
    pub fn next(&mut self) -> u64
        ensures step { self.new.state ≡ (self.old.state * 6364136223846793005 + 1442695040888963407) % 2 ^ 64 }
        ensures upper_half { result ≡ self.new.state / 2 ^ 32 }
    {
        self.state = self
            .state
            .wrapping_mul(6364136223846793005)
            .wrapping_add(1442695040888963407);
        self.state >> 32
    }
}

/// Draws each octet.
pub fn fill(draw: &mut Draw, octets: &mut [u8]) {
    for octet in octets {
        *octet = (draw.next() % 256) as u8;
    }
}
