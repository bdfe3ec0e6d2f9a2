ghost use Rattle.std.specs.Prelude.{◌≡◌, ◌<◌, ◌/◌, ◌^◌};
ghost use Rattle.acn_tree.specs.Made as made;

use std::marker::Model;

/// A source of numbers that its start determines: a linear congruence modulo 2^64, which contracts see as its number.
#[derive(Drop)]
pub struct Draw {
    number: u64,
}

impl Model for Draw {
    ghost use Rattle.std.specs.Prelude.{ℕ};

    ghost Value = { ℕ };

    ghost view = { λ draw. draw.number };
}

impl Draw {
    /// The numbers from this start.
    pub fn new(start: u64) -> Draw
        ensures { result ≡ start }
    {
        Draw { number: start }
    }

    /// A draw that stands where this one stands.
    pub fn copy(&self) -> Draw
        ensures { result ≡ self.now }
    {
        Draw {
            number: self.number,
        }
    }

    // The upper half of the next number.
    fn step(&mut self) -> u64
        ensures number { self.new ≡ made.step self.old }
        ensures half { result ≡ made.step self.old / 2 ^ 32 }
        ensures small { result < 2 ^ 32 }
    {
        self.number = self
            .number
            .wrapping_mul(6364136223846793005)
            .wrapping_add(1442695040888963407);
        self.number >> 32
    }

    /// One of n numbers from 0.
    pub fn pick(&mut self, n: u128) -> u128
        requires { 0 < n }
        ensures number { result ≡ (made.pick n self.old).value }
        ensures draw { self.new ≡ (made.pick n self.old).state }
        ensures within { result < n }
    {
        let high = self.step();
        let low = self.step();
        (u128::from(high) * 4294967296 + u128::from(low)) % n
    }
}
