ghost use Rattle.std.specs.Prelude.{◌≡◌, ◌<◌, ◌≤◌, Option, Some, None, [], length, take, option_map};
ghost use Rattle.acn_outside.specs.Memory.{fitting};

use crate::copies::copy_to;
use std::marker::Model;

/// A room that is written over from its front, as far as its length goes, at most `piece` bytes in a call.
#[derive(Drop)]
pub struct Room {
    room: Vec<u8>,
    at: usize,
    fits: bool,
    piece: usize,
}

impl Model for Room {
    ghost use Rattle.std.specs.Prelude.{◌≤◌, Some, None, take, vec_len, if◌then◌else◌};
    ghost use Rattle.acn_outside.specs.Memory.{Filling};

    ghost Value = { Filling };

    ghost view = { λ r. record { taken = if r.fits then Some (take r.at r.room.items) else None; size = vec_len r.room; piece = r.piece } };

    ghost invariant = { λ r. (1 ≤ r.piece) × (r.at ≤ vec_len r.room) };
}

impl Room {
    /// Nothing is taken yet.
    pub fn new(room: Vec<u8>, piece: usize) -> Room
        requires { 1 ≤ piece }
        ensures { result ≡ record { taken = Some []; size = length room.items; piece = piece } }
    {
        Room {
            room,
            at: 0,
            fits: true,
            piece,
        }
    }

    /// The bytes taken, while all of them fitted.
    pub fn bytes(&self) -> Option<&[u8]>
        ensures { option_map (λ bytes. bytes.now) result ≡ self.now.taken }
    {
        if self.fits {
            Some(&self.room[..self.at])
        } else {
            None
        }
    }

    /// Appends the first bytes of a piece, and answers how many.
    pub fn accept(&mut self, from: &[u8]) -> usize
        ensures within { result ≤ length from.now }
        ensures some { 0 < length from.now → 0 < result }
        ensures at_most { result ≤ self.old.piece }
        ensures taken { self.new.taken ≡ fitting self.old.size self.old.taken (take result from.now) }
        ensures size { self.new.size ≡ self.old.size }
        ensures same { self.new.piece ≡ self.old.piece }
    {
        let n = from.len().min(self.piece);
        let fitting = n.min(self.room.len() - self.at);
        copy_to(&mut self.room, self.at, &from[..fitting]);
        self.at += fitting;
        self.fits = self.fits & (fitting == n);
        n
    }
}
