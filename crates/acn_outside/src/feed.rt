ghost use Rattle.std.specs.Prelude.{◌≡◌, ◌<◌, ◌≤◌, ◌++◌, [], length, take};

use crate::copies::copy_front;
use std::marker::Model;

/// Bytes that are given from their front on, at most `piece` of them in a call.
#[derive(Drop)]
pub struct Feed {
    bytes: Vec<u8>,
    at: usize,
    piece: usize,
}

impl Model for Feed {
    ghost use Rattle.std.specs.Prelude.{◌≤◌, drop, vec_len};
    ghost use Rattle.acn_outside.specs.Memory.{Feeding};

    ghost Value = { Feeding };

    ghost view = { λ feed. record { rest = drop feed.at feed.bytes.items; piece = feed.piece } };

    ghost invariant = { λ feed. (1 ≤ feed.piece) × (feed.at ≤ vec_len feed.bytes) };
}

impl Feed {
    /// All these bytes are still to be given.
    pub fn new(bytes: Vec<u8>, piece: usize) -> Feed
        requires { 1 ≤ piece }
        ensures { result ≡ record { rest = bytes.items; piece = piece } }
    {
        Feed {
            bytes,
            at: 0,
            piece,
        }
    }

    /// Moves the next bytes to the front of a piece, and answers how many.
    pub fn give(&mut self, into: &mut [u8]) -> usize
        ensures within { result ≤ length into.old }
        ensures at_most { result ≤ self.old.piece }
        ensures moved { self.old.rest ≡ take result into.new ++ self.new.rest }
        ensures end { result ≡ 0 → 0 < length into.old → self.new.rest ≡ [] }
        ensures same { self.new.piece ≡ self.old.piece }
    {
        let n = into.len().min(self.bytes.len() - self.at).min(self.piece);
        copy_front(&self.bytes[self.at..self.at + n], into);
        self.at += n;
        n
    }
}
