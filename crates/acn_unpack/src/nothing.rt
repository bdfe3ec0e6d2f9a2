//! Nothing is kept.

ghost use Rattle.std.specs.Prelude.{◌≡◌, ◌≤◌, ◌<◌, length, OnOk, IfErr};
ghost use Rattle.acn_bits.specs.Reading.{passed};
ghost use Rattle.acn_reads.specs.Decoded.{Tells};
ghost use Rattle.acn_unpack.specs.Keeps.{Halts, IsShort};

use crate::keep::Keep;
use acn_bits::ReadCursor;
use acn_grammar::{NumLeaf, ReadFault, Sizing, TextLeaf};
use acn_num::NoMemory;
use acn_reads::{Stop, given_size, named, read_size};
use acn_text::read_text as read_characters;

/// What keeps nothing.
#[derive(Drop)]
pub struct Nothing;

// Passes so many bits.
fn pass(cur: &mut ReadCursor<'_>, bits: u64, inside: bool, from: u64) -> Result<(), Stop>
    ensures room { OnOk result (bits ≤ length cur.old.rest) }
    ensures moved { OnOk result (cur.new ≡ passed bits cur.old) }
    ensures short { IfErr result (IsShort inside from (length cur.old.rest < bits)) }
{
    match cur.skip(bits) {
        Ok(()) => Ok(()),
        Err(_) => Err(Stop::Fails {
            reason: named(inside, ReadFault::Short),
            at: from,
        }),
    }
}

impl Keep for Nothing {
    ghost use Rattle.std.specs.Prelude.{false};

    type Kept = ();

    type Places = ();

    type Elements = ();

    ghost says = { λ _ _. Unit {0} };

    ghost places_say = { λ _ _. Unit {0} };

    ghost elements_say = { λ _ _. Unit {0} };

    ghost takes = { false };

    fn number(&self, _: &NumLeaf, _: &i128) {}

    fn octets(
        &self,
        cur: &mut ReadCursor<'_>,
        sizing: &Sizing,
        slots: &[(u32, i128)],
        inside: bool,
        from: u64,
    ) -> Result<(), Stop> {
        match read_size(cur, sizing, slots, inside, from) {
            Ok(n) => pass(cur, 8 * n, inside, from),
            Err(stop) => Err(stop),
        }
    }

    fn bits(
        &self,
        cur: &mut ReadCursor<'_>,
        sizing: &Sizing,
        slots: &[(u32, i128)],
        inside: bool,
        from: u64,
    ) -> Result<(), Stop> {
        match read_size(cur, sizing, slots, inside, from) {
            Ok(n) => pass(cur, n, inside, from),
            Err(stop) => Err(stop),
        }
    }

    fn text(
        &self,
        cur: &mut ReadCursor<'_>,
        leaf: &TextLeaf,
        slots: &[(u32, i128)],
        inside: bool,
        from: u64,
    ) -> Result<(), Stop> {
        match given_size(&leaf.sized, slots) {
            Ok(given) => match read_characters(cur, leaf, given, &mut |_| ()) {
                Ok(_) => Ok(()),
                Err(fault) => Err(Stop::Fails {
                    reason: named(inside, fault),
                    at: from,
                }),
            },
            Err(fault) => Err(Stop::Fails {
                reason: named(inside, fault),
                at: from,
            }),
        }
    }

    fn no_places(&self, _: usize) -> Result<(), NoMemory> {
        Ok(())
    }

    fn add_component(&self, _: &mut (), _: ()) -> Result<(), NoMemory> {
        Ok(())
    }

    fn add_absent(&self, _: &mut ()) -> Result<(), NoMemory> {
        Ok(())
    }

    fn sequence(&self, _: ()) {}

    fn no_elements(&self) {}

    fn add_element(&self, _: &mut (), _: ()) -> Result<(), NoMemory> {
        Ok(())
    }

    fn list(&self, _: ()) {}

    fn alternative(&self, _: u32, _: ()) -> Result<(), NoMemory> {
        Ok(())
    }
}
