//! The call.

ghost use Rattle.std.specs.Prelude.{◌≡◌, ◌≤◌, ◌*◌, false, [], length, IfOk, IfErr};
ghost use Rattle.acn_num.specs.Bits.{bits};
ghost use Rattle.acn_grammar.specs.Front.{Front};
ghost use Rattle.acn_grammar.specs.ItemsNamed.{ItemsNamed};
ghost use Rattle.acn_grammar.specs.View.{grammar_of, data_of};
ghost use Rattle.acn_packet_laws.specs.Laws.{IsAccepted};
ghost use Rattle.acn_reads.specs.Answers.{OnlyFault, OnlyFront, Refuses};
ghost use Rattle.acn_reads.specs.declared.answers.TheConstants.{MOST_BYTES};
ghost use Rattle.acn_grammar.specs.Sound.{Sound};

use crate::read::read_node;
use acn_bits::ReadCursor;
use acn_grammar::{Node, Refuse, Value};
use acn_num::{Path, Row};
use acn_packet_laws::{accepted_is_sound, fronts_exclude_failures, one_failure, one_front};
use acn_reads::refusal;
use std::alloc::Global;

// The same of a root that is sound.
fn read_root(alloc: Global, root: &Node, bytes: &[u8]) -> Result<(Value, u64), Refuse>
    requires sound { Sound (grammar_of root.now) 0 [] (λ s. false) (grammar_of root.now) }
    requires named { ItemsNamed (grammar_of root.now) }
    requires few { length bytes.now ≤ MOST_BYTES }
    ensures front { IfOk result (λ pair. Front (grammar_of root.now) (bits bytes.now) (data_of pair.0) pair.1) }
    ensures fault { IfErr result (Refuses (grammar_of root.now) (bits bytes.now)) }
{
    let mut cur = ReadCursor::new(bytes, 8 * bytes.len() as u64);
    let mut slots = Row::new(alloc);
    let mut path = Path::new();
    match read_node(alloc, root, root, &mut cur, &mut slots, &mut path, false) {
        Ok(value) => {
            let used = cur.at();
            Ok((value, used))
        }
        Err(stop) => Err(refusal(stop, path)),
    }
}

/// Reads the value at the front of the bytes, by the root of a tree that the check accepts, and answers it with the number
/// of its bits.
///
/// `Bad` comes exactly where no value is at the front: the one failure that there is. `NoMemory` comes where memory runs out.
pub fn read_packet(alloc: Global, root: &Node, bytes: &[u8]) -> Result<(Value, u64), Refuse>
    requires accepted { IsAccepted (grammar_of root.now) }
    requires named { ItemsNamed (grammar_of root.now) }
    requires few { length bytes.now ≤ MOST_BYTES }
    ensures front { IfOk result (λ pair. Front (grammar_of root.now) (bits bytes.now) (data_of pair.0) pair.1) }
    ensures alone { IfOk result (λ pair. OnlyFront (grammar_of root.now) (bits bytes.now) (data_of pair.0) pair.1) }
    ensures fault { IfErr result (Refuses (grammar_of root.now) (bits bytes.now)) }
    ensures only { IfErr result (OnlyFault (grammar_of root.now) (bits bytes.now)) }
{
    accepted_is_sound();
    one_front();
    fronts_exclude_failures();
    one_failure();
    match read_root(alloc, root, bytes) {
        Ok(pair) => Ok(pair),
        Err(refuse) => Err(refuse),
    }
}
