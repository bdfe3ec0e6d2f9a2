//! Numbers that are read.

ghost use Rattle.std.specs.Prelude.{◌≡◌, ◌<◌, ◌++◌, ◌∷◌, [], ℕ, ℤ, List, Option, Some, length, IsTrue, IfOk, IfErr, OnOk};
ghost use Rattle.acn_bits.specs.Reading.{Reads};
ghost use Rattle.acn_ints.specs.Reads.{Refused};
ghost use Rattle.acn_grammar.specs.Code.{Any, Code, NumberOf};
ghost use Rattle.acn_grammar.specs.Env.{Env};
ghost use Rattle.acn_grammar.specs.Grammar.{Grammar, Data, node as a_node, num};
ghost use Rattle.acn_grammar.specs.ItemsNamed.{FormItemsNamed};
ghost use Rattle.acn_grammar.specs.Leaves.{num_fine};
ghost use Rattle.acn_grammar.specs.Length.{number_of};
ghost use Rattle.acn_num.specs.declared.limits.TheConstants.{MOST_STEPS};
ghost use Rattle.acn_reads.specs.Decoded.{Fine, NodeRead, NodeStops};
ghost use Rattle.acn_reads.specs.Steps.{Named, noted_by};
ghost use Rattle.acn_unpack.specs.Keeps.{Halts, IsFree, MayLack};

use crate::keep::Keep;
use crate::slots::note;
use acn_bits::ReadCursor;
use acn_grammar::NumLeaf;
use acn_ints::read_num;
use acn_num::Path;
use acn_open_slots::SlotTable;
use acn_reads::{Stop, named, read_code};

/// What is kept of a number leaf.
pub fn read_leaf<K: Keep>(
    keep: &K,
    cur: &mut ReadCursor<'_>,
    leaf: &NumLeaf,
    inside: bool,
    from: u64,
) -> Result<K::Kept, Stop>
    requires fine { IsTrue (num_fine leaf.now) }
    requires named { FormItemsNamed (num leaf.now) }
    ensures read { IfOk result (λ kept. (d : Data) × K.says kept d × Reads (λ bs. (x : ℤ) × NumberOf leaf.now.kind d x × Code Any leaf.now x bs) cur.old cur.new) }
    ensures fails { IfErr result (λ e. Halts ⊥ e (Named inside from (Refused leaf.now cur.old.rest))) }
{
    match read_num(cur, leaf) {
        Ok(x) => Ok(keep.number(leaf, &x)),
        Err(fault) => Err(Stop::Fails {
            reason: named(inside, fault),
            at: from,
        }),
    }
}

/// What is kept of a component that is a number, at a step from the SEQUENCE. Its number is noted where it is a slot's.
pub fn read_number<K: Keep, T: SlotTable>(
    keep: &K,
    align: u32,
    leaf: &NumLeaf,
    slot: Option<u32>,
    cur: &mut ReadCursor<'_>,
    slots: &mut T,
    path: &mut Path,
    inside: bool,
    k: u32,
) -> Result<K::Kept, Stop>
    requires room { length path.old < MOST_STEPS }
    requires some { 0 < align }
    requires fine { IsTrue (num_fine leaf.now) }
    requires named { FormItemsNamed (num leaf.now) }
    requires free { (s : ℕ) → slot ≡ Some s → IsFree s (T.env slots.old) }
    ensures read { IfOk result (λ kept. (d : Data) × K.says kept d × (T.env slots.new ≡ noted_by slot (number_of d) (T.env slots.old)) × ((root : Grammar) (t : Env) → Fine root t → NodeRead root (a_node align (num leaf.now)) d t t cur.old cur.new)) }
    ensures fails { IfErr result (λ e. Halts (MayLack K.takes T.places) e (λ r at. (root : Grammar) (t : Env) → Fine root t → NodeStops root (a_node align (num leaf.now)) inside (path.old ++ k ∷ []) t cur.old path.new r at)) }
    ensures path { OnOk result (path.new ≡ path.old) }
{
    match read_code(cur, align, leaf, inside) {
        Ok(x) => match note(slots, slot, &x) {
            Ok(()) => Ok(keep.number(leaf, &x)),
            Err(stop) => Err(stop),
        },
        Err(stop) => {
            path.push(k);
            Err(stop)
        }
    }
}
