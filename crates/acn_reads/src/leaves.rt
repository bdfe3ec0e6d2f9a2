//! Number leaves.

ghost use Rattle.std.specs.Prelude.{◌≡◌, ◌<◌, ◌++◌, ◌∷◌, [], ℕ, ℤ, List, length, IsTrue, IfOk, IfErr, OnOk};
ghost use Rattle.acn_bits.specs.Reading.{Reads};
ghost use Rattle.acn_ints.specs.Reads.{Refused};
ghost use Rattle.acn_grammar.specs.Code.{Any, Code, NumberOf};
ghost use Rattle.acn_grammar.specs.Env.{Env};
ghost use Rattle.acn_grammar.specs.Fails.{seen};
ghost use Rattle.acn_grammar.specs.Faults.{reason_of};
ghost use Rattle.acn_grammar.specs.Grammar.{Grammar, node as a_node, num};
ghost use Rattle.acn_grammar.specs.ItemsNamed.{FormItemsNamed};
ghost use Rattle.acn_grammar.specs.Leaves.{num_fine};
ghost use Rattle.acn_grammar.specs.ReadFaults.{reason_of as reason_of_leaf};
ghost use Rattle.acn_grammar.specs.Spell.{◌then◌, Padding};
ghost use Rattle.acn_grammar.specs.View.{data_of};
ghost use Rattle.acn_num.specs.declared.limits.TheConstants.{MOST_STEPS};
ghost use Rattle.acn_reads.specs.Decoded.{Fine, IsFault, NodeRead, NodeStops, Tells};
ghost use Rattle.acn_reads.specs.Steps.{Named};

use crate::steps::{number_value, pad};
use crate::stop::Stop;
use acn_bits::ReadCursor;
use acn_grammar::{NumLeaf, ReadFault, Reason, Value};
use acn_ints::read_num;
use acn_num::Path;

// What a leaf's fault is called at a node.
pub fn named(inside: bool, fault: ReadFault) -> Reason
    ensures { reason_of result ≡ seen inside (reason_of_leaf fault) }
{
    match fault {
        ReadFault::Short => {
            if inside {
                Reason::PastContent
            } else {
                Reason::Short
            }
        }
        ReadFault::OutOfRange { wire } => Reason::OutOfRange { wire },
        ReadFault::NotMinimal => Reason::NotMinimal,
        ReadFault::BadDigit => Reason::BadDigit,
        ReadFault::BadCharacter => Reason::BadCharacter,
        ReadFault::BadPattern => Reason::BadPattern,
        ReadFault::TooLong => Reason::TooLong,
        ReadFault::SizeOutOfRange { n } => Reason::SizeOutOfRange { n },
    }
}

// The value of a number leaf.
pub fn read_leaf(
    cur: &mut ReadCursor<'_>,
    leaf: &NumLeaf,
    inside: bool,
    from: u64,
) -> Result<Value, Stop>
    requires fine { IsTrue (num_fine leaf.now) }
    requires named { FormItemsNamed (num leaf.now) }
    ensures read { IfOk result (λ v. Reads (λ bs. (x : ℤ) × NumberOf leaf.now.kind (data_of v) x × Code Any leaf.now x bs) cur.old cur.new) }
    ensures fails { IfErr result (λ e. Tells e (Named inside from (Refused leaf.now cur.old.rest))) }
    ensures fault { IfErr result IsFault }
{
    match read_num(cur, leaf) {
        Ok(x) => Ok(number_value(leaf, &x)),
        Err(fault) => Err(Stop::Fails {
            reason: named(inside, fault),
            at: from,
        }),
    }
}

/// The number of a leaf, behind its padding.
pub fn read_code(
    cur: &mut ReadCursor<'_>,
    align: u32,
    leaf: &NumLeaf,
    inside: bool,
) -> Result<i128, Stop>
    requires some { 0 < align }
    requires fine { IsTrue (num_fine leaf.now) }
    ensures read { IfOk result (λ x. Reads (λ bs. (Padding Any align then (λ at' cs. Code Any leaf.now x cs)) cur.old.at bs) cur.old cur.new) }
    ensures fails { IfErr result (λ e. Tells e (λ r at. (root : Grammar) (path : List ℕ) (t : Env) → Fine root t → NodeStops root (a_node align (num leaf.now)) inside path t cur.old path r at)) }
    ensures fault { IfErr result IsFault }
{
    let from = cur.reach();
    match pad(cur, align) {
        Ok(()) => match read_num(cur, leaf) {
            Ok(x) => Ok(x),
            Err(fault) => Err(Stop::Fails {
                reason: named(inside, fault),
                at: from,
            }),
        },
        Err(_) => Err(Stop::Fails {
            reason: named(inside, ReadFault::Short),
            at: from,
        }),
    }
}

/// The value of a node that is a number leaf, at a step from the node around it. The path has this step where it can't be read.
pub fn read_number(
    cur: &mut ReadCursor<'_>,
    align: u32,
    leaf: &NumLeaf,
    path: &mut Path,
    inside: bool,
    k: u32,
) -> Result<Value, Stop>
    requires room { length path.old < MOST_STEPS }
    requires some { 0 < align }
    requires fine { IsTrue (num_fine leaf.now) }
    requires named { FormItemsNamed (num leaf.now) }
    ensures read { IfOk result (λ v. (root : Grammar) (t : Env) → Fine root t → NodeRead root (a_node align (num leaf.now)) (data_of v) t t cur.old cur.new) }
    ensures fails { IfErr result (λ e. Tells e (λ r at. (root : Grammar) (t : Env) → Fine root t → NodeStops root (a_node align (num leaf.now)) inside (path.old ++ k ∷ []) t cur.old path.new r at)) }
    ensures path { OnOk result (path.new ≡ path.old) }
    ensures fault { IfErr result IsFault }
{
    match read_code(cur, align, leaf, inside) {
        Ok(x) => Ok(number_value(leaf, &x)),
        Err(stop) => {
            path.push(k);
            Err(stop)
        }
    }
}
