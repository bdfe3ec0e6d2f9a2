//! Inserted fields that say a slot's number.

ghost use Rattle.std.specs.Prelude.{◌≡◌, ◌<◌, ℕ, suc, ℤ, Bool, List, [], IsTrue, IfOk, IfErr, OnOk, length};
ghost use Rattle.acn_bits.specs.Reading.{Reads};
ghost use Rattle.acn_grammar.specs.Code.{Any, Code};
ghost use Rattle.acn_grammar.specs.Env.{Env};
ghost use Rattle.acn_grammar.specs.Grammar.{Grammar, Fields, node as a_node, num, inserted};
ghost use Rattle.acn_grammar.specs.ItemsNamed.{ItemsNamed};
ghost use Rattle.acn_grammar.specs.declared.node.NumLeaf.{NumLeaf};
ghost use Rattle.acn_grammar.specs.Leaves.{num_fine};
ghost use Rattle.acn_grammar.specs.View.{grammar_of};
ghost use Rattle.acn_grammar.specs.Spell.{◌then◌, Padding};
ghost use Rattle.acn_reads.specs.Steps.{IsNumber};
ghost use Rattle.acn_reads.specs.Decoded.{Tells, Fine, FieldsStand, NodeStops, Turn, FieldsStop};

use acn_bits::ReadCursor;
use acn_grammar::{Body, Node, NumLeaf};
use acn_num::{Path, Row};
use acn_reads::{Stop, note, read_code};

// The leaf of a field.
fn leaf_of(node: &Node) -> &NumLeaf
    requires { IsNumber (grammar_of node.now) }
    ensures { grammar_of node.now ≡ a_node node.now.align (num result.now) }
{
    match &node.body {
        Body::Num(leaf) => leaf,
        Body::Octets(_) => unreachable!(),
        Body::Bits(_) => unreachable!(),
        Body::Text(_) => unreachable!(),
        Body::Seq(_) => unreachable!(),
        Body::List(_, _) => unreachable!(),
        Body::Choice(_) => unreachable!(),
        Body::Contained(_, _) => unreachable!(),
    }
}

/// Reads field k of a SEQUENCE, an inserted one, and notes its number where it says a slot's.
pub fn read_inserted(
    node: &Node,
    slot: Option<u32>,
    root: &Node,
    cur: &mut ReadCursor<'_>,
    slots: &mut Row<(u32, i128)>,
    path: &mut Path,
    inside: bool,
    k: u32,
) -> Result<(), Stop>
    requires ready { (around : List ℕ) × (fs : Fields) × FieldsStand (grammar_of root.now) (suc (length path.old)) (inserted [] (grammar_of node.now) slot fs) slots.old around }
    requires named { ItemsNamed (grammar_of node.now) }
    requires fine { Fine (grammar_of root.now) slots.old }
    ensures read { OnOk result ((place : ℕ) (name : List ℕ) (fs : Fields) (flags : List Bool) → Turn (grammar_of root.now) (record { path = path.old; place = place; inside = inside }) cur.old.origin k (suc k) (inserted name (grammar_of node.now) slot fs) fs [] slots.old slots.new flags flags cur.old cur.new) }
    ensures fails { IfErr result (λ e. Tells e (λ r at. (place : ℕ) (name : List ℕ) (fs : Fields) (flags : List Bool) → FieldsStop (grammar_of root.now) (inserted name (grammar_of node.now) slot fs) flags (record { path = path.old; place = place; inside = inside }) cur.old.origin k slots.old cur.old path.new r at)) }
    ensures path { OnOk result (path.new ≡ path.old) }
{
    match read_code(cur, node.align, leaf_of(node), inside) {
        Ok(x) => {
            note(slots, slot, &x)?;
            Ok(())
        }
        Err(stop) => {
            path.push(k);
            Err(stop)
        }
    }
}
