//! Writing.

ghost use Rattle.std.specs.Prelude.{◌≡◌, ℕ, List, Option, [], map, IfOk, IfErr};
ghost use Rattle.acn_asking.specs.Gathered.{with_numbers, with_domain};
ghost use Rattle.acn_asks.specs.Judged.{Judged};
ghost use Rattle.acn_asks.specs.Moments.{moment_of};
ghost use Rattle.acn_grammar.specs.Asks as asks;
ghost use Rattle.acn_grammar.specs.Front.{IsWritten};
ghost use Rattle.acn_grammar.specs.Meets.{Meets};
ghost use Rattle.acn_grammar.specs.Shaped.{Shaped};
ghost use Rattle.acn_grammar.specs.View.{grammar_of, data_of};
ghost use Rattle.acn_packet_laws.specs.Laws.{IsAccepted, TellsSlots};
ghost use Rattle.acn_plain.specs.Encoded.{OnlyWriting, Refuses, OnlyRefusal};
ghost use Rattle.acn_reads.specs.Answers.{IsReadAgain};

use crate::refusal::halted;
use acn_asks::{Heard, Moment, hear_all};
use acn_check::Checked;
use acn_gather_laws::sound_values_can_be_gathered;
use acn_grammar::{Node, Unfit, Value};
use acn_moments::moments;
use acn_num::BitList;
use acn_packet_laws::{
    accepted_is_sound, each_node_is_sound, each_path_has_its_number, fields_tell_their_slots,
    fronts_exclude_failures, no_fault_without_a_first, one_front, one_refusal, one_writing,
    refusals_are_at_nodes, refused_is_not_spelled, values_lie_within_bounds, written_is_read,
};
use acn_plain_write::write_packet;
use acn_tree::meets;
use std::alloc::Global;

/// Why a value isn't written.
#[derive(Drop)]
pub enum PlainFault {
    /// The value is none of the tree's: a place of it breaks a constraint, or, where none does, something asks of a determinant what
    /// can't be met, or contents have no permitted size.
    Unfit(Unfit),
    /// Memory is wanting.
    NoMemory,
}

// The bits, or why there are none, by the moments of a value that meets its constraints.
fn encode_heard(
    alloc: Global,
    root: &Node,
    v: &Value,
    moments: &[Moment<'_>],
) -> Result<BitList, PlainFault>
    requires accepted { IsAccepted (grammar_of root.now) }
    requires meets { Meets (grammar_of root.now) (data_of v.now) }
    requires gathered { map moment_of moments.now ≡ asks.moments (grammar_of root.now) (grammar_of root.now) [] [] (data_of v.now) }
    requires numbers { map with_numbers moments.now ≡ map (with_domain (grammar_of root.now)) (asks.moments (grammar_of root.now) (grammar_of root.now) [] [] (data_of v.now)) }
    ensures written { IfOk result (λ bits. IsWritten (grammar_of root.now) (data_of v.now) bits) }
    ensures refused { IfErr result (λ fault. Refuses (grammar_of root.now) (data_of v.now) fault) }
{
    each_node_is_sound();
    each_path_has_its_number();
    fields_tell_their_slots();
    refusals_are_at_nodes();
    match hear_all(alloc, moments) {
        Ok(heard) => write_heard(alloc, root, v, &heard),
        Err(halt) => Err(halted(moments, halt)),
    }
}

// The bits, where all moments can be met.
fn write_heard(alloc: Global, root: &Node, v: &Value, heard: &Heard) -> Result<BitList, PlainFault>
    requires accepted { IsAccepted (grammar_of root.now) }
    requires meets { Meets (grammar_of root.now) (data_of v.now) }
    requires met { (slot_at : List ℕ → Option ℕ) × TellsSlots (grammar_of root.now) slot_at × Judged (grammar_of root.now) slot_at (asks.moments (grammar_of root.now) (grammar_of root.now) [] [] (data_of v.now)) heard.now }
    ensures written { IfOk result (λ bits. IsWritten (grammar_of root.now) (data_of v.now) bits) }
    ensures refused { IfErr result (λ fault. Refuses (grammar_of root.now) (data_of v.now) fault) }
{
    match write_packet(alloc, root, v, heard) {
        Ok(bits) => Ok(bits),
        Err(_) => Err(PlainFault::NoMemory),
    }
}

// The bits of a value that meets its constraints, or why there are none.
fn encode_met(alloc: Global, root: &Node, v: &Value) -> Result<BitList, PlainFault>
    requires accepted { IsAccepted (grammar_of root.now) }
    requires meets { Meets (grammar_of root.now) (data_of v.now) }
    ensures written { IfOk result (λ bits. IsWritten (grammar_of root.now) (data_of v.now) bits) }
    ensures refused { IfErr result (λ fault. Refuses (grammar_of root.now) (data_of v.now) fault) }
{
    accepted_is_sound();
    each_path_has_its_number();
    no_fault_without_a_first();
    sound_values_can_be_gathered();
    values_lie_within_bounds();
    match moments(alloc, root, v) {
        Ok(moments) => encode_heard(alloc, root, v, moments.items()),
        Err(_) => Err(PlainFault::NoMemory),
    }
}

// A breach of a constraint goes before all that its moments ask.
fn encode(alloc: Global, root: &Node, v: &Value) -> Result<BitList, PlainFault>
    requires accepted { IsAccepted (grammar_of root.now) }
    requires shaped { Shaped (grammar_of root.now) (data_of v.now) }
    ensures written { IfOk result (λ bits. IsWritten (grammar_of root.now) (data_of v.now) bits) }
    ensures refused { IfErr result (λ fault. Refuses (grammar_of root.now) (data_of v.now) fault) }
{
    match meets(root, v) {
        Ok(()) => encode_met(alloc, root, v),
        Err(unfit) => Err(PlainFault::Unfit(unfit)),
    }
}

/// The bits of a value, which has the shape of the tree's root, as `shaped` of `acn_tree` tells: each determinant has the least permitted
/// number that meets all that is asked of it, and padding and fill are zeros. These bits alone are written for the value, and
/// followed by any others they are read again as it.
///
/// `Unfit` comes exactly where the value is refused, with the one reason that there is: the first breach of a constraint in preorder, and
/// where there is none the first ask in the order of the walk that can't be met after those before it, or the first contents
/// whose octets are no permitted size. No bits spell such a value. `NoMemory` comes where memory runs out. The order of reasons
/// is this profile's own.
pub fn plain_encode(alloc: Global, checked: &Checked, v: &Value) -> Result<BitList, PlainFault>
    requires { Shaped (grammar_of checked.now.tree.root) (data_of v.now) }
    ensures written { IfOk result (λ bits. IsWritten (grammar_of checked.now.tree.root) (data_of v.now) bits) }
    ensures alone { IfOk result (λ bits. OnlyWriting (grammar_of checked.now.tree.root) (data_of v.now) bits) }
    ensures read { IfOk result (λ bits. IsReadAgain (grammar_of checked.now.tree.root) (data_of v.now) bits) }
    ensures refused { IfErr result (λ fault. Refuses (grammar_of checked.now.tree.root) (data_of v.now) fault) }
    ensures only { IfErr result (λ fault. OnlyRefusal (grammar_of checked.now.tree.root) (data_of v.now) fault) }
{
    fronts_exclude_failures();
    one_front();
    one_refusal();
    one_writing();
    refused_is_not_spelled();
    written_is_read();
    encode(alloc, checked.tree().root(), v)
}
