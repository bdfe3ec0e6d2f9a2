//! The call.

ghost use Rattle.std.specs.Prelude.{ℕ, List, Option, [], IfOk};
ghost use Rattle.acn_asks.specs.Judged.{Judged};
ghost use Rattle.acn_grammar.specs.Asks.{moments};
ghost use Rattle.acn_grammar.specs.Front.{IsWritten};
ghost use Rattle.acn_grammar.specs.Meets.{Meets};
ghost use Rattle.acn_grammar.specs.View.{data_of, grammar_of};
ghost use Rattle.acn_packet_laws.specs.Laws.{IsAccepted, TellsSlots};
ghost use Rattle.acn_plain_write.specs.Ready.{Ready};

use crate::write::write_node;
use acn_asks::Heard;
use acn_grammar::{Node, Value};
use acn_lengths::sound_values_can_be_measured;
use acn_num::{BitList, NoMemory, Path, Row};
use acn_packet_laws::{
    accepted_is_sound, each_length_is_told, each_occurrence_asks, each_path_has_its_number,
    each_value_is_written_or_refused, parts_are_of_nodes, spellings_have_no_breach,
    values_are_of_nodes,
};
use std::alloc::Global;

// The bits of a value that is ready to be written.
fn write_root(alloc: Global, root: &Node, v: &Value, heard: &Heard) -> Result<BitList, NoMemory>
    requires { Ready (grammar_of root.now) heard.now (grammar_of root.now) [] [] (data_of v.now) }
    ensures { IfOk result (λ bits. IsWritten (grammar_of root.now) (data_of v.now) bits) }
{
    let none = Row::new(alloc);
    let mut path = Path::new();
    let mut bits = BitList::new(alloc);
    write_node(
        alloc,
        root,
        v,
        root,
        heard,
        none.items(),
        &mut path,
        &mut bits,
        0,
    )?;
    Ok(bits)
}

/// The bits of a value, by the root of a tree that the check accepts and by what its moments ask, where all of them can be
/// met: each determinant has the least number that meets what is asked of it. `NoMemory` comes where memory runs out.
pub fn write_packet(
    alloc: Global,
    root: &Node,
    v: &Value,
    heard: &Heard,
) -> Result<BitList, NoMemory>
    requires accepted { IsAccepted (grammar_of root.now) }
    requires meets { Meets (grammar_of root.now) (data_of v.now) }
    requires met { (slot_at : List ℕ → Option ℕ) × TellsSlots (grammar_of root.now) slot_at × Judged (grammar_of root.now) slot_at (moments (grammar_of root.now) (grammar_of root.now) [] [] (data_of v.now)) heard.now }
    ensures { IfOk result (λ bits. IsWritten (grammar_of root.now) (data_of v.now) bits) }
{
    accepted_is_sound();
    each_length_is_told();
    each_occurrence_asks();
    each_path_has_its_number();
    each_value_is_written_or_refused();
    parts_are_of_nodes();
    sound_values_can_be_measured();
    spellings_have_no_breach();
    values_are_of_nodes();
    write_root(alloc, root, v, heard)
}
