//! The packets of a recording explained.

ghost use Rattle.std.specs.Prelude.{◌≡◌, ◌-◌, ◌++◌, ◌≤◌, ◌↔◌, [], length, IfOk, OnOk, OnErr, IsErrOf};
ghost use Rattle.std.specs.List.{flat_map};
ghost use Rattle.acn_num.specs.Bits.{bits as bits_of};
ghost use Rattle.acn_grammar.specs.Interval.{span};
ghost use Rattle.acn_grammar.specs.Length.{bit_length};
ghost use Rattle.acn_grammar.specs.View.{data_of, grammar_of};
ghost use Rattle.acn_json.specs.Kept.{Kept};
ghost use Rattle.acn_outside.specs.Counts.{Rose, Stays};
ghost use Rattle.acn_packet_laws.specs.Laws.{IsAccepted};
ghost use Rattle.acn_pieces.specs.Pieces.{part};
ghost use Rattle.acn_pieces.specs.declared.piece.PieceKind.TheVariants.{Fill};
ghost use Rattle.acn_plan.specs.Steps.{steps_of};
ghost use Rattle.acn_stream.specs.Recording.{IsPacket};
ghost use Rattle.acn_supply.specs.declared.window.TheConstants.{MOST_IN_HAND};
ghost use Rattle.acn_explain.specs.Explaining.{ExplainEnds};
ghost use Rattle.acn_explain.specs.Texts.{packet_line, packet_text, piece_line, recorded_pieces};

use crate::buffer::Buffer;
use crate::lines::{list_bits, put_packet};
use acn_check::Checked;
use acn_grammar::{Node, Value};
use acn_num::{NoMemory, Path, Row};
use acn_outside::{Sink, Source};
use acn_packet_laws::{accepted_is_sound, lengths_are_told, spelled_values_meet};
use acn_pieces::{Piece, PieceKind, list_pieces, sound_values_can_be_walked};
use acn_plan::Plan;
use acn_stream::{Show, StreamFault, show_all};
use acn_transcode::Draft;
use acn_tree::Tree;
use std::alloc::Global;
use std::mem;

/// The lines of the pieces of each packet.
#[derive(Clone, Copy)]
pub struct PieceLines<'a> {
    pub alloc: Global,
    pub tree: &'a Tree,
}

// The pieces of a packet of so many bits, with those that fill up the whole as the last.
fn with_fill(found: Row<Piece>, size: u64, whole: u64) -> Result<Row<Piece>, NoMemory>
    ensures { IfOk result (λ all. all ≡ found ++ part [] Fill size (whole - size)) }
{
    if whole <= size {
        return Ok(found);
    }
    let mut all = found;
    all.push(Piece {
        path: Path::new(),
        at: size,
        count: whole - size,
        kind: PieceKind::Fill,
    })?;
    Ok(all)
}

// The pieces of a packet of a recording, whose fill bits are the last one, and how many bits it has
// without them.
fn recorded(
    alloc: Global,
    root: &Node,
    value: &Value,
    piece: &[u8],
    bits: &[bool],
) -> Result<(Row<Piece>, u64), NoMemory>
    requires accepted { IsAccepted (grammar_of root.now) }
    requires packet { IsPacket (grammar_of root.now) (data_of value.now) piece.now }
    requires few { length piece.now ≤ MOST_IN_HAND }
    requires bits { bits.now ≡ bits_of piece.now }
    ensures pieces { IfOk result (λ found. found.0 ≡ recorded_pieces (grammar_of root.now) (data_of value.now) bits.now) }
    ensures size { IfOk result (λ found. found.1 ≡ bit_length (grammar_of root.now) 0 (data_of value.now)) }
{
    accepted_is_sound();
    lengths_are_told();
    spelled_values_meet();
    sound_values_can_be_walked();
    let (found, size) = list_pieces(alloc, root, value)?;
    let all = with_fill(found, size, bits.len() as u64)?;
    Ok((all, size))
}

// Puts lines behind a text, as far as memory is there.
fn put_lines(
    alloc: Global,
    tree: &Tree,
    number: u64,
    size: u64,
    bits: &[bool],
    pieces: &[Piece],
    text: &mut Vec<u8>,
) -> Result<(), NoMemory>
    ensures added { OnOk result (text.new.items ≡ text.old.items ++ (packet_line number size ++ flat_map (piece_line tree.now bits.now) pieces.now)) }
    ensures kept { OnErr result (Kept text.old.items text.new.items) }
{
    let mut buffer = Buffer::behind(mem::replace(text, Vec::new(alloc)));
    let answer = put_packet(&mut buffer, tree, number, size, bits, pieces);
    *text = buffer.into_text();
    match answer {
        Ok(()) => Ok(()),
        Err(_) => Err(NoMemory),
    }
}

impl Show for PieceLines<'_> {
    ghost grammar = { λ s. grammar_of s.tree.now.root };

    ghost holds = { λ s. IsAccepted (grammar_of s.tree.now.root) };

    ghost shown = { λ s number d piece. packet_text s.tree.now number d piece };

    fn show(
        &self,
        number: u64,
        value: &Value,
        piece: &[u8],
        text: &mut Vec<u8>,
    ) -> Result<(), NoMemory> {
        let bits = list_bits(self.alloc, piece)?;
        let (pieces, size) = recorded(self.alloc, self.tree.root(), value, piece, &bits)?;
        put_lines(
            self.alloc,
            self.tree,
            number,
            size,
            &bits,
            pieces.items(),
            text,
        )
    }

    // Each packet is explained by its value.
    fn show_front(
        &self,
        _number: u64,
        _bytes: &[u8],
        _draft: &mut Draft,
        _text: &mut Vec<u8>,
    ) -> Option<u64> {
        None
    }
}

/// Reads packets until the input ends and writes of each the line `packet K N`, its number and how many bits it has, and a line
/// `AT COUNT PATH KIND BITS` for each of its pieces, as `explain` tells them, and for the fill bits behind it, if there are any. It answers
/// how many packets there were. In a recording fewer than 8 fill bits, whichever they are, stand behind each packet up to an
/// octet. At most `limit` bytes are read, and one more to see whether the input ends there.
///
/// The plan is that of the tree, as `compile` of `acn_plan` makes it. The answers are those of `decode_all` of `acn_stream`, and come
/// where it has its own, but that the lines are these: `EmptyPacket` exactly where the least bound is 0; then nothing is
/// read. `Packet` names the first packet that can't be read, with the one failure that there is. `InputTooLong` comes where the bytes up to
/// the limit end inside a packet, or at its end, and one byte more came. `InputFault` and `OutputFault` come only where that count of
/// faults rose, and without them it stays; `NoMemory` comes where memory runs out. With each of these the output gained the lines of the
/// packets before, with `OutputFault` a front of them. (This profile's own.)
pub fn explain_all<S: Source, O: Sink>(
    alloc: Global,
    checked: &Checked,
    plan: &Plan,
    input: &mut S,
    out: &mut O,
    limit: u64,
) -> Result<u64, StreamFault>
    requires planned { steps_of (grammar_of checked.now.tree.root) ≡ plan.now.steps }
    ensures ends { ExplainEnds checked.now.tree limit (S.rest input.old) (S.rest input.new) (O.taken out.old) (O.taken out.new) result }
    ensures empty { IsErrOf result StreamFault.EmptyPacket ↔ ((span (grammar_of checked.now.tree.root)).least ≡ 0) }
    ensures input_fault { IsErrOf result StreamFault.InputFault → Rose (S.faults input.old) (S.faults input.new) }
    ensures output_fault { IsErrOf result StreamFault.OutputFault → Rose (O.faults out.old) (O.faults out.new) }
    ensures input_stays { (IsErrOf result StreamFault.InputFault → ⊥) → Stays (S.faults input.old) (S.faults input.new) }
    ensures output_stays { (IsErrOf result StreamFault.OutputFault → ⊥) → Stays (O.faults out.old) (O.faults out.new) }
    ensures input { S.faults input.old ≤ S.faults input.new }
    ensures output { O.faults out.old ≤ O.faults out.new }
{
    let shower = PieceLines {
        alloc,
        tree: checked.tree(),
    };
    show_all(alloc, checked, plan, &shower, input, out, limit)
}
