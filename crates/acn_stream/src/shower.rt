//! What is shown of packets.

ghost use Rattle.std.specs.Prelude.{◌≡◌, ◌≤◌, ◌++◌, None, length, take, OnOk, OnErr, IfSome};
ghost use Rattle.acn_num.specs.Bits.{bits, octets};
ghost use Rattle.acn_grammar.specs.Front.{Front};
ghost use Rattle.acn_grammar.specs.Grammar.{Grammar, Data};
ghost use Rattle.acn_grammar.specs.ItemsNamed.{ItemsNamed};
ghost use Rattle.acn_grammar.specs.View.{data_of};
ghost use Rattle.acn_json.specs.Kept.{Kept};
ghost use Rattle.acn_packet_laws.specs.Laws.{IsAccepted};
ghost use Rattle.acn_stream.specs.Recording.{IsPacket, Shown};
ghost use Rattle.acn_supply.specs.declared.window.TheConstants.{MOST_IN_HAND};

use acn_grammar::Value;
use acn_num::NoMemory;
use acn_transcode::Draft;

/// What is shown of the packets of a recording: a text of each.
pub trait Show {
    /// The grammar of the packets.
    ghost grammar: { Self → Grammar };

    /// What the texts need holds.
    ghost holds: { Self → Type 0 };

    /// The text of a packet, by its number from 1, its value and its octets.
    ghost shown: { Self → Shown };

    /// Puts the text of a packet behind what is there. It fails only where memory runs out, and then leaves a part of the text.
    fn show(
        &self,
        number: u64,
        value: &Value,
        piece: &[u8],
        text: &mut Vec<u8>,
    ) -> Result<(), NoMemory>
        requires holds { holds self.now }
        requires packet { IsPacket (grammar self.now) (data_of value.now) piece.now }
        requires few { length piece.now ≤ MOST_IN_HAND }
        ensures added { OnOk result (text.new.items ≡ text.old.items ++ shown self.now number (data_of value.now) piece.now) }
        ensures kept { OnErr result (Kept text.old.items text.new.items) };

    /// Puts the text of the packet at the front of the bytes behind what is there, and answers the
    /// number of the packet's bits, where this can be done faster than by a value, and a packet is
    /// there for sure. None says nothing of the bytes; then nothing is put.
    fn show_front(
        &self,
        number: u64,
        bytes: &[u8],
        draft: &mut Draft,
        text: &mut Vec<u8>,
    ) -> Option<u64>
        requires holds { holds self.now }
        requires accepted { IsAccepted (grammar self.now) }
        requires named { ItemsNamed (grammar self.now) }
        requires few { length bytes.now ≤ MOST_IN_HAND }
        ensures added { IfSome result (λ n. (d : Data) × Front (grammar self.now) (bits bytes.now) d n × (text.new.items ≡ text.old.items ++ shown self.now number d (take (octets n) bytes.now))) }
        ensures kept { result ≡ None → text.new.items ≡ text.old.items };
}
