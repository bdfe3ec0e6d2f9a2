//! What the size of contents asks.

ghost use Rattle.std.specs.Prelude.{◌≡◌, ◌∷◌, OnOk};
ghost use Rattle.acn_num.specs.Bits.{octets as octets_for};
ghost use Rattle.acn_grammar.specs.Asks as asks;
ghost use Rattle.acn_grammar.specs.Grammar.{Grammar};
ghost use Rattle.acn_grammar.specs.Length.{bit_length};
ghost use Rattle.acn_grammar.specs.Scoped.{RuleIn};
ghost use Rattle.acn_grammar.specs.Tree.{holds};
ghost use Rattle.acn_grammar.specs.View.{data_of, grammar_of};
ghost use Rattle.acn_asking.specs.Gathered.{paths_of, slots_of, LeavesIn, Gathers};
ghost use Rattle.acn_gather_laws.specs.CanGather.{HasLength};

use acn_asking::{Open, ask_size, count};
use acn_asks::Moment;
use acn_grammar::{Node, Sizing, Value};
use acn_lengths::bit_end;
use acn_num::{NoMemory, Path, Row};
use std::alloc::Global;

// How many octets contents take.
fn octets_of(content: &Node, v: &Value) -> u64
    requires { HasLength (grammar_of content.now) (data_of v.now) }
    ensures { result ≡ octets_for (bit_length (grammar_of content.now) 0 (data_of v.now)) }
{
    (bit_end(content, 0, v) + 7) / 8
}

/// What the contents at the path show and ask: their count of octets.
pub fn ask_contents<'t>(
    alloc: Global,
    sizing: &'t Sizing,
    content: &Node,
    v: &Value,
    path: &Path,
    slots: &[Open<'t>],
    gathered: &mut Row<Moment<'t>>,
) -> Result<(), NoMemory>
    requires known { RuleIn (holds (slots_of slots.now)) sizing.now.rule }
    requires length { HasLength (grammar_of content.now) (data_of v.now) }
    ensures { OnOk result ((root : Grammar) → LeavesIn root slots.now → Gathers root (asks.counts path.now (octets_for (bit_length (grammar_of content.now) 0 (data_of v.now))) sizing.now ∷ asks.size_asks (paths_of slots.now) path.now (octets_for (bit_length (grammar_of content.now) 0 (data_of v.now))) sizing.now.rule) gathered.old gathered.new) }
{
    let octets = octets_of(content, v);
    count(alloc, path, octets, sizing, gathered)?;
    ask_size(alloc, path, slots, octets, &sizing.rule, gathered)
}
