ghost use Rattle.std.specs.Prelude.{◌≡◌, ◌+◌, ◌^◌, ◌<◌, ◌++◌, ◌∷◌, [], length, take, OnOk, option_map, pos, not, position};
ghost use Rattle.acn_num.specs.Ranges.{has};
ghost use Rattle.acn_tree.specs.Breaches.{found, found_at, first as first_why, refusal, place_breaches, why_of};
ghost use Rattle.acn_grammar.specs.Faults.{why_of as why_of_reason};
ghost use Rattle.acn_grammar.specs.Grammar.{list, list_of};
ghost use Rattle.acn_grammar.specs.Length.{number_of as number_of_data};
ghost use Rattle.acn_grammar.specs.Meets.{breach, breaches, form_breaches, field_breaches, alternative_breaches, run_breaches, first_of, unless, where_found, size_breach, end_breach, text_breach, bad_character, out_of_range};
ghost use Rattle.acn_tree.specs.Room.{InTree, HasRoom, FieldsHaveRoom, AlternativesHaveRoom, SizesAreSmall};
ghost use Rattle.acn_grammar.specs.View.{grammar_of, data_of, fields_view, places_view, elements_view, alternatives_view};

use acn_grammar::{
    Alternative, Body, Field, Node, NumLeaf, Pattern, Sizing, TextLeaf, Unfit, UnfitReason, Value,
};
use acn_num::{Path, RangeSet};
use acn_terminators::first_end;

// What one place of a value breaks.
#[derive(Clone, Copy)]
enum Breach {
    OutOfRange { value: i128 },
    SizeOutOfRange { n: u64 },
    BadCharacter { index: u64 },
    TerminatorInside { index: u64 },
}

fn reason(breach: Breach) -> UnfitReason
    ensures { why_of_reason result ≡ why_of breach }
{
    match breach {
        Breach::OutOfRange { value } => UnfitReason::OutOfRange { value },
        Breach::SizeOutOfRange { n } => UnfitReason::SizeOutOfRange { n },
        Breach::BadCharacter { index } => UnfitReason::BadCharacter { index },
        Breach::TerminatorInside { index } => UnfitReason::TerminatorInside { index },
    }
}

fn number_meets(leaf: &NumLeaf, v: &Value) -> Result<(), Breach>
    ensures { found result ≡ first_why (unless (has leaf.now.set (number_of_data (data_of v.now))) (out_of_range (number_of_data (data_of v.now)))) }
{
    let value = v.number();
    if leaf.set.holds(value) {
        Ok(())
    } else {
        Err(Breach::OutOfRange { value })
    }
}

fn size_meets(sizing: &Sizing, n: usize) -> Result<(), Breach>
    ensures { found result ≡ first_why (size_breach sizing.now n) }
{
    let n = n as u64;
    if sizing.sizes.holds_natural(n) {
        Ok(())
    } else {
        Err(Breach::SizeOutOfRange { n })
    }
}

fn characters_meet(alphabet: &RangeSet, text: &[u8]) -> Result<(), Breach>
    ensures { found result ≡ first_why (where_found (position (λ c. not (has alphabet.now (pos c))) text.now) bad_character) }
{
    let mut index = 0u64;
    for c in text {
        if !alphabet.holds_natural(u64::from(*c)) {
            return Err(Breach::BadCharacter { index });
        }
        index += 1;
    }
    Ok(())
}

fn end_meets(end: &Option<Pattern>, text: &[u8]) -> Result<(), Breach>
    ensures { found result ≡ first_why (end_breach end.now text.now) }
{
    match end {
        Some(end) => match first_end(end, text) {
            Some(index) => Err(Breach::TerminatorInside {
                index: index as u64,
            }),
            None => Ok(()),
        },
        None => Ok(()),
    }
}

fn text_meets(leaf: &TextLeaf, text: &[u8]) -> Result<(), Breach>
    ensures { found result ≡ first_why (text_breach leaf.now text.now) }
{
    size_meets(&leaf.sized, text.len())?;
    characters_meet(&leaf.alphabet, text)?;
    end_meets(&leaf.ended, text)
}

// The walk stays at the path of the first breach, or comes back to where it began.
#[cycle(meet)]
fn node_meets(node: &Node, v: &Value, path: &mut Path) -> Result<(), Breach>
    requires { HasRoom (length path.old) (grammar_of node.now) }
    ensures answer { found_at path.new result ≡ first_of (breaches path.old (grammar_of node.now) (data_of v.now)) }
    ensures back { OnOk result (path.new ≡ path.old) }
{
    match &node.body {
        Body::Num(leaf) => number_meets(leaf, v),
        Body::Octets(sizing) => match v {
            Value::Octets(octets) => size_meets(sizing, octets.items().len()),
            _ => Ok(()),
        },
        Body::Bits(sizing) => match v {
            Value::Bits(bits) => size_meets(sizing, bits.items().len()),
            _ => Ok(()),
        },
        Body::Text(leaf) => match v {
            Value::Text(text) => text_meets(leaf, text.items()),
            _ => Ok(()),
        },
        Body::Seq(seq) => match v {
            Value::Seq(places) => fields_meet(seq.fields.items(), places.items(), path),
            _ => Ok(()),
        },
        Body::List(sizing, element) => match v {
            Value::List(elements) => list_meets(sizing, element.get(), elements.items(), path),
            _ => Ok(()),
        },
        Body::Choice(choice) => match v {
            Value::Alt(at, inside) => {
                alternative_meets(choice.alternatives.items(), *at, inside.get(), path)
            }
            _ => Ok(()),
        },
        Body::Contained(_, content) => inside_meets(content.get(), 0, v, path),
    }
}

// One step inside.
#[cycle(meet)]
fn inside_meets(node: &Node, step: u32, v: &Value, path: &mut Path) -> Result<(), Breach>
    requires { HasRoom (length path.old + 1) (grammar_of node.now) }
    ensures answer { found_at path.new result ≡ first_of (breaches (path.old ++ step ∷ []) (grammar_of node.now) (data_of v.now)) }
    ensures back { OnOk result (path.new ≡ path.old) }
{
    path.push(step);
    node_meets(node, v, path)?;
    path.pop();
    Ok(())
}

#[cycle(meet)]
fn place_meets(node: &Node, step: u32, place: &Option<Value>, path: &mut Path) -> Result<(), Breach>
    requires { HasRoom (length path.old + 1) (grammar_of node.now) }
    ensures answer { found_at path.new result ≡ first_of (place_breaches (path.old ++ step ∷ []) (grammar_of node.now) (option_map data_of place.now)) }
    ensures back { OnOk result (path.new ≡ path.old) }
{
    match place {
        Some(v) => inside_meets(node, step, v, path),
        None => Ok(()),
    }
}

#[cycle(meet)]
fn fields_meet(fields: &[Field], places: &[Option<Value>], path: &mut Path) -> Result<(), Breach>
    requires few { length fields.now < 2 ^ 32 }
    requires room { FieldsHaveRoom (length path.old + 1) (fields_view fields.now) }
    ensures answer { found_at path.new result ≡ first_of (field_breaches path.old 0 (fields_view fields.now) (places_view places.now)) }
    ensures back { OnOk result (path.new ≡ path.old) }
{
    let mut step = 0u32;
    let mut at = 0;
    for field in fields {
        let here = step;
        step += 1;
        match field {
            Field::Component { node, .. } => {
                if at == places.len() {
                    return Ok(());
                }
                place_meets(node, here, &places[at], path)?;
                at += 1;
            }
            Field::Inserted { .. } => {}
        }
    }
    Ok(())
}

#[cycle(meet)]
fn list_meets(
    sizing: &Sizing,
    element: &Node,
    elements: &[Value],
    path: &mut Path,
) -> Result<(), Breach>
    requires small { SizesAreSmall sizing.now }
    requires room { HasRoom (length path.old + 1) (grammar_of element.now) }
    ensures answer { found_at path.new result ≡ first_of (form_breaches path.old (list sizing.now (grammar_of element.now)) (list_of (elements_view elements.now))) }
    ensures back { OnOk result (path.new ≡ path.old) }
{
    size_meets(sizing, elements.len())?;
    elements_meet(element, elements, path)
}

#[cycle(meet)]
fn elements_meet(element: &Node, elements: &[Value], path: &mut Path) -> Result<(), Breach>
    requires few { length elements.now < 2 ^ 32 }
    requires room { HasRoom (length path.old + 1) (grammar_of element.now) }
    ensures answer { found_at path.new result ≡ first_of (run_breaches (λ k d. breaches (path.old ++ k ∷ []) (grammar_of element.now) d) 0 (elements_view elements.now)) }
    ensures back { OnOk result (path.new ≡ path.old) }
{
    let mut step = 0u32;
    for v in elements {
        inside_meets(element, step, v, path)?;
        step += 1;
    }
    Ok(())
}

#[cycle(meet)]
fn alternative_meets(
    alternatives: &[Alternative],
    at: u32,
    v: &Value,
    path: &mut Path,
) -> Result<(), Breach>
    requires { AlternativesHaveRoom (length path.old + 1) (alternatives_view alternatives.now) }
    ensures answer { found_at path.new result ≡ first_of (alternative_breaches path.old at (alternatives_view alternatives.now) at (data_of v.now)) }
    ensures back { OnOk result (path.new ≡ path.old) }
{
    match alternatives.get(at as usize) {
        Some(alternative) => inside_meets(&alternative.node, at, v, path),
        None => Ok(()),
    }
}

/// Whether the value, which has the node's shape, meets the constraints of the node and of what is inside it (X.680):
/// each number, size and character is permitted, and the terminator of an ended text occurs first at its end.
/// Err comes exactly where it doesn't, with the first place in preorder; at one text the size goes first, then the
/// characters, then the terminator. It takes no memory.
pub fn meets(node: &Node, v: &Value) -> Result<(), Unfit>
    requires { InTree (grammar_of node.now) }
    ensures { refusal result ≡ breach (grammar_of node.now) (data_of v.now) }
{
    let mut path = Path::new();
    match node_meets(node, v, &mut path) {
        Ok(()) => Ok(()),
        Err(breach) => Err(Unfit {
            path,
            reason: reason(breach),
        }),
    }
}
