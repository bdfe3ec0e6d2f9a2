//! What a text answers.

ghost use Rattle.std.specs.Prelude.{◌≡◌, ◌≤◌, [], None, IfSome, IsTrue, length, not, pos, position, true};
ghost use Rattle.acn_num.specs.Ranges.{has};
ghost use Rattle.acn_grammar.specs.Leaves.{text_fine};
ghost use Rattle.acn_grammar.specs.Length.{text_length};
ghost use Rattle.acn_grammar.specs.Meets.{breach, text_breach};
ghost use Rattle.acn_tree.specs.Room.{InTree};
ghost use Rattle.acn_grammar.specs.View.{data_of, grammar_of};
ghost use Rattle.acn_text.specs.Texts.{IsGiven};

use crate::fault::fault_in_words;
use acn_bits::{ReadCursor, WriteCursor};
use acn_case_lines::{bits_in_words, octets_in_words, octets_of, wide};
use acn_grammar::{Body, Node, ReadFault, SizeRule, TextLeaf, Value};
use acn_leaf::text_fine;
use acn_num::{Boxed, NoMemory, RangeSet, Row};
use acn_text::{list_text, put_text, read_text};
use acn_tree::{Tree, meets};
use std::alloc::Global;

/// What was read: how many characters, the last eight as one number, and how many bits they took.
#[derive(Clone, Copy, Drop)]
struct Said {
    count: u64,
    last: u64,
    bits: u64,
}

// What stands at the front of the octets.
fn read(leaf: &TextLeaf, size: Option<u64>, octets: &[u8]) -> Result<Said, ReadFault>
    requires fine { IsTrue (text_fine leaf.now) }
    requires given { IsGiven leaf.now.sized.rule size }
    requires few { length octets.now ≤ 1000 }
{
    let mut cur = ReadCursor::new(octets, 8 * octets.len() as u64);
    let mut last = 0u64;
    let answer = read_text(
        &mut cur,
        leaf,
        size,
        &mut |c| last = last.wrapping_mul(256).wrapping_add(u64::from(c)),
    );
    let bits = cur.at();
    match answer {
        Ok(count) => Ok(Said { count, last, bits }),
        Err(fault) => Err(fault),
    }
}

// The last characters, the bits, and how many octets there are.
fn said_in_words(alloc: Global, said: Said) -> Result<String, NoMemory> {
    let octets = said.last.to_be_bytes();
    let from = 8u64.saturating_sub(said.count) as usize;
    let words = octets_in_words(alloc, octets.get(from..).unwrap_or(&[]))?;
    let Said { count, bits, .. } = said;
    if count == 0 {
        return Ok(format!(in alloc; "0 characters, {bits} bits")?);
    }
    Ok(format!(in alloc; "{count} characters {words}, {bits} bits")?)
}

fn read_in_words(
    alloc: Global,
    leaf: &TextLeaf,
    size: Option<u64>,
    words: &[&str],
) -> Result<String, NoMemory>
    requires fine { IsTrue (text_fine leaf.now) }
    requires given { IsGiven leaf.now.sized.rule size }
{
    let octets = octets_of(alloc, words)?;
    if octets.len() > 1000 {
        return Ok("too many octets".to_string(alloc)?);
    }
    match read(leaf, size, octets.as_slice()) {
        Ok(said) => said_in_words(alloc, said),
        Err(fault) => fault_in_words(alloc, fault),
    }
}

// Reads with a size from elsewhere exactly where the leaf asks for it.
fn sized_in_words(
    alloc: Global,
    leaf: &TextLeaf,
    size: Option<u64>,
    words: &[&str],
) -> Result<String, NoMemory>
    requires { IsTrue (text_fine leaf.now) }
{
    match (&leaf.sized.rule, size) {
        (SizeRule::Slot(_), Some(n)) => read_in_words(alloc, leaf, Some(n), words),
        (SizeRule::Prefix { .. }, None) => read_in_words(alloc, leaf, None, words),
        (SizeRule::Ended(_), None) => read_in_words(alloc, leaf, None, words),
        (SizeRule::Slot(_), None) => Ok("no size".to_string(alloc)?),
        (SizeRule::Prefix { .. }, Some(_)) => Ok("a size".to_string(alloc)?),
        (SizeRule::Ended(_), Some(_)) => Ok("a size".to_string(alloc)?),
    }
}

// How many bits a text of so many characters takes; none where that is too many.
fn bits_of(leaf: &TextLeaf, count: usize) -> Option<u64>
    ensures { IfSome result (λ n. n ≡ text_length leaf.now.ended leaf.now count) }
{
    if count > 30 || leaf.width > 8 {
        return None;
    }
    let characters = u64::from(leaf.width) * count as u64;
    match &leaf.ended {
        Some(end) => Some(characters + end.bits().len() as u64),
        None => match &leaf.sized.rule {
            SizeRule::Prefix { width, .. } => Some(u64::from(*width) + characters),
            SizeRule::Slot(_) => Some(characters),
            SizeRule::Ended(_) => None,
        },
    }
}

// Writes a text into octets of ones, and tells how many bits it takes.
fn put(buf: &mut [u8; 64], leaf: &TextLeaf, text: &[u8]) -> Option<u64>
    requires fine { IsTrue (text_fine leaf.now) }
    requires meets { text_breach leaf.now text.now ≡ [] }
{
    match bits_of(leaf, text.len()) {
        Some(bits) => {
            if bits > 512 {
                return None;
            }
            let mut out = WriteCursor::new(buf);
            put_text(&mut out, leaf, text);
            Some(out.at())
        }
        None => None,
    }
}

// The octets up to the one in which the first bit behind a text stands.
fn put_in_words(alloc: Global, leaf: &TextLeaf, text: &[u8]) -> Result<String, NoMemory>
    requires fine { IsTrue (text_fine leaf.now) }
    requires meets { text_breach leaf.now text.now ≡ [] }
{
    let mut buf = [0xffu8; 64];
    match put(&mut buf, leaf, text) {
        Some(bits) => {
            let count = (bits / 8).saturating_add(1);
            let octets = octets_in_words(alloc, buf.get(..count as usize).unwrap_or(&[]))?;
            Ok(format!(in alloc; "{bits} bits {octets}")?)
        }
        None => Ok("too long".to_string(alloc)?),
    }
}

// The bits of a text as a list, or as they are put into octets of ones.
fn code_in_words(
    alloc: Global,
    leaf: &TextLeaf,
    text: &[u8],
    is_put: bool,
) -> Result<String, NoMemory>
    requires fine { IsTrue (text_fine leaf.now) }
    requires meets { text_breach leaf.now text.now ≡ [] }
{
    if is_put {
        return put_in_words(alloc, leaf, text);
    }
    bits_in_words(alloc, &list_text(alloc, leaf, text)?)
}

// The bits of a value that is a text.
#[tactic(auto, using(crate::proofs::Breach::text_meets))]
fn text_in_words(
    alloc: Global,
    root: &Node,
    value: &Value,
    is_put: bool,
) -> Result<String, NoMemory>
    requires { breach (grammar_of root.now) (data_of value.now) ≡ None }
{
    match &root.body {
        Body::Text(leaf) => match value {
            Value::Text(text) => {
                if text_fine(leaf) {
                    code_in_words(alloc, leaf, text.items(), is_put)
                } else {
                    Ok("no fine leaf".to_string(alloc)?)
                }
            }
            _ => Ok("no text".to_string(alloc)?),
        },
        _ => Ok("no text".to_string(alloc)?),
    }
}

// The bits of a value, if it meets its node.
fn value_in_words(
    alloc: Global,
    root: &Node,
    value: &Value,
    is_put: bool,
) -> Result<String, NoMemory>
    requires { InTree (grammar_of root.now) }
{
    match meets(root, value) {
        Ok(()) => text_in_words(alloc, root, value, is_put),
        Err(_) => Ok("not permitted".to_string(alloc)?),
    }
}

fn coded(alloc: Global, tree: &Tree, words: &[&str], is_put: bool) -> Result<String, NoMemory> {
    let octets = octets_of(alloc, words)?;
    let value = Boxed::new(alloc, Value::Text(Row::from_vec(octets)))?;
    value_in_words(alloc, tree.root(), value.get(), is_put)
}

// The place of the first octet that is no character of the alphabet.
fn first_bad(alphabet: &RangeSet, text: &[u8]) -> Option<usize>
    ensures { result ≡ position (λ c. not (has alphabet.now (pos c))) text.now }
{
    text.iter().position(|c| !alphabet.holds(i128::from(*c)))
}

// Whether a text is one of a leaf that no pattern ends.
fn is_permitted(leaf: &TextLeaf, text: &[u8]) -> bool
    ensures { result ≡ true → text_breach leaf.now text.now ≡ [] }
{
    match &leaf.ended {
        None => {
            leaf.sized.sizes.holds_natural(text.len() as u64)
                && first_bad(&leaf.alphabet, text).is_none()
        }
        Some(_) => false,
    }
}

fn sized_coded(
    alloc: Global,
    leaf: &TextLeaf,
    words: &[&str],
    is_put: bool,
) -> Result<String, NoMemory>
    requires { IsTrue (text_fine leaf.now) }
{
    let octets = octets_of(alloc, words)?;
    if is_permitted(leaf, octets.as_slice()) {
        return code_in_words(alloc, leaf, octets.as_slice(), is_put);
    }
    Ok("not permitted".to_string(alloc)?)
}

/// The answer to a question about a text whose size a slot says.
pub fn about_sized_text(
    alloc: Global,
    leaf: &TextLeaf,
    question: &str,
    words: &[&str],
) -> Result<String, NoMemory> {
    if !text_fine(leaf) {
        return Ok("no fine leaf".to_string(alloc)?);
    }
    match question {
        "read" => sized_in_words(alloc, leaf, None, words),
        "list" => sized_coded(alloc, leaf, words, false),
        "put" => sized_coded(alloc, leaf, words, true),
        "read-sized" => {
            let rest = words.get(1..).unwrap_or(&[]);
            sized_in_words(alloc, leaf, Some(wide(words, 0)), rest)
        }
        _ => Ok("not understood".to_string(alloc)?),
    }
}

/// The answer to a question about a text.
pub fn about_text(
    alloc: Global,
    tree: &Tree,
    question: &str,
    words: &[&str],
) -> Result<String, NoMemory> {
    let Body::Text(leaf) = &tree.root().body else {
        return Ok("no text".to_string(alloc)?);
    };
    if !text_fine(leaf) {
        return Ok("no fine leaf".to_string(alloc)?);
    }
    match question {
        "read" => sized_in_words(alloc, leaf, None, words),
        "list" => coded(alloc, tree, words, false),
        "put" => coded(alloc, tree, words, true),
        _ => Ok("not understood".to_string(alloc)?),
    }
}
