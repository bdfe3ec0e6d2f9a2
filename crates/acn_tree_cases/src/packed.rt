//! What is packed in place for a value, into buffers of several sizes.

ghost use Rattle.std.specs.Prelude.{◌≡◌, ◌*◌, ◌^◌, ◌≤◌};
ghost use Rattle.acn_grammar.specs.Interval.{span};
ghost use Rattle.acn_grammar.specs.Shaped.{Shaped};
ghost use Rattle.acn_grammar.specs.View.{grammar_of, data_of};
ghost use Rattle.acn_plan.specs.Back.{root_of};
ghost use Rattle.acn_plan.specs.Steps.{steps_of};

use acn_case_trees::unfit_in_words;
use acn_check::Checked;
use acn_num::NoMemory;
use acn_packing::{PACKET_OCTETS, pack};
use acn_plan::{Plan, steps_say_their_root};
use acn_tree::Value;
use std::alloc::Global;

// What stands in each octet of a buffer before a value is packed into it.
const MARK: u8 = 0xa5;

// The bits at the front of a buffer in words, as `bits_in_words` of `acn_case_lines` has them, and whether an octet behind them isn't as it
// was.
fn front_in_words(alloc: Global, bits: u64, buffer: &[u8]) -> Result<String, NoMemory> {
    let octets = bits.div_ceil(8) as usize;
    let mut words = format!(in alloc; "{bits} bits")?;
    for octet in buffer.get(..octets).unwrap_or(&[]) {
        write!(words, " {octet:02x}")?;
    }
    let later = buffer.get(octets..).unwrap_or(&[]);
    if later.iter().any(|octet| *octet != MARK) {
        words.push_str(" and more")?;
    }
    Ok(words)
}

// What is packed for a value into a buffer.
fn packed_into<const N: usize>(
    alloc: Global,
    plan: &Plan,
    value: &Value,
    buffer: &mut [u8; N],
) -> Result<String, NoMemory>
    requires few { N ≤ 2 ^ 32 }
    requires fits { (span (root_of plan.now.steps)).greatest ≤ 8 * N }
    requires shaped { Shaped (root_of plan.now.steps) (data_of value.now) }
{
    match pack(plan, value, buffer) {
        Ok(bits) => front_in_words(alloc, bits, buffer.as_slice()),
        Err(unfit) => unfit_in_words(alloc, &unfit),
    }
}

// What is packed where the buffer has as many octets as the longest packet, if these are few.
fn in_least(alloc: Global, plan: &Plan, value: &Value) -> Result<Option<String>, NoMemory>
    requires most { (span (root_of plan.now.steps)).greatest ≡ plan.now.bounds.greatest }
    requires shaped { Shaped (root_of plan.now.steps) (data_of value.now) }
{
    let most = plan.greatest();
    if most <= 8 {
        return Ok(Some(packed_into(alloc, plan, value, &mut [MARK; 1])?));
    }
    if most <= 16 {
        return Ok(Some(packed_into(alloc, plan, value, &mut [MARK; 2])?));
    }
    if most <= 24 {
        return Ok(Some(packed_into(alloc, plan, value, &mut [MARK; 3])?));
    }
    if most <= 32 {
        return Ok(Some(packed_into(alloc, plan, value, &mut [MARK; 4])?));
    }
    Ok(None)
}

// What is packed where the buffer has room for each packet.
fn in_greatest(alloc: Global, plan: &Plan, value: &Value) -> Result<String, NoMemory>
    requires most { (span (root_of plan.now.steps)).greatest ≡ plan.now.bounds.greatest }
    requires shaped { Shaped (root_of plan.now.steps) (data_of value.now) }
{
    if plan.greatest() > 8 * PACKET_OCTETS as u64 {
        return Ok("too long".to_string(alloc)?);
    }
    let mut buffer = [MARK; PACKET_OCTETS];
    packed_into(alloc, plan, value, &mut buffer)
}

// What is packed for a value: said once where it is the same in buffers of both sizes.
fn in_each(alloc: Global, plan: &Plan, value: &Value) -> Result<String, NoMemory>
    requires most { (span (root_of plan.now.steps)).greatest ≡ plan.now.bounds.greatest }
    requires shaped { Shaped (root_of plan.now.steps) (data_of value.now) }
{
    let all = in_greatest(alloc, plan, value)?;
    match in_least(alloc, plan, value)? {
        Some(other) => {
            if other.as_str() == all.as_str() {
                Ok(all)
            } else {
                Ok(format!(in alloc; "{all}, in fewer octets {other}")?)
            }
        }
        None => Ok(all),
    }
}

/// What is packed for a value by the plan of a tree, in words: the number of bits and their octets, or the path and the reason of a
/// refusal. Where an octet behind them doesn't stay as it was, or the size of the buffer changes the answer, the words say so.
pub fn packed(
    alloc: Global,
    checked: &Checked,
    plan: &Plan,
    value: &Value,
) -> Result<String, NoMemory>
    requires planned { plan.now.steps ≡ steps_of (grammar_of checked.now.tree.root) }
    requires bounds { plan.now.bounds ≡ span (grammar_of checked.now.tree.root) }
    requires shaped { Shaped (grammar_of checked.now.tree.root) (data_of value.now) }
{
    steps_say_their_root();
    in_each(alloc, plan, value)
}
