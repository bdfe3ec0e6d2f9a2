//! What is read and written by a tree, in words.

ghost use Rattle.std.specs.Prelude.{◌≤◌, length};
ghost use Rattle.acn_grammar.specs.ItemsNamed.{ItemsNamed};
ghost use Rattle.acn_grammar.specs.Shaped.{Shaped};
ghost use Rattle.acn_grammar.specs.View.{grammar_of, data_of};
ghost use Rattle.acn_reads.specs.declared.answers.TheConstants.{MOST_BYTES};

use crate::drawn::drawn_told;
use crate::packed::packed;
use acn_case_lines::{bits_in_words, octets_of, small, wide, word};
use acn_case_trees::{path_in_words, unfit_in_words, value_in_words, value_of};
use acn_check::Checked;
use acn_num::NoMemory;
use acn_plain::{PlainFault, plain_decode, plain_encode};
use acn_plan::{Plan, compile};
use acn_reads::MOST_BYTES;
use acn_tree::{Fault, Reason, Refuse, Value, items_named, shaped};
use acn_unpack::{skim, unpack};
use std::alloc::Global;

// Of the reasons that keep nothing.
fn plain_word(reason: &Reason) -> &'static str {
    match reason {
        Reason::Short => "Short",
        Reason::NotMinimal => "NotMinimal",
        Reason::BadDigit => "BadDigit",
        Reason::BadCharacter => "BadCharacter",
        Reason::BadPattern => "BadPattern",
        Reason::TooLong => "TooLong",
        Reason::NoAlternative => "NoAlternative",
        Reason::PastContent => "PastContent",
        _ => "another reason",
    }
}

fn reason_in_words(alloc: Global, reason: &Reason) -> Result<String, NoMemory> {
    match reason {
        Reason::OutOfRange { wire } => Ok(format!(in alloc; "OutOfRange {wire}")?),
        Reason::SizeOutOfRange { n } => Ok(format!(in alloc; "SizeOutOfRange {n}")?),
        Reason::ContentSize { octets, used } => {
            Ok(format!(in alloc; "ContentSize {octets} {used}")?)
        }
        plain => Ok(plain_word(plain).to_string(alloc)?),
    }
}

fn fault_in_words(alloc: Global, fault: &Fault) -> Result<String, NoMemory> {
    let path = path_in_words(alloc, &fault.path)?;
    let reason = reason_in_words(alloc, &fault.reason)?;
    Ok(format!(in alloc; "{path} {reason} at {}", fault.at)?)
}

fn refused(alloc: Global, refuse: Refuse) -> Result<String, NoMemory> {
    match refuse {
        Refuse::Bad(fault) => fault_in_words(alloc, &fault),
        Refuse::NoMemory => Err(NoMemory),
    }
}

fn found(alloc: Global, value: &Value, bits: u64) -> Result<String, NoMemory> {
    let words = value_in_words(alloc, value)?;
    Ok(format!(in alloc; "{bits} bits,{words}")?)
}

// What a walk over the tree reads.
fn by_tree(alloc: Global, checked: &Checked, octets: &[u8]) -> Result<String, NoMemory>
    requires named { ItemsNamed (grammar_of checked.now.tree.root) }
    requires few { length octets.now ≤ MOST_BYTES }
{
    match plain_decode(alloc, checked, octets) {
        Ok((value, bits)) => found(alloc, &value, bits),
        Err(refuse) => refused(alloc, refuse),
    }
}

// What a walk over the steps reads.
fn by_steps(alloc: Global, plan: &Plan, octets: &[u8]) -> Result<String, NoMemory>
    requires few { length octets.now ≤ MOST_BYTES }
{
    match unpack(alloc, plan, octets) {
        Ok((value, bits)) => found(alloc, &value, bits),
        Err(refuse) => refused(alloc, refuse),
    }
}

// What a walk over the steps that keeps nothing says.
fn skimmed(alloc: Global, plan: &Plan, octets: &[u8]) -> Result<String, NoMemory>
    requires few { length octets.now ≤ MOST_BYTES }
{
    match skim(plan, octets) {
        Ok(bits) => Ok(format!(in alloc; "{bits} bits,")?),
        Err(fault) => fault_in_words(alloc, &fault),
    }
}

// Whether what a reader without values says is what is said of the whole, or its front up to the value.
fn is_said_of(alone: &str, whole: &str) -> bool {
    alone == whole || alone.ends_with(',') && whole.starts_with(alone)
}

// What stands at the front of the octets: said once where the three readers agree.
fn read(alloc: Global, checked: &Checked, octets: &[u8]) -> Result<String, NoMemory> {
    if !items_named(checked.tree()) {
        return Ok("not named".to_string(alloc)?);
    }
    if octets.len() > MOST_BYTES {
        return Ok("too many octets".to_string(alloc)?);
    }
    let plan = compile(alloc, checked)?;
    let tree = by_tree(alloc, checked, octets)?;
    let steps = by_steps(alloc, &plan, octets)?;
    let alone = skimmed(alloc, &plan, octets)?;
    if tree.as_str() == steps.as_str() && is_said_of(alone.as_str(), tree.as_str()) {
        return Ok(tree);
    }
    Ok(format!(in alloc; "by the tree {tree}, by steps {steps}, skimmed {alone}")?)
}

// What a walk over the tree writes.
fn written_by_tree(alloc: Global, checked: &Checked, value: &Value) -> Result<String, NoMemory>
    requires { Shaped (grammar_of checked.now.tree.root) (data_of value.now) }
{
    match plain_encode(alloc, checked, value) {
        Ok(bits) => bits_in_words(alloc, &bits),
        Err(PlainFault::Unfit(unfit)) => unfit_in_words(alloc, &unfit),
        Err(PlainFault::NoMemory) => Err(NoMemory),
    }
}

// What is written for a value: said once where both writers agree.
fn written(alloc: Global, checked: &Checked, value: &Value) -> Result<String, NoMemory> {
    if !shaped(checked.tree().root(), value) {
        return Ok("not shaped".to_string(alloc)?);
    }
    if !items_named(checked.tree()) {
        return Ok("not named".to_string(alloc)?);
    }
    let plan = compile(alloc, checked)?;
    let tree = written_by_tree(alloc, checked, value)?;
    let steps = packed(alloc, checked, &plan, value)?;
    if tree.as_str() == steps.as_str() {
        return Ok(tree);
    }
    Ok(format!(in alloc; "by the tree {tree}, by steps {steps}")?)
}

fn write(alloc: Global, checked: &Checked, words: &[&str]) -> Result<String, NoMemory> {
    match value_of(alloc, words)? {
        Some(value) => written(alloc, checked, value.get()),
        None => Ok("no value".to_string(alloc)?),
    }
}

/// What is read or written by a tree that is accepted.
pub fn packets_told(alloc: Global, checked: &Checked, words: &[&str]) -> Result<String, NoMemory> {
    if word(words, 0) == "write" {
        return write(alloc, checked, words.get(1..).unwrap_or(&[]));
    }
    if word(words, 0) == "drawn" {
        return drawn_told(alloc, checked, wide(words, 1), small(words, 2));
    }
    let octets = octets_of(alloc, words)?;
    read(alloc, checked, octets.as_slice())
}
