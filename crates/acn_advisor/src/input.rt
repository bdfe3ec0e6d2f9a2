//! What is at fault in an input.

ghost use Rattle.std.specs.Prelude.{◌≡◌, ℕ, List};
ghost use Rattle.acn_grammar.specs.ItemsNamed.{ItemsNamed};
ghost use Rattle.acn_grammar.specs.View.{grammar_of};

use crate::sources::grammar_of_name;
use acn_advice::Page;
use acn_check::Checked;
use acn_input_advice::put_bad_packet;
use acn_line_advice::{put_bad_line, put_unfit};
use acn_outside::{Failed, Files, SureSink, SureSource};
use acn_plan::compile;
use acn_stream::{StreamFault, encode_all};
use acn_words::{Request, TypeName};
use std::alloc::Global;

// The most bytes that an input gives at once.
const PIECE: usize = 65_536;

// What is in the line of a number, from 1, without its line feed.
fn line_at(bytes: &[u8], number: u64) -> &[u8] {
    let mut at = 1u64;
    let mut begins = 0usize;
    for (place, byte) in bytes.iter().enumerate() {
        if *byte == b'\n' {
            if at == number {
                return bytes.get(begins..place).unwrap_or(&[]);
            }
            at = at.saturating_add(1);
            begins = place.saturating_add(1);
        }
    }
    bytes.get(begins..).unwrap_or(&[])
}

// Puts what helps on lines of JSON that aren't all converted.
fn advise_on_lines(
    alloc: Global,
    checked: &Checked,
    bytes: &[u8],
    page: &mut Page,
) -> Result<(), Failed>
    requires { ItemsNamed (grammar_of checked.now.tree.root) }
{
    let Ok(plan) = compile(alloc, checked) else {
        return Ok(());
    };
    let Ok(copy) = Vec::from_slice(alloc, bytes) else {
        return Ok(());
    };
    let mut input = SureSource::new(copy, PIECE);
    let mut out = SureSink::new(Vec::new(alloc), PIECE);
    let limit = bytes.len() as u64;
    match encode_all(alloc, checked, &plan, &mut input, &mut out, limit) {
        Err(StreamFault::BadLine { number, fault }) => {
            let line = line_at(bytes, number);
            put_bad_line(alloc, checked.tree(), line, &fault, page)
        }
        Err(StreamFault::Unfit { fault, .. }) => put_unfit(checked.tree(), &fault, page),
        _ => Ok(()),
    }
}

// Puts what helps on packets that aren't all converted.
fn advise_on_packets(
    alloc: Global,
    checked: &Checked,
    bytes: &[u8],
    page: &mut Page,
) -> Result<(), Failed>
    requires { ItemsNamed (grammar_of checked.now.tree.root) }
{
    match compile(alloc, checked) {
        Ok(plan) => put_bad_packet(checked.tree(), &plan, bytes, page),
        Err(_) => Ok(()),
    }
}

fn put_packets<F: Files>(
    alloc: Global,
    names: &[String],
    of: &TypeName<'_>,
    bytes: &[u8],
    files: &mut F,
    page: &mut Page,
) -> Result<(), Failed>
    ensures { (m : List ℕ) → F.contents files.new m ≡ F.contents files.old m }
{
    match grammar_of_name(alloc, names, of, files) {
        Some(checked) => advise_on_packets(alloc, &checked, bytes, page),
        None => Ok(()),
    }
}

fn put_lines<F: Files>(
    alloc: Global,
    names: &[String],
    of: &TypeName<'_>,
    bytes: &[u8],
    files: &mut F,
    page: &mut Page,
) -> Result<(), Failed>
    ensures { (m : List ℕ) → F.contents files.new m ≡ F.contents files.old m }
{
    match grammar_of_name(alloc, names, of, files) {
        Some(checked) => advise_on_lines(alloc, &checked, bytes, page),
        None => Ok(()),
    }
}

/// Puts what helps where these bytes of the input were refused.
pub fn put_input_place<F: Files>(
    alloc: Global,
    request: &Request<'_>,
    bytes: &[u8],
    files: &mut F,
    page: &mut Page,
) -> Result<(), Failed>
    ensures { (m : List ℕ) → F.contents files.new m ≡ F.contents files.old m }
{
    match request {
        Request::Encode { of, files: names } => put_lines(alloc, *names, of, bytes, files, page),
        Request::Decode { of, files: names } => put_packets(alloc, *names, of, bytes, files, page),
        Request::Explain { of, files: names } => {
            put_packets(alloc, *names, of, bytes, files, page)
        }
        _ => Ok(()),
    }
}
