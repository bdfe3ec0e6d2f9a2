//! Where the names of a path lead, among fields that are given without sources.

use acn_acn_syntax::AcnPath;
use acn_num::{Name, NoMemory, Row};
use acn_params::{ParamFault, Scope, ScopeField};
use std::alloc::Global;

// A path has no more names than this.
const MOST_NAMES: usize = 64;

// The name of a word, and whether a `?` behind it says that it may be absent.
fn optional_name(alloc: Global, word: &str) -> Result<(Name, bool), NoMemory> {
    let name = word.strip_suffix("?").unwrap_or(word);
    Ok((Name::copy(alloc, name.as_bytes())?, word.ends_with("?")))
}

// The field of `NAME=SLOT`, `NAME?=SLOT` or `NAME`.
fn simple_field(alloc: Global, word: &str) -> Result<ScopeField, NoMemory> {
    match word.split_once("=") {
        Some((name, slot)) => {
            let (name, optional) = optional_name(alloc, name)?;
            let slot = slot.parse::<u32>().unwrap_or(0);
            Ok(ScopeField::Slot(name, slot, optional))
        }
        None => Ok(ScopeField::Other(Name::copy(alloc, word.as_bytes())?)),
    }
}

// The field of a word: a simple one, or a SEQUENCE and its one field behind a full stop.
fn field_of(alloc: Global, word: &str) -> Result<ScopeField, NoMemory> {
    match word.split_once(".") {
        Some((outer, inner)) => {
            let (name, optional) = optional_name(alloc, outer)?;
            let mut fields = Row::new(alloc);
            fields.push(simple_field(alloc, inner)?)?;
            Ok(ScopeField::Inner(name, fields, optional))
        }
        None => simple_field(alloc, word),
    }
}

fn fields_of(alloc: Global, words: &str) -> Result<Vec<ScopeField>, NoMemory> {
    let mut fields = Vec::new(alloc);
    for word in words.split_whitespace() {
        fields.push(field_of(alloc, word)?)?;
    }
    Ok(fields)
}

/// Nothing is entered, and the parameters of the words `NAME=SLOT` are bound.
pub fn scope_of(alloc: Global, words: &str) -> Result<Scope, NoMemory> {
    let mut bound = Vec::new(alloc);
    for word in words.split_whitespace() {
        let (name, slot) = word.split_once("=").unwrap_or((word, "0"));
        let slot = slot.parse::<u32>().unwrap_or(0);
        bound.push((Name::copy(alloc, name.as_bytes())?, slot))?;
    }
    Ok(Scope::new(alloc, bound))
}

// Enters a SEQUENCE, and leaves it again.
fn visit(scope: &mut Scope, fields: Vec<ScopeField>) -> Result<(), NoMemory> {
    scope.enter(fields)?;
    scope.leave();
    Ok(())
}

/// Enters the SEQUENCE of the fields of a line `enter FIELDS`, or enters and leaves that of
/// `visit FIELDS`. False comes where the line isn't understood.
pub fn take_fields(alloc: Global, scope: &mut Scope, line: &str) -> Result<bool, NoMemory> {
    match line.split_once(" ") {
        Some(("enter", words)) => scope.enter(fields_of(alloc, words)?)?,
        Some(("visit", words)) => visit(scope, fields_of(alloc, words)?)?,
        _ => return Ok(false),
    }
    Ok(true)
}

fn lead_in_words(alloc: Global, lead: Result<u32, ParamFault>) -> Result<String, NoMemory> {
    match lead {
        Ok(slot) => Ok(format!(in alloc; "slot {slot}")?),
        Err(ParamFault::UnknownPath) => Ok("UnknownPath".to_string(alloc)?),
        Err(ParamFault::DeterminantMayBeAbsent { through }) => {
            Ok(format!(in alloc; "DeterminantMayBeAbsent {through}")?)
        }
    }
}

/// The slot to which the names of a case lead, divided by full stops, or why they lead to none.
pub fn slot_of_names(alloc: Global, scope: &Scope, case: &str) -> Result<String, NoMemory> {
    let mut names = Row::new(alloc);
    if !case.is_empty() {
        for name in case.split(".") {
            names.push(Name::copy(alloc, name.as_bytes())?)?;
        }
    }
    if names.items().len() > MOST_NAMES {
        return Ok("too many names".to_string(alloc)?);
    }
    lead_in_words(alloc, scope.slot_of(&AcnPath { names }))
}
