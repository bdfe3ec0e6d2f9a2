//! Faults in words.

use acn_case_sheets::Trouble;
use acn_constraint::ConstraintFault;
use acn_num::Name;
use acn_reasons::PathFault;
use acn_sites::AttrKind;
use acn_survey::{MergeFault, MergeReason, Refused};
use std::alloc::Global;

fn attribute_in_words(kind: AttrKind) -> &'static str {
    match kind {
        AttrKind::Size => "size",
        AttrKind::Encoding => "encoding",
        AttrKind::Endianness => "endianness",
        AttrKind::AlignToNext => "align-to-next",
        AttrKind::EncodeValues => "encode-values",
        AttrKind::TrueValue => "true-value",
        AttrKind::FalseValue => "false-value",
        AttrKind::Pattern => "pattern",
        AttrKind::TerminationPattern => "termination-pattern",
        AttrKind::PresentWhen => "present-when",
        AttrKind::Determinant => "determinant",
        AttrKind::MappingFunction => "mapping-function",
    }
}

fn constraint_in_words(alloc: Global, fault: ConstraintFault) -> Result<String, Trouble> {
    match fault {
        ConstraintFault::NoMemory => Err(Trouble::NoMemory),
        ConstraintFault::Empty => Ok("Empty".to_string(alloc)?),
        ConstraintFault::Unbounded => Ok("Unbounded".to_string(alloc)?),
        ConstraintFault::TooWide { number } => Ok(format!(in alloc; "TooWide {number}")?),
        ConstraintFault::SizeLimit { size } => Ok(format!(in alloc; "SizeLimit {size}")?),
        ConstraintFault::NotHere => Ok("NotHere".to_string(alloc)?),
    }
}

fn path_in_words(alloc: Global, fault: &PathFault) -> Result<String, Trouble> {
    match fault {
        PathFault::Unknown => Ok("UnknownPath".to_string(alloc)?),
        PathFault::MayBeAbsent { through, names } => {
            let names = String::from_utf8_lossy(alloc, names.bytes())?;
            Ok(format!(in alloc; "DeterminantMayBeAbsent {through} {names}")?)
        }
    }
}

fn items_in_words(alloc: Global, first: &Name, second: &Name) -> Result<String, Trouble> {
    let first = String::from_utf8_lossy(alloc, first.bytes())?;
    let second = String::from_utf8_lossy(alloc, second.bytes())?;
    Ok(format!(in alloc; "EnumValues {first} {second}")?)
}

// The reasons that keep nothing.
fn plain_reason_in_words(reason: &MergeReason) -> &'static str {
    match reason {
        MergeReason::TooDeep => "TooDeep",
        MergeReason::TooManyNodes => "TooManyNodes",
        MergeReason::NoSuchField => "NoSuchField",
        MergeReason::Arguments => "Arguments",
        MergeReason::PatternClash => "PatternClash",
        MergeReason::BadSize => "BadSize",
        MergeReason::EndianSize => "EndianSize",
        MergeReason::BadDefault => "BadDefault",
        _ => "another reason",
    }
}

fn reason_in_words(alloc: Global, reason: &MergeReason) -> Result<String, Trouble> {
    match reason {
        MergeReason::RepeatedAttribute(kind) => {
            Ok(format!(in alloc; "RepeatedAttribute {}", attribute_in_words(*kind))?)
        }
        MergeReason::AttributeNotHere(kind) => {
            Ok(format!(in alloc; "AttributeNotHere {}", attribute_in_words(*kind))?)
        }
        MergeReason::Constraint(fault) => constraint_in_words(alloc, *fault),
        MergeReason::Path(fault) => path_in_words(alloc, fault),
        MergeReason::BadMapping { key } => Ok(format!(in alloc; "BadMapping {key}")?),
        MergeReason::EnumValues { first, second } => items_in_words(alloc, first, second),
        MergeReason::TooNarrow { value } => Ok(format!(in alloc; "TooNarrow {value}")?),
        _ => Ok(plain_reason_in_words(reason).to_string(alloc)?),
    }
}

/// The text of the path of the node, and the reason.
pub fn refused_in_words(alloc: Global, refused: &Refused) -> Result<String, Trouble> {
    let place = String::from_utf8_lossy(alloc, refused.place.bytes())?;
    let reason = reason_in_words(alloc, &refused.reason)?;
    Ok(format!(in alloc; "{place}: {reason}")?)
}

/// The fault of a type: the text of the path of a node, and the reason with what it keeps.
pub fn fault_in_words(alloc: Global, fault: &MergeFault) -> Result<String, Trouble> {
    match fault {
        MergeFault::At(refused) => refused_in_words(alloc, refused),
        MergeFault::NoMemory => Err(Trouble::NoMemory),
    }
}
