//! Types that are refused.

use crate::fields::put_no_such_field;
use crate::paths::put_unknown_path;
use crate::put::put_mark;
use acn_marks::{Marks, Source, marks_of};
use acn_outside::{Failed, Sink};
use std::alloc::Global;

// What is said of a node that is refused for a reason of ASN.1.
fn told_of_asn(word: &str) -> Option<&'static str> {
    match word {
        "Empty" => Some("its constraints permit nothing"),
        "Unbounded" => Some("nothing bounds its size"),
        "TooWide" => Some("its constraints permit a number of more than 64 bits"),
        "SizeLimit" => Some("its constraints permit a size that is too great"),
        "NotHere" => Some("a constraint can't stand on this type"),
        "EnumValues" => Some("two of its items have one number, or one has none"),
        "BadDefault" => Some("its type doesn't permit the value behind DEFAULT"),
        _ => None,
    }
}

// What is said of a node that is refused for another reason.
fn told_of_acn(word: &str) -> &'static str {
    match word {
        "AttributeNotHere" => "the attribute can't stand on this",
        "RepeatedAttribute" => "the attribute stands twice on this",
        "Arguments" => "its arguments aren't those that the type wants",
        "BadSize" => "its size is none that it can have",
        "EndianSize" => "its code isn't whole octets of a binary number",
        "TooNarrow" => "its code can't write the number",
        "BadMapping" => "its table is at fault",
        "PatternClash" => "its patterns can't stand so",
        "Forward" => "this uses a field that stands behind it",
        "DetKind" => "the field that this uses is of another kind",
        "DeterminantMayBeAbsent" => "the field that this uses may be absent",
        "DetWidth" => "the code of this has more than one width",
        "Unused" => "nothing uses this",
        "AbsentUnclear" => "nothing says whether this is there",
        "Overlap" => "two of its alternatives can be chosen at once",
        "NoItem" => "no item has the name of one of its alternatives",
        "MixedChoice" => "some of its alternatives have conditions, and some have none",
        "TerminatorAmbiguous" => "an element can begin as what ends the list",
        _ => "this is what is refused",
    }
}

fn put_node<O: Sink>(
    alloc: Global,
    sources: &[Source<'_>],
    marks: &Marks,
    word: &str,
    out: &mut O,
) -> Result<(), Failed> {
    if word == "NoSuchField" {
        return put_no_such_field(alloc, sources, marks, out);
    }
    if word == "UnknownPath" {
        return put_unknown_path(alloc, sources, marks, out);
    }
    match told_of_asn(word) {
        Some(told) => put_mark(sources, marks.asn, told, out),
        None => put_mark(
            sources,
            marks.acn.unwrap_or(marks.asn),
            told_of_acn(word),
            out,
        ),
    }
}

/// Prints where the node of a path stands, which is refused for a reason of this word: at most five
/// lines.
pub fn put_type<O: Sink>(
    alloc: Global,
    sources: &[Source<'_>],
    path: &[u8],
    word: &str,
    out: &mut O,
) -> Result<(), Failed> {
    match marks_of(sources, path) {
        Some(marks) => put_node(alloc, sources, &marks, word, out),
        None => Ok(()),
    }
}
