//! A shortest and a longest packet of a tree, in words.

use crate::accepted::accepted;
use acn_case_trees::{Built, Sheet, path_in_words, value_in_words};
use acn_check::Checked;
use acn_extremes::{Ends, ExtremesFault, Why, extremes};
use acn_num::{Boxed, NoMemory, Path};
use acn_tree::Tree;
use std::alloc::Global;

fn why_word(why: Why) -> &'static str {
    match why {
        Why::TwoUses => "TwoUses",
        Why::ThroughAList => "ThroughAList",
        Why::CountNotPermitted => "CountNotPermitted",
        Why::TerminatorAlone => "TerminatorAlone",
        Why::OfAComponent => "OfAComponent",
    }
}

fn unsingle_in_words(alloc: Global, at: &Path, why: Why) -> Result<String, NoMemory> {
    let at = path_in_words(alloc, at)?;
    Ok(format!(in alloc; "NotSingle {at} {}", why_word(why))?)
}

// Both counts of bits, and both values.
fn ends_in_words(alloc: Global, ends: &Ends) -> Result<String, NoMemory> {
    let least = value_in_words(alloc, &ends.least_value)?;
    let greatest = value_in_words(alloc, &ends.greatest_value)?;
    Ok(format!(in alloc;
        "least {}{least} greatest {}{greatest}",
        ends.least, ends.greatest
    )?)
}

// Both counts of bits alone.
fn counts_in_words(alloc: Global, ends: &Ends) -> Result<String, NoMemory> {
    Ok(format!(in alloc; "least {} greatest {}", ends.least, ends.greatest)?)
}

fn ends_told(alloc: Global, ends: &Ends, with_values: bool) -> Result<String, NoMemory> {
    if with_values {
        ends_in_words(alloc, ends)
    } else {
        counts_in_words(alloc, ends)
    }
}

fn fault_told(alloc: Global, fault: &ExtremesFault) -> Result<String, NoMemory> {
    match fault {
        ExtremesFault::NotSingle { at, why } => unsingle_in_words(alloc, at, *why),
        ExtremesFault::NoMemory => Err(NoMemory),
    }
}

/// What `extremes` answers of a tree that is accepted, with the values or with their counts of bits alone.
pub fn extremes_in_words(
    alloc: Global,
    checked: &Checked,
    with_values: bool,
) -> Result<String, NoMemory> {
    match extremes(alloc, checked) {
        Ok(Some(ends)) => ends_told(alloc, &ends, with_values),
        Ok(None) => Ok("none".to_string(alloc)?),
        Err(fault) => fault_told(alloc, &fault),
    }
}

fn of_tree(alloc: Global, tree: Boxed<Tree>) -> Result<String, NoMemory> {
    match accepted(alloc, tree)? {
        Some(checked) => extremes_in_words(alloc, checked.get(), true),
        None => Ok("not accepted".to_string(alloc)?),
    }
}

/// What `extremes` answers of a tree whose lines stand in the case itself, with bars between them.
pub fn extremes_of_lines(alloc: Global, lines: &str) -> Result<String, NoMemory> {
    let mut sheet = Sheet::new(alloc);
    for line in lines.split(" | ") {
        sheet.take(alloc, line)?;
    }
    match sheet.built(alloc, &[])? {
        Built::Tree(tree) => of_tree(alloc, tree),
        Built::NoTree => Ok("no tree".to_string(alloc)?),
        Built::Unknown => Ok("not understood".to_string(alloc)?),
    }
}
