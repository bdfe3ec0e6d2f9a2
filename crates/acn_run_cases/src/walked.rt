//! What a walk noted, in words.

use acn_case_sheets::Trouble;
use acn_homes::Use;
use acn_num::Row;
use acn_survey::Walk;
use std::alloc::Global;

// Adds the steps of a path, joined by full stops.
fn push_path(steps: &[usize], words: &mut String) -> Result<(), Trouble> {
    for (place, step) in steps.iter().enumerate() {
        let stop = if place == 0 { "" } else { "." };
        write!(words, "{stop}{step}")?;
    }
    Ok(())
}

fn push_fields(fields: &[Row<usize>], words: &mut String) -> Result<(), Trouble> {
    if !fields.is_empty() {
        words.push_str("; fields")?;
    }
    for field in fields {
        words.push_str(" ")?;
        push_path(field.items(), words)?;
    }
    Ok(())
}

fn push_uses(uses: &[Use], words: &mut String) -> Result<(), Trouble> {
    if !uses.is_empty() {
        words.push_str("; uses")?;
    }
    for it in uses {
        words.push_str(" ")?;
        push_path(it.user.items(), words)?;
        words.push_str("<-")?;
        push_path(it.field.items(), words)?;
    }
    Ok(())
}

/// `none`, the paths of the inserted fields, and the uses as `USER<-FIELD`.
pub fn walk_in_words(alloc: Global, walk: &Walk) -> Result<String, Trouble> {
    let mut words = format!(in alloc; "none")?;
    push_fields(walk.fields.items(), &mut words)?;
    push_uses(walk.uses.items(), &mut words)?;
    Ok(words)
}
