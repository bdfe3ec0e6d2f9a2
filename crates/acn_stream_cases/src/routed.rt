//! Routes that have the tree of a case.

use crate::built::accepted;
use acn_case_trees::Sheet;
use acn_check::Checked;
use acn_num::NoMemory;
use acn_plan::compile;
use acn_route::{AddFault, RouteCount, RouteFault, Routes};
use acn_tree::items_named;
use std::alloc::Global;

fn add_checked(
    alloc: Global,
    routes: &mut Routes,
    apid: u32,
    checked: Checked,
) -> Result<Option<String>, NoMemory> {
    if !items_named(checked.tree()) {
        return Err(NoMemory);
    }
    let plan = compile(alloc, &checked)?;
    match routes.add(apid, checked, plan) {
        Ok(()) => Ok(None),
        Err(AddFault::Taken { apid }) => Ok(Some(format!(in alloc; "Taken {apid}")?)),
        Err(AddFault::NoMemory) => Err(NoMemory),
    }
}

// Adds the tree of the case for an identifier. What is answered says why that isn't so.
fn add(
    alloc: Global,
    sheet: &Sheet,
    parts: &[&str],
    routes: &mut Routes,
    apid: u32,
) -> Result<Option<String>, NoMemory> {
    match accepted(alloc, sheet, parts)? {
        Ok(checked) => add_checked(alloc, routes, apid, checked.into_inner()),
        Err(why) => Ok(Some(why.to_string(alloc)?)),
    }
}

// So many application process identifiers are there.
const APIDS: u32 = 2048;

/// The application process identifiers that have the tree of a case.
#[derive(Clone, Copy)]
pub enum Apids {
    /// These, in turn.
    Two(u32, u32),
    /// Each.
    All,
}

fn add_two(
    alloc: Global,
    sheet: &Sheet,
    parts: &[&str],
    routes: &mut Routes,
    one: u32,
    other: u32,
) -> Result<Option<String>, NoMemory> {
    match add(alloc, sheet, parts, routes, one)? {
        None => add(alloc, sheet, parts, routes, other),
        Some(why) => Ok(Some(why)),
    }
}

fn add_all(
    alloc: Global,
    sheet: &Sheet,
    parts: &[&str],
    routes: &mut Routes,
) -> Result<Option<String>, NoMemory> {
    for apid in 0..APIDS {
        match add(alloc, sheet, parts, routes, apid)? {
            None => {}
            Some(why) => return Ok(Some(why)),
        }
    }
    Ok(None)
}

/// Adds the tree of the case for each identifier. What is answered says why that isn't so.
pub fn add_each(
    alloc: Global,
    sheet: &Sheet,
    parts: &[&str],
    routes: &mut Routes,
    apids: Apids,
) -> Result<Option<String>, NoMemory> {
    match apids {
        Apids::Two(one, other) => add_two(alloc, sheet, parts, routes, one, other),
        Apids::All => add_all(alloc, sheet, parts, routes),
    }
}

/// How routing ended.
pub fn routed_in_words(
    alloc: Global,
    outcome: &Result<RouteCount, RouteFault>,
) -> Result<String, NoMemory> {
    match outcome {
        Ok(counts) => Ok(format!(in alloc;
            "{} good {} long {} bad {} none",
            counts.good, counts.long, counts.bad, counts.none
        )?),
        Err(RouteFault::Cut { number, left }) => {
            Ok(format!(in alloc; "packet {number} Cut {left}")?)
        }
        Err(RouteFault::InputTooLong) => Ok("InputTooLong".to_string(alloc)?),
        Err(RouteFault::InputFault) => Ok("InputFault".to_string(alloc)?),
        Err(RouteFault::OutputFault) => Ok("OutputFault".to_string(alloc)?),
        Err(RouteFault::NoMemory) => Err(NoMemory),
    }
}
