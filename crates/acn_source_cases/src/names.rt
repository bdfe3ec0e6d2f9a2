//! The fault of names in words.

use acn_case_sheets::Trouble;
use acn_names::resolve;
use acn_num::Name;
use acn_world::{NameFault, Sources};
use std::alloc::Global;

// Adds a space and the bytes of a name.
fn push_name(name: &Name, words: &mut Vec<u8>) -> Result<(), Trouble> {
    words.push(b' ')?;
    words.extend_from_slice(name.bytes())?;
    Ok(())
}

/// The name of an assignment behind that of its module, as ` M.T`.
pub fn push_full_name(module: &Name, name: &Name, words: &mut Vec<u8>) -> Result<(), Trouble> {
    push_name(module, words)?;
    words.push(b'.')?;
    words.extend_from_slice(name.bytes())?;
    Ok(())
}

// A kind, a module and a name, as `Unknown M.T`.
fn push_fault(kind: &[u8], module: &Name, name: &Name, words: &mut Vec<u8>) -> Result<(), Trouble> {
    words.extend_from_slice(kind)?;
    push_full_name(module, name, words)
}

// The names of a cycle behind a colon.
fn push_names(names: &[Name], words: &mut Vec<u8>) -> Result<(), Trouble> {
    words.push(b':')?;
    for name in names {
        push_name(name, words)?;
    }
    Ok(())
}

fn push_words(fault: &NameFault, words: &mut Vec<u8>) -> Result<(), Trouble> {
    match fault {
        NameFault::Unknown { module, name } => push_fault(b"Unknown", module, name, words),
        NameFault::Repeated { module, name } => push_fault(b"Repeated", module, name, words),
        NameFault::NoModule { module, name } => push_fault(b"NoModule", module, name, words),
        NameFault::WrongKind { module, name } => push_fault(b"WrongKind", module, name, words),
        NameFault::Cycle {
            module,
            name,
            names,
        } => {
            push_fault(b"Cycle", module, name, words)?;
            push_names(names.items(), words)
        }
        NameFault::NoMemory => Err(Trouble::NoMemory),
    }
}

/// The fault of the names of these files in words, or `Ok`: its kind, the module, the name, and those of a cycle.
pub fn told(alloc: Global, all: Sources) -> Result<String, Trouble> {
    match resolve(alloc, all) {
        Ok(_) => Ok("Ok".to_string(alloc)?),
        Err(fault) => {
            let mut words = Vec::new(alloc);
            push_words(&fault, &mut words)?;
            Ok(String::from_utf8_lossy(alloc, words.as_slice())?)
        }
    }
}
