//! How a stream ended, in words.

use crate::json::line_fault;
use acn_case_trees::{path_in_words, unfit_in_words};
use acn_grammar::{Fault, Reason};
use acn_num::NoMemory;
use acn_stream::StreamFault;
use std::alloc::Global;

/// Why a packet isn't read.
pub fn packet_fault(alloc: Global, fault: &Fault) -> Result<String, NoMemory> {
    let path = path_in_words(alloc, &fault.path)?;
    let reason = match fault.reason {
        Reason::Short => "Short",
        Reason::OutOfRange { .. } => "OutOfRange",
        _ => "refused",
    };
    Ok(format!(in alloc; "{path} {reason} at {}", fault.at)?)
}

fn numbered(alloc: Global, what: &str, number: u64, why: &str) -> Result<String, NoMemory> {
    Ok(format!(in alloc; "{what} {number} {why}")?)
}

fn fault_in_words(alloc: Global, fault: &StreamFault) -> Result<String, NoMemory> {
    match fault {
        StreamFault::LineTooLong { line } => Ok(format!(in alloc; "LineTooLong {line}")?),
        StreamFault::InputTooLong => Ok("InputTooLong".to_string(alloc)?),
        StreamFault::EmptyPacket => Ok("EmptyPacket".to_string(alloc)?),
        StreamFault::Packet { number, fault } => {
            let why = packet_fault(alloc, fault)?;
            numbered(alloc, "packet", *number, why.as_str())
        }
        StreamFault::BadLine { number, fault } => {
            let why = line_fault(alloc, fault)?;
            numbered(alloc, "line", *number, why.as_str())
        }
        StreamFault::Unfit { number, fault } => {
            let why = unfit_in_words(alloc, fault)?;
            numbered(alloc, "line", *number, why.as_str())
        }
        StreamFault::InputFault => Ok("InputFault".to_string(alloc)?),
        StreamFault::OutputFault => Ok("OutputFault".to_string(alloc)?),
        StreamFault::NoMemory => Err(NoMemory),
    }
}

/// How a stream ended.
pub fn outcome_in_words(
    alloc: Global,
    outcome: &Result<u64, StreamFault>,
) -> Result<String, NoMemory> {
    match outcome {
        Ok(count) => Ok(format!(in alloc; "{count} packets")?),
        Err(fault) => fault_in_words(alloc, fault),
    }
}
