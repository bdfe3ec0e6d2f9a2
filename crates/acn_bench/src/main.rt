//! Times codes of numbers: nanoseconds a call on standard error, and sums that are always the same on standard output.
#![tactic(auto)]

mod draw;
mod numbers;
mod reading;
mod writing;

use acn_num::NoMemory;
use draw::{Draw, fill};
use std::io;
use std::process::ExitCode;
use std::time::{Duration, Instant};

/// How many calls are timed of each kind of reading.
const ROUNDS: u32 = 1 << 22;

/// How many times the buffer is written over.
const PASSES: u32 = 1 << 10;

/// Why the program ended before its end.
enum Fault {
    Memory,
    System,
}

impl From<NoMemory> for Fault {
    fn from(_: NoMemory) -> Fault {
        Fault::Memory
    }
}

impl From<io::Error> for Fault {
    fn from(_: io::Error) -> Fault {
        Fault::System
    }
}

/// Prints the sum, and how long a call took, in tenths of a nanosecond.
fn report(rt: &HostRuntime, name: &str, took: Duration, calls: u64, sum: u64) -> io::Result<()> {
    let tenths = took.as_nanos() * 10 / u128::from(calls.max(1));
    eprintln!(rt; "{name}: {}.{} ns", tenths / 10, tenths % 10)?;
    println!(rt; "{name}: {sum}")
}

/// Times the calls that read.
fn time_reads(rt: &HostRuntime, octets: &[u8; 4096]) -> Result<(), Fault> {
    let calls = u64::from(ROUNDS);
    let start = Instant::now(rt)?;
    let sum = reading::takes(octets, ROUNDS);
    report(rt, "take of 11 bits", start.elapsed(rt)?, calls, sum)?;
    let start = Instant::now(rt)?;
    let sum = numbers::reads_of_11(rt.alloc(), octets, ROUNDS)?;
    report(rt, "read_num of 11 bits", start.elapsed(rt)?, calls, sum)?;
    let start = Instant::now(rt)?;
    let sum = numbers::reads_of_32(rt.alloc(), octets, ROUNDS)?;
    report(rt, "read_num of 32 bits", start.elapsed(rt)?, calls, sum)?;
    Ok(())
}

/// Times the calls that write.
fn time_writes(rt: &HostRuntime, octets: &mut [u8; 4096]) -> Result<(), Fault> {
    let start = Instant::now(rt)?;
    let count = writing::puts(octets, PASSES);
    let took = start.elapsed(rt)?;
    let sum = writing::sum_of(octets);
    report(
        rt,
        "put of 0 to 7 bits and put of 11 bits",
        took,
        count,
        sum,
    )?;
    Ok(())
}

/// Times all calls.
fn time_all(rt: &HostRuntime) -> Result<(), Fault> {
    let mut octets = [0u8; 4096];
    fill(&mut Draw::new(), &mut octets);
    time_reads(rt, &octets)?;
    time_writes(rt, &mut octets)
}

fn main(rt: HostRuntime) -> ExitCode {
    match time_all(&rt) {
        Ok(()) => ExitCode::from(0),
        Err(Fault::Memory) => ExitCode::from(7),
        Err(Fault::System) => ExitCode::from(6),
    }
}
