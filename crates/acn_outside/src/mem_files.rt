ghost use Rattle.std.specs.Prelude.{◌≡◌, ◌≤◌, ◌<◌, ◌||◌, List, ℕ, [], length, take, position, Option, Some, None, IfOk, IfSome, OnOk, OnErr, is_err, option_map, unwrap_or, if◌then◌else◌, bytes_eq};
ghost use Rattle.acn_num.specs.declared.limits.TheConstants.{MOST_FILE_BYTES};
ghost use Rattle.acn_outside.specs.Counts.{Rose, Stays};
ghost use Rattle.acn_outside.specs.Moves.{AreAt, EndsBy};
ghost use Rattle.acn_outside.specs.Memory.{fails, one_more};
ghost use Rattle.acn_outside.specs.Entries.{has_name, contents_of, faults_of, is_absent, share_count};

use crate::copies::copy_front;
use crate::entry::Entry;
use crate::failing::Failing;
use crate::{Failed, Files};
use acn_num::{Name, NoMemory};
use std::alloc::Global;

// The place of the entry with this name.
fn place(entries: &[Entry], name: &[u8]) -> Option<usize>
    ensures { result ≡ position (has_name name.now) entries.now }
{
    entries.iter().position(|entry| entry.name.bytes() == name)
}

// The bytes of the file with this name.
fn find<'a>(entries: &'a [Entry], name: &[u8]) -> Option<&'a [u8]>
    ensures { option_map (λ bytes. bytes.now) result ≡ contents_of entries.now name.now }
{
    match place(entries, name) {
        Some(i) => Some(&entries[i].bytes),
        None => None,
    }
}

// Puts the bytes from a place on at the front of a piece, and answers how many.
fn read_from(bytes: &[u8], at: u64, into: &mut [u8]) -> usize
    ensures within { result ≤ length into.old }
    ensures bytes { AreAt (Some bytes.now) at (take result into.new) }
    ensures end { result ≡ 0 → 0 < length into.old → EndsBy (Some bytes.now) at }
{
    let start = bytes.len().min(at as usize);
    let n = into.len().min(bytes.len() - start);
    copy_front(&bytes[start..start + n], into);
    n
}

// Gives the file with this name new bytes. A new name has the given count.
fn put(entries: &mut Vec<Entry>, name: Name, bytes: Vec<u8>, faults: u64) -> Result<(), NoMemory>
    ensures contents { OnOk result ((m : List ℕ) → contents_of entries.new.items m ≡ (if bytes_eq name m then Some bytes.items else contents_of entries.old.items m)) }
    ensures faults { (m : List ℕ) → faults_of entries.new.items faults m ≡ faults_of entries.old.items faults m }
    ensures same { OnErr result (entries.new.items ≡ entries.old.items) }
{
    match place(entries, name.bytes()) {
        Some(i) => {
            entries[i].bytes = bytes;
        }
        None => {
            entries.push(Entry {
                name,
                bytes,
                faults,
            })?;
        }
    }
    Ok(())
}

/// Files in memory. They tell the bytes of each added name, and nothing of others.
#[derive(Drop)]
pub struct MemFiles {
    entries: Vec<Entry>,
    others: u64,
    failing: Failing,
}

impl MemFiles {
    /// No files. The calls whose numbers, from 0, stand in `fail` fail.
    pub fn new(alloc: Global, fail: Vec<u64>) -> MemFiles
        ensures contents { (m : List ℕ) → ⟦<MemFiles as Files>⟧.contents result m ≡ None }
        ensures faults { (m : List ℕ) → ⟦<MemFiles as Files>⟧.faults result m ≡ 0 }
        ensures numbers { result.failing.numbers ≡ fail }
        ensures call { result.failing.call ≡ 0 }
    {
        MemFiles {
            entries: Vec::new(alloc),
            others: 0,
            failing: Failing::new(fail),
        }
    }

    /// Adds a file. A name that is added again has the new bytes.
    /// A new name begins with the count of all names that weren't added. A refusal changes nothing.
    pub fn add(&mut self, name: Name, bytes: Vec<u8>) -> Result<(), NoMemory>
        ensures contents { OnOk result ((m : List ℕ) → ⟦<MemFiles as Files>⟧.contents self.new m ≡ (if bytes_eq name m then Some bytes.items else ⟦<MemFiles as Files>⟧.contents self.old m)) }
        ensures faults { (m : List ℕ) → ⟦<MemFiles as Files>⟧.faults self.new m ≡ ⟦<MemFiles as Files>⟧.faults self.old m }
        ensures same { OnErr result ((m : List ℕ) → ⟦<MemFiles as Files>⟧.contents self.new m ≡ ⟦<MemFiles as Files>⟧.contents self.old m) }
        ensures failing { self.new.failing ≡ self.old.failing }
    {
        put(&mut self.entries, name, bytes, self.others)
    }

    // Counts a fault of a name.
    fn count_fault(&mut self, name: &[u8])
        ensures contents { (m : List ℕ) → contents_of self.new.entries.items m ≡ contents_of self.old.entries.items m }
        ensures faults { (m : List ℕ) → faults_of self.new.entries.items self.new.others m ≡ (if share_count self.old.entries.items name.now m then one_more (faults_of self.old.entries.items self.old.others m) else faults_of self.old.entries.items self.old.others m) }
        ensures rise { (m : List ℕ) → faults_of self.old.entries.items self.old.others m ≤ faults_of self.new.entries.items self.new.others m }
        ensures rose { Rose (faults_of self.old.entries.items self.old.others name.now) (faults_of self.new.entries.items self.new.others name.now) }
        ensures failing { self.new.failing ≡ self.old.failing }
    {
        match place(&self.entries, name) {
            Some(i) => {
                let entry = &mut self.entries[i];
                entry.faults = entry.faults.saturating_add(1);
            }
            None => {
                self.others = self.others.saturating_add(1);
            }
        }
    }
}

impl Files for MemFiles {
    ghost contents = { λ f name. contents_of f.entries.items name };

    ghost faults = { λ f name. faults_of f.entries.items f.others name };

    fn read_at(&mut self, name: &str, at: u64, into: &mut [u8]) -> Result<usize, Failed>
        requires { at ≤ MOST_FILE_BYTES }
        ensures within { IfOk result (λ n. n ≤ length into.old) }
        ensures bytes { IfOk result (λ n. AreAt (contents_of self.old.entries.items name.now) at (take n into.new)) }
        ensures end { IfOk result (λ n. n ≡ 0 → 0 < length into.old → EndsBy (contents_of self.old.entries.items name.now) at) }
        ensures same { (m : List ℕ) → contents_of self.new.entries.items m ≡ contents_of self.old.entries.items m }
        ensures count { (m : List ℕ) → faults_of self.old.entries.items self.old.others m ≤ faults_of self.new.entries.items self.new.others m }
        ensures failed { OnErr result (Rose (faults_of self.old.entries.items self.old.others name.now) (faults_of self.new.entries.items self.new.others name.now)) }
        ensures listed { is_err result ≡ (fails self.old.failing.numbers.items self.old.failing.call || is_absent self.old.entries.items name.now) }
        ensures counted { OnErr result ((m : List ℕ) → faults_of self.new.entries.items self.new.others m ≡ (if share_count self.old.entries.items name.now m then one_more (faults_of self.old.entries.items self.old.others m) else faults_of self.old.entries.items self.old.others m)) }
        ensures uncounted { OnOk result ((m : List ℕ) → Stays (faults_of self.old.entries.items self.old.others m) (faults_of self.new.entries.items self.new.others m)) }
        ensures numbers { self.new.failing.numbers ≡ self.old.failing.numbers }
        ensures call { self.new.failing.call ≡ one_more self.old.failing.call }
    {
        let fails = self.failing.next_fails();
        match find(&self.entries, name.as_bytes()) {
            Some(bytes) if !fails => Ok(read_from(bytes, at, into)),
            _ => {
                self.count_fault(name.as_bytes());
                Err(Failed)
            }
        }
    }
}

/// Files in memory that never fail. An absent name reads as an empty file.
#[derive(Drop)]
pub struct SureFiles {
    entries: Vec<Entry>,
}

impl SureFiles {
    /// No files but empty ones.
    pub fn new(alloc: Global) -> SureFiles
        ensures { (m : List ℕ) → ⟦<SureFiles as Files>⟧.contents result m ≡ Some [] }
    {
        SureFiles {
            entries: Vec::new(alloc),
        }
    }

    /// Adds a file. A name that is added again has the new bytes. A refusal changes nothing.
    pub fn add(&mut self, name: Name, bytes: Vec<u8>) -> Result<(), NoMemory>
        ensures contents { OnOk result ((m : List ℕ) → ⟦<SureFiles as Files>⟧.contents self.new m ≡ (if bytes_eq name m then Some bytes.items else ⟦<SureFiles as Files>⟧.contents self.old m)) }
        ensures same { OnErr result ((m : List ℕ) → ⟦<SureFiles as Files>⟧.contents self.new m ≡ ⟦<SureFiles as Files>⟧.contents self.old m) }
    {
        put(&mut self.entries, name, bytes, 0)
    }
}

impl Files for SureFiles {
    ghost contents = { λ f name. Some (unwrap_or (contents_of f.entries.items name) []) };

    ghost faults = { λ _ _. 0 };

    fn read_at(&mut self, name: &str, at: u64, into: &mut [u8]) -> Result<usize, Failed> {
        match find(&self.entries, name.as_bytes()) {
            Some(bytes) => Ok(read_from(bytes, at, into)),
            None => Ok(0),
        }
    }
}
