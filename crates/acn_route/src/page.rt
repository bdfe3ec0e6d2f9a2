//! Lines that are gathered before they are written.

ghost use Rattle.std.specs.Prelude.{◌≡◌, ◌++◌, [], Some, OnOk, OnErr};
ghost use Rattle.std.specs.List.{flat_map};
ghost use Rattle.acn_json.specs.Kept.{Kept};
ghost use Rattle.acn_report.specs.Parts.{part_text};

use acn_num::NoMemory;
use acn_outside::{Failed, Sink};
use acn_report::{Part, put_parts};
use acn_transcode::Draft;
use std::alloc::Global;

/// An output in memory that grows, and what its next line is put together with. It fails where
/// memory runs out.
#[derive(Drop)]
pub struct Page {
    pub bytes: Vec<u8>,
    pub draft: Draft,
    faults: u64,
}

impl Page {
    /// An empty page. It takes no memory.
    pub fn new(alloc: Global) -> Page
        ensures { result.bytes.items ≡ [] }
    {
        Page {
            bytes: Vec::new(alloc),
            draft: Draft::new(alloc),
            faults: 0,
        }
    }
}

impl Sink for Page {
    ghost taken = { λ page. Some page.bytes.items };

    ghost faults = { λ page. page.faults };

    fn write(&mut self, from: &[u8]) -> Result<usize, Failed> {
        match self.bytes.extend_from_slice(from) {
            Ok(()) => Ok(from.len()),
            Err(_) => {
                self.faults = self.faults.saturating_add(1);
                Err(Failed)
            }
        }
    }
}

/// Puts parts of a line. Where memory runs out, what stood there still stands in front.
pub fn append<'a>(page: &mut Page, parts: &[Part<'a>]) -> Result<(), NoMemory>
    ensures added { OnOk result (page.new.bytes.items ≡ page.old.bytes.items ++ flat_map part_text parts.now) }
    ensures kept { OnErr result (Kept page.old.bytes.items page.new.bytes.items) }
{
    match put_parts(page, parts) {
        Ok(()) => Ok(()),
        Err(_) => Err(NoMemory),
    }
}
