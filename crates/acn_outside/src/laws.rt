ghost use Rattle.std.specs.Prelude.{◌≡◌, List, ℕ};
ghost use Rattle.acn_outside.specs.declared.mem_files.SureFiles.{SureFiles as AnyFiles};
ghost use Rattle.acn_outside.specs.declared.memory.SureSource.{SureSource as AnySource};
ghost use Rattle.acn_outside.specs.declared.memory.SureSink.{SureSink as AnySink};
ghost use Rattle.acn_outside.specs.Counts.{Rose};

use crate::{Files, Sink, Source, SureFiles, SureSink, SureSource};

/// The counts of the files, inputs and outputs that never fail are 0 at every moment.
/// So they never rise, and no call over them answers a fault.
pub fn sure_counts_stay_zero()
    ensures files { (files : AnyFiles) (name : List ℕ) → ⟦<SureFiles as Files>⟧.faults files name ≡ 0 }
    ensures source { (source : AnySource) → ⟦<SureSource as Source>⟧.faults source ≡ 0 }
    ensures sink { (sink : AnySink) → ⟦<SureSink as Sink>⟧.faults sink ≡ 0 }
    ensures no_rise { Rose 0 0 → ⊥ }
{}
