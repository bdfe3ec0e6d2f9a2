ghost use Rattle.acn_source_laws.specs.Laws.{ProperSourcesGiveAWorld, SourcesOfFilesAreProper};

/// The trees that files have are proper.
pub fn sources_of_files_are_proper()
    ensures { SourcesOfFilesAreProper }
{}

/// A sound world of proper trees is one of whose types `merge` makes trees: each ENUMERATED has an item and fewer than 2^64,
/// and each CHOICE has an alternative.
pub fn proper_sources_give_a_world()
    ensures { ProperSourcesGiveAWorld }
{}
