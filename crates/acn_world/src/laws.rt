ghost use Rattle.acn_world.specs.Laws.{NoFaultInASoundWorld, NoCycleAmongRanks, EntriesStandAtTheirPlaces, AssignedChainsHaveTheirOwnEntry};

/// A world with a fault isn't sound, so the answers of `resolve` exclude each other.
pub fn no_fault_in_a_sound_world()
    ensures { NoFaultInASoundWorld }
{}

/// Ranks that fall along each reference exclude cycles.
pub fn no_cycle_among_ranks()
    ensures { NoCycleAmongRanks }
{}

/// At the place of an assignment's entry stands that entry.
pub fn entries_stand_at_their_places()
    ensures { EntriesStandAtTheirPlaces }
{}

/// The chain of an assigned type is that of its type as it stands in the text, with the assignment's own entry behind
/// the others.
pub fn assigned_chains_have_their_own_entry()
    ensures { AssignedChainsHaveTheirOwnEntry }
{}
