ghost use Rattle.acn_front.specs.Laws.{FaultyFilesHaveNoWorld, OneGrammar, OneWorld, RefusedTypesHaveNoGrammars};

use acn_sources::{faults_have_no_trees, one_sources};
use acn_world::no_fault_in_a_sound_world;

/// Files that hold the same say the same.
pub fn one_world()
    ensures { OneWorld }
{
    one_sources();
}

/// Files with a fault, of their own or of a name, say nothing.
pub fn faulty_files_have_no_world()
    ensures { FaultyFilesHaveNoWorld }
{
    faults_have_no_trees();
    no_fault_in_a_sound_world();
    one_sources();
}

/// A type that is refused has no grammar.
pub fn refused_types_have_no_grammars()
    ensures { RefusedTypesHaveNoGrammars }
{}

/// A type has one grammar, and one name.
pub fn one_grammar()
    ensures { OneGrammar }
{}
