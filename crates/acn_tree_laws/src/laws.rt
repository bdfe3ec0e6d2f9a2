ghost use Rattle.acn_tree_laws.specs.Laws.{InsertedFieldsOfSourcesFit, MadeTreesAreTrees, NamesInsideOfSourcesDiffer};

use acn_item_laws::{bases_stand, forms_of_sites_are_fine, no_type_repeats_a_name};
use acn_made_laws::{made_tree_is_fine_where_its_leaves_are, nodes_stand_for_sites};
use acn_world::entries_stand_at_their_places;

/// At each site of a type of a sound world the type of an inserted field is one that may stand there.
pub fn inserted_fields_of_sources_fit()
    ensures { InsertedFieldsOfSourcesFit }
{
    entries_stand_at_their_places();
}

/// At each site of a type of a sound world names in one place differ, and no CHOICE is empty where none in the text is.
pub fn names_inside_of_sources_differ()
    ensures { NamesInsideOfSourcesDiffer }
{
    entries_stand_at_their_places();
    bases_stand();
    no_type_repeats_a_name();
}

/// The tree that is made of a type of a world as sources give it is well formed, where no reason stands against the type.
pub fn made_trees_are_trees()
    ensures { MadeTreesAreTrees }
{
    inserted_fields_of_sources_fit();
    names_inside_of_sources_differ();
    forms_of_sites_are_fine();
    nodes_stand_for_sites();
    made_tree_is_fine_where_its_leaves_are();
}
