ghost use Rattle.acn_home_laws.specs.HomeLaws.{HomeLaws};
ghost use Rattle.acn_home_laws.specs.Laws.{NodesRise, NodesInsideGoOn, EnclosedNodesGoOn};
ghost use Rattle.acn_home_laws.specs.Rules.{SlotsAreCounted, HomesAreFound, UsesAreOpen, HomesAreFine, SlotsAreUsed, SlotRulesHold};

use acn_homes::{
    each_is_at_home_once, homes_are_smallest, homes_list_their_slots, named_fields_are_numbered,
    numbers_follow_preorder, numbers_tell_slots,
};

/// The nodes of a tree stand in preorder of their paths, and no two have one path.
pub fn nodes_rise()
    ensures { NodesRise }
{}

/// The nodes inside a node are those whose paths go on from its path.
pub fn nodes_inside_go_on()
    ensures { NodesInsideGoOn }
{}

/// A SEQUENCE encloses a slot where the paths of all nodes about the slot go on from its path.
pub fn enclosed_nodes_go_on()
    ensures { EnclosedNodesGoOn }
{}

// What the definitions of slots and homes say.
fn home_laws()
    ensures { HomeLaws }
{
    numbers_follow_preorder();
    named_fields_are_numbered();
    numbers_tell_slots();
    homes_are_smallest();
    homes_list_their_slots();
    each_is_at_home_once();
}

/// The slots in preorder of their fields are 0, 1, 2 and so on.
pub fn slots_are_counted()
    ensures { SlotsAreCounted }
{
    home_laws();
}

/// A SEQUENCE is the home of a slot exactly where its path is that of the home.
pub fn homes_are_found()
    ensures { HomesAreFound }
{
    home_laws();
}

/// Every use names a slot at home round the node.
pub fn uses_are_open()
    ensures { UsesAreOpen }
{
    home_laws();
}

/// Each SEQUENCE lists the slots at home there, and nothing that may be absent stands between it and their fields.
pub fn homes_are_fine()
    ensures { HomesAreFine }
{
    home_laws();
}

/// The slot of each component has a use.
pub fn slots_are_used()
    ensures { SlotsAreUsed }
{
    home_laws();
}

/// All rules of a tree on slots hold where they are numbered by paths.
pub fn slot_rules_hold()
    ensures { SlotRulesHold }
{
    home_laws();
}
