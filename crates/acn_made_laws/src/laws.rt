ghost use Rattle.acn_made_laws.specs.Laws.{NodesStandForSites, NodesStandAtSites, MadeSlotsAreNumbered, MadeSlotRulesHold, SitesHaveNoReason, MadeTreeIsWithinLimits, MadeRolesAreFine, MadeChoicesAreRuled, MadeOuterFormsAreFine, MadeTreeIsFineWhereItsFormsAre, MadeTreeIsFineWhereItsLeavesAre};

use acn_home_laws::{nodes_inside_go_on, nodes_rise, slot_rules_hold};
use acn_homes::named_fields_are_numbered;

/// The nodes of a made tree stand for the sites of its type, in order.
pub fn nodes_stand_for_sites()
    ensures { NodesStandForSites }
{}

/// The paths of the nodes of a made tree are those of the sites of its type, in order.
pub fn nodes_stand_at_sites()
    ensures { NodesStandAtSites }
{}

/// The slots of a made tree are numbered by the paths that its sites note.
pub fn made_slots_are_numbered()
    ensures { MadeSlotsAreNumbered }
{
    named_fields_are_numbered();
    nodes_rise();
}

/// All rules of a tree on slots and homes hold in a made tree.
pub fn made_slot_rules_hold()
    ensures { MadeSlotRulesHold }
{
    named_fields_are_numbered();
    nodes_rise();
    slot_rules_hold();
}

/// No reason holds at any site of a type that has none against it.
pub fn sites_have_no_reason()
    ensures { SitesHaveNoReason }
{}

/// A made tree has no path that is too long, and not too many nodes.
pub fn made_tree_is_within_limits()
    ensures { MadeTreeIsWithinLimits }
{
    nodes_rise();
}

/// A field with a slot is a number that is always there, and an inserted field without one is a NULL, where the types of inserted
/// fields may stand.
pub fn made_roles_are_fine()
    ensures { MadeRolesAreFine }
{
    named_fields_are_numbered();
    nodes_rise();
}

/// Each CHOICE of a made tree has the rule for its alternatives.
pub fn made_choices_are_ruled()
    ensures { MadeChoicesAreRuled }
{
    nodes_rise();
    nodes_inside_go_on();
}

/// The form of each SEQUENCE and CHOICE of a made tree is fine, where names in one place differ.
pub fn made_outer_forms_are_fine()
    ensures { MadeOuterFormsAreFine }
{
    nodes_rise();
    nodes_inside_go_on();
}

/// A made tree is well formed where the forms of its nodes are fine, and the types of inserted fields may stand.
pub fn made_tree_is_fine_where_its_forms_are()
    ensures { MadeTreeIsFineWhereItsFormsAre }
{
    named_fields_are_numbered();
    nodes_rise();
    slot_rules_hold();
}

/// A made tree is well formed where its leaves, lists and contents are fine, names in one place differ, and the types of inserted
/// fields may stand.
pub fn made_tree_is_fine_where_its_leaves_are()
    ensures { MadeTreeIsFineWhereItsLeavesAre }
{
    named_fields_are_numbered();
    nodes_rise();
    nodes_inside_go_on();
    slot_rules_hold();
}
