//! What follows from the definitions of slots and homes.

ghost use Rattle.acn_homes.specs.Laws.{NumbersFollowPreorder, SlotsAreNodes, SlotsAreNamed, NamedFieldsAreNumbered, NumbersTellSlots, HomesAreSmallest, HomesListTheirSlots, EachIsAtHomeOnce, NumbersAtHomeAscend};

/// Along all nodes in preorder the numbers of slots are 0, 1, 2 and so on.
pub fn numbers_follow_preorder()
    ensures { NumbersFollowPreorder }
{}

/// There are no more slots than nodes.
pub fn slots_are_nodes()
    ensures { SlotsAreNodes }
{}

/// There are no more slots than paths that are noted.
pub fn slots_are_named()
    ensures { SlotsAreNamed }
{}

/// Exactly the fields that are inserted or named have a number.
pub fn named_fields_are_numbered()
    ensures { NamedFieldsAreNumbered }
{}

/// A number tells its slot's field and home.
pub fn numbers_tell_slots()
    ensures { NumbersTellSlots }
{}

/// A home is round its field and all users, and no longer path is.
pub fn homes_are_smallest()
    ensures { HomesAreSmallest }
{}

/// The numbers at home at a path are those of the slots whose home it is, in order.
pub fn homes_list_their_slots()
    ensures { HomesListTheirSlots }
{}

/// Each slot is at home at one path alone.
pub fn each_is_at_home_once()
    ensures { EachIsAtHomeOnce }
{}

/// The numbers at home at a path ascend.
pub fn numbers_at_home_ascend()
    ensures { NumbersAtHomeAscend }
{}
