ghost use Rattle.acn_fold_laws.specs.Free.{FreeNumbersAreUnwritten};
ghost use Rattle.acn_fold_laws.specs.Items.{TwinsAreTheFirst, AscendingIsInOrder, LeastWidthIsTheLeast};
ghost use Rattle.acn_fold_laws.specs.Numbers.{LeastOfASetIsTheLeast, GreatestOfASetIsTheGreatest, LeastOfItemsIsTheLeast, GreatestOfItemsIsTheGreatest, LostItemIsTheLeast, LostNumberIsTheLeast};
ghost use Rattle.acn_fold_laws.specs.Places.{PlacesStandAsWords, BadPathIsTheFirst};
ghost use Rattle.acn_fold_laws.specs.Tables.{TablesWithoutFaultAreOneToOne, FaultOfATableIsTheFirst, KeysToLeadBetween};

/// The least number of a set is the least that it holds, and there is none exactly where it holds none.
pub fn least_of_a_set_is_the_least()
    ensures { LeastOfASetIsTheLeast }
{}

/// The greatest number of a set is the greatest that it holds, and there is none exactly where it holds none.
pub fn greatest_of_a_set_is_the_greatest()
    ensures { GreatestOfASetIsTheGreatest }
{}

/// The least number of the items of an enumeration is the least that one of them has.
pub fn least_of_items_is_the_least()
    ensures { LeastOfItemsIsTheLeast }
{}

/// The greatest number of the items of an enumeration is the greatest that one of them has.
pub fn greatest_of_items_is_the_greatest()
    ensures { GreatestOfItemsIsTheGreatest }
{}

/// The number of an item that is said to be lost is the least that its coding can't write.
pub fn lost_item_is_the_least()
    ensures { LostItemIsTheLeast }
{}

/// The number of an INTEGER that is said to be lost is the least of those left that its coding can't write.
pub fn lost_number_is_the_least()
    ensures { LostNumberIsTheLeast }
{}

/// The places of a text stand in the order of words.
pub fn places_stand_as_words()
    ensures { PlacesStandAsWords }
{}

/// The fault of a path that is told is the first in the text, and there is none exactly where no path has one.
pub fn bad_path_is_the_first()
    ensures { BadPathIsTheFirst }
{}

/// A mapping table has no fault exactly where it is one to one.
pub fn tables_without_fault_are_one_to_one()
    ensures { TablesWithoutFaultAreOneToOne }
{}

/// The fault of a mapping table is that of the first line that isn't one to one with those in front.
pub fn fault_of_a_table_is_the_first()
    ensures { FaultOfATableIsTheFirst }
{}

/// The keys whose images can be written are those that a line maps to a number that can be.
pub fn keys_to_lead_between()
    ensures { KeysToLeadBetween }
{}

/// Two items with one number are the first two, and there are none exactly where all numbers differ.
pub fn twins_are_the_first()
    ensures { TwinsAreTheFirst }
{}

/// Items in the order of their numbers ascend, and those with one number stand as they stood.
pub fn ascending_is_in_order()
    ensures { AscendingIsInOrder }
{}

/// The least width holds the number, and no lesser one does.
pub fn least_width_is_the_least()
    ensures { LeastWidthIsTheLeast }
{}

/// The numbers that items without a written one take are the whole numbers from 0 that no item has written.
pub fn free_numbers_are_unwritten()
    ensures { FreeNumbersAreUnwritten }
{}
