ghost use Rattle.acn_item_laws.specs.Laws.{BasesStand, FormsOfSitesAreFine, NoTypeRepeatsAName, SitesHaveItems};

use acn_leaf_laws::forms_are_fine;

/// The type at the end of each site's chain stands in the text of the world, or is one that inserted fields have by themselves.
pub fn bases_stand()
    ensures { BasesStand }
{}

/// No type in the text of a sound world gives a name twice in one place.
pub fn no_type_repeats_a_name()
    ensures { NoTypeRepeatsAName }
{}

/// At each site of a sound world an enumeration has items that it can have, where each in the text has an item and not too many.
pub fn sites_have_items()
    ensures { SitesHaveItems }
{}

/// Where no site of a type has a reason, the form of each that is no SEQUENCE and no CHOICE is fine.
pub fn forms_of_sites_are_fine()
    ensures { FormsOfSitesAreFine }
{
    forms_are_fine();
}
