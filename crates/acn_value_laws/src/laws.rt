ghost use Rattle.acn_value_laws.specs.Ending.{ValuesAreFoundWhereReferencesEnd};

use acn_index::lookups_find_what_names_lead_to;

/// An identifier leads to a value exactly where its references end at that value, by however many.
pub fn values_are_found_where_references_end()
    ensures { ValuesAreFoundWhereReferencesEnd }
{
    lookups_find_what_names_lead_to();
}
