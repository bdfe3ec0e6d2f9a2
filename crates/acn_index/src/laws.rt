ghost use Rattle.acn_index.specs.Leading.{LookupsFindWhatNamesLeadTo, LinksAreTheWholeChain};

use acn_ends::endless_ways_have_no_end;

/// A look-up finds exactly what a name leads to, by however many imports.
pub fn lookups_find_what_names_lead_to()
    ensures { LookupsFindWhatNamesLeadTo }
{}

/// The links of a chain that ends are all of it.
pub fn links_are_the_whole_chain()
    ensures { LinksAreTheWholeChain }
{
    endless_ways_have_no_end();
}
