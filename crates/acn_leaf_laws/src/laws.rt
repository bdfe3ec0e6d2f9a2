ghost use Rattle.acn_leaf_laws.specs.Laws.{AlignmentsAreFine, BooleansAreFine, EnumerationsAreFine, FormsAreFine, IntegersAreFine, ListsAreFine, NamesDifferWhereNoneIsRepeated, NullsAreFine, SizesAreFine, TextsAreFine};

/// The alignment of each site is one of four.
pub fn alignments_are_fine()
    ensures { AlignmentsAreFine }
{}

/// The leaf of a NULL is fine, whatever its site.
pub fn nulls_are_fine()
    ensures { NullsAreFine }
{}

/// The leaf of a BOOLEAN is fine.
pub fn booleans_are_fine()
    ensures { BooleansAreFine }
{}

/// The leaf of an INTEGER is fine, also where a table maps its numbers.
pub fn integers_are_fine()
    ensures { IntegersAreFine }
{}

/// The leaf of an ENUMERATED is fine where its items can be those of an enumeration.
pub fn enumerations_are_fine()
    ensures { EnumerationsAreFine }
{}

/// The sizes of strings and contained octets are fine, with what says a size.
pub fn sizes_are_fine()
    ensures { SizesAreFine }
{}

/// The sizes of a SEQUENCE OF are fine, with what says a size or ends the list.
pub fn lists_are_fine()
    ensures { ListsAreFine }
{}

/// The leaf of a text is fine.
pub fn texts_are_fine()
    ensures { TextsAreFine }
{}

/// The form of every site that is no SEQUENCE and no CHOICE is fine.
pub fn forms_are_fine()
    ensures { FormsAreFine }
{}

/// The names of an enumeration's items differ where none of them is repeated.
pub fn names_differ_where_none_is_repeated()
    ensures { NamesDifferWhereNoneIsRepeated }
{}
