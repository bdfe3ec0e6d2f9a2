ghost use Rattle.acn_params.specs.Laws.{PathsLeadWhereTheMergeTakesThem};

/// A path leads where the merge takes it: what `slot_of` answers of the fields of the sources is what `leads` of `acn_slots`
/// answers there.
pub fn paths_lead_where_the_merge_takes_them()
    ensures { PathsLeadWhereTheMergeTakesThem }
{}
