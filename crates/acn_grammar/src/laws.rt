ghost use Rattle.acn_grammar.specs.Told.{DataTellTheValue, GrammarsTellTheNode};

/// Two values with the same data are the same.
pub fn data_tell_the_value()
    ensures { DataTellTheValue }
{}

/// Two nodes with the same grammar are the same.
pub fn grammars_tell_the_node()
    ensures { GrammarsTellTheNode }
{}
