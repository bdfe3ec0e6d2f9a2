ghost use Rattle.acn_acn_parse.specs.Laws.{OneProperAcn, OneProperMap};

/// Tokens are those of at most one proper tree, of ACN modules and of mapping tables.
pub fn one_proper_tree()
    ensures modules { OneProperAcn }
    ensures tables { OneProperMap }
{}
