ghost use Rattle.acn_asn_parse.specs.Laws.{OneProperTree};

/// Tokens are those of at most one proper tree of ASN.1 modules.
pub fn one_proper_tree()
    ensures { OneProperTree }
{}
