ghost use Rattle.acn_sources.specs.Laws.{FaultsHaveNoTrees, OneSources};

use acn_acn_parse::one_proper_tree as one_proper_acn_tree;
use acn_asn_parse::one_proper_tree;
use acn_lex::one_answer_holds;

/// Files have at most one tree each.
pub fn one_sources()
    ensures { OneSources }
{
    one_answer_holds();
    one_proper_tree();
    one_proper_acn_tree();
}

/// A file that has a fault has no tree.
pub fn faults_have_no_trees()
    ensures { FaultsHaveNoTrees }
{
    one_answer_holds();
}
