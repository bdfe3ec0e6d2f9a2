ghost use Rattle.acn_names.specs.Laws.{EachNamedValueIsFound, EachTypeHasABase, ReferencesHaveTheChainOfTheirType};

/// In a sound world references of values end, and at a value: an identifier leads to one exactly where it names one
/// (X.680 clause 14).
pub fn each_named_value_is_found()
    ensures { EachNamedValueIsFound }
{}

/// In a sound world the chain of each type that stands in the text of a module ends at a type that is no reference.
/// What stands there is closed under the types inside a type, as `Stands` says.
pub fn each_type_has_a_base()
    ensures { EachTypeHasABase }
{}

/// In a sound world a reference without constraints of its own has the chain of the type to which it leads: the same
/// base, constraints and entries.
pub fn references_have_the_chain_of_their_type()
    ensures { ReferencesHaveTheChainOfTheirType }
{}
