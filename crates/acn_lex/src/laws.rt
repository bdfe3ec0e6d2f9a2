ghost use Rattle.acn_lex.specs.Laws.{SpellingsAreDecimal, DecimalsAreSpellings, TokensAreDetermined, FaultsAreDetermined, FaultsHaveNoTokens};

/// `number_of` reads decimal texts: the text of each number below 2^64, and no other.
pub fn numbers_are_decimal()
    ensures spelled { SpellingsAreDecimal }
    ensures each { DecimalsAreSpellings }
{}

/// A file has the tokens of one list alone, or one first fault, and not both.
pub fn one_answer_holds()
    ensures tokens { TokensAreDetermined }
    ensures faults { FaultsAreDetermined }
    ensures apart { FaultsHaveNoTokens }
{}
