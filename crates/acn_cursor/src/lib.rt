//! A place among tokens, and the steps of a parser.
#![tactic(auto)]

mod fault;
mod level;
mod screens;
mod stop;
mod words;

ghost use Rattle.std.specs.Prelude.{◌≡◌, [], ◌∷◌, length, MatchOption, Ok, IfErr};
ghost use Rattle.std.specs.Option.{option_copied};
ghost use Rattle.acn_lex.specs.Lexeme.{lexemes, lexeme};
ghost use Rattle.acn_cursor.specs.Steps as spec;
ghost use Rattle.acn_cursor.specs.Steps.{ReadsFreely};
ghost use Rattle.acn_cursor.specs.declared.stop.Stop.TheVariants.{Refused};

use acn_lex::{Kind, Token, number_of, same_kind};
pub use fault::ParseFault;
pub use level::MOST_LEVEL;
pub use screens::{left_out, screened, too_deep};
use std::marker::Model;
pub use stop::{Stop, in_file};
pub use words::{identifier, reference};

/// The tokens that are left to read.
///
/// A step that takes one token or none leaves the cursor as it was where it fails. After an `Err` of a parser that is made
/// of several steps nothing is said of the tokens that are left: the cursor is then to be let go. A refusal keeps how many
/// tokens were left where a step failed.
#[derive(Drop)]
pub struct Cursor<'a> {
    tokens: &'a [Token<'a>],
}

impl<'a> Model for Cursor<'a> {
    ghost use Rattle.std.specs.Prelude.{List};
    ghost use Rattle.acn_lex.specs.Lexeme.{Lexeme, lexemes};

    ghost Value = { List Lexeme };

    ghost view = { λ c. lexemes c.tokens.now };
}

impl<'a> Cursor<'a> {
    /// A cursor before the first of these tokens.
    pub fn new(tokens: &'a [Token<'a>]) -> Cursor<'a>
        ensures { result ≡ lexemes tokens.now }
    {
        Cursor { tokens }
    }

    /// Takes the next token, if there is one.
    pub fn take(&mut self) -> Option<Token<'a>>
        ensures { MatchOption result ((self.old ≡ []) × (self.new ≡ [])) (λ t. self.old ≡ lexeme t ∷ self.new) }
    {
        match self.tokens {
            [] => None,
            [first, rest @ ..] => {
                self.tokens = rest;
                Some(*first)
            }
        }
    }

    /// Whether a token of this kind and text comes next.
    #[tactic(auto, unfolding(crate::specs::Steps::sees))]
    pub fn sees(&self, kind: Kind, text: &[u8]) -> bool
        ensures { result ≡ spec.sees kind text.now self.now }
    {
        match self.tokens {
            [] => false,
            [first, ..] => same_kind(first.kind, kind) && first.text == text,
        }
    }

    /// Takes the next token, if it is of this kind and text.
    #[tactic(auto, unfolding(crate::specs::Steps::eat, crate::specs::Steps::after))]
    pub fn eat(&mut self, kind: Kind, text: &[u8]) -> bool
        ensures { spec.eat kind text.now self.old ≡ Ok (result, self.new) }
    {
        let found = self.sees(kind, text);
        if found {
            self.take();
        }
        found
    }

    /// Takes the next token, which has to be of this kind and text.
    #[tactic(auto, unfolding(crate::specs::Steps::expect))]
    pub fn expect(&mut self, kind: Kind, text: &[u8]) -> Result<(), Stop>
        ensures read { ReadsFreely (spec.expect kind text.now self.old) result self.new }
        ensures kept { IfErr result (λ _. self.new ≡ self.old) }
    {
        if self.sees(kind, text) {
            self.take();
            Ok(())
        } else {
            Err(self.refuse())
        }
    }

    /// How many tokens are left.
    pub fn left(&self) -> usize
        ensures { result ≡ length self.now }
    {
        self.tokens.len()
    }

    /// The text of the next token, if it is of this kind.
    #[tactic(auto, unfolding(crate::specs::Steps::text_of))]
    pub fn text_of(&self, kind: Kind) -> Option<&'a [u8]>
        ensures { option_copied result ≡ spec.text_of kind self.now }
    {
        match self.tokens {
            [] => None,
            [first, ..] => {
                if same_kind(first.kind, kind) {
                    Some(first.text)
                } else {
                    None
                }
            }
        }
    }

    /// Takes the next token.
    pub fn skip(&mut self)
        ensures { self.new ≡ spec.behind self.old }
    {
        self.take();
    }

    /// Takes the next token, which has to be a number.
    #[tactic(auto, unfolding(crate::specs::Steps::number))]
    pub fn number(&mut self) -> Result<u64, Stop>
        ensures read { ReadsFreely (spec.number self.old) result self.new }
        ensures kept { IfErr result (λ _. self.new ≡ self.old) }
    {
        match self.text_of(Kind::Number) {
            None => Err(self.refuse()),
            Some(text) => match number_of(text) {
                None => Err(self.refuse()),
                Some(n) => {
                    self.take();
                    Ok(n)
                }
            },
        }
    }

    /// That no rule reads the tokens that are left.
    pub fn refuse(&self) -> Stop
        ensures { result ≡ Refused (length self.now) }
    {
        Stop::Refused { left: self.left() }
    }
}
