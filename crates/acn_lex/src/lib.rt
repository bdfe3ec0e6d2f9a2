//! The tokens of ASN.1, ACN and map files: lexical items of X.680, clause 12, and the marks that ACN adds. `lex` gives
//! the tokens of a file or its first fault.
#![tactic(auto)]

mod fault;
mod laws;
mod lexing;
mod literal;
mod number;
mod scan;
mod words;

pub use fault::LexFault;
pub use laws::{numbers_are_decimal, one_answer_holds};
pub use lexing::{MOST_TOKENS, lex};
pub use number::number_of;
pub use words::{
    ACN_LEFT_OUT, ASN_LEFT_OUT, ASN_LEFT_OUT_MARKS, ASN_WORDS, is_identifier, is_one_of,
    is_reference, is_reserved,
};

/// What a token is.
#[derive(Clone, Copy, PartialEq, Eq)]
pub enum Kind {
    /// A letter, then letters, digits and single hyphens, each hyphen before a letter or digit (X.680, 12.2 and 12.3).
    Word,
    /// Decimal digits with no zero before others (X.680, 12.8), below 2^64 in this profile.
    Number,
    /// Zeros, ones and white space between apostrophes, and `B` (X.680, 12.10).
    Bits,
    /// Hexadecimal digits and white space between apostrophes, and `H` (X.680, 12.12; lower-case digits are this
    /// profile's own).
    Hex,
    /// Bytes from 32 to 126 between quotation marks, of which one inside is written twice (X.680, 12.14).
    Text,
    /// `::=`, `..`, `...`, `==` or one of `.,;:{}()[]<>|^-=@!&` (X.680, 12.20 to 12.22 and 12.37; `==` is ACN's).
    Mark,
}

/// A token of a file.
#[derive(Clone, Copy)]
pub struct Token<'a> {
    /// What it is.
    pub kind: Kind,
    /// How many bytes of the file stand before it.
    pub at: u32,
    /// Its bytes, with the marks at the ends of a literal.
    pub text: &'a [u8],
}

/// The tokens of a file, in order.
#[derive(Drop)]
pub struct Tokens<'a> {
    pub list: Row<Token<'a>>,
}

ghost use Rattle.std.specs.Prelude.{◌≡◌, ◌≢◌, true, false};
ghost use Rattle.acn_lex.specs.Lexeme.{same_kind as is_same_kind};

use acn_num::Row;

/// Whether two kinds are one.
pub fn same_kind(a: Kind, b: Kind) -> bool
    ensures value { result ≡ is_same_kind a b }
    ensures same { result ≡ true → a ≡ b }
    ensures other { result ≡ false → a ≢ b }
{
    a == b
}
