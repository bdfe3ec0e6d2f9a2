//! Files as their tokens.

ghost use Rattle.std.specs.Prelude.{◌≡◌, bytes_eq};

use acn_lex::{Kind, Token, Tokens};

/// A file of sources, as its tokens.
#[derive(Drop)]
pub struct Source<'a> {
    /// The name of the file.
    pub name: &'a [u8],
    /// What is in it.
    pub bytes: &'a [u8],
    /// Whether it is of ACN, and not of ASN.1.
    pub is_acn: bool,
    /// Its tokens.
    pub tokens: Tokens<'a>,
}

/// A token: the number of its file, and its own number in it.
#[derive(Clone, Copy, PartialEq, Eq)]
pub struct Mark {
    /// The number of the file, from 0.
    pub source: usize,
    /// The number of the token in it, from 0.
    pub token: usize,
}

/// Tokens one behind another.
#[derive(Clone, Copy)]
pub struct Span {
    /// The number of the first.
    pub begins: usize,
    /// The number of the one behind the last.
    pub ends: usize,
}

/// Whether a text is this one.
pub fn is_text(text: &[u8], other: &[u8]) -> bool
    ensures { result ≡ bytes_eq text.now other.now }
{
    text == other
}

/// The text of a token of a number, empty where there is none.
pub fn text_at<'a>(tokens: &[Token<'a>], at: usize) -> &'a [u8] {
    match tokens.get(at) {
        Some(token) => token.text,
        None => &[],
    }
}

/// Whether the token of a number has this text.
pub fn is_at(tokens: &[Token<'_>], at: usize, text: &[u8]) -> bool {
    text_at(tokens, at) == text
}

/// Whether the token of a number is a word.
pub fn is_word(tokens: &[Token<'_>], at: usize) -> bool {
    match tokens.get(at) {
        Some(token) => token.kind == Kind::Word,
        None => false,
    }
}

/// Whether the token of a number is a word that begins with a capital letter.
pub fn is_capital(tokens: &[Token<'_>], at: usize) -> bool {
    match text_at(tokens, at).first() {
        Some(byte) => is_word(tokens, at) && byte.is_ascii_uppercase(),
        None => false,
    }
}

impl<'a> Source<'a> {
    /// The tokens in order.
    pub fn list(&self) -> &[Token<'a>] {
        self.tokens.list.items()
    }

    /// How many bytes of the file stand before a token.
    pub fn place(&self, token: usize) -> usize {
        match self.list().get(token) {
            Some(token) => token.at as usize,
            None => self.bytes.len(),
        }
    }
}
