//! How deep a token stands.

ghost use Rattle.std.specs.Prelude.{◌≡◌, ◌+◌, ◌^◌, ◌<◌, ◌≤◌, nat_lt};
ghost use Rattle.acn_lex.specs.Lexeme.{lexeme};
ghost use Rattle.acn_cursor.specs.declared.level.TheConstants.{MOST_LEVEL};
ghost use Rattle.acn_cursor.specs.Level as spec;
ghost use Rattle.acn_cursor.specs.Screens as screens;

use acn_lex::{Kind, Token, same_kind};

/// The greatest level of a token, this profile's own.
pub const MOST_LEVEL: usize = 64;

/// How deep the next token stands, as the tokens before it say.
#[derive(Clone, Copy)]
pub struct Level {
    /// The marks that open.
    opened: usize,
    /// The marks that close.
    closed: usize,
    /// The words `OF` that count.
    ofs: usize,
    /// The words `OF` that counted at each mark that is open, by how many were open there.
    before: [usize; MOST_LEVEL],
}

/// Whether a token is of this kind and text.
#[tactic(auto, unfolding(crate::specs::Steps::sees))]
pub fn is_token(token: &Token<'_>, kind: Kind, text: &[u8]) -> bool
    ensures { result ≡ screens.is_token kind text.now (lexeme token.now) }
{
    same_kind(token.kind, kind) && token.text == text
}

#[tactic(auto, unfolding(crate::specs::Screens::opens))]
fn opens(token: &Token<'_>) -> bool
    ensures { result ≡ screens.opens (lexeme token.now) }
{
    is_token(token, Kind::Mark, b"{") || is_token(token, Kind::Mark, b"(")
}

#[tactic(auto, unfolding(crate::specs::Screens::shuts))]
fn shuts(token: &Token<'_>) -> bool
    ensures { result ≡ screens.shuts (lexeme token.now) }
{
    is_token(token, Kind::Mark, b")")
}

#[tactic(auto, unfolding(crate::specs::Screens::closes, crate::specs::Screens::shuts))]
fn closes(token: &Token<'_>) -> bool
    ensures { result ≡ screens.closes (lexeme token.now) }
{
    is_token(token, Kind::Mark, b"}") || shuts(token)
}

#[tactic(auto, unfolding(crate::specs::Screens::is_of))]
fn is_of(token: &Token<'_>) -> bool
    ensures { result ≡ screens.is_of (lexeme token.now) }
{
    is_token(token, Kind::Word, b"OF")
}

#[tactic(auto, unfolding(crate::specs::Screens::restarts))]
fn restarts(token: &Token<'_>) -> bool
    ensures { result ≡ screens.restarts (lexeme token.now) }
{
    is_token(token, Kind::Mark, b"::=")
        || is_token(token, Kind::Mark, b",")
        || is_token(token, Kind::Mark, b"{")
        || is_token(token, Kind::Mark, b"}")
}

impl Level {
    /// The level before the first token.
    pub fn new() -> Level
        ensures { result ≡ spec.none }
    {
        Level {
            opened: 0,
            closed: 0,
            ofs: 0,
            before: [0; MOST_LEVEL],
        }
    }

    /// Whether the next token is too deep.
    pub fn is_over(&self) -> bool
        requires { (self.now.opened < 2 ^ 32) × (self.now.closed < 2 ^ 32) × (self.now.ofs < 2 ^ 32) }
        ensures { result ≡ nat_lt (self.now.closed + MOST_LEVEL) (self.now.opened + self.now.ofs) }
    {
        self.closed + MOST_LEVEL < self.opened + self.ofs
    }

    // The words OF that counted at the mark that is opened last and still open, or none where no mark is open.
    fn given_back(&self) -> usize
        requires { (self.now.closed < 2 ^ 32) × (self.now.opened ≤ self.now.closed + MOST_LEVEL) }
        ensures { result ≡ spec.given_back self.now }
    {
        if self.closed < self.opened {
            self.before[self.opened - self.closed - 1]
        } else {
            0
        }
    }

    // The words OF that count behind this token.
    fn ofs_behind(&self, token: &Token<'_>) -> usize
        requires { (self.now.closed < 2 ^ 32) × (self.now.ofs < 2 ^ 32) × (self.now.opened ≤ self.now.closed + MOST_LEVEL) }
        ensures { result ≡ spec.ofs_behind self.now (lexeme token.now) }
    {
        if shuts(token) {
            self.given_back()
        } else if restarts(token) {
            0
        } else {
            self.ofs + usize::from(is_of(token))
        }
    }

    // Keeps what counts before a mark that opens. Behind a mark too many every token is too deep, and nothing is looked up.
    fn keep(&mut self, token: &Token<'_>)
        requires { self.old.opened < 2 ^ 32 }
        ensures { self.new ≡ record self.old { before = spec.before_behind self.old (lexeme token.now) } }
    {
        if opens(token) && self.closed <= self.opened && self.opened - self.closed < MOST_LEVEL {
            self.before[self.opened - self.closed] = self.ofs;
        }
    }

    /// Goes behind this token, which isn't too deep.
    pub fn pass(&mut self, token: &Token<'_>)
        requires { (self.old.opened < 2 ^ 32) × (self.old.closed < 2 ^ 32) × (self.old.ofs < 2 ^ 32) × (self.old.opened ≤ self.old.closed + MOST_LEVEL) }
        ensures { self.new ≡ spec.behind self.old (lexeme token.now) }
    {
        let ofs = self.ofs_behind(token);
        self.keep(token);
        self.opened += usize::from(opens(token));
        self.closed += usize::from(closes(token));
        self.ofs = ofs;
    }
}
