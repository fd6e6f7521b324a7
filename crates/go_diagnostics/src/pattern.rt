//! Patterns of the tokens around a place.
ghost use Rattle.std.specs.Prelude.{◌≡◌, slice_get};
ghost use Rattle.go_diagnostics.specs.Patterns.{opens, closes, enclosing, token_at, is_of_kind, pattern_fits, is_met, conditions_hold};

use go_scan::keyword::Keyword;
use go_scan::punctuation::Punctuation;
use go_scan::token::{Token, TokenKind};

/// Where a token stands, seen from a place.
#[derive(Clone, Copy)]
pub enum Position {
    /// At the place.
    Here,
    /// The next one before it.
    Before,
    /// The one before that.
    SecondBefore,
    /// The third before the place.
    ThirdBefore,
    /// The next one behind it.
    Behind,
    /// The one behind that.
    SecondBehind,
    /// The third behind the place.
    ThirdBehind,
    /// The fourth.
    FourthBehind,
    /// The bracket that is open last before the place.
    Bracket,
    /// The next token before that bracket.
    BeforeBracket,
}

/// Which tokens may stand at a position.
#[derive(Clone, Copy)]
pub enum Pattern {
    /// All, and none.
    Any,
    /// No token stands there.
    Nothing,
    /// A name.
    Name,
    /// An integer literal.
    Integer,
    /// A rune literal.
    Rune,
    /// A string literal.
    String,
    /// This keyword.
    Word(Keyword),
    /// This operator or punctuation.
    Mark(Punctuation),
}

/// A position, and which tokens stand there.
pub type Condition = (Position, Pattern);

fn opens(kind: TokenKind) -> bool
    ensures { result ≡ opens kind }
{
    matches!(
        kind,
        TokenKind::Punctuation(
            Punctuation::OpenParenthesis | Punctuation::OpenBracket | Punctuation::OpenBrace
        )
    )
}

fn closes(kind: TokenKind) -> bool
    ensures { result ≡ closes kind }
{
    matches!(
        kind,
        TokenKind::Punctuation(
            Punctuation::CloseParenthesis | Punctuation::CloseBracket | Punctuation::CloseBrace
        )
    )
}

/// The tokens before a place, the nearest first, from the bracket on that is open last; none where
/// none is open.
pub fn enclosing(before: &[Token]) -> &[Token]
    ensures { result.now ≡ enclosing 0 before.now }
{
    let mut rest = before;
    let mut depth: usize = 0;
    while let [token, others @ ..] = rest {
        if opens(token.kind) {
            if depth == 0 {
                return rest;
            }
            depth -= 1;
        } else if closes(token.kind) {
            depth += 1;
        }
        rest = others;
    }
    rest
}

fn nth(tokens: &[Token], n: usize) -> Option<Token>
    ensures { result ≡ slice_get tokens.now n }
{
    tokens.get(n).copied()
}

/// The token at a position, where `before` has the tokens before the place, the nearest first, and
/// `from` that at the place and those behind it.
pub fn token_at(position: Position, before: &[Token], from: &[Token]) -> Option<Token>
    ensures { result ≡ token_at position before.now from.now }
{
    match position {
        Position::Here => nth(from, 0),
        Position::Before => nth(before, 0),
        Position::SecondBefore => nth(before, 1),
        Position::ThirdBefore => nth(before, 2),
        Position::Behind => nth(from, 1),
        Position::SecondBehind => nth(from, 2),
        Position::ThirdBehind => nth(from, 3),
        Position::FourthBehind => nth(from, 4),
        Position::Bracket => nth(enclosing(before), 0),
        Position::BeforeBracket => nth(enclosing(before), 1),
    }
}

fn is_of(token: Option<Token>, kind: TokenKind) -> bool
    ensures { result ≡ is_of_kind token kind }
{
    match token {
        Some(token) => token.kind == kind,
        None => false,
    }
}

impl Pattern {
    /// Whether a token may stand there, or none.
    pub fn fits(self, token: Option<Token>) -> bool
        ensures { result ≡ pattern_fits self token }
    {
        match self {
            Pattern::Any => true,
            Pattern::Nothing => token.is_none(),
            Pattern::Name => is_of(token, TokenKind::Name),
            Pattern::Integer => is_of(token, TokenKind::Integer),
            Pattern::Rune => is_of(token, TokenKind::Rune),
            Pattern::String => is_of(token, TokenKind::String),
            Pattern::Word(keyword) => is_of(token, TokenKind::Keyword(keyword)),
            Pattern::Mark(punctuation) => is_of(token, TokenKind::Punctuation(punctuation)),
        }
    }
}

/// Conditions, all of which hold around a place.
pub type Conditions = (Condition, Condition, Condition);

fn is_met(condition: Condition, before: &[Token], from: &[Token]) -> bool
    ensures { result ≡ is_met condition before.now from.now }
{
    condition.1.fits(token_at(condition.0, before, from))
}

/// Whether all conditions hold around a place.
pub fn holds(conditions: Conditions, before: &[Token], from: &[Token]) -> bool
    ensures { result ≡ conditions_hold conditions before.now from.now }
{
    is_met(conditions.0, before, from)
        && (is_met(conditions.1, before, from) && is_met(conditions.2, before, from))
}
