//! Tokens.
use crate::keyword::Keyword;
use crate::punctuation::Punctuation;
use go_text::place::Place;

/// The kinds of tokens.
#[derive(Clone, Copy, PartialEq, Eq, Debug)]
pub enum TokenKind {
    /// A letter, and then letters and digits; no keyword.
    Name,
    /// A word that no name may be.
    Keyword(Keyword),
    /// An integer literal.
    Integer,
    /// A rune literal.
    Rune,
    /// A string literal, interpreted or raw.
    String,
    /// An operator or punctuation. A semicolon may also be inserted, where a line ends.
    Punctuation(Punctuation),
}

/// A token: its kind, the offsets in bytes of its text's start and end in the source's text, and
/// the place of its first byte. A written semicolon has the text `;`. An inserted one has no text, and
/// stands behind a token.
#[derive(Clone, Copy, PartialEq, Eq, Debug)]
pub struct Token {
    /// What kind of token it is.
    pub kind: TokenKind,
    /// The offset of its first byte.
    pub start: u32,
    /// The offset behind its last byte.
    pub end: u32,
    /// The place of its first byte.
    pub place: Place,
}
