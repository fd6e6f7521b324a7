//! The shapes of the pieces that a text is cut into.
use crate::token::TokenKind;

/// What a piece of a text is.
#[derive(Clone, Copy)]
pub enum Shape {
    /// Spaces, tabs, carriage returns and newlines.
    Blanks,
    /// `//` and the rest of the line.
    LineComment,
    /// From `/*` to the next `*/`.
    BlockComment,
    /// A `/*` that nothing closes.
    OpenComment,
    /// What begins and goes on as a number does, and is no integer literal.
    BadNumber,
    /// A token.
    Word(TokenKind),
}
