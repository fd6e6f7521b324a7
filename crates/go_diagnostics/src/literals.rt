//! What literals at a place tell of types.
ghost use Rattle.std.specs.Prelude.{◌≡◌};
ghost use Rattle.go_diagnostics.specs.Literals.{are_mixed, assigned_literal, declared, literals_differ, ends_value, is_declaration, is_end, is_operator};
ghost use Rattle.go_diagnostics.specs.Literals.{literal_message, token_literal, takes_value, value_literal};

use crate::message::Message;
use go_scan::keyword::Keyword;
use go_scan::punctuation::Punctuation;
use go_scan::token::{Token, TokenKind};
use go_text::fault::FaultKind;

/// The type of a literal, as far as its token shows it.
#[derive(Clone, Copy, PartialEq, Eq, Debug)]
pub enum Literal {
    /// An integer or a rune.
    Number,
    /// A string.
    String,
}

/// The type of a token, if it is a literal.
fn literal_of(token: Token) -> Option<Literal>
    ensures { result ≡ token_literal token }
{
    match token.kind {
        TokenKind::Integer | TokenKind::Rune => Some(Literal::Number),
        TokenKind::String => Some(Literal::String),
        TokenKind::Name | TokenKind::Keyword(_) | TokenKind::Punctuation(_) => None,
    }
}

/// Whether a token is an operator whose operands have one type, and that binds tighter than `&&`.
fn is_operator(token: Token) -> bool
    ensures { result ≡ is_operator token }
{
    matches!(
        token.kind,
        TokenKind::Punctuation(
            Punctuation::Plus
                | Punctuation::Minus
                | Punctuation::Star
                | Punctuation::Slash
                | Punctuation::Percent
                | Punctuation::Ampersand
                | Punctuation::Pipe
                | Punctuation::Caret
                | Punctuation::AndNot
                | Punctuation::Equal
                | Punctuation::NotEqual
                | Punctuation::Less
                | Punctuation::LessOrEqual
                | Punctuation::Greater
                | Punctuation::GreaterOrEqual
        )
    )
}

/// Whether a token ends the expression before it.
fn is_end(token: Token) -> bool
    ensures { result ≡ is_end token }
{
    matches!(
        token.kind,
        TokenKind::Punctuation(
            Punctuation::CloseParenthesis
                | Punctuation::CloseBracket
                | Punctuation::CloseBrace
                | Punctuation::OpenBrace
                | Punctuation::Comma
                | Punctuation::Colon
                | Punctuation::Semicolon
        )
    )
}

/// Whether of two literals one is a number and one a string.
fn differ(left: Option<Literal>, right: Option<Literal>) -> bool
    ensures { result ≡ literals_differ left right }
{
    match (left, right) {
        (Some(Literal::Number), Some(Literal::String)) => true,
        (Some(Literal::String), Some(Literal::Number)) => true,
        _ => false,
    }
}

/// Whether tokens begin with an operation on a number and a string, both literals.
fn are_mixed(from: &[Token]) -> bool
    ensures { result ≡ are_mixed from.now }
{
    match from {
        [left, operator, right, end, ..] => {
            is_operator(*operator) && is_end(*end) && differ(literal_of(*left), literal_of(*right))
        }
        _ => false,
    }
}

/// Whether a token ends a statement or an only argument.
fn ends_value(token: Token) -> bool
    ensures { result ≡ ends_value token }
{
    matches!(
        token.kind,
        TokenKind::Punctuation(
            Punctuation::CloseParenthesis | Punctuation::CloseBrace | Punctuation::Semicolon
        )
    )
}

/// The literal that tokens begin with, where it is the last value of a statement or of a call.
fn value_of(from: &[Token]) -> Option<Literal>
    ensures { result ≡ value_literal from.now }
{
    match from {
        [value, end, ..] if ends_value(*end) => literal_of(*value),
        _ => None,
    }
}

/// Whether tokens are those before the value of a declaration: a name, its type and `=`.
fn is_declaration(name: Token, of: Token, assign: Token) -> bool
    ensures { result ≡ is_declaration name of assign }
{
    name.kind == TokenKind::Name
        && of.kind == TokenKind::Name
        && assign.kind == TokenKind::Punctuation(Punctuation::Assign)
}

/// The name of its type, and the literal, of a declaration that gives one name a literal.
pub fn declared(from: &[Token]) -> Option<(Token, Literal)>
    ensures { result ≡ declared from.now }
{
    match from {
        [name, of, assign, value @ ..] if is_declaration(*name, *of, *assign) => {
            Some((*of, value_of(value)?))
        }
        _ => None,
    }
}

/// Whether tokens are those before a value: a name and `=`, or a function and a parenthesis.
fn takes_value(name: Token, mark: Token) -> bool
    ensures { result ≡ takes_value name mark }
{
    name.kind == TokenKind::Name
        && matches!(
            mark.kind,
            TokenKind::Punctuation(Punctuation::Assign | Punctuation::OpenParenthesis)
        )
}

/// The literal that a name is assigned, a function is called with alone, or `return` has alone.
fn assigned(from: &[Token]) -> Option<Literal>
    ensures { result ≡ assigned_literal from.now }
{
    match from {
        [name, mark, value @ ..] if takes_value(*name, *mark) => value_of(value),
        [word, value @ ..] if word.kind == TokenKind::Keyword(Keyword::Return) => value_of(value),
        _ => None,
    }
}

/// What literals tell of a place at which types don't go together.
pub fn literal_message(kind: FaultKind, from: &[Token]) -> Option<Message>
    ensures { result ≡ literal_message kind from.now }
{
    match kind {
        FaultKind::Mismatch if are_mixed(from) => Some(Message::StringAndNumber),
        FaultKind::Assign => match assigned(from)? {
            Literal::Number => Some(Message::NumberValue),
            Literal::String => Some(Message::StringValue),
        },
        _ => None,
    }
}
