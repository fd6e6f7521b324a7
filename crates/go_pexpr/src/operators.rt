//! Which operator or suffix comes next.
ghost use Rattle.std.specs.Prelude.{◌≡◌, Option, Some, None};
ghost use Rattle.go_ast.specs.Operators as operators;
ghost use Rattle.go_ast.specs.Machine.{literal_type, is_some, begins_type, begins_expr};
ghost use Rattle.go_ast.specs.Views.{type_of, expr_of};
ghost use Rattle.go_pexpr.specs.Reads.{left};
ghost use Rattle.go_pexpr.specs.Next.{sign_at, operator_at, suffix_at, beginning_of, beginning_at, type_begins, expr_begins, is_slice_type};

use crate::parser::Parser;
use go_ast::expression::{BinaryOperator, Expr, ExprKind, TypeExpr, TypeKind, UnaryOperator};
use go_scan::keyword::Keyword;
use go_scan::punctuation::Punctuation;
use go_scan::token::TokenKind;

/// What may stand behind an operand.
#[derive(Clone, Copy, Drop)]
pub(crate) enum Suffix {
    Selector,
    Index,
    Call,
    CompositeLit,
}

/// How an operand may begin.
#[derive(Clone, Copy, Drop)]
pub(crate) enum Beginning {
    Name,
    Integer,
    Rune,
    String,
    Parenthesis,
    Bracket,
    Structure,
    Other,
}

/// How an operand begins whose first token is of a kind.
fn beginning_of(kind: TokenKind) -> Beginning
    ensures { result ≡ beginning_of kind }
{
    match kind {
        TokenKind::Name => Beginning::Name,
        TokenKind::Integer => Beginning::Integer,
        TokenKind::Rune => Beginning::Rune,
        TokenKind::String => Beginning::String,
        TokenKind::Punctuation(Punctuation::OpenParenthesis) => Beginning::Parenthesis,
        TokenKind::Punctuation(Punctuation::OpenBracket) => Beginning::Bracket,
        TokenKind::Keyword(Keyword::Struct) => Beginning::Structure,
        _ => Beginning::Other,
    }
}

/// Whether a type begins with a token of a kind.
fn begins_type(kind: TokenKind) -> bool
    ensures { result ≡ begins_type kind }
{
    matches!(
        kind,
        TokenKind::Name
            | TokenKind::Keyword(Keyword::Struct)
            | TokenKind::Punctuation(Punctuation::OpenBracket)
    )
}

/// Whether an expression begins with a token of a kind.
fn begins_expr(kind: TokenKind) -> bool
    ensures { result ≡ begins_expr kind }
{
    matches!(
        kind,
        TokenKind::Name
            | TokenKind::Integer
            | TokenKind::Rune
            | TokenKind::String
            | TokenKind::Keyword(Keyword::Struct)
            | TokenKind::Punctuation(
                Punctuation::OpenParenthesis
                    | Punctuation::OpenBracket
                    | Punctuation::Plus
                    | Punctuation::Minus
                    | Punctuation::Not
                    | Punctuation::Caret
            )
    )
}

/// The operator in front of an operand that a token of a kind is.
fn unary_operator(kind: TokenKind) -> Option<UnaryOperator>
    ensures { result ≡ operators.unary_of kind }
{
    match kind {
        TokenKind::Punctuation(Punctuation::Plus) => Some(UnaryOperator::Positive),
        TokenKind::Punctuation(Punctuation::Minus) => Some(UnaryOperator::Negative),
        TokenKind::Punctuation(Punctuation::Not) => Some(UnaryOperator::Negation),
        TokenKind::Punctuation(Punctuation::Caret) => Some(UnaryOperator::Complement),
        _ => None,
    }
}

/// The operator between two operands that a token of a kind is.
fn binary_operator(kind: TokenKind) -> Option<BinaryOperator>
    ensures { result ≡ operators.binary_of kind }
{
    match kind {
        TokenKind::Punctuation(Punctuation::Star) => Some(BinaryOperator::Multiply),
        TokenKind::Punctuation(Punctuation::Slash) => Some(BinaryOperator::Divide),
        TokenKind::Punctuation(Punctuation::Percent) => Some(BinaryOperator::Remainder),
        TokenKind::Punctuation(Punctuation::ShiftLeft) => Some(BinaryOperator::ShiftLeft),
        TokenKind::Punctuation(Punctuation::ShiftRight) => Some(BinaryOperator::ShiftRight),
        TokenKind::Punctuation(Punctuation::Ampersand) => Some(BinaryOperator::BitAnd),
        TokenKind::Punctuation(Punctuation::AndNot) => Some(BinaryOperator::AndNot),
        TokenKind::Punctuation(Punctuation::Plus) => Some(BinaryOperator::Add),
        TokenKind::Punctuation(Punctuation::Minus) => Some(BinaryOperator::Subtract),
        TokenKind::Punctuation(Punctuation::Pipe) => Some(BinaryOperator::BitOr),
        TokenKind::Punctuation(Punctuation::Caret) => Some(BinaryOperator::BitXor),
        TokenKind::Punctuation(Punctuation::Equal) => Some(BinaryOperator::Equal),
        TokenKind::Punctuation(Punctuation::NotEqual) => Some(BinaryOperator::NotEqual),
        TokenKind::Punctuation(Punctuation::Less) => Some(BinaryOperator::Less),
        TokenKind::Punctuation(Punctuation::LessOrEqual) => Some(BinaryOperator::LessOrEqual),
        TokenKind::Punctuation(Punctuation::Greater) => Some(BinaryOperator::Greater),
        TokenKind::Punctuation(Punctuation::GreaterOrEqual) => Some(BinaryOperator::GreaterOrEqual),
        TokenKind::Punctuation(Punctuation::LogicalAnd) => Some(BinaryOperator::LogicalAnd),
        TokenKind::Punctuation(Punctuation::LogicalOr) => Some(BinaryOperator::LogicalOr),
        _ => None,
    }
}

/// How many levels of operators bind tighter.
pub(crate) fn tighter(operator: BinaryOperator) -> u8
    ensures { result ≡ operators.tighter operator }
{
    match operator {
        BinaryOperator::Multiply
        | BinaryOperator::Divide
        | BinaryOperator::Remainder
        | BinaryOperator::ShiftLeft
        | BinaryOperator::ShiftRight
        | BinaryOperator::BitAnd
        | BinaryOperator::AndNot => 0,
        BinaryOperator::Add
        | BinaryOperator::Subtract
        | BinaryOperator::BitOr
        | BinaryOperator::BitXor => 1,
        BinaryOperator::Equal
        | BinaryOperator::NotEqual
        | BinaryOperator::Less
        | BinaryOperator::LessOrEqual
        | BinaryOperator::Greater
        | BinaryOperator::GreaterOrEqual => 2,
        BinaryOperator::LogicalAnd => 3,
        BinaryOperator::LogicalOr => 4,
    }
}

/// Whether an expression may be the type of a literal.
pub(crate) fn is_type(expr: &Expr) -> bool
    ensures { result ≡ is_some (literal_type (expr_of expr.now)) }
{
    match &expr.kind {
        ExprKind::Name(_) => true,
        ExprKind::Selector(operand, _) => matches!(operand.kind, ExprKind::Name(_)),
        _ => false,
    }
}

/// Whether a type is one of slices.
pub(crate) fn is_slice(a: &TypeExpr) -> bool
    ensures { result ≡ is_slice_type (type_of a.now) }
{
    matches!(a.kind, TypeKind::Slice(_))
}

impl<'a> Parser<'a> {
    /// How an operand begins with the next token.
    pub(crate) fn beginning(&self) -> Beginning
        ensures { result ≡ beginning_at (left self.now) }
    {
        match self.tokens {
            [token, ..] => beginning_of(token.kind),
            [] => Beginning::Other,
        }
    }

    /// Whether a type begins with the next token.
    pub(crate) fn begins_type(&self) -> bool
        ensures { result ≡ type_begins (left self.now) }
    {
        match self.tokens {
            [token, ..] => begins_type(token.kind),
            [] => false,
        }
    }

    /// Whether an expression begins with the next token.
    pub(crate) fn begins_expr(&self) -> bool
        ensures { result ≡ expr_begins (left self.now) }
    {
        match self.tokens {
            [token, ..] => begins_expr(token.kind),
            [] => false,
        }
    }

    /// The operator in front of an operand that is next.
    pub(crate) fn sign(&self) -> Option<UnaryOperator>
        ensures { result ≡ sign_at (left self.now) }
    {
        match self.tokens {
            [token, ..] => unary_operator(token.kind),
            [] => None,
        }
    }

    /// The operator of a level from `tightest` on and below `levels` that is next.
    pub(crate) fn operator(&self, tightest: u8, levels: u8) -> Option<BinaryOperator>
        ensures { result ≡ operator_at tightest levels (left self.now) }
    {
        match self.tokens {
            [token, ..] => match binary_operator(token.kind) {
                Some(operator) if tightest <= tighter(operator) && tighter(operator) < levels => {
                    Some(operator)
                }
                _ => None,
            },
            [] => None,
        }
    }

    /// The suffix of an operand that is next.
    pub(crate) fn suffix(&self, header: bool, operand: &Expr) -> Option<Suffix>
        ensures { result ≡ suffix_at header (is_some (literal_type (expr_of operand.now))) (left self.now) }
    {
        let literal = !header && is_type(operand);
        match self.tokens {
            [token, ..] => match token.kind {
                TokenKind::Punctuation(Punctuation::Period) => Some(Suffix::Selector),
                TokenKind::Punctuation(Punctuation::OpenBracket) => Some(Suffix::Index),
                TokenKind::Punctuation(Punctuation::OpenParenthesis) => Some(Suffix::Call),
                TokenKind::Punctuation(Punctuation::OpenBrace) if literal => Some(
                    Suffix::CompositeLit,
                ),
                _ => None,
            },
            [] => None,
        }
    }
}
