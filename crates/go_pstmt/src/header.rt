//! Reads what is between an `if` or a `switch` and its block.
ghost use Rattle.std.specs.Prelude.{◌+◌, ◌<◌, ◌≤◌, Option, Some, None, OnOk, true};
ghost use Rattle.go_ast.specs.Trees as trees;
ghost use Rattle.go_ast.specs.Trees.{Statement};
ghost use Rattle.go_ast.specs.Grammar.{Lexeme};
ghost use Rattle.go_ast.specs.Machine.{Reader, token, behind_if, if_condition, behind_switch, switch_tag};
ghost use Rattle.go_ast.specs.Views.{expr_of, simple_of, if_boxed};
ghost use Rattle.go_text.specs.declared.place.Place.{Place};
ghost use Rattle.go_pexpr.specs.Reads.{Reads, size, ReadsAs};
ghost use Rattle.go_pstmt.specs.Reading.{read_value_if, by_condition, by_compared};

use crate::marks::{OPENING_BRACE, SEMICOLON};
use crate::simple::{Header, Position, header_from};
use go_ast::expression::Expr;
use go_ast::statement::Simple;
use go_pexpr::expected::Expected;
use go_pexpr::parser::{Parser, Refusal};
use go_scan::token::TokenKind;

/// The head of an `if`.
#[derive(Drop)]
pub(crate) struct Condition {
    /// The statement before the condition, if there is one.
    pub init: Option<Box<Simple>>,
    /// The condition.
    pub condition: Box<Expr>,
}

/// The head of a `switch`.
#[derive(Drop)]
pub(crate) struct Compared {
    /// The statement before the value, if there is one.
    pub init: Option<Box<Simple>>,
    /// The value that is compared, if there is one.
    pub value: Option<Box<Expr>>,
}

/// Reads an expression, which may be missing, and the mark behind it.
///
/// `[ Expression ] .`
pub(crate) fn value_before(
    parser: &mut Parser<'_>,
    level: u32,
    mark: TokenKind,
) -> Result<Option<Box<Expr>>, Refusal>
    requires { level ≤ 252 }
    ensures reads { ReadsAs (if_boxed expr_of) (read_value_if level mark) parser.old result parser.new }
    ensures shorter { OnOk result (size parser.new < size parser.old) }
{
    if let Some(_) = parser.accept(mark, 0)? {
        return Ok(None);
    }
    let value = parser.expr_from(true, level, Expected::Operand)?;
    let value = Box::new(parser.alloc, value)?;
    parser.expect(mark, 0, Expected::Another)?;
    Ok(Some(value))
}

/// Reads the condition of an `if`, behind the statement before it.
fn condition_behind(
    parser: &mut Parser<'_>,
    level: u32,
    init: Option<Box<Simple>>,
) -> Result<Condition, Refusal>
    requires { level ≤ 251 }
    ensures reads { (p : Place) (next : trees.If → Reader) → Reads (if_condition level p next (if_boxed simple_of init)) (by_condition level p next) parser.old result parser.new }
    ensures shorter { OnOk result (size parser.new < size parser.old) }
{
    let condition = parser.expr_from(true, level + 1, Expected::Operand)?;
    let condition = Box::new(parser.alloc, condition)?;
    Ok(Condition { init, condition })
}

/// Reads what is between an `if` and its block.
///
/// `[ [ SimpleStmt ] ";" ] Expression .`
pub(crate) fn condition_from(parser: &mut Parser<'_>, level: u32) -> Result<Condition, Refusal>
    requires { level ≤ 251 }
    ensures reads { (t : Lexeme) (next : trees.If → Reader) → Reads (behind_if level next t) (by_condition level t.place next) parser.old result parser.new }
    ensures shorter { OnOk result (size parser.new < size parser.old) }
{
    if let Some(_) = parser.accept(SEMICOLON, 0)? {
        return condition_behind(parser, level, None);
    }
    match header_from(parser, Position::Header, level + 1)? {
        Header::Simple(init) => {
            parser.expect(SEMICOLON, 0, Expected::Another)?;
            condition_behind(parser, level, Some(init))
        }
        Header::Alone(condition) => Ok(Condition {
            init: None,
            condition,
        }),
        Header::Range(_name, _operand) => condition_behind(parser, level, None),
    }
}

/// Reads the value that a `switch` compares, behind the statement before it, and the opening brace.
fn compared_behind(
    parser: &mut Parser<'_>,
    level: u32,
    init: Option<Box<Simple>>,
) -> Result<Compared, Refusal>
    requires { level ≤ 251 }
    ensures reads { (p : Place) (next : Statement → Reader) → Reads (switch_tag level p next (if_boxed simple_of init)) (by_compared level p next) parser.old result parser.new }
    ensures shorter { OnOk result (size parser.new < size parser.old) }
{
    let value = value_before(parser, level + 1, OPENING_BRACE)?;
    Ok(Compared { init, value })
}

/// Reads what is between a `switch` and its clauses.
///
/// `[ [ SimpleStmt ] ";" ] [ Expression ] "{" .`
pub(crate) fn compared_from(parser: &mut Parser<'_>, level: u32) -> Result<Compared, Refusal>
    requires { level ≤ 251 }
    ensures reads { (t : Lexeme) (next : trees.Statement → Reader) → Reads (behind_switch level next t) (by_compared level t.place next) parser.old result parser.new }
    ensures shorter { OnOk result (size parser.new < size parser.old) }
{
    if let Some(_) = parser.accept(OPENING_BRACE, 0)? {
        return Ok(Compared {
            init: None,
            value: None,
        });
    }
    if let Some(_) = parser.accept(SEMICOLON, 0)? {
        return compared_behind(parser, level, None);
    }
    match header_from(parser, Position::Header, level + 1)? {
        Header::Simple(init) => {
            parser.expect(SEMICOLON, 0, Expected::Another)?;
            compared_behind(parser, level, Some(init))
        }
        Header::Alone(value) => {
            parser.expect(OPENING_BRACE, 0, Expected::Another)?;
            Ok(Compared {
                init: None,
                value: Some(value),
            })
        }
        Header::Range(_name, _operand) => compared_behind(parser, level, None),
    }
}
