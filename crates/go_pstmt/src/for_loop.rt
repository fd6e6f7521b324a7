//! Reads the head of a `for`.
ghost use Rattle.std.specs.Prelude.{◌+◌, ◌<◌, ◌≤◌, Option, Some, None, OnOk};
ghost use Rattle.go_ast.specs.Trees as trees;
ghost use Rattle.go_ast.specs.Grammar.{Lexeme};
ghost use Rattle.go_ast.specs.Machine.{Reader, behind_for, for_condition, for_turns};
ghost use Rattle.go_ast.specs.Views.{expr_of, simple_of, if_boxed};
ghost use Rattle.go_pexpr.specs.Reads.{Reads, size};
ghost use Rattle.go_pstmt.specs.Reading.{ReadsTurns};
ghost use Rattle.go_pstmt.specs.Turns.{by_turns};

use crate::header::value_before;
use crate::marks::{OPENING_BRACE, RANGE, SEMICOLON};
use crate::simple::{Header, Position, header_from, simple};
use go_ast::expression::Expr;
use go_ast::name::Name;
use go_ast::statement::Simple;
use go_pexpr::expected::Expected;
use go_pexpr::parser::{Parser, Refusal};

/// The head of a `for`.
#[derive(Drop)]
pub(crate) enum Turns {
    /// The statement before the first turn, the condition of each turn, and the statement behind
    /// each, where there are such.
    Steps(Option<Box<Simple>>, Option<Box<Expr>>, Option<Box<Simple>>),
    /// The variable that is declared, if there is one, and what is gone over.
    Range(Option<Name>, Box<Expr>),
}

/// Reads what is behind the second semicolon of a `for`.
///
/// `[ PostStmt ] .`
fn turns_behind(
    parser: &mut Parser<'_>,
    level: u32,
    init: Option<Box<Simple>>,
    condition: Option<Box<Expr>>,
) -> Result<Turns, Refusal>
    requires { level ≤ 251 }
    ensures reads { ReadsTurns level (λ p next. for_turns level p next (if_boxed simple_of init) (if_boxed expr_of condition)) parser.old result parser.new }
    ensures no_longer { OnOk result (size parser.new ≤ size parser.old) }
{
    if parser.is_next(OPENING_BRACE) {
        return Ok(Turns::Steps(init, condition, None));
    }
    let post = simple(parser, Position::Turns, level + 1)?;
    let post = Box::new(parser.alloc, post)?;
    Ok(Turns::Steps(init, condition, Some(post)))
}

/// Reads what is behind the first semicolon of a `for`.
///
/// `[ Condition ] ";" [ PostStmt ] .`
fn condition_behind(
    parser: &mut Parser<'_>,
    level: u32,
    init: Option<Box<Simple>>,
) -> Result<Turns, Refusal>
    requires { level ≤ 251 }
    ensures reads { ReadsTurns level (λ p next. for_condition level p next (if_boxed simple_of init)) parser.old result parser.new }
    ensures no_longer { OnOk result (size parser.new ≤ size parser.old) }
{
    let condition = value_before(parser, level + 1, SEMICOLON)?;
    turns_behind(parser, level, init, condition)
}

/// Reads what is between a `for` and its block.
///
/// `[ Condition | ForClause | RangeClause ] .` `ForClause = [ InitStmt ] ";" [ Condition ] ";" [ PostStmt ] .`
pub(crate) fn turns_from(parser: &mut Parser<'_>, level: u32) -> Result<Turns, Refusal>
    requires { level ≤ 251 }
    ensures reads { (t : Lexeme) (next : trees.Statement → Reader) → Reads (behind_for level next t) (by_turns level t.place next) parser.old result parser.new }
    ensures no_longer { OnOk result (size parser.new ≤ size parser.old) }
{
    if parser.is_next(OPENING_BRACE) {
        return Ok(Turns::Steps(None, None, None));
    }
    if let Some(_) = parser.accept(SEMICOLON, 0)? {
        return condition_behind(parser, level, None);
    }
    if let Some(_) = parser.accept(RANGE, 0)? {
        let operand = parser.expr_from(true, level + 1, Expected::Operand)?;
        let operand = Box::new(parser.alloc, operand)?;
        return Ok(Turns::Range(None, operand));
    }
    match header_from(parser, Position::For, level + 1)? {
        Header::Simple(init) => {
            parser.expect(SEMICOLON, 0, Expected::Another)?;
            condition_behind(parser, level, Some(init))
        }
        Header::Alone(condition) => Ok(Turns::Steps(None, Some(condition), None)),
        Header::Range(name, operand) => Ok(Turns::Range(Some(name), operand)),
    }
}
