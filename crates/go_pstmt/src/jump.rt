//! Reads statements with no statements in them.
ghost use Rattle.std.specs.Prelude.{◌≡◌, ◌<◌, ◌≤◌, Some, Ok, OnOk};
ghost use Rattle.go_ast.specs.Trees as trees;
ghost use Rattle.go_ast.specs.Machine.{Reader};
ghost use Rattle.go_ast.specs.Views.{stmt_of, exprs_in};
ghost use Rattle.go_ast.specs.declared.statement.Stmt.{Stmt};
ghost use Rattle.go_pstmt.specs.Due.{declared_or, jump_or, values_or_none};
ghost use Rattle.go_pexpr.specs.Reads.{Reads, either, size};

use crate::declaration::{constants, variables};
use crate::marks::{BREAK, CONST, CONTINUE, FALLTHROUGH, RETURN, VAR};
use go_ast::expression::Expr;
use go_ast::statement::Stmt;
use go_pexpr::expected::Expected;
use go_pexpr::parser::{Parser, Refusal};

/// Reads a declaration that is a statement, if one begins here.
///
/// `Declaration = ConstDecl | VarDecl .`
pub(crate) fn declared(parser: &mut Parser<'_>, level: u32) -> Result<Option<Stmt>, Refusal>
    requires { level ≤ 251 }
    ensures reads { (next : trees.Statement → Reader) (none : Reader) → Reads (declared_or level next none) (either (λ s. next (stmt_of s)) none) parser.old result parser.new }
    ensures no_longer { OnOk result (size parser.new ≤ size parser.old) }
    ensures shorter { (s : Stmt) → result ≡ Ok (Some s) → size parser.new < size parser.old }
{
    if let Some(token) = parser.accept(CONST, level)? {
        let declaration = constants(parser, level + 1, token.place)?;
        return Ok(Some(Stmt::Declaration(token.place, declaration)));
    }
    if let Some(token) = parser.accept(VAR, level)? {
        let declaration = variables(parser, level + 1, token.place)?;
        return Ok(Some(Stmt::Declaration(token.place, declaration)));
    }
    Ok(None)
}

/// Reads the values of a return, which may be missing.
///
/// `[ ExpressionList ] .`
fn values(parser: &mut Parser<'_>, level: u32) -> Result<Vec<Expr>, Refusal>
    requires { level ≤ 252 }
    ensures reads { (next : trees.ExpressionList → Reader) → Reads (values_or_none level next) (λ es. next (exprs_in es.items)) parser.old result parser.new }
    ensures no_longer { OnOk result (size parser.new ≤ size parser.old) }
{
    let Some(value) = parser.expr_if(false, level, Expected::Operand)? else {
        return Ok(Vec::new(parser.alloc));
    };
    let mut values = Vec::with_capacity(parser.alloc, 1)?;
    values.push(value)?;
    parser.more_exprs(false, level, values)
}

/// Reads a return or a jump, if one begins here.
///
/// `ReturnStmt = "return" [ ExpressionList ] .` `BreakStmt = "break" .` `ContinueStmt = "continue" .`
/// `FallthroughStmt = "fallthrough" .`
pub(crate) fn jump(parser: &mut Parser<'_>, level: u32) -> Result<Option<Stmt>, Refusal>
    requires { level ≤ 251 }
    ensures reads { (next : trees.Statement → Reader) (none : Reader) → Reads (jump_or level next none) (either (λ s. next (stmt_of s)) none) parser.old result parser.new }
    ensures no_longer { OnOk result (size parser.new ≤ size parser.old) }
    ensures shorter { (s : Stmt) → result ≡ Ok (Some s) → size parser.new < size parser.old }
{
    if let Some(token) = parser.accept(RETURN, level)? {
        let values = values(parser, level + 1)?;
        return Ok(Some(Stmt::Return(token.place, values)));
    }
    if let Some(token) = parser.accept(BREAK, level)? {
        return Ok(Some(Stmt::Break(token.place)));
    }
    if let Some(token) = parser.accept(CONTINUE, level)? {
        return Ok(Some(Stmt::Continue(token.place)));
    }
    if let Some(token) = parser.accept(FALLTHROUGH, level)? {
        return Ok(Some(Stmt::Fallthrough(token.place)));
    }
    Ok(None)
}
