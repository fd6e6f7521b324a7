//! Reads statements.
ghost use Rattle.std.specs.Prelude.{◌<◌, ◌≤◌, ◌+◌, List, map, OnOk};
ghost use Rattle.go_ast.specs.Trees as trees;
ghost use Rattle.go_scan.specs.declared.keyword.Keyword.TheVariants as keywords;
ghost use Rattle.go_ast.specs.Expected as expected;
ghost use Rattle.go_ast.specs.Machine.{Reader, token, keyword, read_block, behind_if, behind_for, behind_switch, read_clauses, pack_cases};
ghost use Rattle.go_ast.specs.Views.{stmt_of, block_of, if_of, clause_of};
ghost use Rattle.go_pexpr.specs.Reads.{Reads, size, expected_of, ReadsAs};
ghost use Rattle.go_pstmt.specs.Reading.{ReadsElse, ReadsClauseBody, ReadsStatement};
ghost use Rattle.go_pstmt.specs.Statements.{Between, due_stmt};

use crate::clause::{clause_from, expected_behind};
use crate::for_loop::turns_from;
use crate::header::{compared_from, condition_from};
use crate::jump::{declared, jump};
use crate::made::{ends_clause, for_of};
use crate::marks::{CLOSING_BRACE, ELSE, FOR, IF, OPENING_BRACE, SEMICOLON, SWITCH};
use crate::simple::{Position, place_of, simple};
use go_ast::statement::{Block, Clause, Else, If, Stmt};
use go_pexpr::expected::Expected;
use go_pexpr::parser::{Parser, Refusal};

/// Reads what is behind an item of a list of statements: a semicolon, which may be missing before
/// a brace.
fn item_end(parser: &mut Parser<'_>, expected: Expected) -> Result<(), Refusal>
    ensures reads { (behind front : Reader) → Between parser.old.edition behind (expected_of expected) front → Reads behind (λ _. front) parser.old result parser.new }
    ensures no_longer { OnOk result (size parser.new ≤ size parser.old) }
{
    if parser.is_next(CLOSING_BRACE) {
        return Ok(());
    }
    parser.expect(SEMICOLON, 0, expected)?;
    Ok(())
}

/// Reads a block.
///
/// `Block = "{" StatementList "}" .`
#[cycle(statement)]
pub fn block(parser: &mut Parser<'_>, level: u32) -> Result<Block, Refusal>
    requires { level ≤ 252 }
    ensures reads { (next : trees.Block → Reader) → Reads (read_block level next) (λ b. next (block_of b)) parser.old result parser.new }
    ensures shorter { OnOk result (size parser.new < size parser.old) }
{
    let opening = parser.expect(OPENING_BRACE, level, Expected::Another)?;
    let mut statements = Vec::new(parser.alloc);
    'statements: while !parser.is_next(CLOSING_BRACE) {
        item(parser, level + 1, &mut statements)?;
    }
    let closing = parser.expect(CLOSING_BRACE, 0, Expected::Another)?;
    statements.shrink_to_fit();
    Ok(Block {
        place: opening.place,
        statements,
        closing: closing.place,
    })
}

/// Reads an item of a list of statements, and the semicolon behind it.
///
/// `StatementList = { Statement ";" } .`
#[cycle(statement)]
fn item(parser: &mut Parser<'_>, level: u32, statements: &mut Vec<Stmt>) -> Result<(), Refusal>
    requires { level ≤ 251 }
    ensures reads { ReadsStatement level (map stmt_of statements.old.items) (map stmt_of statements.new.items) parser.old result parser.new }
    ensures shorter { OnOk result (size parser.new < size parser.old) }
{
    if parser.is_next(SEMICOLON) {
        let token = parser.expect(SEMICOLON, level, Expected::Another)?;
        statements.push(Stmt::Empty(token.place))?;
        return Ok(());
    }
    let statement = statement(parser, level)?;
    let behind = expected_behind(&statement);
    statements.push(statement)?;
    item_end(parser, behind)
}

/// Reads a statement, which isn't empty.
///
/// `Statement = Declaration | SimpleStmt | ReturnStmt | BreakStmt | ContinueStmt
/// | FallthroughStmt | Block | IfStmt | ForStmt | SwitchStmt .`
#[cycle(statement)]
fn statement(parser: &mut Parser<'_>, level: u32) -> Result<Stmt, Refusal>
    requires { level ≤ 251 }
    ensures reads { (next : trees.Statement → Reader) → Reads (due_stmt level next) (λ s. next (stmt_of s)) parser.old result parser.new }
    ensures shorter { OnOk result (size parser.new < size parser.old) }
{
    if let Some(statement) = declared(parser, level)? {
        return Ok(statement);
    }
    if let Some(statement) = jump(parser, level)? {
        return Ok(statement);
    }
    if parser.is_next(OPENING_BRACE) {
        let block = block(parser, level + 1)?;
        return Ok(Stmt::Block(block));
    }
    if parser.is_next(IF) {
        let conditional = conditional(parser, level)?;
        return Ok(Stmt::If(conditional));
    }
    if parser.is_next(FOR) {
        return for_loop(parser, level);
    }
    if parser.is_next(SWITCH) {
        return switch(parser, level);
    }
    let simple = simple(parser, Position::List, level + 1)?;
    let place = place_of(&simple);
    Ok(Stmt::Simple(place, simple))
}

/// Reads an `if`.
///
/// `IfStmt = "if" [ [ SimpleStmt ] ";" ] Expression Block [ "else" ( IfStmt | Block ) ] .`
#[cycle(statement)]
fn conditional(parser: &mut Parser<'_>, level: u32) -> Result<If, Refusal>
    requires { level ≤ 251 }
    ensures reads { ReadsAs if_of (λ next. token (keyword keywords.If) (level + 1) expected.another (behind_if level next)) parser.old result parser.new }
    ensures shorter { OnOk result (size parser.new < size parser.old) }
{
    let word = parser.expect(IF, level + 1, Expected::Another)?;
    let head = condition_from(parser, level)?;
    let body = block(parser, level + 1)?;
    let otherwise = otherwise(parser, level)?;
    Ok(If {
        place: word.place,
        init: head.init,
        condition: head.condition,
        body,
        otherwise,
    })
}

/// Reads what is behind the block of an `if`.
///
/// `[ "else" ( IfStmt | Block ) ] .`
#[cycle(statement)]
fn otherwise(parser: &mut Parser<'_>, level: u32) -> Result<Else, Refusal>
    requires { level ≤ 250 }
    ensures reads { ReadsElse level parser.old result parser.new }
    ensures no_longer { OnOk result (size parser.new ≤ size parser.old) }
{
    if !parser.is_next(ELSE) {
        return Ok(Else::Nothing);
    }
    parser.expect(ELSE, 0, Expected::Another)?;
    if parser.is_next(IF) {
        let other = conditional(parser, level + 1)?;
        let other = Box::new(parser.alloc, other)?;
        return Ok(Else::If(other));
    }
    let block = block(parser, level + 1)?;
    Ok(Else::Block(block))
}

/// Reads a `for`.
///
/// `ForStmt = "for" [ Condition | ForClause | RangeClause ] Block .`
#[cycle(statement)]
fn for_loop(parser: &mut Parser<'_>, level: u32) -> Result<Stmt, Refusal>
    requires { level ≤ 251 }
    ensures reads { ReadsAs stmt_of (λ next. token (keyword keywords.For) (level + 1) expected.another (behind_for level next)) parser.old result parser.new }
    ensures shorter { OnOk result (size parser.new < size parser.old) }
{
    let word = parser.expect(FOR, level + 1, Expected::Another)?;
    let turns = turns_from(parser, level)?;
    let body = block(parser, level + 1)?;
    Ok(for_of(word.place, turns, body))
}

/// Reads a `switch`.
///
/// `ExprSwitchStmt = "switch" [ [ SimpleStmt ] ";" ] [ Expression ] "{" { ExprCaseClause } "}" .`
#[cycle(statement)]
fn switch(parser: &mut Parser<'_>, level: u32) -> Result<Stmt, Refusal>
    requires { level ≤ 251 }
    ensures reads { ReadsAs stmt_of (λ next. token (keyword keywords.Switch) level expected.another (behind_switch level next)) parser.old result parser.new }
    ensures shorter { OnOk result (size parser.new < size parser.old) }
{
    let word = parser.expect(SWITCH, level, Expected::Another)?;
    let head = compared_from(parser, level)?;
    let clauses = clauses(parser, level)?;
    Ok(Stmt::Switch(word.place, head.init, head.value, clauses))
}

/// Reads the clauses of a `switch` and the brace that closes them.
///
/// `{ ExprCaseClause } "}" .`
#[cycle(statement)]
fn clauses(parser: &mut Parser<'_>, level: u32) -> Result<Vec<Clause>, Refusal>
    requires { level ≤ 250 }
    ensures reads { (next : trees.Cases → Reader) → Reads (read_clauses level (λ cs _. next cs)) (λ cs. next (pack_cases (map clause_of cs.items))) parser.old result parser.new }
    ensures shorter { OnOk result (size parser.new < size parser.old) }
{
    let mut clauses = Vec::new(parser.alloc);
    'clauses: while !parser.is_next(CLOSING_BRACE) {
        let mut clause = clause_from(parser, level)?;
        clause.statements = clause_statements(parser, level)?;
        clauses.push(clause)?;
    }
    parser.expect(CLOSING_BRACE, 0, Expected::Another)?;
    Ok(clauses)
}

/// Reads the statements of a clause.
///
/// `ExprCaseClause = ExprSwitchCase ":" StatementList .`
#[cycle(statement)]
fn clause_statements(parser: &mut Parser<'_>, level: u32) -> Result<Vec<Stmt>, Refusal>
    requires { level ≤ 250 }
    ensures reads { ReadsClauseBody level parser.old result parser.new }
    ensures no_longer { OnOk result (size parser.new ≤ size parser.old) }
{
    let mut statements = Vec::new(parser.alloc);
    'statements: while !ends_clause(parser) {
        item(parser, level + 1, &mut statements)?;
    }
    statements.shrink_to_fit();
    Ok(statements)
}
