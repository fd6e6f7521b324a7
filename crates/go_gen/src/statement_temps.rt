//! How many cells the temporaries of statements take.
ghost use Rattle.std.specs.Prelude.{◌≡◌, ◌+◌, IfOk, map};
ghost use Rattle.std.specs.Option.{option_map};
ghost use Rattle.go_types.specs.Sizes.{cells};
ghost use Rattle.go_types.specs.Views.{go_type};
ghost use Rattle.go_typed.specs.Trees as trees;
ghost use Rattle.go_typed.specs.Views.{as_expr, cases_of, left_of, as_source, as_stmt, stmts_in, clauses_in};
ghost use Rattle.go_gen.specs.Translation.{condition_temps, case_temps, cases_temps, left_temps, expr_temps, stmt_temps, stmts_temps, bodies_temps};

use crate::assignment::{left_temps, lefts_temps, values_temps};
use crate::size::{cells, sum};
use crate::source::{source_counts, source_temps};
use crate::temps::{expr_temps, exprs_temps};
use go_typed::expression::TypedExpr;
use go_typed::statement::{TypedClause, TypedLeft, TypedSource, TypedStmt};
use go_types::types::GoType;
use std::alloc::{AllocError, Global};

/// How many cells the temporaries of a condition take.
pub(crate) fn condition_temps(condition: &Option<TypedExpr>) -> Result<usize, AllocError>
    ensures { IfOk result (λ n. n ≡ condition_temps (option_map as_expr condition.now)) }
{
    match condition {
        None => Ok(0),
        Some(e) => expr_temps(e),
    }
}

/// How many cells the temporaries of an assignment take.
fn assign_temps(
    alloc: Global,
    lefts: &[TypedLeft],
    source: &TypedSource,
) -> Result<usize, AllocError>
    ensures { IfOk result (λ n. n ≡ stmt_temps (trees.assign (map left_of lefts.now) (as_source source.now))) }
{
    let counts = source_counts(alloc, source)?;
    let before = sum(lefts_temps(lefts)?, source_temps(source)?)?;
    sum(before, values_temps(lefts, &counts)?)
}

/// How many cells the temporaries of an operator and an assignment take.
fn update_temps(of: &GoType, left: &TypedLeft, e: &TypedExpr) -> Result<usize, AllocError>
    ensures { IfOk result (λ n. n ≡ left_temps (left_of left.now) + expr_temps (as_expr e.now) + cells (go_type of.now)) }
{
    sum(sum(left_temps(left)?, expr_temps(e)?)?, cells(of)?)
}

/// How many cells the temporaries of a clause's cases take.
pub(crate) fn case_temps(clause: &TypedClause) -> Result<usize, AllocError>
    ensures { IfOk result (λ n. n ≡ case_temps (cases_of clause.now.cases)) }
{
    match &clause.cases {
        None => Ok(0),
        Some(cases) => exprs_temps(cases),
    }
}

/// How many cells the temporaries of all cases take.
pub(crate) fn cases_temps(clauses: &[TypedClause]) -> Result<usize, AllocError>
    ensures { IfOk result (λ n. n ≡ cases_temps (clauses_in clauses.now)) }
{
    let mut count = 0;
    for clause in clauses {
        count = sum(count, case_temps(clause)?)?;
    }
    Ok(count)
}

/// How many cells the temporaries of a statement take.
#[cycle(temps)]
#[tactic(auto, unfolding(go_typed::specs::Views::as_stmt))]
pub(crate) fn stmt_temps(alloc: Global, s: &TypedStmt) -> Result<usize, AllocError>
    ensures { IfOk result (λ n. n ≡ stmt_temps (as_stmt s.now)) }
{
    match s {
        TypedStmt::Define(_, source) => source_temps(source),
        TypedStmt::Assign(lefts, source) => assign_temps(alloc, lefts, source),
        TypedStmt::Update(of, left, _, e) => update_temps(of, left, e),
        TypedStmt::Run(_, _, arguments) => exprs_temps(arguments),
        TypedStmt::Print(operands) => exprs_temps(operands),
        TypedStmt::Panic(e) => expr_temps(e),
        TypedStmt::If(e, a, b) => {
            sum(
                sum(expr_temps(e)?, stmts_temps(alloc, a)?)?,
                stmts_temps(alloc, b)?,
            )
        }
        TypedStmt::For(condition, post, body) => {
            let turn = sum(stmts_temps(alloc, body)?, stmts_temps(alloc, post)?)?;
            sum(turn, condition_temps(condition)?)
        }
        TypedStmt::Range(_, _, e, body) => {
            sum(sum(expr_temps(e)?, 2)?, stmts_temps(alloc, body)?)
        }
        TypedStmt::Switch(e, clauses) => {
            let tag = sum(expr_temps(e)?, cells(&e.of)?)?;
            sum(
                sum(tag, cases_temps(clauses)?)?,
                bodies_temps(alloc, clauses)?,
            )
        }
        TypedStmt::Block(body) => stmts_temps(alloc, body),
        TypedStmt::Break => Ok(0),
        TypedStmt::Continue => Ok(0),
        TypedStmt::Return(source) => source_temps(source),
    }
}

/// How many cells the temporaries of statements take.
#[cycle(temps)]
pub(crate) fn stmts_temps(alloc: Global, statements: &[TypedStmt]) -> Result<usize, AllocError>
    ensures { IfOk result (λ n. n ≡ stmts_temps (stmts_in statements.now)) }
{
    let mut count = 0;
    for s in statements {
        count = sum(count, stmt_temps(alloc, s)?)?;
    }
    Ok(count)
}

/// How many cells the temporaries of the statements of clauses take.
#[cycle(temps)]
pub(crate) fn bodies_temps(alloc: Global, clauses: &[TypedClause]) -> Result<usize, AllocError>
    ensures { IfOk result (λ n. n ≡ bodies_temps (clauses_in clauses.now)) }
{
    let mut count = 0;
    for clause in clauses {
        count = sum(count, stmts_temps(alloc, &clause.body)?)?;
    }
    Ok(count)
}
