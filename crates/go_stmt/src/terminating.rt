//! Which statements are terminating.
//! [Terminating statements](https://go.dev/ref/spec#Terminating_statements)
ghost use Rattle.std.specs.Prelude.{◌≡◌, ◌&&◌, not, is_some, option_map};
ghost use Rattle.go_typed.specs.Views.{as_expr, as_stmt, stmts_in, clauses_in};
ghost use Rattle.go_typed.specs.Terminating.{breaks, breaks_any, breaks_clause, has_default, terminates, list_terminates, clauses_terminate};

use go_typed::expression::TypedExpr;
use go_typed::statement::{TypedClause, TypedStmt};

/// Whether a break leaves the statement that this one stands in.
#[cycle(leaves)]
#[tactic(auto, unfolding(go_typed::specs::Views::as_stmt))]
fn breaks(s: &TypedStmt) -> bool
    ensures { result ≡ breaks (as_stmt s.now) }
{
    match s {
        TypedStmt::If(_, first, second) => breaks_any(first) || breaks_any(second),
        TypedStmt::Block(statements) => breaks_any(statements),
        TypedStmt::Break => true,
        _ => false,
    }
}

#[cycle(leaves)]
fn breaks_any(statements: &[TypedStmt]) -> bool
    ensures { result ≡ breaks_any (stmts_in statements.now) }
{
    for s in statements {
        if breaks(s) {
            return true;
        }
    }
    false
}

/// Whether a break in the clauses of a switch leaves it.
fn breaks_clause(clauses: &[TypedClause]) -> bool
    ensures { result ≡ breaks_clause (clauses_in clauses.now) }
{
    for clause in clauses {
        if breaks_any(&clause.body) {
            return true;
        }
    }
    false
}

fn has_default(clauses: &[TypedClause]) -> bool
    ensures { result ≡ has_default (clauses_in clauses.now) }
{
    for clause in clauses {
        if clause.cases.is_none() {
            return true;
        }
    }
    false
}

/// Whether each way through a switch leads to the end of a clause.
fn leads_through(clauses: &[TypedClause]) -> bool
    ensures { result ≡ (has_default (clauses_in clauses.now) && not (breaks_clause (clauses_in clauses.now))) }
{
    has_default(clauses) && !breaks_clause(clauses)
}

/// Whether a loop goes on for ever, unless its body returns or panics.
fn runs_on(condition: &Option<TypedExpr>, statements: &[TypedStmt]) -> bool
    ensures { result ≡ (not (is_some (option_map as_expr condition.now)) && not (breaks_any (stmts_in statements.now))) }
{
    condition.is_none() && !breaks_any(statements)
}

/// Whether a statement is terminating.
#[cycle(terminates)]
#[tactic(auto, unfolding(go_typed::specs::Views::as_stmt))]
fn terminates(s: &TypedStmt) -> bool
    ensures { result ≡ terminates (as_stmt s.now) }
{
    match s {
        TypedStmt::Return(_) | TypedStmt::Panic(_) => true,
        TypedStmt::Block(statements) => list_terminates(statements),
        TypedStmt::If(_, first, second) => list_terminates(first) && list_terminates(second),
        TypedStmt::For(condition, _, statements) => runs_on(condition, statements),
        TypedStmt::Switch(_, clauses) => leads_through(clauses) && clauses_terminate(clauses),
        _ => false,
    }
}

/// Whether the last of some statements is terminating.
#[cycle(terminates)]
pub fn list_terminates(statements: &[TypedStmt]) -> bool
    ensures { result ≡ list_terminates (stmts_in statements.now) }
{
    match statements {
        [] => false,
        [.., last] => terminates(last),
    }
}

#[cycle(terminates)]
fn clauses_terminate(clauses: &[TypedClause]) -> bool
    ensures { result ≡ clauses_terminate (clauses_in clauses.now) }
{
    for clause in clauses {
        if !clause.falls && !list_terminates(&clause.body) {
            return false;
        }
    }
    true
}
