//! Switches: the value that cases are compared with, and clauses, by what their parts are.
//! [Expression switches](https://go.dev/ref/spec#Expression_switches)
ghost use Rattle.std.specs.Prelude.{◌≡◌, ◌++◌, ◌∷◌, [], ◌&&◌, ◌||◌, false, not, is_some, IfOk, map, option_map};
ghost use Rattle.go_ast.specs.Views.{expr_of as expr_tree, if_boxed};
ghost use Rattle.go_types.specs.Views.{go_type};
ghost use Rattle.go_typed.specs.Trees as typed;
ghost use Rattle.go_typed.specs.Trees.{expr_type};
ghost use Rattle.go_typed.specs.Views.{as_expr, as_stmt, as_clause as typed_clause, clauses_in};
ghost use Rattle.go_expr.specs.Rules.{default_type, fine_list};
ghost use Rattle.go_expr.specs.Verdicts.{asked, both, chained};
ghost use Rattle.go_expr.specs.Views.{all_of, Gives, AnswersAt};
ghost use Rattle.go_stmt.specs.Rules.{case_value, clause_verdict, switched};
ghost use Rattle.go_stmt.specs.Statements.{leads_on, has_no_clauses, tag_at, cases_at};
ghost use Rattle.go_stmt.specs.Views.{context_of, env_of, trees_in, typed_in, cases_tree, clauses_trees, clauses_of, Answered};

use crate::context::{Context, all_empty};
use crate::control::{check_value, located, with_last};
use crate::env::Env;
use go_ast::expression::Expr;
use go_ast::statement::{Clause, Stmt};
use go_const::constant::Const;
use go_const::operator::{BinaryOperator, ComparisonOperator};
use go_expr::error::{ExprError, RuleError};
use go_expr::expression::check_operands;
use go_expr::gather::Gathered;
use go_expr::node::{constant, type_in};
use go_expr::operator::operand_type;
use go_expr::value::{as_type, default_type, defaulted};
use go_text::fault::FaultKind;
use go_text::place::Place;
use go_typed::expression::{TypedExpr, TypedExprKind};
use go_typed::statement::{TypedClause, TypedStmt};
use go_types::types::{Basic, GoType};
use std::alloc::{AllocError, Global};

/// The value that cases are compared with. Without one it is true.
pub(crate) fn check_tag(
    alloc: Global,
    context: Context<'_>,
    env: &Env,
    tag: &Option<Box<Expr>>,
) -> Result<Option<TypedExpr>, ExprError>
    ensures { Answered as_expr result (tag_at (context_of context.entry) (if_boxed expr_tree tag.now) (env_of env.now)) }
{
    match tag {
        Some(tag) => check_value(alloc, context, env, tag),
        None => Ok(Some(constant(GoType::Basic(Basic::Bool), Const::Bool(true)))),
    }
}

/// The type that cases are compared as, where the tag is known.
pub(crate) fn tag_type(tag: &Option<TypedExpr>) -> Result<Option<GoType>, AllocError>
    ensures { IfOk result (λ t. option_map go_type t ≡ option_map (λ e. default_type (expr_type e)) (option_map as_expr tag.now)) }
{
    match tag {
        Some(tag) => Ok(Some(default_type(type_in(tag))?)),
        None => Ok(None),
    }
}

/// The values of a case, if it is no default.
pub(crate) fn check_cases(
    alloc: Global,
    context: Context<'_>,
    env: &Env,
    cases: &Option<Vec<Expr>>,
) -> Result<Option<Option<Vec<TypedExpr>>>, ExprError>
    ensures { Answered (option_map (all_of as_expr)) result (cases_at (context_of context.entry) (cases_tree cases.now) (env_of env.now)) }
{
    match cases {
        Some(cases) => match check_operands(alloc, &env.scope(context, None), cases)? {
            Some(values) => Ok(Some(Some(values))),
            None => Ok(None),
        },
        None => Ok(Some(None)),
    }
}

/// A variable of a type.
#[tactic(auto, unfolding(go_typed::specs::Views::as_expr))]
fn variable_of(of: &GoType) -> Result<TypedExpr, AllocError>
    ensures { IfOk result (λ e. as_expr e ≡ typed.local (go_type of.now) 0) }
{
    Ok(TypedExpr {
        of: of.copy()?,
        kind: TypedExprKind::Local(0),
    })
}

/// A value of a case, as one of the type that it has in common with a variable of the tag's type.
/// `Mismatch` where they have none, `Range` where it lies outside.
fn case_value(alloc: Global, of: &GoType, value: TypedExpr) -> Result<TypedExpr, RuleError>
    ensures { Gives as_expr result (case_value (go_type of.now) (as_expr value)) }
{
    let equal = BinaryOperator::Comparison(ComparisonOperator::Equal);
    let variable = variable_of(of)?;
    let of = operand_type(equal, &variable, &value)?;
    Ok(as_type(alloc, of, value)?)
}

fn compare_each(
    alloc: Global,
    of: &GoType,
    values: Vec<TypedExpr>,
) -> Result<Vec<TypedExpr>, RuleError>
    ensures { Gives (all_of as_expr) result (fine_list [] (map (case_value (go_type of.now)) (map as_expr values.items))) }
{
    let mut all = Gathered::new(alloc, None);
    for value in values {
        all.add(case_value(alloc, of, value))?;
    }
    all.finish()
}

/// A case at a place, where the tag's type is known.
fn case_at(
    alloc: Global,
    place: Place,
    tag: &Option<GoType>,
    falls: bool,
    values: Vec<TypedExpr>,
    body: Vec<TypedStmt>,
) -> Result<Option<TypedClause>, ExprError>
    ensures { AnswersAt typed_clause result place (clause_verdict (option_map go_type tag.now) false falls (Some (map as_expr values.items)) (typed_in body)) }
{
    let Some(of) = tag else {
        return Ok(None);
    };
    match compare_each(alloc, of, values) {
        Ok(values) => Ok(Some(TypedClause {
            cases: Some(values),
            body,
            falls,
        })),
        Err(error) => Err(error.at(place)),
    }
}

/// A default at a place, behind another or not.
fn default_at(
    place: Place,
    again: bool,
    falls: bool,
    body: Vec<TypedStmt>,
) -> Result<Option<TypedClause>, ExprError>
    ensures { AnswersAt typed_clause result place (clause_verdict None again falls None (typed_in body)) }
{
    if again {
        return Err(ExprError::Faulty(place, FaultKind::Branch));
    }
    Ok(Some(TypedClause {
        cases: None,
        body,
        falls,
    }))
}

/// A clause at a place, where its parts are known.
pub(crate) fn clause(
    alloc: Global,
    place: Place,
    tag: &Option<GoType>,
    again: bool,
    falls: bool,
    values: Option<Option<Vec<TypedExpr>>>,
    body: Option<Vec<TypedStmt>>,
) -> Result<Option<TypedClause>, ExprError>
    ensures { AnswersAt typed_clause result place
        (asked (λ k. clause_verdict (option_map go_type tag.now) again falls k.0 k.1)
        (both (option_map (option_map (all_of as_expr)) values) (option_map typed_in body))) }
{
    match (values, body) {
        (Some(Some(values)), Some(body)) => case_at(alloc, place, tag, falls, values, body),
        (Some(None), Some(body)) => default_at(place, again, falls, body),
        _ => Ok(None),
    }
}

/// Whether the last statement that isn't empty is a fallthrough.
/// [Fallthrough statements](https://go.dev/ref/spec#Fallthrough_statements)
#[tactic(auto, unfolding(go_ast::specs::Views::stmt_of))]
fn leads_on(statements: &[Stmt]) -> bool
    ensures { result ≡ leads_on (trees_in statements.now) }
{
    for (i, s) in statements.iter().enumerate() {
        if let Stmt::Fallthrough(_) = s {
            if all_empty(&statements[i + 1..]) {
                return true;
            }
        }
    }
    false
}

/// Whether a clause with some statements falls through: the last one doesn't.
pub(crate) fn falls_through(statements: &[Stmt], last: bool) -> bool
    ensures { result ≡ (leads_on (trees_in statements.now) && not last) }
{
    leads_on(statements) && !last
}

/// Whether a default stands before the clauses behind a clause.
pub(crate) fn has_default(before: bool, clause: &Clause) -> bool
    ensures { result ≡ (before || not (is_some (cases_tree clause.now.values))) }
{
    before || clause.values.is_none()
}

/// Whether no clause stands behind another.
pub(crate) fn is_last(others: &[Clause]) -> bool
    ensures { result ≡ has_no_clauses (clauses_trees others.now) }
{
    match others {
        [] => true,
        [_, ..] => false,
    }
}

/// Clauses and one behind them, where all are known.
pub(crate) fn with_clause(
    known: Option<Vec<TypedClause>>,
    more: Option<TypedClause>,
) -> Result<Option<Vec<TypedClause>>, AllocError>
    ensures { IfOk result (λ all. option_map clauses_of all ≡
        chained (option_map clauses_of known) (option_map (λ c. c ∷ []) (option_map typed_clause more))) }
{
    match (known, more) {
        (Some(mut all), Some(clause)) => {
            all.push(clause)?;
            Ok(Some(all))
        }
        _ => Ok(None),
    }
}

#[tactic(auto, using(go_typed::proofs::StatementRows::switch_seen))]
fn switch_over(tag: TypedExpr, clauses: Vec<TypedClause>) -> TypedStmt
    ensures { as_stmt result ≡ typed.switch_statement (as_expr tag) (clauses_in clauses.items) }
{
    TypedStmt::Switch(tag, clauses)
}

/// A switch behind the statement before its tag. `Range` where the tag lies outside of the type that
/// it takes.
fn switch_behind(
    alloc: Global,
    before: Vec<TypedStmt>,
    tag: TypedExpr,
    clauses: Vec<TypedClause>,
) -> Result<Vec<TypedStmt>, RuleError>
    ensures { Gives typed_in result (switched (typed_in before) (as_expr tag) (clauses_of clauses)) }
{
    let tag = defaulted(alloc, tag)?;
    Ok(with_last(before, switch_over(tag, clauses))?)
}

/// A switch at a place, where its parts are known.
pub(crate) fn switched(
    alloc: Global,
    place: Place,
    before: Option<Vec<TypedStmt>>,
    tag: Option<TypedExpr>,
    clauses: Option<Vec<TypedClause>>,
) -> Result<Option<Vec<TypedStmt>>, ExprError>
    ensures { AnswersAt typed_in result place
        (asked (λ k. switched k.0 (k.1).0 (k.1).1) (both (option_map typed_in before) (both (option_map as_expr tag) (option_map clauses_of clauses)))) }
{
    match (before, tag, clauses) {
        (Some(before), Some(tag), Some(clauses)) => {
            located(place, switch_behind(alloc, before, tag, clauses))
        }
        _ => Ok(None),
    }
}
