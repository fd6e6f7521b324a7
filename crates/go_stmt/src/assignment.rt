//! Assignments. [Assignment statements](https://go.dev/ref/spec#Assignment_statements)
ghost use Rattle.std.specs.Prelude.{◌≡◌, ◌∷◌, ◌++◌, [], Some, IfOk, map};
ghost use Rattle.std.specs.Option.{option_map};
ghost use Rattle.go_text.specs.declared.fault.FaultKind.TheVariants.{Mismatch};
ghost use Rattle.go_ast.specs.Trees.{assignment, operator_assignment};
ghost use Rattle.go_ast.specs.Views.{expr_of as expr_tree, exprs_in as exprs_trees};
ghost use Rattle.go_types.specs.Views.{go_type};
ghost use Rattle.go_typed.specs.Trees.{expr_type};
ghost use Rattle.go_typed.specs.Views.{as_expr, as_stmt};
ghost use Rattle.go_expr.specs.Rules.{lesser_fault};
ghost use Rattle.go_expr.specs.Verdicts.{asked, both};
ghost use Rattle.go_expr.specs.Views.{all_of, Gives, AnswersAt};
ghost use Rattle.go_stmt.specs.Rules.{assigned_to, update_verdict};
ghost use Rattle.go_stmt.specs.Statements.{blank_left, left_at, lefts_at, simple_at};
ghost use Rattle.go_stmt.specs.Views.{context_of, env_of, values_seen, Answered};

use crate::context::Context;
use crate::control::check_value;
use crate::env::Env;
use crate::simple::{is_left, left_sides, located, updating};
use crate::values::{Values, check_values, suited};
use go_ast::expression::{BinaryOperator, Expr, ExprKind};
use go_expr::error::{ExprError, RuleError};
use go_expr::node::type_in;
use go_expr::operator::binary_of;
use go_text::fault::FaultKind;
use go_text::place::Place;
use go_typed::expression::TypedExpr;
use go_typed::statement::TypedStmt;
use go_types::types::GoType;
use std::alloc::{AllocError, Global};

/// Whether a left side is the blank name.
/// [Blank identifier](https://go.dev/ref/spec#Blank_identifier)
#[tactic(auto, unfolding(go_ast::specs::Views::expr_of))]
fn is_blank(e: &Expr) -> bool
    ensures { result ≡ blank_left (expr_tree e.now) }
{
    match &e.kind {
        ExprKind::Name(name) => name.as_str() == "_",
        ExprKind::Parenthesized(inner) => is_blank(inner),
        _ => false,
    }
}

/// The operand of a left side; the blank name is none.
fn check_left(
    alloc: Global,
    context: Context<'_>,
    env: &Env,
    e: &Expr,
) -> Result<Option<Option<TypedExpr>>, ExprError>
    ensures { Answered (λ o. option_map as_expr o ∷ []) result (left_at (context_of context.entry) (expr_tree e.now) (env_of env.now)) }
{
    if is_blank(e) {
        return Ok(Some(None));
    }
    match check_value(alloc, context, env, e)? {
        Some(value) => Ok(Some(Some(value))),
        None => Ok(None),
    }
}

/// Adds an operand behind others, where all are known.
fn with_left(
    all: Option<Vec<Option<TypedExpr>>>,
    left: Option<Option<TypedExpr>>,
) -> Result<Option<Vec<Option<TypedExpr>>>, AllocError>
    ensures { IfOk result (λ more. option_map (all_of (option_map as_expr)) more
        ≡ option_map (λ k. k.0 ++ k.1) (both (option_map (all_of (option_map as_expr)) all) (option_map (λ o. option_map as_expr o ∷ []) left))) }
{
    let Some(mut all) = all else {
        return Ok(None);
    };
    let Some(left) = left else {
        return Ok(None);
    };
    all.push(left)?;
    Ok(Some(all))
}

/// The operands of left sides, where all are known.
fn check_lefts(
    alloc: Global,
    context: Context<'_>,
    env: &Env,
    es: &[Expr],
) -> Result<Option<Vec<Option<TypedExpr>>>, ExprError>
    ensures { Answered (all_of (option_map as_expr)) result (lefts_at (context_of context.entry) (exprs_trees es.now) (env_of env.now)) }
{
    let mut all = Some(Vec::with_capacity(alloc, es.len())?);
    for e in es {
        let left = check_left(alloc, context, env, e)?;
        all = with_left(all, left)?;
    }
    Ok(all)
}

/// The types that are due for left sides; none is for a blank one.
fn due_by(alloc: Global, operands: &[Option<TypedExpr>]) -> Result<Vec<Option<GoType>>, AllocError>
    ensures { IfOk result (λ due. map (option_map go_type) due.items ≡ map (option_map expr_type) (map (option_map as_expr) operands.now)) }
{
    let mut all = Vec::with_capacity(alloc, operands.len())?;
    for operand in operands {
        let due = match operand {
            Some(operand) => Some(type_in(operand).copy()?),
            None => None,
        };
        all.push(due)?;
    }
    Ok(all)
}

/// An assignment to left sides by their operands. `Mismatch` where one is no left side; `Count` where
/// the values aren't as many; else `Range` or `Assign` where one isn't assignable.
#[tactic(auto, unfolding(go_typed::specs::Views::as_stmt))]
fn assigned_to(
    alloc: Global,
    operands: Vec<Option<TypedExpr>>,
    values: Values,
) -> Result<TypedStmt, RuleError>
    ensures { Gives as_stmt result (assigned_to (map (option_map as_expr) operands.items) (values_seen values)) }
{
    let due = due_by(alloc, &operands)?;
    let Some(lefts) = left_sides(alloc, operands)? else {
        return Err(RuleError::Broken(FaultKind::Mismatch));
    };
    let source = suited(alloc, &due, values)?;
    Ok(TypedStmt::Assign(lefts, source))
}

/// An assignment at a place, where its parts are known.
fn assigned_at(
    alloc: Global,
    place: Place,
    operands: Option<Vec<Option<TypedExpr>>>,
    values: Option<Values>,
) -> Result<Option<TypedStmt>, ExprError>
    ensures { AnswersAt as_stmt result place
        (asked (λ k. assigned_to k.0 k.1) (both (option_map (all_of (option_map as_expr)) operands) (option_map values_seen values))) }
{
    let Some(operands) = operands else {
        return Ok(None);
    };
    match values {
        Some(values) => located(place, assigned_to(alloc, operands, values)),
        None => Ok(None),
    }
}

/// What an assignment is.
#[tactic(auto, using(crate::proofs::Lefts::lefts_kept))]
pub(crate) fn check_assignment(
    alloc: Global,
    context: Context<'_>,
    env: &Env,
    place: Place,
    left: &[Expr],
    right: &[Expr],
) -> Result<Option<TypedStmt>, ExprError>
    ensures { Answered as_stmt result
        (simple_at (context_of context.entry) place (assignment (exprs_trees left.now) (exprs_trees right.now)) (env_of env.now)) }
{
    let operands = check_lefts(alloc, context, env, left)?;
    let values = check_values(alloc, &env.scope(context, None), right)?;
    assigned_at(alloc, place, operands, values.known)
}

/// The fault that is told of `Mismatch` and another.
fn with_mismatch(kind: FaultKind) -> FaultKind
    ensures { Some result ≡ lesser_fault (Some Mismatch) (Some kind) }
{
    if FaultKind::Mismatch.number() <= kind.number() {
        FaultKind::Mismatch
    } else {
        kind
    }
}

/// An operator and an assignment to its left operand. The faults are those of both.
fn updated(
    alloc: Global,
    operator: BinaryOperator,
    left: TypedExpr,
    right: TypedExpr,
) -> Result<TypedStmt, RuleError>
    ensures { Gives as_stmt result (update_verdict operator (as_expr left) (as_expr right)) }
{
    let is_left = is_left(&left);
    let operation = binary_of(alloc, operator, left, right);
    if is_left {
        return updating(alloc, operation?);
    }
    match operation {
        Ok(_) => Err(RuleError::Broken(FaultKind::Mismatch)),
        Err(RuleError::Broken(kind)) => Err(RuleError::Broken(with_mismatch(kind))),
        Err(RuleError::Memory) => Err(RuleError::Memory),
    }
}

/// An operator and an assignment at a place, where both operands are known.
fn updated_at(
    alloc: Global,
    place: Place,
    operator: BinaryOperator,
    left: Option<TypedExpr>,
    right: Option<TypedExpr>,
) -> Result<Option<TypedStmt>, ExprError>
    ensures { AnswersAt as_stmt result place (asked (λ k. update_verdict operator k.0 k.1) (both (option_map as_expr left) (option_map as_expr right))) }
{
    let Some(left) = left else {
        return Ok(None);
    };
    match right {
        Some(right) => located(place, updated(alloc, operator, left, right)),
        None => Ok(None),
    }
}

/// What an assignment with an operator is.
pub(crate) fn check_update(
    alloc: Global,
    context: Context<'_>,
    env: &Env,
    place: Place,
    operator: BinaryOperator,
    left: &Expr,
    right: &Expr,
) -> Result<Option<TypedStmt>, ExprError>
    ensures { Answered as_stmt result
        (simple_at (context_of context.entry) place (operator_assignment operator (expr_tree left.now) (expr_tree right.now)) (env_of env.now)) }
{
    let left = check_value(alloc, context, env, left)?;
    let right = check_value(alloc, context, env, right)?;
    updated_at(alloc, place, operator, left, right)
}
