//! What statements with statements in them are, by what their parts are.
ghost use Rattle.std.specs.Prelude.{◌≡◌, ◌++◌, ◌∷◌, [], Some, None, List, if◌then◌else◌, IfOk, OnOk, map, option_map};
ghost use Rattle.go_ast.specs.Trees as trees;
ghost use Rattle.go_ast.specs.Views.{expr_of as expr_tree, exprs_in as exprs_trees, if_boxed};
ghost use Rattle.go_types.specs.Views.{go_type};
ghost use Rattle.go_typed.specs.Trees as typed;
ghost use Rattle.go_typed.specs.Views.{as_expr, as_stmt};
ghost use Rattle.go_expr.specs.Known.{Verdict};
ghost use Rattle.go_expr.specs.Verdicts.{asked, both};
ghost use Rattle.go_expr.specs.Views.{Gives, AnswersAt};
ghost use Rattle.go_stmt.specs.Rules.{conditional, loop_condition, looped, counted, ranged, branch, return_verdict};
ghost use Rattle.go_stmt.specs.Scopes.{declare_new};
ghost use Rattle.go_stmt.specs.Statements.{one_block, range_type, range_names, range_number, value_at, condition_at, statement_at};
ghost use Rattle.go_stmt.specs.Views.{context_of, env_of, typed_in, values_seen, Answered};

use crate::context::Context;
use crate::env::Env;
use crate::partly::{dues, suited_partly};
use crate::values::{Values, check_values};
use go_ast::expression::Expr;
use go_ast::name::Name;
use go_expr::error::{ExprError, RuleError};
use go_expr::expression::check_operand;
use go_expr::node::type_in;
use go_expr::value::{condition as condition_due, defaulted, is_integer, settled_type};
use go_text::fault::FaultKind;
use go_text::place::Place;
use go_typed::expression::TypedExpr;
use go_typed::statement::TypedStmt;
use go_types::types::GoType;
use std::alloc::{AllocError, Global};

/// A value.
pub(crate) fn check_value(
    alloc: Global,
    context: Context<'_>,
    env: &Env,
    e: &Expr,
) -> Result<Option<TypedExpr>, ExprError>
    ensures { Answered as_expr result (value_at (context_of context.entry) (expr_tree e.now) (env_of env.now)) }
{
    check_operand(alloc, &env.scope(context, None), e)
}

/// What a rule gives of a node at a place, or its fault.
pub(crate) fn located(
    place: Place,
    given: Result<Vec<TypedStmt>, RuleError>,
) -> Result<Option<Vec<TypedStmt>>, ExprError>
    ensures { (v : Verdict (List typed.Stmt)) → Gives typed_in given v → AnswersAt typed_in result place v }
{
    match given {
        Ok(statements) => Ok(Some(statements)),
        Err(error) => Err(error.at(place)),
    }
}

/// Statements and one behind them.
pub(crate) fn with_last(
    statements: Vec<TypedStmt>,
    last: TypedStmt,
) -> Result<Vec<TypedStmt>, AllocError>
    ensures { IfOk result (λ all. typed_in all ≡ typed_in statements ++ as_stmt last ∷ []) }
{
    let mut all = statements;
    all.push(last)?;
    Ok(all)
}

#[tactic(auto, using(go_typed::proofs::StatementRows::if_seen))]
fn if_of(condition: TypedExpr, first: Vec<TypedStmt>, second: Vec<TypedStmt>) -> TypedStmt
    ensures { as_stmt result ≡ typed.if_statement (as_expr condition) (typed.pack_stmts (typed_in first)) (typed.pack_stmts (typed_in second)) }
{
    TypedStmt::If(condition, first, second)
}

#[tactic(auto, using(go_typed::proofs::StatementRows::for_seen))]
fn for_of(condition: Option<TypedExpr>, post: Vec<TypedStmt>, body: Vec<TypedStmt>) -> TypedStmt
    ensures { as_stmt result ≡ typed.for_statement (option_map as_expr condition) (typed.pack_stmts (typed_in post)) (typed.pack_stmts (typed_in body)) }
{
    TypedStmt::For(condition, post, body)
}

/// An `if` behind the statement before its condition. `Mismatch` where the condition isn't bool.
fn conditional_of(
    alloc: Global,
    before: Vec<TypedStmt>,
    condition: TypedExpr,
    first: Vec<TypedStmt>,
    second: Vec<TypedStmt>,
) -> Result<Vec<TypedStmt>, RuleError>
    ensures { Gives typed_in result (conditional (typed_in before) (as_expr condition) (typed_in first) (typed_in second)) }
{
    let condition = condition_due(alloc, condition)?;
    Ok(with_last(before, if_of(condition, first, second))?)
}

/// An `if` at a place, where its parts are known.
pub(crate) fn conditional(
    alloc: Global,
    place: Place,
    before: Option<Vec<TypedStmt>>,
    condition: Option<TypedExpr>,
    first: Option<Vec<TypedStmt>>,
    second: Option<Vec<TypedStmt>>,
) -> Result<Option<Vec<TypedStmt>>, ExprError>
    ensures { AnswersAt typed_in result place
        (asked (λ k. conditional k.0 (k.1).0 ((k.1).1).0 ((k.1).1).1)
        (both (option_map typed_in before) (both (option_map as_expr condition) (both (option_map typed_in first) (option_map typed_in second))))) }
{
    let Some(before) = before else {
        return Ok(None);
    };
    let Some(condition) = condition else {
        return Ok(None);
    };
    match (first, second) {
        (Some(first), Some(second)) => {
            located(
                place,
                conditional_of(alloc, before, condition, first, second),
            )
        }
        _ => Ok(None),
    }
}

/// The condition of a loop, where one is due. `Mismatch` where it isn't bool.
fn condition_of(alloc: Global, condition: Option<TypedExpr>) -> Result<Option<TypedExpr>, RuleError>
    ensures { Gives (option_map as_expr) result (loop_condition (option_map as_expr condition)) }
{
    match condition {
        Some(condition) => Ok(Some(condition_due(alloc, condition)?)),
        None => Ok(None),
    }
}

/// A loop behind the statement before its first turn.
fn loop_of(
    alloc: Global,
    before: Vec<TypedStmt>,
    condition: Option<TypedExpr>,
    post: Vec<TypedStmt>,
    body: Vec<TypedStmt>,
) -> Result<Vec<TypedStmt>, RuleError>
    ensures { Gives typed_in result (looped (typed_in before) (option_map as_expr condition) (typed_in post) (typed_in body)) }
{
    let condition = condition_of(alloc, condition)?;
    Ok(with_last(before, for_of(condition, post, body))?)
}

/// A loop at a place, where its parts are known.
pub(crate) fn looped(
    alloc: Global,
    place: Place,
    before: Option<Vec<TypedStmt>>,
    condition: Option<Option<TypedExpr>>,
    post: Option<Vec<TypedStmt>>,
    body: Option<Vec<TypedStmt>>,
) -> Result<Option<Vec<TypedStmt>>, ExprError>
    ensures { AnswersAt typed_in result place
        (asked (λ k. looped k.0 (k.1).0 ((k.1).1).0 ((k.1).1).1)
        (both (option_map typed_in before) (both (option_map (option_map as_expr) condition) (both (option_map typed_in post) (option_map typed_in body))))) }
{
    let Some(before) = before else {
        return Ok(None);
    };
    let Some(condition) = condition else {
        return Ok(None);
    };
    match (post, body) {
        (Some(post), Some(body)) => {
            located(place, loop_of(alloc, before, condition, post, body))
        }
        _ => Ok(None),
    }
}

/// The condition of a loop, if there is one.
pub(crate) fn check_condition(
    alloc: Global,
    context: Context<'_>,
    env: &Env,
    e: &Option<Box<Expr>>,
) -> Result<Option<Option<TypedExpr>>, ExprError>
    ensures { Answered (option_map as_expr) result (condition_at (context_of context.entry) (if_boxed expr_tree e.now) (env_of env.now)) }
{
    match e {
        Some(e) => match check_value(alloc, context, env, e)? {
            Some(value) => Ok(Some(Some(value))),
            None => Ok(None),
        },
        None => Ok(Some(None)),
    }
}

/// A return with some values, of a function with results of these types, each where it is known.
#[tactic(auto, unfolding(go_typed::specs::Views::as_stmt))]
fn return_of(
    alloc: Global,
    results: &[Option<GoType>],
    values: Values,
) -> Result<Vec<TypedStmt>, RuleError>
    ensures { Gives typed_in result (return_verdict (map (option_map go_type) results.now) (values_seen values)) }
{
    let due = dues(alloc, results)?;
    let source = suited_partly(alloc, &due, values)?;
    Ok(vec![in alloc; TypedStmt::Return(source)]?)
}

/// A return at a place, where its values are known.
fn returned(
    alloc: Global,
    place: Place,
    results: &[Option<GoType>],
    values: Option<Values>,
) -> Result<Option<Vec<TypedStmt>>, ExprError>
    ensures { AnswersAt typed_in result place (asked (return_verdict (map (option_map go_type) results.now)) (option_map values_seen values)) }
{
    match values {
        Some(values) => located(place, return_of(alloc, results, values)),
        None => Ok(None),
    }
}

/// What a return is. [Return statements](https://go.dev/ref/spec#Return_statements)
#[tactic(auto, unfolding(go_ast::specs::Views::stmt_of))]
pub(crate) fn check_return(
    alloc: Global,
    context: Context<'_>,
    env: &Env,
    place: Place,
    es: &[Expr],
) -> Result<Option<Vec<TypedStmt>>, ExprError>
    ensures { Answered typed_in result (statement_at (context_of context.entry) (trees.return place (exprs_trees es.now)) (env_of env.now)) }
{
    let values = check_values(alloc, &env.scope(context, None), es)?;
    returned(alloc, place, context.results, values.known)
}

/// A break, a continue or a fallthrough at a place, where it may stand or not.
pub(crate) fn branch(
    place: Place,
    may_stand: bool,
    statements: Vec<TypedStmt>,
) -> Result<Option<Vec<TypedStmt>>, ExprError>
    ensures { AnswersAt typed_in result place (branch may_stand (typed_in statements)) }
{
    if may_stand {
        Ok(Some(statements))
    } else {
        Err(ExprError::Faulty(place, FaultKind::Branch))
    }
}

/// Statements and others behind them, where all are known.
pub(crate) fn joined(
    known: Option<Vec<TypedStmt>>,
    more: Option<Vec<TypedStmt>>,
) -> Result<Option<Vec<TypedStmt>>, AllocError>
    ensures { IfOk result (λ all. option_map typed_in all ≡ option_map (λ k. k.0 ++ k.1) (both (option_map typed_in known) (option_map typed_in more))) }
{
    match (known, more) {
        (Some(mut all), Some(mut more)) => {
            all.append(&mut more)?;
            Ok(Some(all))
        }
        _ => Ok(None),
    }
}

/// Statements as one block.
#[tactic(auto, using(go_typed::proofs::StatementRows::block_seen))]
pub(crate) fn one_block(
    alloc: Global,
    statements: Option<Vec<TypedStmt>>,
) -> Result<Option<Vec<TypedStmt>>, AllocError>
    ensures { IfOk result (λ block. option_map typed_in block ≡ option_map one_block (option_map typed_in statements)) }
{
    match statements {
        Some(statements) => Ok(Some(vec![in alloc; TypedStmt::Block(statements)]?)),
        None => Ok(None),
    }
}

/// The type of the variable that counts, where the range breaks no rule.
pub(crate) fn range_type(operand: &Option<TypedExpr>) -> Result<Option<GoType>, AllocError>
    ensures { IfOk result (λ t. option_map go_type t ≡ range_type (option_map as_expr operand.now)) }
{
    match operand {
        Some(operand) if is_integer(type_in(operand)) => settled_type(operand),
        _ => Ok(None),
    }
}

/// The range of a loop. `Mismatch` where it is no integer, `Range` where it lies outside of the type
/// that it takes.
fn counted(alloc: Global, operand: TypedExpr) -> Result<TypedExpr, RuleError>
    ensures { Gives as_expr result (counted (as_expr operand)) }
{
    if !is_integer(type_in(&operand)) {
        return Err(RuleError::Broken(FaultKind::Mismatch));
    }
    defaulted(alloc, operand)
}

#[tactic(auto, using(go_typed::proofs::StatementRows::range_seen, go_typed::proofs::Rows::type_seen))]
fn range_of(
    number: Option<usize>,
    operand: TypedExpr,
    body: Vec<TypedStmt>,
) -> Result<TypedStmt, AllocError>
    ensures { let e = as_expr operand in
        IfOk result (λ s. as_stmt s ≡ typed.range_statement number (typed.expr_type e) e (typed.pack_stmts (typed_in body))) }
{
    let of = type_in(&operand).copy()?;
    Ok(TypedStmt::Range(number, of, operand, body))
}

/// A loop over a range that counts, where its body is known.
fn counting(
    alloc: Global,
    number: Option<usize>,
    operand: TypedExpr,
    body: Option<Vec<TypedStmt>>,
) -> Result<Option<Vec<TypedStmt>>, AllocError>
    ensures { let e = as_expr operand in
        IfOk result (λ all. option_map typed_in all ≡
        option_map (λ ss. typed.range_statement number (typed.expr_type e) e (typed.pack_stmts ss) ∷ []) (option_map typed_in body)) }
{
    match body {
        Some(body) => {
            let all = with_last(Vec::new(alloc), range_of(number, operand, body)?)?;
            Ok(Some(all))
        }
        None => Ok(None),
    }
}

/// A loop over a range at a place.
fn loop_over(
    alloc: Global,
    place: Place,
    number: Option<usize>,
    operand: TypedExpr,
    body: Option<Vec<TypedStmt>>,
) -> Result<Option<Vec<TypedStmt>>, ExprError>
    ensures { AnswersAt typed_in result place (ranged number (as_expr operand) (option_map typed_in body)) }
{
    match counted(alloc, operand) {
        Ok(operand) => Ok(counting(alloc, number, operand, body)?),
        Err(error) => Err(error.at(place)),
    }
}

/// A loop over a range at a place, where the range is known and what it breaks isn't hidden.
pub(crate) fn ranged(
    alloc: Global,
    place: Place,
    number: Option<usize>,
    operand: Option<TypedExpr>,
    hidden: bool,
    body: Option<Vec<TypedStmt>>,
) -> Result<Option<Vec<TypedStmt>>, ExprError>
    ensures { AnswersAt typed_in result place
        (asked (λ k. ranged number k.0 k.1) (both (option_map as_expr operand) (if hidden then None else Some (option_map typed_in body)))) }
{
    if hidden {
        return Ok(None);
    }
    match operand {
        Some(operand) => loop_over(alloc, place, number, operand, body),
        None => Ok(None),
    }
}

/// Declares the variable of a loop over a range, if there is one, and gives its number. An `Err` only
/// where memory ran out.
pub(crate) fn declare_range(
    env: &mut Env,
    name: &Option<Name>,
    of: Option<GoType>,
) -> Result<Option<usize>, AllocError>
    ensures number { IfOk result (λ n. n ≡ range_number name.now (env_of env.new)) }
    ensures after { OnOk result (env_of env.new ≡ declare_new (range_names name.now (option_map go_type of)) (env_of env.old)) }
{
    match name {
        Some(name) => {
            env.declare_new(name, of)?;
            Ok(env.number_of(name))
        }
        None => Ok(None),
    }
}
