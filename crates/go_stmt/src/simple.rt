//! Simple statements. [Simple statements](https://go.dev/ref/spec#Simple_statements)
ghost use Rattle.std.specs.Prelude.{◌≡◌, IfOk, map, reverse};
ghost use Rattle.std.specs.Option.{option_map};
ghost use Rattle.go_types.specs.Views.{go_type};
ghost use Rattle.go_typed.specs.Trees as typed;
ghost use Rattle.go_types.specs.Types.{array};
ghost use Rattle.go_types.specs.Relations.{underlying};
ghost use Rattle.go_typed.specs.Views.{as_expr, left_of, steps_in, as_stmt};
ghost use Rattle.go_expr.specs.Known.{Verdict, declared, value};
ghost use Rattle.go_expr.specs.Verdicts.{asked};
ghost use Rattle.go_expr.specs.Views.{known_of, all_of, Gives, AnswersAt};
ghost use Rattle.go_stmt.specs.Rules.{stated, performed, left_to, left_side, is_left, is_array, all_some, inc_dec_verdict, updating};
ghost use Rattle.go_ast.specs.Trees.{call_statement};
ghost use Rattle.go_ast.specs.Views.{expr_of as expr_tree};
ghost use Rattle.go_stmt.specs.Scopes.{node};
ghost use Rattle.go_stmt.specs.Statements.{simple_at, value_at};
ghost use Rattle.go_stmt.specs.Views.{context_of, env_of, Answered};

use crate::context::Context;
use crate::control::check_value;
use crate::env::Env;
use go_ast::expression::Expr;
use go_const::constant::Const;
use go_const::operator::ArithmeticOperator;
use go_expr::due::bare_place;
use go_expr::error::{ExprError, RuleError};
use go_expr::expression::check_expr;
use go_expr::known::Known;
use go_expr::node::{constant, type_in};
use go_expr::slice::slice_element;
use go_expr::value::is_integer;
use go_text::fault::FaultKind;
use go_text::place::Place;
use go_typed::expression::{Operator, TypedExpr, TypedExprKind};
use go_typed::statement::{TypedLeft, TypedStep, TypedStmt};
use go_types::relations::underlying;
use go_types::types::GoType;
use std::alloc::{AllocError, Global};

/// What a rule gives of a node at a place, or its fault.
pub(crate) fn located(
    place: Place,
    given: Result<TypedStmt, RuleError>,
) -> Result<Option<TypedStmt>, ExprError>
    ensures { (v : Verdict typed.Stmt) → Gives as_stmt given v → AnswersAt as_stmt result place v }
{
    match given {
        Ok(statement) => Ok(Some(statement)),
        Err(error) => Err(error.at(place)),
    }
}

/// A call of a function that has one result. `Mismatch` where it is no call.
#[tactic(auto, using(go_typed::proofs::Rows::call_seen), unfolding(go_typed::specs::Views::as_expr, go_typed::specs::Views::as_stmt))]
fn run_of(alloc: Global, call: TypedExpr) -> Result<TypedStmt, RuleError>
    ensures { Gives as_stmt result (performed (declared (value (as_expr call)))) }
{
    let TypedExpr { of, kind } = call;
    match kind {
        TypedExprKind::Call(symbol, arguments) => {
            Ok(TypedStmt::Run(vec![in alloc; of]?, symbol, arguments))
        }
        _ => Err(RuleError::Broken(FaultKind::Mismatch)),
    }
}

/// A call at a place, where it is known, that stands as a statement: one of Println is asked for what it
/// prints.
fn stated<'a>(place: Place, known: Option<Known<'a>>) -> Result<Option<Known<'a>>, ExprError>
    ensures { AnswersAt known_of result place (asked stated (option_map known_of known.entry)) }
{
    match known {
        Some(Known::Printed(Err(kind))) => Err(ExprError::Faulty(place, kind)),
        known => Ok(known),
    }
}

/// A call that stands as a statement at a place, where it is known. `Mismatch` where it is no call
/// of a function, of panic or of Println.
#[tactic(auto, unfolding(go_typed::specs::Views::as_stmt))]
fn performed<'a>(
    alloc: Global,
    place: Place,
    known: Option<Known<'a>>,
) -> Result<Option<TypedStmt>, ExprError>
    ensures { AnswersAt as_stmt result place (asked performed (option_map known_of known.entry)) }
{
    match known {
        None => Ok(None),
        Some(Known::Value(call)) => located(place, run_of(alloc, call)),
        Some(Known::Results(types, symbol, arguments)) => {
            Ok(Some(TypedStmt::Run(types, symbol, arguments)))
        }
        Some(Known::Printed(Ok(operands))) => Ok(Some(TypedStmt::Print(operands))),
        Some(Known::Printed(Err(kind))) => Err(ExprError::Faulty(place, kind)),
        Some(Known::Panicked(operand)) => Ok(Some(TypedStmt::Panic(operand))),
        Some(_) => Err(ExprError::Faulty(place, FaultKind::Mismatch)),
    }
}

fn is_array(of: &GoType) -> bool
    ensures { result ≡ is_array (go_type of.now) }
{
    matches!(underlying(of), GoType::Array(_, _))
}

/// Whether a value names a part of a variable or of a slice, and no byte of a string.
#[tactic(auto, unfolding(go_typed::specs::Views::as_expr))]
pub(crate) fn is_left(value: &TypedExpr) -> bool
    ensures { result ≡ is_left (as_expr value.now) }
{
    match &value.kind {
        TypedExprKind::Local(_) | TypedExprKind::Global(_) => true,
        TypedExprKind::Field(operand, _) => is_left(operand),
        TypedExprKind::Index(operand, _) => {
            if is_array(type_in(operand)) {
                return is_left(operand);
            }
            slice_element(type_in(operand)).is_some()
        }
        _ => false,
    }
}

/// The part of a variable or of a slice that a value names, in front of some steps, of which the last
/// is the outermost; `None` where it names none.
#[tactic(auto, unfolding(go_typed::specs::Views::as_expr))]
fn left_to(value: TypedExpr, steps: Vec<TypedStep>) -> Result<Option<TypedLeft>, AllocError>
    ensures { IfOk result (λ l. option_map left_of l ≡ left_to (steps_in (reverse steps.items)) (as_expr value)) }
{
    let mut steps = steps;
    let TypedExpr { of, kind } = value;
    match kind {
        TypedExprKind::Local(number) => {
            steps.reverse();
            Ok(Some(TypedLeft::Local(of, number, steps)))
        }
        TypedExprKind::Global(symbol) => {
            steps.reverse();
            Ok(Some(TypedLeft::Global(of, symbol, steps)))
        }
        TypedExprKind::Field(operand, number) => {
            steps.push(TypedStep::Field(number))?;
            left_to(Box::into_inner(operand), steps)
        }
        TypedExprKind::Index(operand, index) => {
            let operand = Box::into_inner(operand);
            steps.push(TypedStep::Element(Box::into_inner(index)))?;
            if is_array(type_in(&operand)) {
                return left_to(operand, steps);
            }
            if slice_element(type_in(&operand)).is_none() {
                return Ok(None);
            }
            steps.reverse();
            Ok(Some(TypedLeft::Slice(type_in(&operand).copy()?, operand, steps)))
        }
        _ => Ok(None),
    }
}

/// A left side of an assignment, by its operand; the blank one has none.
fn left_side(alloc: Global, operand: Option<TypedExpr>) -> Result<Option<TypedLeft>, AllocError>
    ensures { IfOk result (λ l. option_map left_of l ≡ left_side (option_map as_expr operand)) }
{
    match operand {
        Some(operand) => left_to(operand, Vec::new(alloc)),
        None => Ok(Some(TypedLeft::Blank)),
    }
}

/// Left sides, where each is one.
pub(crate) fn left_sides(
    alloc: Global,
    operands: Vec<Option<TypedExpr>>,
) -> Result<Option<Vec<TypedLeft>>, AllocError>
    ensures { IfOk result (λ ls. option_map (all_of left_of) ls ≡ all_some (map left_side (map (option_map as_expr) operands.items))) }
{
    let mut all = Vec::with_capacity(alloc, operands.len())?;
    for operand in operands {
        let Some(left) = left_side(alloc, operand)? else {
            return Ok(None);
        };
        all.push(left)?;
    }
    Ok(Some(all))
}

/// A left side that gets one more or less. `Mismatch` where it is none, or no integer.
/// [IncDec statements](https://go.dev/ref/spec#IncDec_statements)
#[tactic(auto, unfolding(go_typed::specs::Views::as_stmt))]
fn step_of(
    alloc: Global,
    operator: ArithmeticOperator,
    operand: TypedExpr,
) -> Result<TypedStmt, RuleError>
    ensures { Gives as_stmt result (inc_dec_verdict operator (as_expr operand)) }
{
    let of = type_in(&operand).copy()?;
    let one = constant(of.copy()?, Const::Integer(1));
    let Some(left) = left_to(operand, Vec::new(alloc))? else {
        return Err(RuleError::Broken(FaultKind::Mismatch));
    };
    if !is_integer(&of) {
        return Err(RuleError::Broken(FaultKind::Mismatch));
    }
    Ok(TypedStmt::Update(of, left, Operator::Arithmetic(operator), one))
}

/// A left side that gets one more or less, at a place, where it is known.
fn stepped(
    alloc: Global,
    place: Place,
    operator: ArithmeticOperator,
    operand: Option<TypedExpr>,
) -> Result<Option<TypedStmt>, ExprError>
    ensures { AnswersAt as_stmt result place (asked (inc_dec_verdict operator) (option_map as_expr operand)) }
{
    match operand {
        Some(operand) => located(place, step_of(alloc, operator, operand)),
        None => Ok(None),
    }
}

/// What an increment or a decrement is.
pub(crate) fn check_step(
    alloc: Global,
    context: Context<'_>,
    env: &Env,
    place: Place,
    operator: ArithmeticOperator,
    e: &Expr,
) -> Result<Option<TypedStmt>, ExprError>
    ensures { Answered as_stmt result (node place (inc_dec_verdict operator) (value_at (context_of context.entry) (expr_tree e.now)) (env_of env.now)) }
{
    let operand = check_value(alloc, context, env, e)?;
    stepped(alloc, place, operator, operand)
}

/// What a call is that stands as a statement.
/// [Expression statements](https://go.dev/ref/spec#Expression_statements)
pub(crate) fn check_call(
    alloc: Global,
    context: Context<'_>,
    env: &Env,
    place: Place,
    e: &Expr,
) -> Result<Option<TypedStmt>, ExprError>
    ensures { Answered as_stmt result (simple_at (context_of context.entry) place (call_statement (expr_tree e.now)) (env_of env.now)) }
{
    let known = check_expr(alloc, &env.scope(context, None), e)?;
    let known = stated(bare_place(e), known)?;
    performed(alloc, place, known)
}

/// An operator and an assignment to its left operand. `Mismatch` where that is no left side.
#[tactic(auto, using(go_typed::proofs::Rows::binary_seen), unfolding(go_typed::specs::Views::as_expr, go_typed::specs::Views::as_stmt))]
pub(crate) fn updating(alloc: Global, operation: TypedExpr) -> Result<TypedStmt, RuleError>
    ensures { Gives as_stmt result (updating (as_expr operation)) }
{
    let TypedExpr { of: _, kind } = operation;
    let TypedExprKind::Binary(operator, left, right) = kind else {
        return Err(RuleError::Broken(FaultKind::Mismatch));
    };
    if let Operator::Comparison(_) = operator {
        return Err(RuleError::Broken(FaultKind::Mismatch));
    }
    let left = Box::into_inner(left);
    let of = type_in(&left).copy()?;
    let Some(left) = left_to(left, Vec::new(alloc))? else {
        return Err(RuleError::Broken(FaultKind::Mismatch));
    };
    Ok(TypedStmt::Update(of, left, operator, Box::into_inner(right)))
}
