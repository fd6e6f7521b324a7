//! How many cells temporaries take.
ghost use Rattle.std.specs.Prelude.{◌≡◌, ◌+◌, IfOk};
ghost use Rattle.go_typed.specs.Views.{as_expr, as_exprs, parts_in};
ghost use Rattle.go_gen.specs.Translation.{expr_temps, exprs_temps, parts_temps};

use crate::size::{cells, sum};
use go_typed::expression::{TypedExpr, TypedExprKind, TypedPart};
use std::alloc::AllocError;

/// Those of an expression.
#[cycle(temps)]
#[tactic(auto, unfolding(go_typed::specs::Views::as_expr))]
pub(crate) fn expr_temps(e: &TypedExpr) -> Result<usize, AllocError>
    ensures { IfOk result (λ n. n ≡ expr_temps (as_expr e.now)) }
{
    match &e.kind {
        TypedExprKind::Constant(_) => Ok(0),
        TypedExprKind::Local(_) => Ok(0),
        TypedExprKind::Global(_) => Ok(0),
        TypedExprKind::Field(operand, _) => expr_temps(operand),
        TypedExprKind::Index(operand, index) => sum(expr_temps(operand)?, expr_temps(index)?),
        TypedExprKind::Length(operand) => expr_temps(operand),
        TypedExprKind::Capacity(operand) => expr_temps(operand),
        TypedExprKind::Tail(operand, low) => {
            sum(sum(expr_temps(operand)?, 1)?, expr_temps(low)?)
        }
        TypedExprKind::Cut(operand, low, high) => {
            let behind = sum(sum(expr_temps(operand)?, 1)?, expr_temps(low)?)?;
            sum(behind, expr_temps(high)?)
        }
        TypedExprKind::Make(length) => sum(expr_temps(length)?, 1),
        TypedExprKind::MakeWithin(length, room) => {
            sum(sum(expr_temps(length)?, 1)?, expr_temps(room)?)
        }
        TypedExprKind::Elements(es) => exprs_temps(es),
        TypedExprKind::Append(slice, es) => sum(expr_temps(slice)?, exprs_temps(es)?),
        TypedExprKind::Unary(_, operand) => expr_temps(operand),
        TypedExprKind::Binary(_, a, b) => sum(expr_temps(a)?, expr_temps(b)?),
        TypedExprKind::Both(a, b) => sum(expr_temps(a)?, expr_temps(b)?),
        TypedExprKind::Either(a, b) => sum(expr_temps(a)?, expr_temps(b)?),
        TypedExprKind::Conversion(operand) => expr_temps(operand),
        TypedExprKind::Literal(parts) => sum(cells(&e.of)?, parts_temps(parts)?),
        TypedExprKind::Call(_, arguments) => exprs_temps(arguments),
    }
}

/// The number of the first cell behind the temporaries of an expression, of which `k` is the first.
pub(crate) fn cell_behind(k: usize, e: &TypedExpr) -> Result<usize, AllocError>
    ensures { IfOk result (λ n. n ≡ k + expr_temps (as_expr e.now)) }
{
    sum(k, expr_temps(e)?)
}

/// The temporary that an operand is kept in, behind those of its own, and the cell behind it.
pub(crate) fn cell_kept(k: usize, e: &TypedExpr) -> Result<(usize, usize), AllocError>
    ensures { IfOk result (λ n. (n.0 ≡ k + expr_temps (as_expr e.now)) × (n.1 ≡ n.0 + 1)) }
{
    let temp = cell_behind(k, e)?;
    Ok((temp, sum(temp, 1)?))
}

/// Those of some expressions.
#[cycle(temps)]
pub(crate) fn exprs_temps(es: &[TypedExpr]) -> Result<usize, AllocError>
    ensures { IfOk result (λ n. n ≡ exprs_temps (as_exprs es.now)) }
{
    let mut count = 0;
    for e in es {
        count = sum(count, expr_temps(e)?)?;
    }
    Ok(count)
}

/// Those of parts of a literal.
#[cycle(temps)]
pub(crate) fn parts_temps(parts: &[TypedPart]) -> Result<usize, AllocError>
    ensures { IfOk result (λ n. n ≡ parts_temps (parts_in parts.now)) }
{
    let mut count = 0;
    for part in parts {
        count = sum(count, expr_temps(&part.value)?)?;
    }
    Ok(count)
}
