//! Operands that have to be evaluated.
//! [Length and capacity](https://go.dev/ref/spec#Length_and_capacity)
ghost use Rattle.std.specs.Prelude.{◌≡◌};
ghost use Rattle.go_typed.specs.Views.{as_expr, as_exprs, parts_in};
ghost use Rattle.go_expr.specs.Rules.{holds_call, some_hold_call, part_holds_call};

use go_typed::expression::{TypedExpr, TypedExprKind, TypedPart};

/// Whether a call stands in a value, of a function or of len, cap, make or append.
#[cycle(evaluation)]
#[tactic(auto, unfolding(go_typed::specs::Views::as_expr))]
pub(crate) fn holds_call(value: &TypedExpr) -> bool
    ensures { result ≡ holds_call (as_expr value.now) }
{
    match &value.kind {
        TypedExprKind::Constant(_) | TypedExprKind::Local(_) | TypedExprKind::Global(_) => false,
        TypedExprKind::Length(_) | TypedExprKind::Capacity(_) | TypedExprKind::Call(_, _) => true,
        TypedExprKind::Make(_) | TypedExprKind::MakeWithin(_, _) => true,
        TypedExprKind::Append(_, _) => true,
        TypedExprKind::Elements(es) => some_hold_call(es),
        TypedExprKind::Tail(x, low) => holds_call(x) || holds_call(low),
        TypedExprKind::Cut(x, low, high) => holds_call(x) || holds_call(low) || holds_call(high),
        TypedExprKind::Field(x, _) => holds_call(x),
        TypedExprKind::Unary(_, x) => holds_call(x),
        TypedExprKind::Conversion(x) => holds_call(x),
        TypedExprKind::Index(x, y) => holds_call(x) || holds_call(y),
        TypedExprKind::Binary(_, x, y) => holds_call(x) || holds_call(y),
        TypedExprKind::Both(x, y) => holds_call(x) || holds_call(y),
        TypedExprKind::Either(x, y) => holds_call(x) || holds_call(y),
        TypedExprKind::Literal(parts) => part_holds_call(parts),
    }
}

/// Whether a call stands in some elements of a slice.
#[cycle(evaluation)]
fn some_hold_call(es: &[TypedExpr]) -> bool
    ensures { result ≡ some_hold_call (as_exprs es.now) }
{
    for e in es {
        if holds_call(e) {
            return true;
        }
    }
    false
}

/// Whether a call stands in some parts of a literal.
#[cycle(evaluation)]
fn part_holds_call(parts: &[TypedPart]) -> bool
    ensures { result ≡ part_holds_call (parts_in parts.now) }
{
    for part in parts {
        if holds_call(&part.value) {
            return true;
        }
    }
    false
}
