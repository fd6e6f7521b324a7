//! Nodes of typed trees.
ghost use Rattle.std.specs.Prelude.{◌≡◌, IfOk, option_copied};
ghost use Rattle.go_types.specs.Views.{go_type};
ghost use Rattle.go_typed.specs.Trees as typed;
ghost use Rattle.go_typed.specs.Trees.{expr_type};
ghost use Rattle.go_typed.specs.Views.{as_expr, as_exprs, parts_in};
ghost use Rattle.go_expr.specs.Rules.{constant_in};

use go_const::constant::Const;
use go_const::operator::UnaryOperator;
use go_symbol::Symbol;
use go_typed::expression::{Operator, TypedExpr, TypedExprKind, TypedPart};
use go_types::types::GoType;
use std::alloc::{AllocError, Global};

/// The type of a value.
#[tactic(auto, using(go_typed::proofs::Rows::type_seen))]
pub fn type_in(value: &TypedExpr) -> &GoType
    ensures { go_type result.now ≡ expr_type (as_expr value.now) }
{
    &value.of
}

/// The constant that a value is, if it is one.
#[tactic(auto, unfolding(go_typed::specs::Views::as_expr))]
pub fn constant_in(value: &TypedExpr) -> Option<&Const>
    ensures { option_copied result ≡ constant_in (as_expr value.now) }
{
    match &value.kind {
        TypedExprKind::Constant(constant) => Some(constant),
        _ => None,
    }
}

/// A constant of a type.
#[tactic(auto, unfolding(go_typed::specs::Views::as_expr))]
pub fn constant(of: GoType, value: Const) -> TypedExpr
    ensures { as_expr result ≡ typed.constant (go_type of) value }
{
    TypedExpr {
        of,
        kind: TypedExprKind::Constant(value),
    }
}

/// A local variable of a type, by its number.
#[tactic(auto, unfolding(go_typed::specs::Views::as_expr))]
pub(crate) fn local(of: GoType, number: usize) -> TypedExpr
    ensures { as_expr result ≡ typed.local (go_type of) number }
{
    TypedExpr {
        of,
        kind: TypedExprKind::Local(number),
    }
}

/// A package's variable of a type.
#[tactic(auto, unfolding(go_typed::specs::Views::as_expr))]
pub(crate) fn global(of: GoType, symbol: Symbol) -> TypedExpr
    ensures { as_expr result ≡ typed.global (go_type of) symbol }
{
    TypedExpr {
        of,
        kind: TypedExprKind::Global(symbol),
    }
}

/// The field of a number.
#[tactic(auto, using(go_typed::proofs::Rows::field_seen))]
pub(crate) fn field(
    alloc: Global,
    of: GoType,
    x: TypedExpr,
    number: usize,
) -> Result<TypedExpr, AllocError>
    ensures { IfOk result (λ e. as_expr e ≡ typed.field (go_type of) (as_expr x) number) }
{
    let kind = TypedExprKind::Field(Box::new(alloc, x)?, number);
    Ok(TypedExpr { of, kind })
}

/// An element of an array or a slice, or a byte of a string.
#[tactic(auto, using(go_typed::proofs::Rows::index_seen))]
pub(crate) fn index(
    alloc: Global,
    of: GoType,
    x: TypedExpr,
    i: TypedExpr,
) -> Result<TypedExpr, AllocError>
    ensures { IfOk result (λ e. as_expr e ≡ typed.index (go_type of) (as_expr x) (as_expr i)) }
{
    let kind = TypedExprKind::Index(Box::new(alloc, x)?, Box::new(alloc, i)?);
    Ok(TypedExpr { of, kind })
}

/// The length of a slice or a string.
#[tactic(auto, using(go_typed::proofs::Rows::length_seen))]
pub(crate) fn length(alloc: Global, of: GoType, x: TypedExpr) -> Result<TypedExpr, AllocError>
    ensures { IfOk result (λ e. as_expr e ≡ typed.length (go_type of) (as_expr x)) }
{
    let kind = TypedExprKind::Length(Box::new(alloc, x)?);
    Ok(TypedExpr { of, kind })
}

/// An operator before its operand.
#[tactic(auto, using(go_typed::proofs::Rows::unary_seen))]
pub(crate) fn unary(
    alloc: Global,
    of: GoType,
    operator: UnaryOperator,
    x: TypedExpr,
) -> Result<TypedExpr, AllocError>
    ensures { IfOk result (λ e. as_expr e ≡ typed.unary (go_type of) operator (as_expr x)) }
{
    let kind = TypedExprKind::Unary(operator, Box::new(alloc, x)?);
    Ok(TypedExpr { of, kind })
}

/// An operator between two operands.
#[tactic(auto, using(go_typed::proofs::Rows::binary_seen))]
pub(crate) fn binary(
    alloc: Global,
    of: GoType,
    operator: Operator,
    x: TypedExpr,
    y: TypedExpr,
) -> Result<TypedExpr, AllocError>
    ensures { IfOk result (λ e. as_expr e ≡ typed.binary (go_type of) operator (as_expr x) (as_expr y)) }
{
    let kind = TypedExprKind::Binary(operator, Box::new(alloc, x)?, Box::new(alloc, y)?);
    Ok(TypedExpr { of, kind })
}

/// Whether two operands both hold.
#[tactic(auto, using(go_typed::proofs::Rows::both_seen))]
pub(crate) fn both(
    alloc: Global,
    of: GoType,
    x: TypedExpr,
    y: TypedExpr,
) -> Result<TypedExpr, AllocError>
    ensures { IfOk result (λ e. as_expr e ≡ typed.both (go_type of) (as_expr x) (as_expr y)) }
{
    let kind = TypedExprKind::Both(Box::new(alloc, x)?, Box::new(alloc, y)?);
    Ok(TypedExpr { of, kind })
}

/// Whether one of two operands holds.
#[tactic(auto, using(go_typed::proofs::Rows::either_seen))]
pub(crate) fn either(
    alloc: Global,
    of: GoType,
    x: TypedExpr,
    y: TypedExpr,
) -> Result<TypedExpr, AllocError>
    ensures { IfOk result (λ e. as_expr e ≡ typed.either (go_type of) (as_expr x) (as_expr y)) }
{
    let kind = TypedExprKind::Either(Box::new(alloc, x)?, Box::new(alloc, y)?);
    Ok(TypedExpr { of, kind })
}

/// A conversion.
#[tactic(auto, using(go_typed::proofs::Rows::conversion_seen))]
pub(crate) fn conversion(alloc: Global, of: GoType, x: TypedExpr) -> Result<TypedExpr, AllocError>
    ensures { IfOk result (λ e. as_expr e ≡ typed.conversion (go_type of) (as_expr x)) }
{
    let kind = TypedExprKind::Conversion(Box::new(alloc, x)?);
    Ok(TypedExpr { of, kind })
}

/// An array or a struct of some parts.
#[tactic(auto, using(go_typed::proofs::Rows::literal_seen))]
pub(crate) fn literal(of: GoType, parts: Vec<TypedPart>) -> TypedExpr
    ensures { as_expr result ≡ typed.literal (go_type of) (parts_in parts.items) }
{
    TypedExpr {
        of,
        kind: TypedExprKind::Literal(parts),
    }
}

/// The capacity of a slice.
#[tactic(auto, using(go_typed::proofs::Rows::capacity_seen))]
pub(crate) fn capacity(alloc: Global, of: GoType, x: TypedExpr) -> Result<TypedExpr, AllocError>
    ensures { IfOk result (λ e. as_expr e ≡ typed.capacity (go_type of) (as_expr x)) }
{
    let kind = TypedExprKind::Capacity(Box::new(alloc, x)?);
    Ok(TypedExpr { of, kind })
}

/// A part of a slice or a string, from a bound to its end.
#[tactic(auto, using(go_typed::proofs::Rows::tail_seen))]
pub(crate) fn tail(
    alloc: Global,
    of: GoType,
    x: TypedExpr,
    low: TypedExpr,
) -> Result<TypedExpr, AllocError>
    ensures { IfOk result (λ e. as_expr e ≡ typed.cut (go_type of) (as_expr x) (as_expr low) typed.absent) }
{
    let kind = TypedExprKind::Tail(Box::new(alloc, x)?, Box::new(alloc, low)?);
    Ok(TypedExpr { of, kind })
}

/// A part of a slice or a string, from one bound to another.
#[tactic(auto, using(go_typed::proofs::Rows::cut_seen))]
pub(crate) fn cut(
    alloc: Global,
    of: GoType,
    x: TypedExpr,
    low: TypedExpr,
    high: TypedExpr,
) -> Result<TypedExpr, AllocError>
    ensures { IfOk result (λ e. as_expr e ≡ typed.cut (go_type of) (as_expr x) (as_expr low) (typed.present (as_expr high))) }
{
    let x = Box::new(alloc, x)?;
    let kind = TypedExprKind::Cut(x, Box::new(alloc, low)?, Box::new(alloc, high)?);
    Ok(TypedExpr { of, kind })
}

/// A slice that is made with a length.
#[tactic(auto, using(go_typed::proofs::Rows::make_seen))]
pub(crate) fn make(alloc: Global, of: GoType, length: TypedExpr) -> Result<TypedExpr, AllocError>
    ensures { IfOk result (λ e. as_expr e ≡ typed.make (go_type of) (as_expr length) typed.absent) }
{
    let kind = TypedExprKind::Make(Box::new(alloc, length)?);
    Ok(TypedExpr { of, kind })
}

/// A slice that is made with a length and a capacity.
#[tactic(auto, using(go_typed::proofs::Rows::make_within_seen))]
pub(crate) fn make_within(
    alloc: Global,
    of: GoType,
    length: TypedExpr,
    room: TypedExpr,
) -> Result<TypedExpr, AllocError>
    ensures { IfOk result (λ e. as_expr e ≡ typed.make (go_type of) (as_expr length) (typed.present (as_expr room))) }
{
    let kind = TypedExprKind::MakeWithin(Box::new(alloc, length)?, Box::new(alloc, room)?);
    Ok(TypedExpr { of, kind })
}

/// A slice of some elements.
#[tactic(auto, using(go_typed::proofs::Rows::elements_seen))]
pub(crate) fn elements(of: GoType, elements: Vec<TypedExpr>) -> TypedExpr
    ensures { as_expr result ≡ typed.append (go_type of) typed.absent (as_exprs elements.items) }
{
    TypedExpr {
        of,
        kind: TypedExprKind::Elements(elements),
    }
}

/// A slice with elements appended.
#[tactic(auto, using(go_typed::proofs::Rows::append_seen))]
pub(crate) fn append(
    alloc: Global,
    of: GoType,
    slice: TypedExpr,
    elements: Vec<TypedExpr>,
) -> Result<TypedExpr, AllocError>
    ensures { IfOk result (λ e. as_expr e ≡ typed.append (go_type of) (typed.present (as_expr slice)) (as_exprs elements.items)) }
{
    let kind = TypedExprKind::Append(Box::new(alloc, slice)?, elements);
    Ok(TypedExpr { of, kind })
}

/// A call that has one result.
#[tactic(auto, using(go_typed::proofs::Rows::call_seen))]
pub(crate) fn call(of: GoType, symbol: Symbol, arguments: Vec<TypedExpr>) -> TypedExpr
    ensures { as_expr result ≡ typed.call (go_type of) symbol (as_exprs arguments.items) }
{
    TypedExpr {
        of,
        kind: TypedExprKind::Call(symbol, arguments),
    }
}
