//! Values of types.
ghost use Rattle.std.specs.Prelude.{◌≡◌, IfOk, is_some};
ghost use Rattle.std.specs.Option.{option_map};
ghost use Rattle.go_types.specs.Views.{go_type};
ghost use Rattle.go_typed.specs.Views.{as_expr};
ghost use Rattle.go_expr.specs.Rules.{int_kind, is_integer, is_string, is_bool, is_untyped, in_kind, lies_in, constant_in, as_type, assigned, default_type, defaulted, condition, settled, settled_type, int, uint, string};
ghost use Rattle.go_expr.specs.Views.{Gives, IsTaken};

use crate::error::RuleError;
use crate::node::{constant, constant_in, conversion, type_in};
use go_const::constant::Const;
use go_text::fault::FaultKind;
use go_typed::expression::{TypedExpr, TypedExprKind};
use go_types::relations::{assignable, identical, underlying};
use go_types::types::{Basic, GoType, IntKind, Untyped};
use std::alloc::{AllocError, Global};

/// The type `int`.
pub(crate) fn int() -> GoType
    ensures { go_type result ≡ int }
{
    GoType::Basic(Basic::Integer(IntKind::Int))
}

/// The type `uint`.
pub(crate) fn uint() -> GoType
    ensures { go_type result ≡ uint }
{
    GoType::Basic(Basic::Integer(IntKind::Uint))
}

/// The type `string`.
pub(crate) fn string() -> GoType
    ensures { go_type result ≡ string }
{
    GoType::Basic(Basic::String)
}

/// The integer type that a type's underlying one is, if it is one.
/// [Numeric types](https://go.dev/ref/spec#Numeric_types)
pub(crate) fn int_kind(of: &GoType) -> Option<IntKind>
    ensures { result ≡ int_kind (go_type of.now) }
{
    match underlying(of) {
        GoType::Basic(Basic::Integer(kind)) => Some(*kind),
        _ => None,
    }
}

/// Whether operators on integers are defined on a type.
/// [Arithmetic operators](https://go.dev/ref/spec#Arithmetic_operators)
pub fn is_integer(of: &GoType) -> bool
    ensures { result ≡ is_integer (go_type of.now) }
{
    matches!(
        underlying(of),
        GoType::Basic(Basic::Integer(_) | Basic::Untyped(Untyped::Int | Untyped::Rune))
    )
}

/// Whether operators on strings are defined on a type.
/// [String concatenation](https://go.dev/ref/spec#String_concatenation)
pub fn is_string(of: &GoType) -> bool
    ensures { result ≡ is_string (go_type of.now) }
{
    matches!(
        underlying(of),
        GoType::Basic(Basic::String | Basic::Untyped(Untyped::String))
    )
}

/// Whether logical operators are defined on a type.
/// [Logical operators](https://go.dev/ref/spec#Logical_operators)
pub fn is_bool(of: &GoType) -> bool
    ensures { result ≡ is_bool (go_type of.now) }
{
    matches!(
        underlying(of),
        GoType::Basic(Basic::Bool | Basic::Untyped(Untyped::Bool))
    )
}

/// Whether values of a type have none yet.
pub(crate) fn is_untyped(of: &GoType) -> bool
    ensures { result ≡ is_untyped (go_type of.now) }
{
    matches!(of, GoType::Basic(Basic::Untyped(_)))
}

/// Whether a constant is one of a kind; without a kind it is.
fn in_kind(kind: Option<IntKind>, constant: &Const) -> bool
    ensures { result ≡ in_kind kind constant.now }
{
    match (kind, constant) {
        (Some(kind), Const::Integer(number)) => kind.fits(*number),
        _ => true,
    }
}

/// Whether a value of a kind that fits a type lies in it: one that isn't constant does.
/// [Representability](https://go.dev/ref/spec#Representability)
pub fn lies_in(of: &GoType, value: &TypedExpr) -> bool
    ensures { result ≡ lies_in (go_type of.now) (as_expr value.now) }
{
    match constant_in(value) {
        Some(constant) => in_kind(int_kind(of), constant),
        None => true,
    }
}

/// Whether a value is constant.
/// [Constant expressions](https://go.dev/ref/spec#Constant_expressions)
pub fn is_constant(value: &TypedExpr) -> bool
    ensures { result ≡ is_some (constant_in (as_expr value.now)) }
{
    constant_in(value).is_some()
}

/// The constant that a value is; else the value.
#[tactic(auto, unfolding(go_typed::specs::Views::as_expr))]
pub(crate) fn take_constant(value: TypedExpr) -> Result<Const, TypedExpr>
    ensures { IsTaken (as_expr value) result }
{
    let TypedExpr { of, kind } = value;
    match kind {
        TypedExprKind::Constant(constant) => Ok(constant),
        kind => Err(TypedExpr { of, kind }),
    }
}

/// A value as one of a type: a constant becomes one of that type, and another is converted, unless
/// it has the type.
pub fn as_type(alloc: Global, of: GoType, value: TypedExpr) -> Result<TypedExpr, AllocError>
    ensures { IfOk result (λ e. as_expr e ≡ as_type (go_type of) (as_expr value)) }
{
    match take_constant(value) {
        Ok(value) => Ok(constant(of, value)),
        Err(value) if identical(type_in(&value), &of) => Ok(value),
        Err(value) => conversion(alloc, of, value),
    }
}

/// A value where a type is due, as one of the type. `Assign` where it isn't assignable to the
/// type, `Range` where it is a constant that lies outside.
/// [Assignability](https://go.dev/ref/spec#Assignability)
pub fn assigned(alloc: Global, of: GoType, value: TypedExpr) -> Result<TypedExpr, RuleError>
    ensures { Gives as_expr result (assigned (go_type of) (as_expr value)) }
{
    if !assignable(type_in(&value), &of) {
        return Err(RuleError::Broken(FaultKind::Assign));
    }
    if !lies_in(&of, &value) {
        return Err(RuleError::Broken(FaultKind::Range));
    }
    Ok(as_type(alloc, of, value)?)
}

/// The type that values of a type take where none is due. An `Err` only where memory ran out.
pub fn default_type(of: &GoType) -> Result<GoType, AllocError>
    ensures { IfOk result (λ t. go_type t ≡ default_type (go_type of.now)) }
{
    Ok(match of {
        GoType::Basic(Basic::Untyped(Untyped::Bool)) => GoType::Basic(Basic::Bool),
        GoType::Basic(Basic::Untyped(Untyped::Int)) => int(),
        GoType::Basic(Basic::Untyped(Untyped::Rune)) => {
            GoType::Basic(Basic::Integer(IntKind::Int32))
        }
        GoType::Basic(Basic::Untyped(Untyped::String)) => string(),
        of => of.copy()?,
    })
}

/// A value as one of its type, where it has none of that which it takes where none is due. An `Err`
/// only where memory ran out.
pub(crate) fn settled(alloc: Global, value: TypedExpr) -> Result<TypedExpr, AllocError>
    ensures { IfOk result (λ e. as_expr e ≡ settled (as_expr value)) }
{
    let of = default_type(type_in(&value))?;
    as_type(alloc, of, value)
}

/// A value as one of the type that it takes where none is due. `Range` where it is a constant that
/// lies outside. [Constants](https://go.dev/ref/spec#Constants)
pub fn defaulted(alloc: Global, value: TypedExpr) -> Result<TypedExpr, RuleError>
    ensures { Gives as_expr result (defaulted (as_expr value)) }
{
    let of = default_type(type_in(&value))?;
    assigned(alloc, of, value)
}

/// The type that a variable takes of its value, where the value lies in it. An `Err` only where
/// memory ran out. [Variable declarations](https://go.dev/ref/spec#Variable_declarations)
pub fn settled_type(value: &TypedExpr) -> Result<Option<GoType>, AllocError>
    ensures { IfOk result (λ t. option_map go_type t ≡ settled_type (as_expr value.now)) }
{
    let of = default_type(type_in(value))?;
    if lies_in(&of, value) {
        Ok(Some(of))
    } else {
        Ok(None)
    }
}

/// A value where a condition is due. `Mismatch` where its underlying type isn't bool.
/// [If statements](https://go.dev/ref/spec#If_statements)
pub fn condition(alloc: Global, value: TypedExpr) -> Result<TypedExpr, RuleError>
    ensures { Gives as_expr result (condition (as_expr value)) }
{
    if !is_bool(type_in(&value)) {
        return Err(RuleError::Broken(FaultKind::Mismatch));
    }
    defaulted(alloc, value)
}
