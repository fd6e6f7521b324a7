//! What operators give. [Operators](https://go.dev/ref/spec#Operators)
ghost use Rattle.std.specs.Prelude.{◌≡◌, Err, IfOk};
ghost use Rattle.std.specs.Option.{option_map};
ghost use Rattle.go_const.specs.declared.error.ConstError.TheVariants as errors;
ghost use Rattle.go_const.specs.declared.operator.BinaryOperator.TheVariants.{Arithmetic, Comparison};
ghost use Rattle.go_types.specs.Views.{go_type};
ghost use Rattle.go_typed.specs.declared.expression.Operator.TheVariants as nodes;
ghost use Rattle.go_typed.specs.Trees as typed;
ghost use Rattle.go_typed.specs.Trees.{expr_type};
ghost use Rattle.go_typed.specs.Views.{as_expr};
ghost use Rattle.go_expr.specs.Known.{Fine};
ghost use Rattle.go_expr.specs.declared.error.RuleError.TheVariants.{Memory};
ghost use Rattle.go_expr.specs.Rules.{valued, constant_in, as_type, constant_or_fault, takes_type, common, is_defined, result_type, operation, divides_by_zero, operation_verdict, operand_type, combined, counted_by, shift_of, shift_verdict, binary_verdict, operator_of, is_operand, unary_verdict};
ghost use Rattle.go_expr.specs.Verdicts.{asked, asked_both};
ghost use Rattle.go_expr.specs.Views.{known_of, does, AnswersAt, Gives};

use crate::error::{ExprError, RuleError};
use crate::known::Known;
use crate::node::{
    binary as binary_node, both, constant, constant_in, either, type_in, unary as unary_node,
};
use crate::selector::value_at;
use crate::value::{as_type, int_kind, is_bool, is_integer, is_string, is_untyped, lies_in, uint};
use go_ast::expression::{BinaryOperator as Binary, UnaryOperator as Unary};
use go_const::binary::binary;
use go_const::constant::Const;
use go_const::error::ConstError;
use go_const::operator::{
    ArithmeticOperator, BinaryOperator, ComparisonOperator, ShiftOperator, UnaryOperator,
};
use go_const::shift::shift;
use go_const::unary::unary;
use go_text::fault::FaultKind;
use go_text::place::Place;
use go_typed::expression::{Operator, TypedExpr};
use go_types::relations::{assignable, is_comparable};
use go_types::types::{Basic, GoType, Untyped};
use std::alloc::{AllocError, Global};

/// What an operator gives as a constant of a type, or what is wrong with it.
fn given(of: GoType, value: Result<Const, ConstError>) -> Result<TypedExpr, RuleError>
    ensures answer { Gives as_expr result (constant_or_fault (go_type of) value) }
    ensures memory { value ≡ Err errors.Memory → result ≡ Err Memory }
{
    Err(RuleError::Broken(match value {
        Ok(value) => return Ok(constant(of, value)),
        Err(ConstError::Mismatch) => FaultKind::Mismatch,
        Err(ConstError::Range) => FaultKind::Range,
        Err(ConstError::Constant) => FaultKind::Constant,
        Err(ConstError::Divide) => FaultKind::DivideByZero,
        Err(ConstError::Memory) => return Err(RuleError::Memory),
    }))
}

/// Whether an operand of one type takes another in an operation.
fn takes(of: &GoType, other: &GoType) -> bool
    ensures { result ≡ takes_type (go_type of.now) (go_type other.now) }
{
    match (of, other) {
        (
            GoType::Basic(Basic::Untyped(Untyped::Int)),
            GoType::Basic(Basic::Untyped(Untyped::Rune)),
        ) => true,
        _ => assignable(of, other),
    }
}

/// The type that two operands both have or take, if there is one.
fn common<'a>(a: &'a GoType, b: &'a GoType) -> Option<&'a GoType>
    ensures { option_map (λ t. go_type t.now) result ≡ common (go_type a.now) (go_type b.now) }
{
    if takes(b, a) {
        Some(a)
    } else if takes(a, b) {
        Some(b)
    } else {
        None
    }
}

/// Whether an operator is defined on operands of a type.
fn is_defined(operator: BinaryOperator, of: &GoType) -> bool
    ensures { result ≡ is_defined operator (go_type of.now) }
{
    match operator {
        BinaryOperator::Arithmetic(ArithmeticOperator::Add) => is_integer(of) || is_string(of),
        BinaryOperator::Arithmetic(_) => is_integer(of),
        BinaryOperator::Comparison(ComparisonOperator::Equal | ComparisonOperator::NotEqual) => {
            is_integer(of) || is_string(of) || is_comparable(of)
        }
        BinaryOperator::Comparison(_) => is_integer(of) || is_string(of),
        BinaryOperator::LogicalAnd | BinaryOperator::LogicalOr => is_bool(of),
    }
}

/// The type of what an operator gives of operands of a type.
fn result_type(operator: BinaryOperator, of: GoType) -> GoType
    ensures { go_type result ≡ result_type operator (go_type of) }
{
    match operator {
        BinaryOperator::Comparison(_) => GoType::Basic(Basic::Untyped(Untyped::Bool)),
        _ => of,
    }
}

/// An operator between two operands of a type that it takes, by the type of what it gives.
fn operator_node(
    alloc: Global,
    operator: BinaryOperator,
    of: GoType,
    x: TypedExpr,
    y: TypedExpr,
) -> Result<TypedExpr, AllocError>
    ensures { IfOk result (λ e. as_expr e ≡ operation operator (go_type of) (as_expr x) (as_expr y)) }
{
    match operator {
        BinaryOperator::Arithmetic(operator) => {
            binary_node(alloc, of, Operator::Arithmetic(operator), x, y)
        }
        BinaryOperator::Comparison(operator) => {
            binary_node(alloc, of, Operator::Comparison(operator), x, y)
        }
        BinaryOperator::LogicalAnd => both(alloc, of, x, y),
        BinaryOperator::LogicalOr => either(alloc, of, x, y),
    }
}

/// A value as one of a type that is used again.
fn taken_as(alloc: Global, of: &GoType, value: TypedExpr) -> Result<TypedExpr, AllocError>
    ensures { IfOk result (λ e. as_expr e ≡ as_type (go_type of.now) (as_expr value)) }
{
    as_type(alloc, of.copy()?, value)
}

/// An operator between two operands, as ones of a type.
fn applied(
    alloc: Global,
    operator: BinaryOperator,
    of: GoType,
    x: TypedExpr,
    y: TypedExpr,
) -> Result<TypedExpr, AllocError>
    ensures { IfOk result (λ e. as_expr e ≡ operation operator (result_type operator (go_type of)) (as_type (go_type of) (as_expr x)) (as_type (go_type of) (as_expr y))) }
{
    let x = taken_as(alloc, &of, x)?;
    let y = taken_as(alloc, &of, y)?;
    operator_node(alloc, operator, result_type(operator, of), x, y)
}

/// Whether an operator divides an integer by a constant that is zero.
fn divides_by_zero(operator: BinaryOperator, divisor: Option<&Const>) -> bool
    ensures { result ≡ divides_by_zero operator (option_map (λ c. c.now) divisor.entry) }
{
    match (operator, divisor) {
        (BinaryOperator::Arithmetic(operator), Some(Const::Integer(divisor))) => {
            operator.divides() && *divisor == 0
        }
        _ => false,
    }
}

/// What an operator gives of two operands of a type that it is defined on.
fn operated(
    alloc: Global,
    operator: BinaryOperator,
    of: GoType,
    x: TypedExpr,
    y: TypedExpr,
) -> Result<TypedExpr, RuleError>
    ensures { Gives as_expr result (operation_verdict operator (go_type of) (as_expr x) (as_expr y) (constant_in (as_expr x)) (constant_in (as_expr y))) }
{
    if let (Some(c), Some(d)) = (constant_in(&x), constant_in(&y)) {
        let value = binary(alloc, operator, int_kind(&of), c, d);
        return given(result_type(operator, of), value);
    }
    if divides_by_zero(operator, constant_in(&y)) {
        return Err(RuleError::Broken(FaultKind::DivideByZero));
    }
    Ok(applied(alloc, operator, of, x, y)?)
}

/// The type that both operands of an operator are taken as. `Mismatch` where they have none in
/// common or the operator isn't defined on it, `Range` where a constant lies outside.
pub fn operand_type(
    operator: BinaryOperator,
    x: &TypedExpr,
    y: &TypedExpr,
) -> Result<GoType, RuleError>
    ensures { Gives go_type result (operand_type operator (as_expr x.now) (as_expr y.now)) }
{
    let Some(of) = common(type_in(x), type_in(y)) else {
        return Err(RuleError::Broken(FaultKind::Mismatch));
    };
    if !is_defined(operator, of) {
        return Err(RuleError::Broken(FaultKind::Mismatch));
    }
    if !lies_in(of, x) || !lies_in(of, y) {
        return Err(RuleError::Broken(FaultKind::Range));
    }
    Ok(of.copy()?)
}

/// What an operator gives of two operands, as ones of the type that both have or take.
fn combined(
    alloc: Global,
    operator: BinaryOperator,
    x: TypedExpr,
    y: TypedExpr,
) -> Result<TypedExpr, RuleError>
    ensures { Gives as_expr result (combined operator (as_expr x) (as_expr y)) }
{
    let of = operand_type(operator, &x, &y)?;
    operated(alloc, operator, of, x, y)
}

/// A count of a shift, which is a uint where it has no type.
fn counted_by(alloc: Global, count: TypedExpr) -> Result<TypedExpr, AllocError>
    ensures { IfOk result (λ e. as_expr e ≡ counted_by (as_expr count)) }
{
    if is_untyped(type_in(&count)) {
        as_type(alloc, uint(), count)
    } else {
        Ok(count)
    }
}

/// What a shift gives of an integer by a count that is one.
fn shift_of(
    alloc: Global,
    operator: ShiftOperator,
    x: TypedExpr,
    count: TypedExpr,
) -> Result<TypedExpr, RuleError>
    ensures { Gives as_expr result (shift_of operator (as_expr x) (as_expr count) (constant_in (as_expr x)) (constant_in (as_expr count))) }
{
    if let (Some(c), Some(d)) = (constant_in(&x), constant_in(&count)) {
        let of = type_in(&x).copy()?;
        let value = shift(operator, int_kind(&of), c, d);
        return given(of, value);
    }
    if !lies_in(&uint(), &count) {
        return Err(RuleError::Broken(FaultKind::Range));
    }
    shift_by(alloc, operator, x, count)
}

/// The shift of an integer by a count that is counted.
fn shift_by(
    alloc: Global,
    operator: ShiftOperator,
    x: TypedExpr,
    count: TypedExpr,
) -> Result<TypedExpr, RuleError>
    ensures { let e = as_expr x in
        Gives as_expr result (Fine (typed.binary (expr_type e) (nodes.Shift operator) e (counted_by (as_expr count)))) }
{
    let count = counted_by(alloc, count)?;
    let of = type_in(&x).copy()?;
    Ok(binary_node(alloc, of, Operator::Shift(operator), x, count)?)
}

/// What a shift gives of a value by a count, of the value's type.
fn shifted(
    alloc: Global,
    operator: ShiftOperator,
    x: TypedExpr,
    count: TypedExpr,
) -> Result<TypedExpr, RuleError>
    ensures { Gives as_expr result (shift_verdict operator (as_expr x) (as_expr count)) }
{
    if is_untyped(type_in(&x)) && constant_in(&count).is_none() {
        return Err(RuleError::Broken(FaultKind::LeftOut));
    }
    if !is_integer(type_in(&x)) || !is_integer(type_in(&count)) {
        return Err(RuleError::Broken(FaultKind::Mismatch));
    }
    shift_of(alloc, operator, x, count)
}

/// What an operator between two operands does.
#[derive(Clone, Copy)]
enum Operation {
    /// It takes two operands of one type.
    Combines(BinaryOperator),
    /// It shifts.
    Shifts(ShiftOperator),
}

fn arithmetic(operator: ArithmeticOperator) -> Operation
    ensures { does result ≡ combined (Arithmetic operator) }
{
    Operation::Combines(BinaryOperator::Arithmetic(operator))
}

fn comparison(operator: ComparisonOperator) -> Operation
    ensures { does result ≡ combined (Comparison operator) }
{
    Operation::Combines(BinaryOperator::Comparison(operator))
}

/// What an operator does.
fn operation_of(operator: Binary) -> Operation
    ensures { does result ≡ binary_verdict operator }
{
    match operator {
        Binary::Multiply => arithmetic(ArithmeticOperator::Multiply),
        Binary::Divide => arithmetic(ArithmeticOperator::Divide),
        Binary::Remainder => arithmetic(ArithmeticOperator::Remainder),
        Binary::ShiftLeft => Operation::Shifts(ShiftOperator::Left),
        Binary::ShiftRight => Operation::Shifts(ShiftOperator::Right),
        Binary::BitAnd => arithmetic(ArithmeticOperator::BitAnd),
        Binary::AndNot => arithmetic(ArithmeticOperator::AndNot),
        Binary::Add => arithmetic(ArithmeticOperator::Add),
        Binary::Subtract => arithmetic(ArithmeticOperator::Subtract),
        Binary::BitOr => arithmetic(ArithmeticOperator::BitOr),
        Binary::BitXor => arithmetic(ArithmeticOperator::BitXor),
        Binary::Equal => comparison(ComparisonOperator::Equal),
        Binary::NotEqual => comparison(ComparisonOperator::NotEqual),
        Binary::Less => comparison(ComparisonOperator::Less),
        Binary::LessOrEqual => comparison(ComparisonOperator::LessOrEqual),
        Binary::Greater => comparison(ComparisonOperator::Greater),
        Binary::GreaterOrEqual => comparison(ComparisonOperator::GreaterOrEqual),
        Binary::LogicalAnd => Operation::Combines(BinaryOperator::LogicalAnd),
        Binary::LogicalOr => Operation::Combines(BinaryOperator::LogicalOr),
    }
}

/// What an operator gives of two values. `Mismatch` where it isn't defined on them; `Range` where
/// an operand that is constant lies outside the other's type, what is constant lies outside its
/// own, or the count of a shift is no uint; `Constant` where what is constant and has no type lies
/// outside 128 bits; `DivideByZero`; `LeftOut` where what has no type is shifted by a count that
/// isn't constant.
pub fn binary_of(
    alloc: Global,
    operator: Binary,
    x: TypedExpr,
    y: TypedExpr,
) -> Result<TypedExpr, RuleError>
    ensures { Gives as_expr result (binary_verdict operator (as_expr x) (as_expr y)) }
{
    match operation_of(operator) {
        Operation::Combines(operator) => combined(alloc, operator, x, y),
        Operation::Shifts(operator) => shifted(alloc, operator, x, y),
    }
}

/// What an operator in front of an operand does.
fn unary_operator(operator: Unary) -> UnaryOperator
    ensures { result ≡ operator_of operator }
{
    match operator {
        Unary::Positive => UnaryOperator::Positive,
        Unary::Negative => UnaryOperator::Negative,
        Unary::Negation => UnaryOperator::Negation,
        Unary::Complement => UnaryOperator::Complement,
    }
}

/// Whether an operator in front of an operand is defined on a type.
fn is_operand(operator: Unary, of: &GoType) -> bool
    ensures { result ≡ is_operand operator (go_type of.now) }
{
    match operator {
        Unary::Negation => is_bool(of),
        _ => is_integer(of),
    }
}

/// What an operator gives in front of a value. `Mismatch` where it isn't defined on it; `Range`
/// and `Constant` where what is constant lies outside.
pub(crate) fn unary_of(alloc: Global, operator: Unary, x: TypedExpr) -> Result<TypedExpr, RuleError>
    ensures { Gives as_expr result (unary_verdict operator (as_expr x)) }
{
    if !is_operand(operator, type_in(&x)) {
        return Err(RuleError::Broken(FaultKind::Mismatch));
    }
    let of = type_in(&x).copy()?;
    let operator = unary_operator(operator);
    if let Some(c) = constant_in(&x) {
        let value = unary(operator, int_kind(&of), c);
        return given(of, value);
    }
    Ok(unary_node(alloc, of, operator, x)?)
}

/// What an operator at a place gives of two values, where both are known.
pub(crate) fn binary_at<'a>(
    alloc: Global,
    place: Place,
    operator: Binary,
    x: Option<TypedExpr>,
    y: Option<TypedExpr>,
) -> Result<Option<Known<'a>>, ExprError>
    ensures { AnswersAt known_of result place (valued (asked_both (binary_verdict operator) (option_map as_expr x) (option_map as_expr y))) }
{
    let Some(x) = x else {
        return Ok(None);
    };
    let Some(y) = y else {
        return Ok(None);
    };
    value_at(place, binary_of(alloc, operator, x, y))
}

/// What an operator in front of a value gives at a place, where the value is known.
pub(crate) fn unary_at<'a>(
    alloc: Global,
    place: Place,
    operator: Unary,
    x: Option<TypedExpr>,
) -> Result<Option<Known<'a>>, ExprError>
    ensures { AnswersAt known_of result place (valued (asked (unary_verdict operator) (option_map as_expr x))) }
{
    match x {
        Some(x) => value_at(place, unary_of(alloc, operator, x)),
        None => Ok(None),
    }
}
