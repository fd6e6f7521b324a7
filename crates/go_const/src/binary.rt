//! Operators between two constants of one type.
ghost use Rattle.std.specs.Prelude.{◌≡◌, ◌≢◌, ◌++◌, pos, true, IfOk, IfErr, Ok, Err, SomeIff, FitsSigned};
ghost use Rattle.std.specs.Int.{w128};
ghost use Rattle.go_const.specs.Constants.{Concatenates, arithmetic, binary, divides, represent_text};
ghost use Rattle.go_const.specs.declared.error.ConstError.TheVariants.{Memory};
ghost use Rattle.go_const.specs.declared.operator.BinaryOperator.TheVariants.{Arithmetic, Comparison};

use crate::constant::{Const, Text};
use crate::error::ConstError;
use crate::kind::IntKind;
use crate::number::represent_exact;
use crate::operator::{ArithmeticOperator, BinaryOperator, ComparisonOperator};
use std::alloc::Global;

/// What an operator gives of two numbers, where that has 128 bits. The bits of a negative number
/// are those of its two's complement.
fn arithmetic(operator: ArithmeticOperator, x: i128, y: i128) -> Option<i128>
    requires { divides operator ≡ true → y ≢ pos 0 }
    ensures { SomeIff result (FitsSigned w128 (arithmetic operator x y)) (arithmetic operator x y) }
{
    match operator {
        ArithmeticOperator::Add => x.checked_add(y),
        ArithmeticOperator::Subtract => x.checked_sub(y),
        ArithmeticOperator::Multiply => x.checked_mul(y),
        ArithmeticOperator::Divide => x.checked_div(y),
        ArithmeticOperator::Remainder => Some(x.wrapping_rem(y)),
        ArithmeticOperator::BitAnd => Some(x & y),
        ArithmeticOperator::BitOr => Some(x | y),
        ArithmeticOperator::BitXor => Some(x ^ y),
        ArithmeticOperator::AndNot => Some(x & !y),
    }
}

/// Two texts as one. `Constant` where it has more than 16,777,216 bytes.
fn concatenated(alloc: Global, s: &Text, t: &Text) -> Result<Const, ConstError>
    ensures ok { IfOk result (λ c. represent_text (s.now ++ t.now) ≡ Ok c) }
    ensures err { IfErr result (λ e. e ≢ Memory → represent_text (s.now ++ t.now) ≡ Err e) }
{
    let (s, t) = (s.bytes(), t.bytes());
    if s.len().saturating_add(t.len()) > 16_777_216 {
        return Err(ConstError::Constant);
    }
    let mut bytes = Vec::with_capacity(alloc, s.len() + t.len())?;
    bytes.extend_from_slice(s)?;
    bytes.extend_from_slice(t)?;
    Ok(Const::Text(Text::from_vec(bytes)?))
}

/// A comparison of two constants. Truth values are equal or not, and neither is less.
fn compared(
    operator: ComparisonOperator,
    kind: Option<IntKind>,
    x: &Const,
    y: &Const,
) -> Result<Const, ConstError>
    ensures { result ≡ binary (Comparison operator) kind x.now y.now }
{
    match (operator, x, y) {
        (_, Const::Integer(x), Const::Integer(y)) => Ok(Const::Bool(operator.holds(x.cmp(y)))),
        (_, Const::Text(s), Const::Text(t)) => {
            Ok(Const::Bool(operator.holds(s.bytes().cmp(t.bytes()))))
        }
        (ComparisonOperator::Equal, Const::Bool(a), Const::Bool(b)) => Ok(Const::Bool(*a == *b)),
        (ComparisonOperator::NotEqual, Const::Bool(a), Const::Bool(b)) => Ok(Const::Bool(*a != *b)),
        _ => Err(ConstError::Mismatch),
    }
}

/// What an arithmetic operator gives of two constants.
fn calculated(
    alloc: Global,
    operator: ArithmeticOperator,
    kind: Option<IntKind>,
    x: &Const,
    y: &Const,
) -> Result<Const, ConstError>
    ensures ok { IfOk result (λ c. binary (Arithmetic operator) kind x.now y.now ≡ Ok c) }
    ensures err { IfErr result (λ e. e ≢ Memory → binary (Arithmetic operator) kind x.now y.now ≡ Err e) }
    ensures memory { result ≡ Err Memory → Concatenates (Arithmetic operator) x.now y.now }
{
    match (operator, x, y) {
        (_, Const::Integer(_), Const::Integer(0)) if operator.divides() => Err(ConstError::Divide),
        (_, Const::Integer(x), Const::Integer(y)) => {
            represent_exact(kind, arithmetic(operator, *x, *y))
        }
        (ArithmeticOperator::Add, Const::Text(s), Const::Text(t)) => concatenated(alloc, s, t),
        _ => Err(ConstError::Mismatch),
    }
}

/// What an operator gives between two constants, whose integer type is `kind`; `None` where they
/// have none. [Constant expressions](https://go.dev/ref/spec#Constant_expressions)
///
/// `Divide` where an integer is divided by zero; `Range` where the number lies outside its type;
/// `Constant` where it has no type and lies outside 128 bits, or a text has more than 16,777,216
/// bytes; `Mismatch` where the operator isn't defined on such constants; `Memory` where two
/// texts become one and memory ran out.
pub fn binary(
    alloc: Global,
    operator: BinaryOperator,
    kind: Option<IntKind>,
    x: &Const,
    y: &Const,
) -> Result<Const, ConstError>
    ensures ok { IfOk result (λ c. binary operator kind x.now y.now ≡ Ok c) }
    ensures err { IfErr result (λ e. e ≢ Memory → binary operator kind x.now y.now ≡ Err e) }
    ensures memory { result ≡ Err Memory → Concatenates operator x.now y.now }
{
    match (operator, x, y) {
        (BinaryOperator::Arithmetic(operator), _, _) => calculated(alloc, operator, kind, x, y),
        (BinaryOperator::Comparison(operator), _, _) => compared(operator, kind, x, y),
        (BinaryOperator::LogicalAnd, Const::Bool(a), Const::Bool(b)) => Ok(Const::Bool(*a && *b)),
        (BinaryOperator::LogicalOr, Const::Bool(a), Const::Bool(b)) => Ok(Const::Bool(*a || *b)),
        _ => Err(ConstError::Mismatch),
    }
}
