//! Integers and their types.
ghost use Rattle.std.specs.Prelude.{◌≡◌, ◌≢◌, ◌^◌, ◌*ℤ◌, ◌<◌, ◌∷◌, [], ℕ, true, pos, negsuc, Some, None, IfSome, MatchOption};
ghost use Rattle.go_const.specs.Constants.{arithmetic, divides, sizes};
ghost use Rattle.go_const.specs.declared.kind.IntKind.{IntKind as AKind};
ghost use Rattle.go_code.specs.Lines.{number_fits};
ghost use Rattle.go_code.specs.Operators.{wrapped, Gives, operate};
ghost use Rattle.go_code.specs.declared.operator.Operator.TheVariants.{Arithmetic, Shift};
ghost use Rattle.go_cells.specs.Numbers.{numbers, shifted_number};

use go_code::cell::Cell;
use go_const::kind::IntKind;
use go_const::operator::{ArithmeticOperator, ShiftOperator};

/// How many negative numbers a type has.
fn negatives(kind: IntKind) -> i128
    ensures { result ≡ pos ((sizes (Some kind)).0) }
{
    match kind {
        IntKind::Int | IntKind::Int64 => 0x8000_0000_0000_0000,
        IntKind::Int8 => 0x80,
        IntKind::Int16 => 0x8000,
        IntKind::Int32 => 0x8000_0000,
        _ => 0,
    }
}

/// How many numbers a type has.
fn numbers(kind: IntKind) -> i128
    ensures { result ≡ pos (numbers kind) }
{
    match kind {
        IntKind::Int8 | IntKind::Uint8 => 0x100,
        IntKind::Int16 | IntKind::Uint16 => 0x1_0000,
        IntKind::Int32 | IntKind::Uint32 => 0x1_0000_0000,
        _ => 0x1_0000_0000_0000_0000,
    }
}

/// A number wrapped to a type. [Integer overflow](https://go.dev/ref/spec#Integer_overflow)
pub(crate) fn wrap(kind: IntKind, number: i128) -> i128
    ensures value { result ≡ wrapped kind number }
    ensures known { number_fits result ≡ true }
{
    if kind.fits(number) {
        return number;
    }
    let negatives = negatives(kind);
    number.wrapping_add(negatives).rem_euclid(numbers(kind)) - negatives
}

/// What an operator gives of two numbers, or a number that any type wraps to the same.
fn combine(operator: ArithmeticOperator, x: i128, y: i128) -> i128
    requires known { number_fits x ≡ true }
    requires divisor { divides operator ≡ true → y ≢ pos 0 }
    ensures { (kind : AKind) → wrapped kind result ≡ wrapped kind (arithmetic operator x y) }
{
    match operator {
        ArithmeticOperator::Add => x.wrapping_add(y),
        ArithmeticOperator::Subtract => x.wrapping_sub(y),
        ArithmeticOperator::Multiply => x.wrapping_mul(y),
        ArithmeticOperator::Divide => x.wrapping_div(y),
        ArithmeticOperator::Remainder => x.wrapping_rem(y),
        ArithmeticOperator::BitAnd => x & y,
        ArithmeticOperator::BitOr => x | y,
        ArithmeticOperator::BitXor => x ^ y,
        ArithmeticOperator::AndNot => x & !y,
    }
}

/// What an operator gives of two numbers of a type.
/// [Arithmetic operators](https://go.dev/ref/spec#Arithmetic_operators)
pub(crate) fn calculate(operator: ArithmeticOperator, kind: IntKind, x: i128, y: i128) -> i128
    requires known { number_fits x ≡ true }
    requires divisor { divides operator ≡ true → y ≢ pos 0 }
    ensures value { result ≡ wrapped kind (arithmetic operator x y) }
    ensures known { number_fits result ≡ true }
{
    wrap(kind, combine(operator, x, y))
}

/// Two to a power below 64.
fn power_of_two(exponent: u64) -> i128
    requires { exponent < 64 }
    ensures { result ≡ pos (2 ^ exponent) }
{
    i128::from(1_u64 << exponent)
}

/// A number of a type, shifted by a count. 64 bits and more to the left leave 0; 127 bits and more
/// to the right leave 0 or -1.
pub(crate) fn shift(operator: ShiftOperator, kind: IntKind, number: i128, count: u64) -> i128
    ensures value { result ≡ wrapped kind (shifted_number operator number count) }
    ensures known { number_fits result ≡ true }
{
    match operator {
        ShiftOperator::Right => wrap(kind, number >> count.min(127)),
        ShiftOperator::Left if count >= 64 => 0,
        ShiftOperator::Left => wrap(kind, number.wrapping_mul(power_of_two(count))),
    }
}

/// What an operator gives of two numbers of a type, if it doesn't panic.
pub fn calculated(operator: ArithmeticOperator, kind: IntKind, x: i128, y: i128) -> Option<i128>
    requires { number_fits x ≡ true }
    ensures { IfSome result (λ z. operate (Arithmetic operator kind) (Cell.Int x ∷ Cell.Int y ∷ []) ≡ Gives (Cell.Int z)) }
{
    if operator.divides() && y == 0 {
        return None;
    }
    Some(calculate(operator, kind, x, y))
}

/// A number of a type, shifted by a count, if that isn't below 0.
pub fn shifted(operator: ShiftOperator, kind: IntKind, x: i128, count: i128) -> Option<i128>
    ensures { IfSome result (λ z. operate (Shift operator kind) (Cell.Int x ∷ Cell.Int count ∷ []) ≡ Gives (Cell.Int z)) }
{
    match u64::try_from(count) {
        Ok(count) => Some(shift(operator, kind, x, count)),
        Err(_) => None,
    }
}
