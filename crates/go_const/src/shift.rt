//! Shifts of integers.
ghost use Rattle.std.specs.Prelude.{◌≡◌, ◌^◌, ◌<◌, ◌≢◌, pos, ◌*ℤ◌, SomeIff, FitsSigned};
ghost use Rattle.std.specs.Int.{w128};
ghost use Rattle.go_const.specs.Constants.{shifted, shift};

use crate::constant::Const;
use crate::error::ConstError;
use crate::kind::IntKind;
use crate::number::{represent, represent_exact};
use crate::operator::ShiftOperator;

/// A number, doubled so many times, where that has 128 bits.
fn doubled(z: i128, times: u32) -> Option<i128>
    ensures { SomeIff result (FitsSigned w128 (z *ℤ pos (2 ^ times))) (z *ℤ pos (2 ^ times)) }
{
    if times == 0 {
        return Some(z);
    }
    match z.checked_add(z) {
        Some(twice) => doubled(twice, times - 1),
        None => None,
    }
}

/// A number, shifted by so many bits. To the right it is rounded down; 127 bits and more leave 0
/// or -1.
fn shifted(
    operator: ShiftOperator,
    kind: Option<IntKind>,
    z: i128,
    count: u64,
) -> Result<Const, ConstError>
    ensures { result ≡ shifted operator kind z count }
{
    match operator {
        ShiftOperator::Right => represent(kind, z >> count.min(127)),
        ShiftOperator::Left if z == 0 => represent(kind, 0),
        ShiftOperator::Left if count >= 128 => Err(ConstError::Constant),
        ShiftOperator::Left => represent_exact(kind, doubled(z, count as u32)),
    }
}

/// A shift of a constant, whose integer type is `kind`, `None` where it has none, by another.
/// [Arithmetic operators](https://go.dev/ref/spec#Arithmetic_operators)
///
/// `Range` where the count is no uint, or the number lies outside its type. `Constant` where it
/// has no type and lies outside 128 bits, and where what isn't zero is shifted left by 128 bits or
/// more. `Mismatch` where one of the two is no number.
pub fn shift(
    operator: ShiftOperator,
    kind: Option<IntKind>,
    x: &Const,
    count: &Const,
) -> Result<Const, ConstError>
    ensures { result ≡ shift operator kind x.now count.now }
{
    match (x, count) {
        (Const::Integer(x), Const::Integer(count)) => match u64::try_from(*count) {
            Ok(count) => shifted(operator, kind, *x, count),
            Err(_) => Err(ConstError::Range),
        },
        _ => Err(ConstError::Mismatch),
    }
}
