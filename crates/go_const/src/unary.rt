//! Operators before their operand.
ghost use Rattle.std.specs.Prelude.{◌≡◌};
ghost use Rattle.go_const.specs.Constants.{ones, unary};

use crate::constant::Const;
use crate::error::ConstError;
use crate::kind::IntKind;
use crate::number::{represent, represent_exact};
use crate::operator::UnaryOperator;

/// The number whose bits are all 1: the greatest of an unsigned type, and else -1.
fn ones(kind: Option<IntKind>) -> i128
    ensures { result ≡ ones kind }
{
    match kind {
        Some(IntKind::Uint8) => u8::MAX as i128,
        Some(IntKind::Uint16) => u16::MAX as i128,
        Some(IntKind::Uint32) => u32::MAX as i128,
        Some(IntKind::Uint | IntKind::Uint64) => u64::MAX as i128,
        _ => -1,
    }
}

/// What an operator gives before a constant, whose integer type is `kind`; `None` where it has
/// none. [Constant expressions](https://go.dev/ref/spec#Constant_expressions)
///
/// `Range` where the number lies outside its type; `Constant` where it has no type and lies
/// outside 128 bits; `Mismatch` where the operator isn't defined on such a constant.
pub fn unary(operator: UnaryOperator, kind: Option<IntKind>, x: &Const) -> Result<Const, ConstError>
    ensures { result ≡ unary operator kind x.now }
{
    match (operator, x) {
        (UnaryOperator::Positive, Const::Integer(x)) => represent(kind, *x),
        (UnaryOperator::Negative, Const::Integer(x)) => represent_exact(kind, x.checked_neg()),
        (UnaryOperator::Complement, Const::Integer(x)) => {
            represent_exact(kind, ones(kind).checked_sub(*x))
        }
        (UnaryOperator::Negation, Const::Bool(x)) => Ok(Const::Bool(!*x)),
        _ => Err(ConstError::Mismatch),
    }
}
