//! Numbers as constants.
ghost use Rattle.std.specs.Prelude.{◌≡◌, ℤ, SomeIff, FitsSigned};
ghost use Rattle.std.specs.Int.{w128};
ghost use Rattle.go_const.specs.Constants.{represent};

use crate::constant::Const;
use crate::error::ConstError;
use crate::kind::IntKind;

/// A number as a constant of an integer type, or of none.
/// [Representability](https://go.dev/ref/spec#Representability)
///
/// `Range` where it lies outside the type. A number without a type has 128 bits.
pub fn represent(kind: Option<IntKind>, number: i128) -> Result<Const, ConstError>
    ensures { result ≡ represent kind number }
{
    match kind {
        Some(of) if !of.fits(number) => Err(ConstError::Range),
        _ => Ok(Const::Integer(number)),
    }
}

/// The same of what an operator gives, which is `None` where it lies outside 128 bits.
pub(crate) fn represent_exact(
    kind: Option<IntKind>,
    number: Option<i128>,
) -> Result<Const, ConstError>
    ensures { (z : ℤ) → SomeIff number (FitsSigned w128 z) z → result ≡ represent kind z }
{
    match (kind, number) {
        (_, Some(number)) => represent(kind, number),
        (None, None) => Err(ConstError::Constant),
        (Some(_), None) => Err(ConstError::Range),
    }
}
