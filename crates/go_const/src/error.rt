//! Why constants have no value.
ghost use Rattle.std.specs.Prelude.{◌≡◌};
ghost use Rattle.go_const.specs.declared.error.ConstError.TheVariants.{Memory};

use std::alloc::AllocError;
use thiserror::Error;

/// Why an operator gives no constant.
#[derive(Clone, Copy, PartialEq, Eq, Debug, Error)]
pub enum ConstError {
    /// The operator isn't defined on constants of these kinds.
    #[error("an operator of another kind")]
    Mismatch,
    /// The value lies outside its type, or a shift count is no uint.
    #[error("out of range")]
    Range,
    /// A number without a type lies outside 128 bits, a number was shifted left by 128 bits or
    /// more, or a text has more than 16,777,216 bytes.
    #[error("a constant that is too large")]
    Constant,
    /// An integer is divided by zero.
    #[error("a division by zero")]
    Divide,
    /// Memory ran out.
    #[error("out of memory")]
    Memory,
}

impl From<AllocError> for ConstError {
    ghost from_gives = { λ _ e. e ≡ Memory };

    fn from(_e: AllocError) -> ConstError {
        ConstError::Memory
    }
}
