//! Why the variables of a package have no order.
ghost use Rattle.std.specs.Prelude.{◌≡◌};
ghost use Rattle.go_init.specs.declared.error.InitError.TheVariants.{Memory};

use go_text::place::Place;
use std::alloc::{AllocError, AllocFailed};
use thiserror::Error;

/// Why the variables of a package have no order.
#[derive(Debug, Drop, Error)]
pub enum InitError {
    /// Some depend on themselves. The file and the place of the first of those that are left over.
    #[error("the value of a variable depends on the variable")]
    Cycle(String, Place),
    /// Memory ran out.
    #[error("out of memory")]
    Memory,
}

impl<T: Drop> From<AllocFailed<T>> for InitError {
    ghost from_gives = { λ _ e. e ≡ Memory };

    fn from(_e: AllocFailed<T>) -> InitError {
        InitError::Memory
    }
}

impl From<AllocError> for InitError {
    ghost from_gives = { λ _ e. e ≡ Memory };

    fn from(_e: AllocError) -> InitError {
        InitError::Memory
    }
}
