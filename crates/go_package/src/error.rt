//! Why the declarations of a package don't stand.
ghost use Rattle.std.specs.Prelude.{◌≡◌};
ghost use Rattle.go_package.specs.declared.error.DeclError.TheVariants.{Memory};

use go_text::fault::FaultKind;
use go_text::place::Place;
use std::alloc::{AllocError, AllocFailed};
use thiserror::Error;

/// Why the declarations of a package don't stand.
#[derive(Debug, Drop, Error)]
pub enum DeclError {
    /// One has a fault, of which this is the first: the number of its file, where in the file, and
    /// of which kind.
    #[error("a declaration has a fault")]
    Faulty(usize, Place, FaultKind),
    /// Memory ran out.
    #[error("out of memory")]
    Memory,
}

impl<T: Drop> From<AllocFailed<T>> for DeclError {
    ghost from_gives = { λ _ e. e ≡ Memory };

    fn from(_e: AllocFailed<T>) -> DeclError {
        DeclError::Memory
    }
}

impl From<AllocError> for DeclError {
    ghost from_gives = { λ _ e. e ≡ Memory };

    fn from(_e: AllocError) -> DeclError {
        DeclError::Memory
    }
}
