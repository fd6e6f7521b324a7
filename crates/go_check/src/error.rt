//! Why files are no typed package.
ghost use Rattle.std.specs.Prelude.{◌≡◌};
ghost use Rattle.go_check.specs.declared.error.CheckError.TheVariants.{Memory};

use go_text::fault::Fault;
use std::alloc::{AllocError, AllocFailed};
use thiserror::Error;

/// Why the files of a package give no typed package.
#[derive(Debug, Drop, Error)]
pub enum CheckError {
    /// The package has a fault, of which this is the first.
    #[error("the package has a fault")]
    Faulty(Fault),
    /// Memory ran out.
    #[error("out of memory")]
    Memory,
}

impl From<AllocError> for CheckError {
    ghost from_gives = { λ _ e. e ≡ Memory };

    fn from(_e: AllocError) -> CheckError {
        CheckError::Memory
    }
}

impl<T: Drop> From<AllocFailed<T>> for CheckError {
    ghost from_gives = { λ _ e. e ≡ Memory };

    fn from(_e: AllocFailed<T>) -> CheckError {
        CheckError::Memory
    }
}
