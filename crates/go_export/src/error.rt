//! Why a package has no summary.
ghost use Rattle.std.specs.Prelude.{◌≡◌};
ghost use Rattle.go_export.specs.declared.error.SummaryError.TheVariants.{Memory};

use std::alloc::AllocError;
use thiserror::Error;

/// Why a package has no summary.
#[derive(Debug, Drop, Error)]
pub enum SummaryError {
    /// Its text wouldn't tell what the package exports.
    #[error("no text tells what the package exports")]
    Unshown,
    /// Memory ran out.
    #[error("out of memory")]
    Memory,
}

impl From<AllocError> for SummaryError {
    ghost from_gives = { λ _ e. e ≡ Memory };

    fn from(_e: AllocError) -> SummaryError {
        SummaryError::Memory
    }
}
