//! Why a text isn't scanned.
ghost use Rattle.std.specs.Prelude.{◌≡◌};
ghost use Rattle.go_scan.specs.declared.fault.ScanError.TheVariants.{Memory};

use go_text::place::Place;
use std::alloc::AllocFailed;
use thiserror::Error;

/// What is wrong with a text that has no tokens.
#[derive(Clone, Copy, PartialEq, Eq, Debug)]
pub enum ScanFault {
    /// A literal or a comment is malformed, or a character begins no token.
    Malformed,
    /// A literal of a kind that is left out, or a build constraint.
    LeftOut,
}

/// Why a text's tokens aren't given.
#[derive(Debug, Drop, Error)]
pub enum ScanError {
    /// Memory ran out.
    #[error("out of memory")]
    Memory,
    /// The text is refused for a fault at a place.
    #[error("the text doesn't scan")]
    Fault(ScanFault, Place),
}

impl<T: Drop> From<AllocFailed<T>> for ScanError {
    ghost from_gives = { λ _ e. e ≡ Memory };

    fn from(_e: AllocFailed<T>) -> ScanError {
        ScanError::Memory
    }
}
