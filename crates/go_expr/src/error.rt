//! Why an expression isn't given.
ghost use Rattle.std.specs.Prelude.{◌≡◌};
ghost use Rattle.go_expr.specs.Views.{LocatedAt};
ghost use Rattle.go_expr.specs.declared.error.ExprError.TheVariants.{Memory};
ghost use Rattle.go_expr.specs.declared.error.RuleError.TheVariants.{Memory as RuleMemory};

use go_text::fault::FaultKind;
use go_text::place::Place;
use std::alloc::{AllocError, AllocFailed};
use thiserror::Error;

/// Why an expression or a type isn't given.
#[derive(Debug, Drop, Error)]
pub enum ExprError {
    /// It has a fault, of which this is the first: where in the file, and of which kind.
    #[error("the expression has a fault")]
    Faulty(Place, FaultKind),
    /// Memory ran out.
    #[error("out of memory")]
    Memory,
}

impl<T: Drop> From<AllocFailed<T>> for ExprError {
    ghost from_gives = { λ _ e. e ≡ Memory };

    fn from(_e: AllocFailed<T>) -> ExprError {
        ExprError::Memory
    }
}

impl From<AllocError> for ExprError {
    ghost from_gives = { λ _ e. e ≡ Memory };

    fn from(_e: AllocError) -> ExprError {
        ExprError::Memory
    }
}

/// Why a rule gives nothing of a node, wherever it stands.
#[derive(Clone, Copy, Debug, Drop, Error)]
pub enum RuleError {
    /// The node breaks the rule; of several faults it is the one of the least number.
    #[error("the rule is broken")]
    Broken(FaultKind),
    /// Memory ran out.
    #[error("out of memory")]
    Memory,
}

impl RuleError {
    /// The same of a node at a place.
    pub fn at(self, place: Place) -> ExprError
        ensures { LocatedAt place self result }
    {
        match self {
            RuleError::Broken(kind) => ExprError::Faulty(place, kind),
            RuleError::Memory => ExprError::Memory,
        }
    }
}

impl<T: Drop> From<AllocFailed<T>> for RuleError {
    ghost from_gives = { λ _ e. e ≡ RuleMemory };

    fn from(_e: AllocFailed<T>) -> RuleError {
        RuleError::Memory
    }
}

impl From<AllocError> for RuleError {
    ghost from_gives = { λ _ e. e ≡ RuleMemory };

    fn from(_e: AllocError) -> RuleError {
        RuleError::Memory
    }
}
