//! What a plan is.
ghost use Rattle.std.specs.Prelude.{◌≡◌};
ghost use Rattle.ws_graph.specs.declared.planned.PlanError.TheVariants.{Memory};

use go_ast::parsed::Parsed;
use go_text::fault::Fault;
use std::alloc::AllocError;
use thiserror::Error;

/// Why there is no plan.
#[derive(Debug, Drop, Error)]
pub enum PlanError {
    /// No file of the directory belongs to a build.
    #[error("no package")]
    NoPackage,
    /// Memory ran out.
    #[error("out of memory")]
    Memory,
}

impl From<AllocError> for PlanError {
    ghost from_gives = { λ _ e. e ≡ Memory };

    fn from(_e: AllocError) -> PlanError {
        PlanError::Memory
    }
}

/// The files of a directory, parsed, or the fault that stands in the way.
#[derive(Drop)]
pub enum Node {
    Faulty(Fault),
    Sound(Vec<Parsed>),
}
