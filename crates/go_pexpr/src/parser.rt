//! What is left of a source's tokens.
ghost use Rattle.std.specs.Prelude.{◌≡◌};
ghost use Rattle.std.specs.List.{All};
ghost use Rattle.go_ast.specs.Tokens.{LiesIn};
ghost use Rattle.go_pexpr.specs.declared.parser.Refusal.TheVariants.{Memory};

use go_scan::token::Token;
use go_text::edition::Edition;
use std::alloc::{AllocError, AllocFailed, Global};
use thiserror::Error;

/// The greatest level of a node.
pub(crate) const LEVELS: u32 = 250;

/// What is wrong with a token.
#[derive(Clone, Copy, Debug, Drop, Error)]
pub enum Fault {
    /// It belongs to what is left out of Go.
    #[error("left out of the subset")]
    LeftOut,
    /// No token like it may come.
    #[error("unexpected")]
    Parse,
    /// A node that it brings is at too deep a level.
    #[error("too deep")]
    Deep,
}

/// Why a parser stops.
#[derive(Clone, Copy, Debug, Drop, Error)]
pub enum Refusal {
    /// Memory ran out.
    #[error("out of memory")]
    Memory,
    /// The next token is wrong, or the end is.
    #[error("the next token is {0}")]
    Wrong(Fault),
}

impl From<AllocError> for Refusal {
    ghost from_gives = { λ _ e. e ≡ Memory };

    fn from(_e: AllocError) -> Refusal {
        Refusal::Memory
    }
}

impl<T: Drop> From<AllocFailed<T>> for Refusal {
    ghost from_gives = { λ _ e. e ≡ Memory };

    fn from(_e: AllocFailed<T>) -> Refusal {
        Refusal::Memory
    }
}

/// A source's text, the edition in which it is read, and what is left of its tokens.
#[derive(Drop)]
pub struct Parser<'a> {
    pub alloc: Global,
    pub edition: Edition,
    pub text: &'a [u8],
    pub tokens: &'a [Token],
    ghost stands: { All (LiesIn text.now) tokens.now },
}
