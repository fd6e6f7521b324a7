//! Summaries: what the importers of a package know of it.
#![tactic(auto)]

mod collection;
pub mod error;
pub mod export;
pub mod field;
pub mod law;
pub mod summary;
mod text;
mod written;
