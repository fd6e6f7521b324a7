//! The checker of a package that imports others, which it knows by their summaries.
#![tactic(auto)]

pub mod check;
pub mod error;
pub mod files;
pub mod law;
mod names;
