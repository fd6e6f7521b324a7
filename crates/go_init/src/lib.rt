//! In which order packages and variables are initialized.
//!
//! A package is a number, its place among all in byte order of their paths; the row at it has the
//! numbers of those that it imports.
#![tactic(auto)]

mod components;
mod condensation;
mod edges;
pub mod error;
pub mod law;
mod nodes;
mod order;
pub mod packages;
mod queue;
pub mod variables;
