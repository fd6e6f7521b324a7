//! The checker of packages: the typed package that files are, or its first fault.
#![tactic(auto)]

mod apart;
mod bodies;
mod check;
mod constants;
mod declarations;
mod declared;
pub mod error;
mod facts;
mod files;
mod functions;
pub mod import;
mod initializations;
mod inits;
pub mod law;
mod main_rule;
mod mutual;
mod names;
mod references;
pub mod typed;
mod types;
mod uses;
mod variables;
