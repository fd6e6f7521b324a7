//! Which names forms use that nothing in them declares, and which of them may be those of imports.
#![tactic(auto)]

mod declarations;
mod expressions;
pub mod file;
mod hidden;
pub mod statements;
