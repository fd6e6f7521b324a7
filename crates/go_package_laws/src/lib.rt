//! What the checker accepts is well typed, and nothing of it is left out.
#![tactic(auto)]

pub mod complete;
pub mod edition;
pub mod law;
pub mod typed;
