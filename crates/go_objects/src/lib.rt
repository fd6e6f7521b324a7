//! What a package declares, and what is known of it, in whatever order it is declared.
#![tactic(auto)]

pub mod declarations;
pub mod evaluation;
pub mod law;
pub mod listing;
pub mod object;
pub mod objects;
pub mod package;
mod signature;
pub mod table;
