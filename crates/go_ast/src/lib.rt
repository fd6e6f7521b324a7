//! Syntax trees of source files.
#![tactic(auto)]

pub mod declaration;
pub mod expression;
pub mod file;
pub mod key;
pub mod law;
pub mod name;
pub mod parsed;
pub mod spelling;
pub mod statement;
