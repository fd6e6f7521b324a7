//! Cells as the machine keeps them, and what operators give of them.
#![tactic(auto)]

pub mod number;
pub mod operate;
pub mod part;
pub mod row;
pub mod slot;
pub mod small;
