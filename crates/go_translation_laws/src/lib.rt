//! The machine follows what typed packages mean: code of any form prints and ends as its source does.
#![tactic(auto)]

pub mod law;
