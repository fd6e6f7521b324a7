//! Programs from files: what becomes of them, and what is printed.
#![tactic(auto)]

pub mod answer;
pub mod run;
