//! Typed trees: what a checked package holds, with names resolved, constants folded and types
//! written out. They have no places and no parentheses: a checked package has no faults to report.
#![tactic(auto)]

pub mod expression;
pub mod package;
pub mod statement;
