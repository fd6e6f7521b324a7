//! From checked packages to objects, whose code does what the packages mean.
#![tactic(auto)]

mod assignment;
mod code;
mod expression;
pub mod generate;
mod instr;
mod layout;
mod operator;
mod setup;
mod size;
mod source;
mod statement;
mod statement_temps;
mod temps;
mod zero;
