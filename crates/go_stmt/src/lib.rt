//! Statements and bodies of functions: what the rules say of them, and their typed trees.
#![tactic(auto)]

mod assignment;
mod constants;
mod context;
mod control;
pub mod declaration;
mod define;
mod env;
pub mod function;
pub mod hidden;
mod local;
mod names;
mod partly;
pub mod repeated;
mod simple;
mod statement;
mod switch;
mod terminating;
pub mod values;
mod variables;
