//! Reads types and expressions.
#![tactic(auto)]

mod brackets;
mod build;
pub mod expected;
pub mod expression;
mod kind;
mod leaf;
pub mod literal;
mod operators;
pub mod parser;
pub mod taking;
mod tree;
