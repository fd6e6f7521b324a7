//! Exact constants: their values, what operators give, and when that is no constant.
#![tactic(auto)]

pub mod binary;
pub mod constant;
pub mod error;
pub mod kind;
pub mod number;
pub mod operator;
pub mod shift;
pub mod unary;
