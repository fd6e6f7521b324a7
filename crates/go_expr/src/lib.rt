//! What expressions and types are: typed trees, constants exact, and types written out.
#![tactic(auto)]

mod call;
mod composite;
pub mod due;
pub mod error;
mod evaluation;
pub mod expression;
mod fields;
pub mod gather;
pub mod known;
pub mod law;
mod literal;
pub mod node;
pub mod operator;
pub mod scope;
pub mod selector;
pub mod slice;
mod type_expr;
mod universe;
pub mod value;
