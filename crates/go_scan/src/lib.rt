//! The scanner: which tokens a source text has.
#![tactic(auto)]

mod comments;
pub mod escapes;
pub mod fault;
mod front;
pub mod keyword;
pub mod law;
mod literals;
mod numbers;
pub mod punctuation;
pub mod scanner;
pub mod shape;
pub mod token;
pub mod values;
mod words;
