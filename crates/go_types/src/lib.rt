//! Types of Go as trees: which are identical, what may be assigned and converted, and how large
//! they are.
#![tactic(auto)]

pub mod law;
pub mod names;
pub mod relations;
pub mod sizes;
pub mod texts;
pub mod types;
pub mod writable;
