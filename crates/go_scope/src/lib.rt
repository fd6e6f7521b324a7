//! Which declarations stand behind which, and what names stand for.
#![tactic(auto)]

mod block;
pub mod name_index;
pub mod names;
pub mod order;
pub mod scopes;
