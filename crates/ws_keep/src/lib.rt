//! Kept workspaces: what is kept between runs, and where.
#![tactic(auto)]

pub mod changes;
pub mod law;
pub mod store;
