//! What checked packages mean, over their typed trees. These are definitions alone.
#![tactic(auto)]

pub mod law;
