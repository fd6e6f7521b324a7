//! Well typed programs are never stuck.
#![tactic(auto)]

pub mod law;
