//! The text of a session: the commands that a script's lines ask for, and how each answer is spelled.
#![tactic(auto)]

pub mod commands;
pub mod lines;
pub mod printing;
pub mod refusal;
