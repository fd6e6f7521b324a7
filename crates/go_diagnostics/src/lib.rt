//! What people are told of a fault: a sentence about what stands at its place, and its line with a caret.
#![tactic(auto)]

pub mod diagnosis;
mod excerpt;
pub mod literals;
pub mod message;
mod names;
mod nearest;
pub mod package;
pub mod pattern;
pub mod sentence;
pub mod table;
pub mod unknown;
