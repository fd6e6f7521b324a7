//! The linker: makes an image of the objects of packages.
#![tactic(auto)]

mod code;
mod editions;
pub mod law;
pub mod link;
mod missing;
mod names;
mod places;
mod starts;
