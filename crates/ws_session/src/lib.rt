//! Sessions: the world that commands make, and the replicas that stand for it.
#![tactic(auto)]

pub mod clock;
mod counting;
pub mod law;
pub mod replicas;
mod taking;

pub use ws_replica::{Gate, Plain};
