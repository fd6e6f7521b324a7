//! Source texts, places in them, and the faults that are reported at places.
#![tactic(auto)]

pub mod edition;
pub mod fault;
pub mod place;
pub mod source;
pub mod text;
