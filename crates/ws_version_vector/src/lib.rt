//! Version vectors: how much of what was first taken at each replica the others took.
//!
//! Each replica counts, for each replica, how many batches of those that were first taken there it
//! has. So what one has that another lacks is told by their counts alone (Parker et al., Detection
//! of mutual inconsistency in distributed systems, 1983).
#![tactic(auto)]

pub use family::Vectors;
pub use logs::{Key, Logs};
pub use vector::{News, VersionVector};

mod family;
mod logs;
mod vector;
