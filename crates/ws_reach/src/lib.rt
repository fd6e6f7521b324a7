//! What is reached in a graph whose nodes are numbers, and which edges close a cycle.
//!
//! A graph is a list of rows: the row at a node has the nodes to which it has an edge.
#![tactic(auto)]

pub use cycles::closing_edges;
pub use walks::{begun, has_edge, node_at, walk};
pub use worklists::Worklist;

mod cycles;
mod search;
mod walks;
mod worklists;
