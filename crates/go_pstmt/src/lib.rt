//! Reads declarations and statements.
#![tactic(auto)]

mod clause;
pub mod declaration;
mod for_loop;
mod header;
mod jump;
pub mod list;
mod made;
mod marks;
mod simple;
pub mod statement;
