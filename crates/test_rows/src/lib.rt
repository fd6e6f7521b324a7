//! Tables of questions, each with the answer that is wanted.
//!
//! A table is text, line by line:
//!
//! ```text
//! # A remark.
//! = KIND: what the rows below this heading are about
//! WHAT IS ASKED => WHAT IS WANTED
//! > What is asked
//! > in lines of its own,
//! => and what is wanted,
//! => line by line
//! ```
//!
//! What comes of a table is how many rows agree below each heading, behind those that don't and
//! behind lines that are no part of a row. A program whose answers need no thread has
//! `tell_table`; one that starts threads goes over `entries` itself.
#![tactic(auto)]

pub mod answers;
mod line;
pub mod report;
pub mod table;
