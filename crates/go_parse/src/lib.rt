//! The parser: the file that a source text is, or where it stops being one.
#![tactic(auto)]

mod file;
mod function;
mod import;
mod marks;
mod parser;

pub use parser::{ParseError, parse, parse_in, parse_source};
