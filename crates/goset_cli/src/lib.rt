//! The command line: sessions that scripts ask for, and Go programs that are run at once.
#![tactic(auto)]

pub mod diagnostics;
pub mod ends;
pub mod failure;
pub mod journal;
pub mod keep;
pub mod keeping;
pub mod kept_files;
pub mod program;
pub mod reading;
pub mod run;
pub mod running;
pub mod script;
pub mod status;
pub mod words;
pub mod writing;

pub use ws_session::{Gate, Plain};
