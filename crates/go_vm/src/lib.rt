//! The virtual machine: runs images.
#![tactic(auto)]

mod ahead;
mod arithmetic;
mod calls;
mod decode;
mod flat;
mod frames;
mod inside;
mod line;
mod machine;
mod number;
mod on_rows;
mod place;
mod program;
mod row;
pub mod run;
mod slots;
mod tree;
mod value;
