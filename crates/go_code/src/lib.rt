//! Code for the machine: cells, instructions, objects and images, and what an image does.
//!
//! A package is compiled to an [`object::Object`], whose instructions refer to functions by
//! symbols; linked objects are an [`image::Image`], which refers to them by number. What an
//! image does that is given some ticks is `MachineMeaning` in `specs/Machine.antt`:
//!
//! - The start steps run in order. A setup takes no tick and is no open call. A function is
//!   called as by an instruction, from an empty stack, so it has no parameters. A start step's
//!   own `Return` ends the step, and its cells go nowhere. When each has returned, the program
//!   has ended.
//! - The cells of the package variables are the image's globals at the start.
//! - A frame has cells, the parameters first and 0 in the others as it opens, and a stack. A value
//!   has the cells of its parts side by side; a part is reached by its offset.
//! - A slice is one cell, which names the row that it is a part of (`specs/Rows.antt`). Rows have
//!   numbers in the order in which they come, and are given up with the run.
//! - An operator takes its operands from the stack and leaves what it gives, or it panics
//!   (`specs/Operators.antt`); integers wrap by their types.
//! - A call takes a tick, and so does each turn of a loop; without one the program is cut. A call
//!   then panics if it makes more open calls than the image's edition allows. A panic and a cut
//!   keep what was printed.
//! - Code that makes no sense is `BadCode`: an instruction that wants more cells than the stack
//!   has, or others; a number or an offset below -2^63 or above 2^64-1; a place outside the frame or the
//!   globals, or outside its row; a jump out of the code; a function that the image hasn't or that has more parameter
//!   cells than frame cells; the end of code without a `Return`; zero cells of package variables
//!   that are no such numbers, at the very start. An instruction that makes no sense is `BadCode`
//!   also where no tick is left or too many calls are open. What is never reached may make none.
//!
//! Each image that is given some ticks comes to an end, and to one alone ([`law`]): behind a
//! step there are fewer ticks, or as many and less code is left. How the machine follows each
//! instruction is in `proofs/Follows.antt` and `proofs/FollowsInside.antt`, as lemmas for crates
//! above.
#![tactic(auto)]

pub mod cell;
pub mod ending;
pub mod function;
pub mod image;
pub mod instr;
pub mod law;
pub mod object;
pub mod operator;
pub mod setup;
